//! What is true of orders, whatever the code does. Each function does nothing: its contract is a law over the
//! definitions of `specs/`.
ghost use Rattle.cfdp_order.specs.Laws.{FewLevels, NoLevels, NodesOnce, NodesWithin, OtherOrdersStay, SortedStays, SplitsOfSorted};

/// An order of no levels has no nodes.
pub fn no_levels()
    ensures { NoLevels }
{}

/// The least nodes that an order with some levels has: 0 for none, 1 for one, and for more levels 1 more than for one
/// level less and for two levels less together. So an order of at most 65,536 nodes has at most 22 levels.
pub fn few_levels()
    ensures { FewLevels }
{}

/// Each node of an order has links, and an order has no more nodes than there are links.
pub fn nodes_within()
    ensures { NodesWithin }
{}

/// No two nodes of an order are equal.
pub fn nodes_once()
    ensures { NodesOnce }
{}

/// An order stays while the links of its nodes stay.
pub fn other_orders_stay()
    ensures { OtherOrdersStay }
{}

/// A list in which every node less than the key comes first can be split at the first that is not less. A list in which
/// every greater node comes last can be split at the first greater one.
pub fn splits_of_sorted()
    ensures { SplitsOfSorted }
{}

/// A list whose nodes rise by a comparison of two nodes still does with one node more between the lesser and the
/// greater ones, and with one node less.
pub fn sorted_stays()
    ensures { SortedStays }
{}
