//! Orders, and the links of their nodes.
ghost use Rattle.std.specs.Prelude.{◌≡◌, ◌↔◌, IsTrue};
ghost use Rattle.cfdp_order.specs.Orders.{no_links, left_of, right_of};

/// An order of some nodes: a balanced tree of them. It takes 4 octets.
#[derive(Clone, Copy, Debug, PartialEq, Eq)]
pub struct Order {
    /// The node at the top; of an empty order it means nothing.
    pub root: u16,
    /// How many levels the tree has: at most 22. An empty order has none.
    pub height: u8,
}

/// The links of a node: the orders of the nodes to its left and to its right. A height of 0 says that there are none.
/// It takes 6 octets.
#[derive(Clone, Copy, Debug, PartialEq, Eq)]
pub struct Links {
    /// The node at the top to the left.
    pub(crate) left: u16,
    /// The node at the top to the right.
    pub(crate) right: u16,
    /// How many levels there are to the left.
    pub(crate) left_height: u8,
    /// How many levels there are to the right.
    pub(crate) right_height: u8,
}

impl Order {
    /// An order of no nodes.
    pub fn empty() -> Order
        ensures { result ≡ record { root = 0; height = 0 } }
    {
        Order { root: 0, height: 0 }
    }

    /// Whether the order has no nodes.
    pub fn is_empty(&self) -> bool
        ensures { IsTrue result ↔ (self.now.height ≡ 0) }
    {
        self.height == 0
    }
}

impl Links {
    /// The links of a node that is in no order.
    pub fn none() -> Links
        ensures { result ≡ no_links }
    {
        Links {
            left: 0,
            right: 0,
            left_height: 0,
            right_height: 0,
        }
    }

    /// The links to two orders.
    pub(crate) fn to(left: Order, right: Order) -> Links
        ensures left { left_of result ≡ left }
        ensures right { right_of result ≡ right }
    {
        Links {
            left: left.root,
            right: right.root,
            left_height: left.height,
            right_height: right.height,
        }
    }

    /// The order to the left.
    pub fn left(&self) -> Order
        ensures { result ≡ left_of self.now }
    {
        Order {
            root: self.left,
            height: self.left_height,
        }
    }

    /// The order to the right.
    pub fn right(&self) -> Order
        ensures { result ≡ right_of self.now }
    {
        Order {
            root: self.right,
            height: self.right_height,
        }
    }
}
