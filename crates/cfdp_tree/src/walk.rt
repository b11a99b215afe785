//! Walks over what is below a directory or the root, in path order.
ghost use Rattle.std.specs.Prelude.{◌≡◌, ◌≤◌, ◌++◌, OnOk};
ghost use Rattle.cfdp_order.specs.Orders.{nodes, IsOrder};
ghost use Rattle.cfdp_tree.specs.code.Nodes.{nodes_in};
ghost use Rattle.cfdp_tree.specs.code.Tree.{IsTree};
ghost use Rattle.cfdp_tree.specs.code.Orders.{IsInOrders};
ghost use Rattle.cfdp_tree.specs.code.Walk.{walks_at, most_names_in, AreAtDepth};

use crate::orders::Orders;
use cfdp_arena::{Arena, BlockId};
use cfdp_order::Order;
use cfdp_paths::{MOST_NAMES, Memory};

/// The most names of a path at or below the nodes of an order, whose own paths have `depth` names; 0 if the order is
/// empty. Takes no memory, and reads no block. In time linear in the nodes, by at most 23 calls within one another for
/// each directory on the way down. It ends at a path of 8 names.
pub(crate) fn deepest_in(arena: &Arena, orders: &Orders, order: Order, depth: usize) -> usize
    requires tree { IsTree (nodes_in arena.now) }
    requires ordered { IsInOrders (nodes_in arena.now) orders.now None }
    requires order { IsOrder orders.now.links.items order }
    requires deep { AreAtDepth (nodes_in arena.now) depth (nodes orders.now.links.items order) }
    ensures value { result ≡ most_names_in (nodes_in arena.now)
        (walks_at orders.now depth (nodes orders.now.links.items order)) }
    ensures within { result ≤ 8 }
{
    // Read for its contract alone: an arena has 1 to 65,536 blocks.
    let _free = arena.free();
    if order.is_empty() {
        return 0;
    }
    let around = orders.links[usize::from(order.root)];
    let entries = orders.directories[usize::from(order.root)];
    let below = if entries.is_empty() {
        0
    } else {
        deepest_in(arena, orders, entries, depth + 1)
    };
    let here = depth.max(below);
    if here == MOST_NAMES {
        return here;
    }
    let left = around.left();
    let before = if left.is_empty() {
        0
    } else {
        deepest_in(arena, orders, left, depth)
    };
    let sofar = here.max(before);
    if sofar == MOST_NAMES {
        return sofar;
    }
    let right = around.right();
    let after = if right.is_empty() {
        0
    } else {
        deepest_in(arena, orders, right, depth)
    };
    sofar.max(after)
}

/// Appends the nodes of an order, whose paths have `depth` names, and after each what is below it: so all are in path
/// order. In time linear in the nodes, by at most 23 calls within one another for each directory on the way down.
///
/// # Errors
///
/// [`Memory`] when out of memory.
pub(crate) fn collect_nodes(
    arena: &Arena,
    orders: &Orders,
    order: Order,
    depth: usize,
    found: &mut Vec<BlockId>,
) -> Result<(), Memory>
    requires tree { IsTree (nodes_in arena.now) }
    requires ordered { IsInOrders (nodes_in arena.now) orders.now None }
    requires order { IsOrder orders.now.links.items order }
    requires deep { AreAtDepth (nodes_in arena.now) depth (nodes orders.now.links.items order) }
    ensures { OnOk result (found.new.items ≡ found.old.items
        ++ walks_at orders.now depth (nodes orders.now.links.items order)) }
{
    // Read for its contract alone: an arena has 1 to 65,536 blocks.
    let _free = arena.free();
    if order.is_empty() {
        return Ok(());
    }
    let around = orders.links[usize::from(order.root)];
    let entries = orders.directories[usize::from(order.root)];
    collect_nodes(arena, orders, around.left(), depth, found)?;
    found.push(BlockId::of_number(u32::from(order.root)))?;
    collect_nodes(arena, orders, entries, depth + 1, found)?;
    collect_nodes(arena, orders, around.right(), depth, found)
}
