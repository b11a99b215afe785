//! What exists at a node of the tree or the root, and below it, in path order.
ghost use Rattle.std.specs.Prelude.{◌≡◌, ◌≤◌, ℕ, Some, All, IfOk, length, map};
ghost use Rattle.cfdp_tree.specs.code.Nodes.{nodes_in};
ghost use Rattle.cfdp_tree.specs.code.Tree.{IsTree, IsNode};
ghost use Rattle.cfdp_tree.specs.code.Directories.{path_at};
ghost use Rattle.cfdp_tree.specs.code.Orders.{IsInOrders};
ghost use Rattle.cfdp_tree.specs.code.Walk.{walk_from};
ghost use Rattle.cfdp_tree.specs.code.NodesBelow.{path_and_node};

use crate::orders::Orders;
use crate::spelling::{LONGEST_PATH, path_of};
use crate::walk::collect_nodes;
use cfdp_arena::{Arena, BlockId};
use cfdp_paths::{Memory, Path};
use std::alloc::Global;

/// A node whose path has `depth` names, or the root for `None`, and all that is below it, each with its path, in path
/// order; the root itself is left out. In time linear in the octets of the paths.
///
/// # Errors
///
/// [`Memory`] when out of memory: one allocation for each path, and some for the vectors.
pub(crate) fn nodes_below(
    alloc: Global,
    arena: &Arena,
    orders: &Orders,
    top: &Option<BlockId>,
    depth: usize,
) -> Result<Vec<(Path, BlockId)>, Memory>
    requires tree { IsTree (nodes_in arena.now) }
    requires ordered { IsInOrders (nodes_in arena.now) orders.now None }
    requires top { (d : ℕ) → top.now ≡ Some d → IsNode (nodes_in arena.now) d }
    requires depth { length (path_at (nodes_in arena.now) top.now) ≡ depth }
    ensures { IfOk result (λ found. found.items
        ≡ map (path_and_node (nodes_in arena.now)) (walk_from orders.now depth top.now)) }
{
    let mut nodes = Vec::new(alloc);
    if let Some(node) = top {
        nodes.push(*node)?;
    }
    collect_nodes(arena, orders, orders.of(top), depth + 1, &mut nodes)?;
    with_paths(alloc, arena, &nodes)
}

/// The nodes, each with its path. One buffer serves to spell all of them.
///
/// The paths are made from the last one to the first, and reversed after that. Made the other way, they would be
/// freed in the order of their addresses, and glibc's allocator would give pages back and ask for them again.
fn with_paths(
    alloc: Global,
    arena: &Arena,
    nodes: &[BlockId],
) -> Result<Vec<(Path, BlockId)>, Memory>
    requires tree { IsTree (nodes_in arena.now) }
    requires nodes { All (IsNode (nodes_in arena.now)) nodes.now }
    ensures { IfOk result (λ found. found.items ≡ map (path_and_node (nodes_in arena.now)) nodes.now) }
{
    let mut found = Vec::with_capacity(alloc, nodes.len())?;
    let mut text = [0; LONGEST_PATH];
    for made in 0..nodes.len() {
        let node = &nodes[nodes.len() - 1 - made];
        found.push((path_of(alloc, arena, *node, &mut text)?, *node))?;
    }
    found.reverse();
    Ok(found)
}
