//! The nodes of paths.
ghost use Rattle.std.specs.Prelude.{◌≡◌, ◌≤◌, ℕ, None, length, take, All, IfSome, IfNone};
ghost use Rattle.cfdp_paths.specs.Paths.{IsName};
ghost use Rattle.cfdp_tree.specs.code.Nodes.{nodes_in};
ghost use Rattle.cfdp_tree.specs.code.Tree.{IsTree, IsNode, path_of_node};
ghost use Rattle.cfdp_tree.specs.code.Index.{IsIndex};
ghost use Rattle.cfdp_tree.specs.code.Orders.{IsInOrders};

use crate::index::{ListHead, find};
use crate::orders::Orders;
use cfdp_arena::{Arena, BlockId};
use cfdp_paths::{Names, Path};

/// The node of the path of these names; none for no name. In expected time linear in their octets; at most 31 names are
/// compared with each, whatever the names are.
pub(crate) fn find_names(
    arena: &Arena,
    heads: &[ListHead],
    orders: &Orders,
    names: Names<'_>,
) -> Option<BlockId>
    requires tree { IsTree (nodes_in arena.now) }
    requires index { IsIndex (nodes_in arena.now) heads.now None }
    requires ordered { IsInOrders (nodes_in arena.now) orders.now None }
    requires names { All IsName names }
    ensures node { IfSome result (λ b. IsNode (nodes_in arena.now) b) }
    ensures path { IfSome result (λ b. path_of_node (nodes_in arena.now) b ≡ names.entry) }
    ensures none { IfNone result ((b : ℕ) → IsNode (nodes_in arena.now) b →
        path_of_node (nodes_in arena.now) b ≡ names.entry → ⊥) }
{
    let mut reached = None;
    for name in names {
        let node = find(arena, heads, orders, reached, name)?;
        reached = Some(node);
    }
    reached
}

/// The node of the path of the first `depth` names; none for no name. In expected time linear in their octets.
pub(crate) fn lookup(
    arena: &Arena,
    heads: &[ListHead],
    orders: &Orders,
    path: &Path,
    depth: usize,
) -> Option<BlockId>
    requires tree { IsTree (nodes_in arena.now) }
    requires index { IsIndex (nodes_in arena.now) heads.now None }
    requires ordered { IsInOrders (nodes_in arena.now) orders.now None }
    requires within { depth ≤ length path.now }
    ensures node { IfSome result (λ b. IsNode (nodes_in arena.now) b) }
    ensures path { IfSome result (λ b. path_of_node (nodes_in arena.now) b ≡ take depth path.now) }
    ensures none { IfNone result ((b : ℕ) → IsNode (nodes_in arena.now) b →
        path_of_node (nodes_in arena.now) b ≡ take depth path.now → ⊥) }
{
    find_names(arena, heads, orders, path.first_names(depth))
}

/// The node of a path. In expected time linear in its octets.
pub(crate) fn find_path(
    arena: &Arena,
    heads: &[ListHead],
    orders: &Orders,
    path: &Path,
) -> Option<BlockId>
    requires tree { IsTree (nodes_in arena.now) }
    requires index { IsIndex (nodes_in arena.now) heads.now None }
    requires ordered { IsInOrders (nodes_in arena.now) orders.now None }
    ensures node { IfSome result (λ b. IsNode (nodes_in arena.now) b) }
    ensures path { IfSome result (λ b. path_of_node (nodes_in arena.now) b ≡ path.now) }
    ensures none { IfNone result ((b : ℕ) → IsNode (nodes_in arena.now) b →
        path_of_node (nodes_in arena.now) b ≡ path.now → ⊥) }
    ensures some { 1 ≤ length path.now }
{
    find_names(arena, heads, orders, path.names())
}
