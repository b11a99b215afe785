//! Makes a node of the tree, renames it and gives its block back.
ghost use Rattle.std.specs.Prelude.{◌≡◌, ◌≢◌, ◌+◌, ◌<◌, ◌≤◌, Some, None, IfSome, length, unwrap_or};
ghost use Rattle.cfdp_arena.specs.Arena.{octets_at, octets_of, free_count, with_block, without_block};
ghost use Rattle.cfdp_tree.specs.code.NodeFields.{plain_fields};
ghost use Rattle.cfdp_tree.specs.code.Nodes.{nodes_in};
ghost use Rattle.cfdp_tree.specs.code.Runs.{RunsStay};
ghost use Rattle.cfdp_tree.specs.code.Tree.{IsNode, node_fields_at, name_at, home};

use crate::node_block::{set_name, set_parent, write_node};
use crate::runs::take_block;
use cfdp_actions::Kind;
use cfdp_arena::{Arena, BlockId};

/// Makes a node in a directory, `None` for the root, under a name of at most 96 octets. It has no octets, and
/// is linked to no other node. In constant time.
pub(crate) fn create_node(
    arena: &mut Arena,
    directory: Option<BlockId>,
    kind: Kind,
    name: &[u8],
) -> BlockId
    requires room { 0 < free_count arena.old }
    requires directory { IfSome directory (λ d. IsNode (nodes_in arena.old) d) }
    requires short { length name.now ≤ 96 }
    ensures fresh { octets_at arena.old result ≡ None }
    ensures within { result < length arena.old }
    ensures nodes { nodes_in arena.new ≡ with_block (nodes_in arena.old) result
        (octets_of (nodes_in arena.new) result) }
    ensures fields { node_fields_at (nodes_in arena.new) result
        ≡ plain_fields (unwrap_or directory result) kind name.now }
    ensures home { home (nodes_in arena.new) result ≡ directory }
    ensures name { name_at (nodes_in arena.new) result ≡ name.now }
    ensures whole { length (octets_of (nodes_in arena.new) result) ≡ 128 }
    ensures runs { RunsStay arena.old arena.new }
    ensures taken { free_count arena.new + 1 ≡ free_count arena.old }
    ensures capacity { length arena.new ≡ length arena.old }
{
    let node = take_block(arena);
    let parent = directory.unwrap_or(node);
    write_node(arena.bytes_mut(node), node, parent, kind, name);
    node
}

/// Puts a node into a directory, `None` for the root, under a name of at most 96 octets. In constant time.
pub(crate) fn rename_node(arena: &mut Arena, node: BlockId, directory: Option<BlockId>, name: &[u8])
    requires node { IsNode (nodes_in arena.old) node }
    requires directory { IfSome directory (λ d. IsNode (nodes_in arena.old) d) }
    requires apart { directory ≢ Some node }
    requires short { length name.now ≤ 96 }
    ensures nodes { nodes_in arena.new
        ≡ with_block (nodes_in arena.old) node (octets_of (nodes_in arena.new) node) }
    ensures fields { node_fields_at (nodes_in arena.new) node
        ≡ record (node_fields_at (nodes_in arena.old) node) {
          parent = unwrap_or directory node;
          name_length = length name.now;
        } }
    ensures home { home (nodes_in arena.new) node ≡ directory }
    ensures name { name_at (nodes_in arena.new) node ≡ name.now }
    ensures whole { length (octets_of (nodes_in arena.new) node) ≡ 128 }
    ensures runs { RunsStay arena.old arena.new }
    ensures free { free_count arena.new ≡ free_count arena.old }
    ensures capacity { length arena.new ≡ length arena.old }
{
    // Read for its contract alone: an arena has 1 to 65,536 blocks.
    let _free = arena.free();
    let parent = directory.unwrap_or(node);
    let block = arena.bytes_mut(node);
    set_parent(block, parent);
    set_name(block, name);
}

/// Gives the block of a node back. In constant time.
pub(crate) fn delete_node(arena: &mut Arena, node: BlockId)
    requires node { IsNode (nodes_in arena.old) node }
    ensures nodes { nodes_in arena.new ≡ without_block (nodes_in arena.old) node }
    ensures runs { RunsStay arena.old arena.new }
    ensures freed { free_count arena.new ≡ free_count arena.old + 1 }
    ensures capacity { length arena.new ≡ length arena.old }
{
    arena.give(node);
}
