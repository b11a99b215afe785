//! The octets of a file come to its node.
ghost use Rattle.std.specs.Prelude.{◌≡◌, ◌≢◌, ℕ, ◌+◌, ◌<◌, ◌≤◌, ◌++◌, None, length, drop};
ghost use Rattle.cfdp_arena.specs.Arena.{octets_of, free_count, with_block};
ghost use Rattle.cfdp_actions.specs.Filestore.{blocks_of};
ghost use Rattle.cfdp_tree.specs.code.Block.{block_header};
ghost use Rattle.cfdp_tree.specs.code.NodeFields.{node_fields_of};
ghost use Rattle.cfdp_tree.specs.code.Nodes.{nodes_in};
ghost use Rattle.cfdp_tree.specs.code.Runs.{IsHeld, Apart, RunsStay};
ghost use Rattle.cfdp_tree.specs.code.Ways.{HasWays};
ghost use Rattle.cfdp_tree.specs.code.Contents.{IsFilled, contents_in};
ghost use Rattle.cfdp_tree.specs.code.Frames.{ChangesOnly};
ghost use Rattle.cfdp_tree.specs.code.Tree.{IsNode, IsTree, node_fields_at, name_at, path_of_node};
ghost use Rattle.cfdp_tree.specs.code.Index.{IsIndex};
ghost use Rattle.cfdp_tree.specs.code.Orders.{IsInOrders};
ghost use Rattle.cfdp_tree.specs.code.Kept.{contents_of_fields};
ghost use Rattle.cfdp_tree.specs.code.Files.{with_contents, with_run};

use crate::contents::{Contents, contents_of};
use crate::index::ListHead;
use crate::lookup::find_path;
use crate::node_block::{set_first, set_last, set_size, set_sum};
use crate::orders::Orders;
use crate::runs::Run;
use cfdp_actions::Kind;
use cfdp_arena::{Arena, Block, BlockId};
use cfdp_paths::Path;
use cfdp_ways::Way;

/// A file that was found: its node, and its octets.
#[derive(Clone, Copy)]
pub(crate) struct FoundFile {
    pub(crate) node: BlockId,
    pub(crate) contents: Contents,
}

/// The file at a path. In expected time linear in the octets of the path.
pub(crate) fn find_file(
    arena: &Arena,
    heads: &[ListHead],
    orders: &Orders,
    path: &Path,
) -> FoundFile
    requires tree { IsTree (nodes_in arena.now) }
    requires index { IsIndex (nodes_in arena.now) heads.now None }
    requires ordered { IsInOrders (nodes_in arena.now) orders.now None }
    requires there { (b : ℕ) × IsNode (nodes_in arena.now) b × (path_of_node (nodes_in arena.now) b ≡ path.now) }
    requires most { (b : ℕ) → IsNode (nodes_in arena.now) b → path_of_node (nodes_in arena.now) b ≡ path.now →
        (node_fields_at (nodes_in arena.now) b).size ≤ 7864320 }
    ensures node { IsNode (nodes_in arena.now) result.node }
    ensures path { path_of_node (nodes_in arena.now) result.node ≡ path.now }
    ensures contents { result.contents ≡ contents_of_fields Kind.File
        (node_fields_at (nodes_in arena.now) result.node) }
{
    let node = find_path(arena, heads, orders, path).unwrap();
    FoundFile {
        node,
        contents: contents_of(arena.bytes(node)),
    }
}

impl FoundFile {
    /// Puts the octets of a file, which may be the same one, after those of this one. In time linear in them.
    pub(crate) fn append(&self, arena: &mut Arena, ways: &mut [Way], source: &FoundFile) -> Contents
        requires filled { IsFilled arena.old self.now.contents }
        requires ways { HasWays arena.old ways.old self.now.contents.run }
        requires source { IsFilled arena.old source.now.contents }
        requires same { self.now.node ≡ source.now.node → self.now.contents ≡ source.now.contents }
        requires apart { self.now.node ≢ source.now.node → Apart self.now.contents.run source.now.contents.run }
        requires most { self.now.contents.size + source.now.contents.size ≤ 7864320 }
        requires room { blocks_of (self.now.contents.size + source.now.contents.size)
            ≤ free_count arena.old + blocks_of self.now.contents.size }
        ensures only { ChangesOnly arena.old arena.new ways.old ways.new self.now.contents result }
        ensures size { result.size ≡ self.now.contents.size + source.now.contents.size }
        ensures octets { contents_in arena.new result
            ≡ contents_in arena.old self.now.contents ++ contents_in arena.old source.now.contents }
        ensures taken { free_count arena.new + blocks_of (self.now.contents.size + source.now.contents.size)
            ≡ free_count arena.old + blocks_of self.now.contents.size }
    {
        let mut contents = self.contents;
        if self.node == source.node {
            contents.append_self(arena, ways);
        } else {
            contents.append(arena, ways, &source.contents);
        }
        contents
    }
}

/// Writes where a file's octets are, how many there are, and their checksum. In constant time.
pub(crate) fn set_contents(arena: &mut Arena, node: BlockId, contents: &Contents)
    requires node { IsNode (nodes_in arena.old) node }
    requires held { IsHeld arena.old contents.now.run }
    ensures nodes { nodes_in arena.new
        ≡ with_block (nodes_in arena.old) node (octets_of (nodes_in arena.new) node) }
    ensures fields { node_fields_at (nodes_in arena.new) node ≡ with_contents
        (node_fields_at (nodes_in arena.old) node) contents.now }
    ensures name { name_at (nodes_in arena.new) node ≡ name_at (nodes_in arena.old) node }
    ensures whole { length (octets_of (nodes_in arena.new) node) ≡ 128 }
    ensures runs { RunsStay arena.old arena.new }
    ensures free { free_count arena.new ≡ free_count arena.old }
    ensures capacity { length arena.new ≡ length arena.old }
{
    // Read for its contract alone: an arena has 1 to 65,536 blocks.
    let _free = arena.free();
    let block = arena.bytes_mut(node);
    set_run(block, &contents.run);
    set_size(block, contents.size);
    set_sum(block, contents.sum);
}

/// Names the first and the last block of a file's octets, where there are some. The rest of the block stays.
fn set_run(block: &mut Block, run: &Run)
    requires first { 0 < run.now.count → run.now.first < 65536 }
    requires last { 0 < run.now.count → run.now.last < 65536 }
    ensures fields { node_fields_of block.new ≡ with_run (node_fields_of block.old) run.now }
    ensures header { block_header block.new ≡ block_header block.old }
    ensures name { drop 32 block.new ≡ drop 32 block.old }
{
    if run.count > 0 {
        set_first(block, run.first);
        set_last(block, run.last);
    }
}
