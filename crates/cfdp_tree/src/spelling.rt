//! The paths of nodes.
ghost use Rattle.std.specs.Prelude.{◌≡◌, ◌+◌, ◌≤◌, ◌++◌, IfOk, take, drop, length};
ghost use Rattle.std.specs.List.{join_with_byte};
ghost use Rattle.cfdp_paths.specs.Paths.{joined};
ghost use Rattle.cfdp_tree.specs.code.Nodes.{nodes_in};
ghost use Rattle.cfdp_tree.specs.code.Tree.{IsTree, IsNode, path_of_node};

use crate::node_block::{home_of, name_in};
use cfdp_arena::{Arena, BlockId};
use cfdp_paths::{LONGEST_NAME, MOST_NAMES, Memory, Path};
use std::alloc::Global;

/// The most octets of the names of a path, with a slash before each.
pub(crate) const LONGEST_PATH: usize = MOST_NAMES * (LONGEST_NAME + 1);

/// What is between the names that [`Path::from_names`] takes.
const SEPARATOR: u8 = 0;

/// The names of a path in a buffer, which they fill up to its end.
#[derive(Clone, Copy)]
struct Spelled {
    /// Where they begin.
    start: usize,
    /// How many they are.
    depth: usize,
}

/// The path of a node, whose names are good and are not looked at again. The text is overwritten, and has room for at
/// least [`LONGEST_PATH`] octets. In time linear in the octets of the path.
///
/// # Errors
///
/// [`Memory`] when out of memory: one allocation of the length of the path.
pub(crate) fn path_of(
    alloc: Global,
    arena: &Arena,
    node: BlockId,
    text: &mut [u8],
) -> Result<Path, Memory>
    requires tree { IsTree (nodes_in arena.now) }
    requires node { IsNode (nodes_in arena.now) node }
    requires room { 776 ≤ length text.old }
    ensures { IfOk result (λ path. path ≡ path_of_node (nodes_in arena.now) node) }
{
    let names = write_names(arena, node, text, SEPARATOR);
    Path::from_names(alloc, &text[names.start..], names.depth)
}

/// Writes the names of a node's path, with slashes between them, to the end of the buffer. Returns where they begin.
/// The octets before that stay. In time linear in the octets.
pub(crate) fn write_path(arena: &Arena, node: BlockId, text: &mut [u8]) -> usize
    requires tree { IsTree (nodes_in arena.now) }
    requires node { IsNode (nodes_in arena.now) node }
    requires room { 776 ≤ length text.old }
    ensures length { length text.new ≡ length text.old }
    ensures within { result ≤ length text.new }
    ensures text { drop result text.new ≡ joined (path_of_node (nodes_in arena.now) node) }
    ensures before { take result text.new ≡ take result text.old }
{
    write_names(arena, node, text, b'/').start
}

/// Writes the names of a node's path, with a separator between each two of them, to the end of the buffer. The octets
/// before that stay. In time linear in the octets.
fn write_names(arena: &Arena, node: BlockId, text: &mut [u8], separator: u8) -> Spelled
    requires tree { IsTree (nodes_in arena.now) }
    requires node { IsNode (nodes_in arena.now) node }
    requires room { 776 ≤ length text.old }
    ensures length { length text.new ≡ length text.old }
    ensures within { result.start ≤ length text.new }
    ensures text { drop result.start text.new ≡ join_with_byte separator (path_of_node (nodes_in arena.now) node) }
    ensures before { take result.start text.new ≡ take result.start text.old }
    ensures depth { result.depth ≡ length (path_of_node (nodes_in arena.now) node) }
{
    let mut start = text.len();
    let mut depth = 1;
    let mut node = node;
    loop {
        let block = arena.bytes(node);
        start = put_before(text, start, name_in(block));
        match home_of(block, node) {
            Some(parent) => {
                start = put_before(text, start, &[separator]);
                depth += 1;
                node = parent;
            }
            None => return Spelled { start, depth },
        }
    }
}

/// Writes octets right before the offset `end`. Returns where they begin.
fn put_before(text: &mut [u8], end: usize, octets: &[u8]) -> usize
    requires within { end ≤ length text.old }
    requires room { length octets.now ≤ end }
    ensures start { result + length octets.now ≡ end }
    ensures text { drop result text.new ≡ octets.now ++ drop end text.old }
    ensures before { take result text.new ≡ take result text.old }
    ensures length { length text.new ≡ length text.old }
{
    let start = end - octets.len();
    text[start..end].copy_from_slice(octets);
    start
}
