//! A node's block: what is at one path of the tree, and its link of the index.
ghost use Rattle.std.specs.Prelude.{◌≡◌, ◌<◌, ◌≤◌, ◌↔◌, IsTrue, drop, length};
ghost use Rattle.cfdp_arena.specs.Blocks.{blank_block};
ghost use Rattle.cfdp_tree.specs.code.Block.{block_header, tagged};
ghost use Rattle.cfdp_tree.specs.code.Tree.{home_in};
ghost use Rattle.cfdp_tree.specs.code.NodeFields.{node_fields_of, node_name, octet_of_kind, kind_of_octet, plain_fields};

use crate::header::{BlockKind, HEADER_OCTETS, number_in, set_number, set_tag};
use crate::payload::put_part;
use cfdp_actions::Kind;
use cfdp_arena::{Block, BlockId};

/// Where the number of a node's directory is in its block.
const PARENT_AT: usize = 8;

/// Where the number of the first block of a file's octets is.
const FIRST_AT: usize = 10;

/// Where the number of the last block of a file's octets is.
const LAST_AT: usize = 12;

/// Where the size of a file begins.
const SIZE_AT: usize = 14;

/// Where a node's kind is.
const KIND_AT: usize = 18;

/// Where the number of its name's octets is.
const NAME_LENGTH_AT: usize = 19;

/// Where the number of the next node of its index head is.
const SAME_HEAD_AT: usize = 20;

/// Where the checksum of a file's octets begins.
const SUM_AT: usize = 26;

/// Where its name begins.
const NAME_AT: usize = 32;

/// Makes a blank block a node of this number, without octets, that is linked to no other node.
pub(crate) fn write_node(block: &mut Block, own: BlockId, parent: BlockId, kind: Kind, name: &[u8])
    requires blank { block.old ≡ blank_block }
    requires own { own < 65536 }
    requires parent { parent < 65536 }
    requires short { length name.now ≤ 96 }
    ensures header { block_header block.new ≡ tagged (block_header block.old) own 0 BlockKind.Node }
    ensures fields { node_fields_of block.new ≡ plain_fields parent kind name.now }
    ensures name { node_name block.new ≡ name.now }
    ensures whole { length block.new ≡ 128 }
{
    set_tag(block, own, 0, BlockKind::Node);
    set_parent(block, parent);
    set_kind(block, kind);
    set_name(block, name);
}

/// Whether the node has this name.
pub(crate) fn name_is(block: &Block, name: &[u8]) -> bool
    requires fits { (node_fields_of block.now).name_length ≤ 96 }
    requires short { length name.now ≤ 96 }
    ensures { IsTrue result ↔ (node_name block.now ≡ name.now) }
{
    usize::from(block[NAME_LENGTH_AT]) == name.len()
        && &block[NAME_AT..NAME_AT + name.len()] == name
}

/// The name of the node.
pub(crate) fn name_in(block: &Block) -> &[u8]
    requires whole { length block.now ≡ 128 }
    requires fits { (node_fields_of block.now).name_length ≤ 96 }
    ensures { result.now ≡ node_name block.now }
{
    let length = usize::from(block[NAME_LENGTH_AT]);
    &block[NAME_AT..NAME_AT + length]
}

/// Whether the node of this number is in this directory, `None` for the root.
pub(crate) fn home_is(block: &Block, own: BlockId, directory: &Option<BlockId>) -> bool
    ensures { IsTrue result ↔ (home_in own block.now ≡ directory.now) }
{
    let parent = parent_of(block);
    match directory {
        Some(directory) => parent != own && parent == *directory,
        None => parent == own,
    }
}

/// Gives the node a name of at most 96 octets. The rest of the block stays.
pub(crate) fn set_name(block: &mut Block, name: &[u8])
    requires short { length name.now ≤ 96 }
    ensures fields { node_fields_of block.new ≡ record (node_fields_of block.old) { name_length = length name.now } }
    ensures header { block_header block.new ≡ block_header block.old }
    ensures name { node_name block.new ≡ name.now }
    ensures whole { length block.new ≡ 128 }
{
    block[NAME_LENGTH_AT] = name.len() as u8;
    put_part(block, NAME_AT - HEADER_OCTETS, name);
}

/// Whether the node is a file or a directory.
pub(crate) fn kind_of(block: &Block) -> Kind
    ensures { result ≡ kind_of_octet (node_fields_of block.now).kind }
{
    if block[KIND_AT] == 0 {
        Kind::Directory
    } else {
        Kind::File
    }
}

/// Makes the node a file or a directory. The rest of the block stays.
pub(crate) fn set_kind(block: &mut Block, kind: Kind)
    ensures fields { node_fields_of block.new ≡ record (node_fields_of block.old) { kind = octet_of_kind kind } }
    ensures header { block_header block.new ≡ block_header block.old }
    ensures name { drop 32 block.new ≡ drop 32 block.old }
    ensures whole { length block.new ≡ 128 }
{
    block[KIND_AT] = match kind {
        Kind::Directory => 0,
        Kind::File => 1,
    };
}

/// The directory in which the node is; the node itself where that is the root.
pub(crate) fn parent_of(block: &Block) -> BlockId
    ensures value { result ≡ (node_fields_of block.now).parent }
    ensures small { result < 65536 }
{
    BlockId::of_number(number_in(block, PARENT_AT))
}

/// The directory in which the node of this number is, `None` for the root.
pub(crate) fn home_of(block: &Block, own: BlockId) -> Option<BlockId>
    ensures { result ≡ home_in own block.now }
{
    let parent = parent_of(block);
    if parent == own { None } else { Some(parent) }
}

/// Puts the node into another directory. The rest of the block stays.
pub(crate) fn set_parent(block: &mut Block, parent: BlockId)
    requires small { parent < 65536 }
    ensures fields { node_fields_of block.new ≡ record (node_fields_of block.old) { parent = parent } }
    ensures header { block_header block.new ≡ block_header block.old }
    ensures name { drop 32 block.new ≡ drop 32 block.old }
    ensures whole { length block.new ≡ 128 }
{
    set_number(block, PARENT_AT, parent.number());
}

/// The first block of a file's octets.
pub(crate) fn first_of(block: &Block) -> BlockId
    ensures value { result ≡ (node_fields_of block.now).first }
    ensures small { result < 65536 }
{
    BlockId::of_number(number_in(block, FIRST_AT))
}

/// Names the first block of a file's octets. The rest of the block stays.
pub(crate) fn set_first(block: &mut Block, first: BlockId)
    requires small { first < 65536 }
    ensures fields { node_fields_of block.new ≡ record (node_fields_of block.old) { first = first } }
    ensures header { block_header block.new ≡ block_header block.old }
    ensures name { drop 32 block.new ≡ drop 32 block.old }
    ensures whole { length block.new ≡ 128 }
{
    set_number(block, FIRST_AT, first.number());
}

/// The last block of a file's octets.
pub(crate) fn last_of(block: &Block) -> BlockId
    ensures value { result ≡ (node_fields_of block.now).last }
    ensures small { result < 65536 }
{
    BlockId::of_number(number_in(block, LAST_AT))
}

/// Names the last block of a file's octets. The rest of the block stays.
pub(crate) fn set_last(block: &mut Block, last: BlockId)
    requires small { last < 65536 }
    ensures fields { node_fields_of block.new ≡ record (node_fields_of block.old) { last = last } }
    ensures header { block_header block.new ≡ block_header block.old }
    ensures name { drop 32 block.new ≡ drop 32 block.old }
    ensures whole { length block.new ≡ 128 }
{
    set_number(block, LAST_AT, last.number());
}

/// The next node of the same index head, which means nothing where it is the last one.
pub(crate) fn same_head_of(block: &Block) -> BlockId
    ensures value { result ≡ (node_fields_of block.now).same_head }
    ensures small { result < 65536 }
{
    BlockId::of_number(number_in(block, SAME_HEAD_AT))
}

/// Names the next node of the same index head. The rest of the block stays.
pub(crate) fn set_same_head(block: &mut Block, same_head: BlockId)
    requires small { same_head < 65536 }
    ensures fields { node_fields_of block.new ≡ record (node_fields_of block.old) { same_head = same_head } }
    ensures header { block_header block.new ≡ block_header block.old }
    ensures name { drop 32 block.new ≡ drop 32 block.old }
    ensures whole { length block.new ≡ 128 }
{
    set_number(block, SAME_HEAD_AT, same_head.number());
}

/// The size of a file, in octets.
pub(crate) fn size_of(block: &Block) -> u32
    ensures { result ≡ (node_fields_of block.now).size }
{
    u32::from_le_bytes([
        block[SIZE_AT],
        block[SIZE_AT + 1],
        block[SIZE_AT + 2],
        block[SIZE_AT + 3],
    ])
}

/// The checksum of a file's octets.
pub(crate) fn sum_of(block: &Block) -> u32
    ensures { result ≡ (node_fields_of block.now).sum }
{
    u32::from_le_bytes([
        block[SUM_AT],
        block[SUM_AT + 1],
        block[SUM_AT + 2],
        block[SUM_AT + 3],
    ])
}

/// Writes the checksum of a file's octets. The rest of the block stays.
pub(crate) fn set_sum(block: &mut Block, sum: u32)
    ensures fields { node_fields_of block.new ≡ record (node_fields_of block.old) { sum = sum } }
    ensures header { block_header block.new ≡ block_header block.old }
    ensures name { drop 32 block.new ≡ drop 32 block.old }
    ensures whole { length block.new ≡ 128 }
{
    let [lowest, low, high, highest] = sum.to_le_bytes();
    block[SUM_AT] = lowest;
    block[SUM_AT + 1] = low;
    block[SUM_AT + 2] = high;
    block[SUM_AT + 3] = highest;
}

/// Writes the size of a file, in octets. The rest of the block stays.
pub(crate) fn set_size(block: &mut Block, size: u32)
    ensures fields { node_fields_of block.new ≡ record (node_fields_of block.old) { size = size } }
    ensures header { block_header block.new ≡ block_header block.old }
    ensures name { drop 32 block.new ≡ drop 32 block.old }
    ensures whole { length block.new ≡ 128 }
{
    let [lowest, low, high, highest] = size.to_le_bytes();
    block[SIZE_AT] = lowest;
    block[SIZE_AT + 1] = low;
    block[SIZE_AT + 2] = high;
    block[SIZE_AT + 3] = highest;
}
