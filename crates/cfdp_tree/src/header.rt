//! The header of a block: the octets before its payload.
ghost use Rattle.std.specs.Prelude.{◌≡◌, ◌+◌, ◌<◌, length};
ghost use Rattle.cfdp_tree.specs.code.Block.{block_number_at, with_number, block_header, payload, tagged, linked, kind_octet};

use cfdp_arena::{Block, BlockId};

/// Where the number of the next block is in a block.
const NEXT_AT: usize = 0;

/// Where the number of the owner is.
const OWNER_AT: usize = 2;

/// Where the number of blocks before it in its run is.
const RANK_AT: usize = 4;

/// Where the octet of its kind is.
const BLOCK_KIND_AT: usize = 6;

/// The octets of a header.
pub(crate) const HEADER_OCTETS: usize = 8;

/// The octets of a payload.
pub(crate) const PAYLOAD_OCTETS: usize = cfdp_actions::PAYLOAD_OCTETS as usize;

/// What a block is for.
#[derive(Clone, Copy, PartialEq, Eq)]
pub(crate) enum BlockKind {
    /// Octets of a file or of a staged list.
    Content,
    /// A file or a directory with its name.
    Node,
}

impl BlockKind {
    /// The octet that means it.
    fn octet(self) -> u8
        ensures { result ≡ kind_octet self }
    {
        match self {
            BlockKind::Content => 1,
            BlockKind::Node => 2,
        }
    }
}

/// The number that is in two octets of a block, the low one first.
pub(crate) fn number_in(block: &Block, offset: usize) -> u32
    requires inside { offset < 127 }
    ensures value { result ≡ block_number_at block.now offset }
    ensures small { result < 65536 }
{
    u32::from(u16::from_le_bytes([block[offset], block[offset + 1]]))
}

/// Puts a number into two octets of a block, the low one first.
pub(crate) fn set_number(block: &mut Block, offset: usize, number: u32)
    requires inside { offset < 127 }
    requires small { number < 65536 }
    ensures number { block.new ≡ with_number block.old offset number }
    ensures whole { length block.new ≡ 128 }
{
    let [low, high] = (number as u16).to_le_bytes();
    block[offset] = low;
    block[offset + 1] = high;
}

/// The block that a block names as the next one of its run.
pub(crate) fn next_of(block: &Block) -> BlockId
    ensures value { result ≡ (block_header block.now).next }
    ensures small { result < 65536 }
{
    BlockId::of_number(number_in(block, NEXT_AT))
}

/// Names the next block. The rest of the block stays.
pub(crate) fn set_next(block: &mut Block, next: BlockId)
    requires small { next < 65536 }
    ensures header { block_header block.new ≡ linked (block_header block.old) next }
    ensures payload { payload block.new ≡ payload block.old }
    ensures whole { length block.new ≡ 128 }
{
    set_number(block, NEXT_AT, next.number());
}

/// Writes the owner of the block, the number of blocks before it in the owner's run, and what it is for. The next block
/// and the payload stay.
pub(crate) fn set_tag(block: &mut Block, owner: BlockId, rank: u32, kind: BlockKind)
    requires owner { owner < 65536 }
    requires rank { rank < 65536 }
    ensures header { block_header block.new ≡ tagged (block_header block.old) owner rank kind }
    ensures payload { payload block.new ≡ payload block.old }
    ensures whole { length block.new ≡ 128 }
{
    set_number(block, OWNER_AT, owner.number());
    set_number(block, RANK_AT, rank);
    block[BLOCK_KIND_AT] = kind.octet();
}
