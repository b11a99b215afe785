//! The link of a free block: the number of the next free one, in the block's first two octets, the low octet first.
ghost use Rattle.std.specs.Prelude.{◌≡◌, ◌<◌};
ghost use Rattle.cfdp_arena.specs.FreeList.{link};
ghost use Rattle.cfdp_arena.specs.Blocks.{blank_block};

use crate::{BLOCK_OCTETS, Block};

/// Returns the number of the free block after this one.
pub(crate) fn next_free(block: &Block) -> u32
    ensures value { result ≡ link block.now }
    ensures small { result < 65536 }
{
    u32::from(u16::from_le_bytes([block[0], block[1]]))
}

/// Links a free block to the free block `next`.
pub(crate) fn link_to(block: &mut Block, next: u32)
    requires small { next < 65536 }
    ensures linked { link block.new ≡ next }
{
    let [low, high] = (next as u16).to_le_bytes();
    block[0] = low;
    block[1] = high;
}

/// Sets every octet of a block to 0.
pub(crate) fn blank(block: &mut Block)
    ensures zeros { block.new ≡ blank_block }
{
    *block = [0; BLOCK_OCTETS];
}
