//! The payload of a block: the octets after its header.
ghost use Rattle.std.specs.Prelude.{◌≡◌, ◌+◌, ◌≤◌, length, slice_range};
ghost use Rattle.cfdp_arena.specs.Blocks.{with_part};
ghost use Rattle.cfdp_tree.specs.code.Block.{payload};

use crate::header::{HEADER_OCTETS, PAYLOAD_OCTETS};
use cfdp_arena::Block;

/// Puts octets into a block's payload from offset `at` in it on. The rest of the block stays.
pub(crate) fn put_part(block: &mut Block, at: usize, part: &[u8])
    requires within { at + length part.now ≤ 120 }
    ensures { block.new ≡ with_part block.old at part.now }
{
    if part.len() == PAYLOAD_OCTETS {
        // The compiler knows the length of a whole payload, and copies it by vectors.
        block[HEADER_OCTETS..].copy_from_slice(part);
        return;
    }
    let start = HEADER_OCTETS + at;
    block[start..start + part.len()].copy_from_slice(part);
}

/// Octets of a block's payload from offset `at` in it on.
pub(crate) fn part_of(block: &Block, at: usize, len: usize) -> &[u8]
    requires within { at + len ≤ 120 }
    ensures { result.now ≡ slice_range (payload block.now) at (at + len) }
{
    let start = HEADER_OCTETS + at;
    &block[start..start + len]
}

/// Fills the buffer with octets of a block's payload from offset `at` in it on.
pub(crate) fn get_part(block: &Block, at: usize, buffer: &mut [u8])
    requires within { at + length buffer.old ≤ 120 }
    ensures { buffer.new ≡ slice_range (payload block.now) at (at + length buffer.old) }
{
    if buffer.len() == PAYLOAD_OCTETS {
        // The compiler knows the length of a whole payload, and copies it by vectors.
        buffer.copy_from_slice(&block[HEADER_OCTETS..]);
        return;
    }
    buffer.copy_from_slice(part_of(block, at, buffer.len()));
}
