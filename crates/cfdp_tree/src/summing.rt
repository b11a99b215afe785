//! What the octets of a run add to a checksum.
ghost use Rattle.std.specs.Prelude.{◌≡◌, ◌+◌, ◌*◌, ◌/◌, ◌<◌, ◌≤◌, slice_range};
ghost use Rattle.cfdp_checksum.specs.Checksum.{checksum_at};
ghost use Rattle.cfdp_tree.specs.code.Block.{payload};
ghost use Rattle.cfdp_tree.specs.code.Runs.{IsHeld, IsAt, octets_of_run};

use crate::header::{HEADER_OCTETS, PAYLOAD_OCTETS};
use crate::payload::part_of;
use crate::runs::Run;
use cfdp_arena::{Arena, Block};
use cfdp_checksum::{modular_checksum, modular_checksum_at};
use cfdp_ways::Cursor;

/// What octets of a block's payload, from offset `at` in it on, add to the checksum of a file in which they begin at
/// the offset `offset`. In time linear in the octets.
fn part_sum(block: &Block, at: usize, len: usize, offset: usize) -> u32
    requires within { at + len ≤ 120 }
    ensures { result ≡ checksum_at offset (slice_range (payload block.now) at (at + len)) }
{
    if len == PAYLOAD_OCTETS && offset % 4 == 0 {
        // The compiler knows the length of a whole payload, and sums it by vectors.
        return modular_checksum(&block[HEADER_OCTETS..]);
    }
    modular_checksum_at(offset, part_of(block, at, len))
}

impl Run {
    /// What `len` octets of one block's payload, from offset `at` in it on, add to the checksum of a file in which
    /// they begin at the offset `offset`. In time linear in the octets.
    fn sum_in(&self, arena: &Arena, cursor: &Cursor, at: usize, len: usize, offset: usize) -> u32
        requires held { IsHeld arena.now self.now }
        requires cursor { IsAt arena.now self.now cursor.now }
        requires within { cursor.now.index < self.now.count }
        requires fits { at + len ≤ 120 }
        ensures { let start = 120 * cursor.now.index + at in
            result ≡ checksum_at offset (slice_range (octets_of_run arena.now self.now) start (start + len)) }
    {
        part_sum(arena.bytes(cursor.block), at, len, offset)
    }

    /// What `len` octets of the run from the offset `at` on add to the checksum of a file in which they begin at the
    /// offset `offset`. The block of the first of them is handed in. In time linear in the octets.
    pub(crate) fn sum_of(
        &self,
        arena: &Arena,
        first: Cursor,
        at: usize,
        len: usize,
        offset: u32,
    ) -> u32
        requires held { IsHeld arena.now self.now }
        requires first { IsAt arena.now self.now first }
        requires index { first.index ≡ at / 120 }
        requires range { at + len ≤ 120 * self.now.count }
        ensures { result ≡ checksum_at offset (slice_range (octets_of_run arena.now self.now) at (at + len)) }
    {
        let mut block_offset = at % PAYLOAD_OCTETS;
        let mut offset = offset as usize;
        let mut left = len;
        let mut cursor = first;
        let mut sum = 0u32;
        'parts: while left > 0 {
            let count = left.min(PAYLOAD_OCTETS - block_offset);
            sum = sum.wrapping_add(self.sum_in(arena, &cursor, block_offset, count, offset));
            cursor = self.after(arena, &cursor);
            offset += count;
            left -= count;
            block_offset = 0;
        }
        sum
    }
}
