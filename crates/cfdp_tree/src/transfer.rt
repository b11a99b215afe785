//! Octets into a run and out of it, by slices of a block.
ghost use Rattle.std.specs.Prelude.{◌≡◌, ℕ, ◌+◌, ◌*◌, ◌/◌, ◌<◌, ◌≤◌, length, slice_range};
ghost use Rattle.cfdp_actions.specs.Store.{overwritten};
ghost use Rattle.cfdp_tree.specs.code.Frames.{WritesOnly};
ghost use Rattle.cfdp_tree.specs.code.Runs.{IsHeld, IsAt, octets_of_run};
ghost use Rattle.cfdp_tree.specs.code.Ways.{HasWays};

use crate::header::PAYLOAD_OCTETS;
use crate::payload::{get_part, put_part};
use crate::runs::Run;
use cfdp_arena::Arena;
use cfdp_ways::{Cursor, Way};

impl Run {
    /// Puts octets into the payload of one block, from offset `at` in it on. In time linear in the octets.
    pub(crate) fn put_in(&self, arena: &mut Arena, cursor: &Cursor, at: usize, part: &[u8])
        requires held { IsHeld arena.old self.now }
        requires cursor { IsAt arena.old self.now cursor.now }
        requires within { cursor.now.index < self.now.count }
        requires fits { at + length part.now ≤ 120 }
        ensures only { WritesOnly arena.old arena.new self.now }
        ensures octets { octets_of_run arena.new self.now
            ≡ overwritten (octets_of_run arena.old self.now) (120 * cursor.now.index + at) part.now }
    {
        put_part(arena.bytes_mut(cursor.block), at, part);
    }

    /// Fills the buffer with octets of the payload of one block, from offset `at` in it on. In time linear in the
    /// octets.
    pub(crate) fn get_in(&self, arena: &Arena, cursor: &Cursor, at: usize, buffer: &mut [u8])
        requires held { IsHeld arena.now self.now }
        requires cursor { IsAt arena.now self.now cursor.now }
        requires within { cursor.now.index < self.now.count }
        requires fits { at + length buffer.old ≤ 120 }
        ensures { buffer.new
            ≡ slice_range (octets_of_run arena.now self.now) (120 * cursor.now.index + at) (120 * cursor.now.index + at
            + length buffer.old) }
    {
        get_part(arena.bytes(cursor.block), at, buffer);
    }

    /// Overwrites the octets of the run from the offset `at` on, and returns the position of the last block that was
    /// written, from which the octets after them are found at once. The block of the first octet is handed in. In time
    /// linear in the octets.
    pub(crate) fn write(&self, arena: &mut Arena, first: Cursor, at: usize, octets: &[u8]) -> Cursor
        requires held { IsHeld arena.old self.now }
        requires first { IsAt arena.old self.now first }
        requires index { first.index ≡ at / 120 }
        requires range { at + length octets.now ≤ 120 * self.now.count }
        ensures only { WritesOnly arena.old arena.new self.now }
        ensures octets { octets_of_run arena.new self.now ≡ overwritten
            (octets_of_run arena.old self.now) at octets.now }
        ensures cursor { IsAt arena.new self.now result }
    {
        let mut block_offset = at % PAYLOAD_OCTETS;
        let mut rest = octets;
        let mut cursor = first;
        let mut last = first;
        'parts: while !rest.is_empty() {
            let (part, more) = rest.split_at(rest.len().min(PAYLOAD_OCTETS - block_offset));
            self.put_in(arena, &cursor, block_offset, part);
            last = cursor;
            cursor = self.after(arena, &cursor);
            rest = more;
            block_offset = 0;
        }
        last
    }

    /// Fills the buffer with the octets of the run from the offset `at` on, and returns the position of the last block
    /// that was read. In time linear in the octets; the first block is found as by `find`.
    pub(crate) fn read(
        &self,
        arena: &Arena,
        ways: &[Way],
        from: Cursor,
        at: usize,
        buffer: &mut [u8],
    ) -> Cursor
        requires held { IsHeld arena.now self.now }
        requires ways { HasWays arena.now ways.now self.now }
        requires from { IsAt arena.now self.now from }
        requires range { at + length buffer.old ≤ 120 * self.now.count }
        ensures octets { buffer.new ≡ slice_range (octets_of_run arena.now self.now) at (at + length buffer.old) }
        ensures cursor { IsAt arena.now self.now result }
    {
        let mut block_offset = at % PAYLOAD_OCTETS;
        let mut filled = 0;
        let mut cursor = self.find(arena, ways, from, (at / PAYLOAD_OCTETS) as u32);
        let mut last = cursor;
        'parts: while filled < buffer.len() {
            let stop = buffer.len().min(filled + (PAYLOAD_OCTETS - block_offset));
            self.get_in(arena, &cursor, block_offset, &mut buffer[filled..stop]);
            last = cursor;
            cursor = self.after(arena, &cursor);
            filled = stop;
            block_offset = 0;
        }
        last
    }
}
