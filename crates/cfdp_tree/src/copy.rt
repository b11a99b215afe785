//! Octets from run to run, by slices of a block.
ghost use Rattle.std.specs.Prelude.{◌≡◌, ℕ, ◌+◌, ◌*◌, ◌<◌, ◌≤◌, take, length, slice_range};
ghost use Rattle.cfdp_actions.specs.Store.{overwritten};
ghost use Rattle.cfdp_tree.specs.code.Frames.{WritesOnly};
ghost use Rattle.cfdp_tree.specs.code.Runs.{IsHeld, IsAt, KeepsFront, octets_of_run};

use crate::header::PAYLOAD_OCTETS;
use crate::runs::Run;
use cfdp_arena::Arena;
use cfdp_ways::Cursor;

/// An octet of a run: the index of its block, and its offset in the block's payload.
#[derive(Clone, Copy)]
pub(crate) struct Spot {
    pub(crate) cursor: Cursor,
    pub(crate) at: usize,
}

impl Run {
    /// Puts `len` octets of one block of a run, which may be this one, into one block of this run. In time linear in
    /// the octets.
    fn copy_in(&self, arena: &mut Arena, to: &Spot, source: &Run, from: &Spot, len: usize)
        requires held { IsHeld arena.old self.now }
        requires source { IsHeld arena.old source.now }
        requires to { IsAt arena.old self.now to.now.cursor }
        requires to_within { to.now.cursor.index < self.now.count }
        requires to_fits { to.now.at + len ≤ 120 }
        requires from { IsAt arena.old source.now from.now.cursor }
        requires from_within { from.now.cursor.index < source.now.count }
        requires from_fits { from.now.at + len ≤ 120 }
        ensures only { WritesOnly arena.old arena.new self.now }
        ensures octets { let start = 120 * from.now.cursor.index + from.now.at in
            octets_of_run arena.new self.now ≡ overwritten (octets_of_run arena.old self.now)
            (120 * to.now.cursor.index + to.now.at) (slice_range (octets_of_run arena.old source.now) start
            (start + len)) }
    {
        arena.copy_payload(from.cursor.block, from.at, to.cursor.block, to.at, len);
    }

    /// Puts the first `count` octets of one block of another run, or of an earlier block of this one, into this run,
    /// from the octet `to` on: into its block, and where they reach past its end into the next block. In time linear in
    /// the octets.
    fn copy_block(&self, arena: &mut Arena, to: &Spot, source: &Run, from: &Cursor, count: usize)
        requires held { IsHeld arena.old self.now }
        requires source { IsHeld arena.old source.now }
        requires source_stays { KeepsFront self.now (120 * to.now.cursor.index + to.now.at)
            source.now (120 * from.now.index + count) }
        requires to { IsAt arena.old self.now to.now.cursor }
        requires to_at { to.now.at < 120 }
        requires to_within { 120 * to.now.cursor.index + to.now.at + count ≤ 120 * self.now.count }
        requires from { IsAt arena.old source.now from.now }
        requires from_within { from.now.index < source.now.count }
        requires few { count ≤ 120 }
        requires some { 0 < count }
        ensures only { WritesOnly arena.old arena.new self.now }
        ensures octets { let start = 120 * from.now.index in
            octets_of_run arena.new self.now ≡ overwritten (octets_of_run arena.old self.now)
            (120 * to.now.cursor.index + to.now.at) (slice_range (octets_of_run arena.old source.now) start (start
            + count)) }
    {
        let room = PAYLOAD_OCTETS - to.at;
        let whole = Spot {
            cursor: *from,
            at: 0,
        };
        if count <= room {
            self.copy_in(arena, to, source, &whole, count);
            return;
        }
        self.copy_in(arena, to, source, &whole, room);
        let rest = Spot {
            cursor: *from,
            at: room,
        };
        let next = Spot {
            cursor: self.after(arena, &to.cursor),
            at: 0,
        };
        self.copy_in(arena, &next, source, &rest, count - room);
    }

    /// Puts the first `len` octets of another run, or of this one where they end at `at` or before, over those of this
    /// run from the offset `at` on. In time linear in the octets, and in the steps from the cursor `to` to the first
    /// block that is written.
    pub(crate) fn copy(&self, arena: &mut Arena, to: Cursor, at: usize, source: &Run, len: usize)
        requires held { IsHeld arena.old self.now }
        requires source { IsHeld arena.old source.now }
        requires source_stays { KeepsFront self.now at source.now len }
        requires to { IsAt arena.old self.now to }
        requires within { at + len ≤ 120 * self.now.count }
        requires there { len ≤ 120 * source.now.count }
        ensures only { WritesOnly arena.old arena.new self.now }
        ensures octets { octets_of_run arena.new self.now
            ≡ overwritten (octets_of_run arena.old self.now) at (take len (octets_of_run arena.old source.now)) }
    {
        let mut target = self.seek(arena, to, (at / PAYLOAD_OCTETS) as u32);
        let mut from = source.start();
        for index in 0..len.div_ceil(PAYLOAD_OCTETS) {
            let count = PAYLOAD_OCTETS.min(len - index * PAYLOAD_OCTETS);
            let spot = Spot {
                cursor: target,
                at: at % PAYLOAD_OCTETS,
            };
            self.copy_block(arena, &spot, source, &from, count);
            from = source.after(arena, &from);
            target = self.after(arena, &target);
        }
    }
}
