//! A staged list with the position of its last write, and with what of it was never written.
ghost use Rattle.std.specs.Prelude.{◌≡◌, ℕ, ◌+◌, ◌-◌, ◌/◌, ◌≤◌, List, length, max, min, slice_range};
ghost use Rattle.cfdp_arena.specs.Arena.{free_count};
ghost use Rattle.cfdp_actions.specs.Filestore.{blocks_of};
ghost use Rattle.cfdp_actions.specs.Store.{extended, overwritten};
ghost use Rattle.cfdp_checksum.specs.Checksum.{checksum_at};
ghost use Rattle.cfdp_tree.specs.code.Nodes.{nodes_in};
ghost use Rattle.cfdp_tree.specs.code.Runs.{Spares};
ghost use Rattle.cfdp_tree.specs.code.Ways.{HasWays, KeepsWays};
ghost use Rattle.cfdp_tree.specs.code.Contents.{IsFilled, contents_in};
ghost use Rattle.cfdp_tree.specs.code.Frames.{ChangesOnly};
ghost use Rattle.cfdp_tree.specs.code.Slots.{no_gap, IsBlank, IsUnwrittenSlot, IsSoundSlot, IsFreshSlot};

use crate::contents::Contents;
use crate::gap::Gap;
use crate::header::PAYLOAD_OCTETS;
use cfdp_arena::Arena;
use cfdp_ways::{Cursor, Way};

/// A staged list, the position of its block that was last written, an offset from which on no octet was ever written,
/// and a gap before that offset in which none was either: there are zeros.
#[derive(Clone, Copy)]
pub(crate) struct Slot {
    pub(crate) contents: Contents,
    pub(crate) cursor: Cursor,
    pub(crate) blank_from: usize,
    pub(crate) gap: Gap,
}

impl Slot {
    /// An empty list.
    pub(crate) fn empty() -> Slot
        ensures { IsFreshSlot result }
    {
        let contents = Contents::empty();
        Slot {
            contents,
            cursor: contents.run.start(),
            blank_from: 0,
            gap: Gap::empty(),
        }
    }

    /// Becomes a list of other contents, of which nothing was written last, and any octet may have been written. In
    /// constant time.
    pub(crate) fn hold(&mut self, contents: Contents)
        ensures contents { self.new.contents ≡ contents }
        ensures block { self.new.cursor.block ≡ contents.run.first }
        ensures index { self.new.cursor.index ≡ 0 }
        ensures blank { self.new.blank_from ≡ contents.size }
        ensures gap { self.new.gap ≡ no_gap }
    {
        self.contents = contents;
        self.cursor = contents.run.start();
        self.blank_from = contents.size as usize;
        self.gap = Gap::empty();
    }

    /// Adds zeros at the end, up to the size, which is at most that of 65,536 blocks. In time linear in the blocks that
    /// are taken.
    pub(crate) fn extend(&mut self, arena: &mut Arena, ways: &mut [Way], size: u32)
        requires filled { IsFilled arena.old self.old.contents }
        requires ways { HasWays arena.old ways.old self.old.contents.run }
        requires sound { IsSoundSlot arena.old self.old }
        requires longer { self.old.contents.size ≤ size }
        requires most { size ≤ 7864320 }
        requires room { blocks_of size ≤ free_count arena.old + blocks_of self.old.contents.size }
        ensures only { ChangesOnly arena.old arena.new ways.old ways.new self.old.contents self.new.contents }
        ensures sound { IsSoundSlot arena.new self.new }
        ensures size { self.new.contents.size ≡ size }
        ensures octets { contents_in arena.new self.new.contents
            ≡ extended (contents_in arena.old self.old.contents) size }
        ensures taken { free_count arena.new + blocks_of size ≡ free_count arena.old
            + blocks_of self.old.contents.size }
    {
        let within = self.cursor.index < self.contents.run.count;
        self.contents.extend(arena, ways, size);
        if !within {
            self.cursor = self.contents.run.start();
        }
    }

    /// What the octets from the offset `at` up to `end` add to the list's checksum. They add nothing if they are in the
    /// gap or after all that were written, so octets that come in order, in reverse or with neighbours swapped are not
    /// read before they are written: then in constant time, and otherwise in time linear in the octets. The slot's
    /// position is that of the first of them.
    fn sum_there(&self, arena: &Arena, at: u32, end: usize) -> u32
        requires filled { IsFilled arena.now self.now.contents }
        requires sound { IsSoundSlot arena.now self.now }
        requires index { self.now.cursor.index ≡ at / 120 }
        requires ordered { at ≤ end }
        requires range { end ≤ self.now.contents.size }
        ensures { result ≡ checksum_at at (slice_range (contents_in arena.now self.now.contents) at end) }
    {
        let start = at as usize;
        if self.blank_from <= start || self.gap.covers(start, end) {
            return 0;
        }
        self.contents
            .run
            .sum_of(arena, self.cursor, start, end - start, at)
    }

    /// Overwrites the octets from the offset `at` on. In time linear in the octets. The first block is found from that
    /// of the last write at once, if it is the same or one of the next 8, and else in time logarithmic in the blocks.
    pub(crate) fn put(&mut self, arena: &mut Arena, ways: &[Way], at: u32, octets: &[u8])
        requires filled { IsFilled arena.old self.old.contents }
        requires ways { HasWays arena.old ways.now self.old.contents.run }
        requires sound { IsSoundSlot arena.old self.old }
        requires range { at + length octets.now ≤ self.old.contents.size }
        ensures run { self.new.contents.run ≡ self.old.contents.run }
        ensures size { self.new.contents.size ≡ self.old.contents.size }
        ensures filled { IsFilled arena.new self.new.contents }
        ensures sound { IsSoundSlot arena.new self.new }
        ensures octets { contents_in arena.new self.new.contents
            ≡ overwritten (contents_in arena.old self.old.contents) at octets.now }
        ensures free { free_count arena.new ≡ free_count arena.old }
        ensures capacity { length arena.new ≡ length arena.old }
        ensures spares { Spares arena.old arena.new self.old.contents.run self.new.contents.run }
        ensures nodes { nodes_in arena.new ≡ nodes_in arena.old }
        ensures ways { HasWays arena.new ways.now self.new.contents.run }
        ensures other_ways { KeepsWays arena.old arena.new ways.now ways.now self.old.contents.run }
    {
        let end = at as usize + octets.len();
        let index = at / PAYLOAD_OCTETS as u32;
        self.cursor = self.contents.run.find(arena, ways, self.cursor, index);
        let before = self.sum_there(arena, at, end);
        self.cursor = self.contents.put(arena, self.cursor, at, octets, before);
        self.gap = self.gap_after(at as usize, end);
        self.blank_from = self.blank_from.max(end);
    }

    /// The gap after octets are written from the offset `at` up to `end`. It is the longer of two: what is left of the
    /// gap, and the octets from `blank_from` up to `at`, which were never written.
    fn gap_after(&self, at: usize, end: usize) -> Gap
        requires ordered { self.now.gap.from ≤ self.now.gap.to }
        ensures blank { (octets part : List ℕ) → length octets ≡ self.now.contents.size → at + length part ≡ end
            → end ≤ length octets → IsUnwrittenSlot octets self.now → IsBlank (overwritten octets at part) result }
        ensures before { min self.now.gap.to at - self.now.gap.from ≤ result.to - result.from }
        ensures after { self.now.gap.to - max self.now.gap.from end ≤ result.to - result.from }
        ensures skipped { at - self.now.blank_from ≤ result.to - result.from }
    {
        let skipped = Gap {
            from: self.blank_from,
            to: at.max(self.blank_from),
        };
        self.gap.without(at, end).longer(skipped)
    }

    /// Fills the buffer with the octets from the offset `at` on. In time linear in the octets; the first block is found
    /// as by `put`.
    pub(crate) fn get(&self, arena: &Arena, ways: &[Way], at: u32, buffer: &mut [u8])
        requires filled { IsFilled arena.now self.now.contents }
        requires ways { HasWays arena.now ways.now self.now.contents.run }
        requires sound { IsSoundSlot arena.now self.now }
        requires range { at + length buffer.old ≤ self.now.contents.size }
        ensures { buffer.new ≡ slice_range (contents_in arena.now self.now.contents) at (at + length buffer.old) }
    {
        self.contents.get(arena, ways, self.cursor, at, buffer);
    }
}
