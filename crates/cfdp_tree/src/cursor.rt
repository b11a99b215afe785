//! Positions in a run.
ghost use Rattle.std.specs.Prelude.{◌≡◌, ◌+◌, ◌-◌, ◌<◌, ◌≤◌};
ghost use Rattle.cfdp_tree.specs.code.Runs.{IsHeld, IsAt};
ghost use Rattle.cfdp_tree.specs.code.Ways.{HasWays};

use crate::header::next_of;
use crate::runs::Run;
use cfdp_arena::Arena;
use cfdp_ways::{Cursor, Way, find_back};

/// How many blocks ahead of a position a search goes from block to block.
const NEAR: u32 = 8;

impl Run {
    /// The position of the first block.
    pub(crate) fn start(&self) -> Cursor
        ensures block { result.block ≡ self.now.first }
        ensures index { result.index ≡ 0 }
    {
        Cursor {
            block: self.first,
            index: 0,
        }
    }

    /// The position of the last block, if there is one.
    pub(crate) fn tail(&self) -> Cursor
        ensures block { result.block ≡ self.now.last }
        ensures index { result.index ≡ self.now.count - 1 }
    {
        Cursor {
            block: self.last,
            index: self.count.saturating_sub(1),
        }
    }

    /// The position after a block. In constant time.
    pub(crate) fn after(&self, arena: &Arena, cursor: &Cursor) -> Cursor
        requires held { IsHeld arena.now self.now }
        requires cursor { IsAt arena.now self.now cursor.now }
        requires within { cursor.now.index < self.now.count }
        ensures cursor { IsAt arena.now self.now result }
        ensures index { result.index ≡ cursor.now.index + 1 }
    {
        Cursor {
            block: next_of(arena.bytes(cursor.block)),
            index: cursor.index + 1,
        }
    }

    /// The position at an index, by steps from block to block. In time linear in the steps to it from the position that
    /// is handed in, or from the first block if that position is after the index.
    pub(crate) fn seek(&self, arena: &Arena, from: Cursor, index: u32) -> Cursor
        requires held { IsHeld arena.now self.now }
        requires from { IsAt arena.now self.now from }
        requires within { index ≤ self.now.count }
        ensures cursor { IsAt arena.now self.now result }
        ensures index { result.index ≡ index }
    {
        let mut cursor = if from.index <= index {
            from
        } else {
            self.start()
        };
        for _step in cursor.index..index {
            cursor = self.after(arena, &cursor);
        }
        cursor
    }

    /// The position at an index, by the ways back. It begins at the position that is handed in, if that is at the index
    /// or a little before it, or anywhere after it, and else at the last block. In time logarithmic in the blocks.
    pub(crate) fn find(&self, arena: &Arena, ways: &[Way], from: Cursor, index: u32) -> Cursor
        requires held { IsHeld arena.now self.now }
        requires ways { HasWays arena.now ways.now self.now }
        requires from { IsAt arena.now self.now from }
        requires within { index ≤ self.now.count }
        ensures cursor { IsAt arena.now self.now result }
        ensures index { result.index ≡ index }
    {
        if from.index <= index && index - from.index <= NEAR {
            return self.seek(arena, from, index);
        }
        let tail = self.tail();
        if tail.index <= index {
            return self.seek(arena, tail, index);
        }
        if index < from.index && from.index < tail.index {
            return find_back(ways, from, index);
        }
        find_back(ways, tail, index)
    }
}
