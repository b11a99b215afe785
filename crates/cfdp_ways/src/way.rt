//! The way back from each block of a list.
ghost use Rattle.std.specs.Prelude.{◌≡◌, ◌≢◌, ℕ, ◌+◌, ◌-◌, ◌<◌, ◌≤◌, length};
ghost use Rattle.cfdp_ways.specs.Ways.{no_way, way_of, IsLed, IsOn};

use crate::cursor::Cursor;
use cfdp_arena::BlockId;

/// The way back from a block of a list: the block before it, and a block further back, with how many blocks back it is.
/// It takes 6 octets.
#[derive(Clone, Copy, Debug, PartialEq, Eq)]
pub struct Way {
    /// The number of the block before it; of the first block its own.
    pub(crate) before: u16,
    /// The number of a block further back; of the first block its own.
    pub(crate) jump: u16,
    /// How many blocks back that one is: 1 for the block before; of the first block 0.
    pub(crate) over: u16,
}

impl Way {
    /// The way of a block that is in no list.
    pub fn none() -> Way
        ensures { result ≡ no_way }
    {
        Way {
            before: 0,
            jump: 0,
            over: 0,
        }
    }
}

/// A block becomes the first one of a list. No other block's way changes. In constant time.
pub fn begin_list(ways: &mut [Way], block: BlockId)
    requires within { block < length ways.old }
    requires small { length ways.old ≤ 65536 }
    ensures led { (blocks : ℕ → ℕ) → block ≡ blocks 0 → IsLed ways.new blocks 1 }
    ensures others { (other : ℕ) → other ≢ block → way_of ways.new other ≡ way_of ways.old other }
{
    let number = block.number() as u16;
    ways[usize::from(number)] = Way {
        before: number,
        jump: number,
        over: 0,
    };
}

/// Adds a block after the last one of a list. The block must not be in the list yet. No other block's way changes. In
/// constant time.
pub fn extend_list(ways: &mut [Way], last: &Cursor, block: BlockId)
    requires within { block < length ways.old }
    requires small { length ways.old ≤ 65536 }
    requires on { IsOn ways.old last.now }
    requires few { last.now.index < 65536 }
    ensures led { (blocks : ℕ → ℕ) → IsLed ways.old blocks (last.now.index + 1)
        → last.now.block ≡ blocks last.now.index → block ≡ blocks (last.now.index + 1)
        → ((k : ℕ) → k ≤ last.now.index → blocks k ≢ block) → IsLed ways.new blocks (last.now.index + 2) }
    ensures others { (other : ℕ) → other ≢ block → way_of ways.new other ≡ way_of ways.old other }
{
    ways[block.number() as usize] = way_after(ways, last);
}

/// The way of a block that comes after the last one of a list.
///
/// The last block's jump leads over some blocks, and the jump from there over some more. If they are as many, the new
/// block's jump leads over both, and else to the last block.
fn way_after(ways: &[Way], last: &Cursor) -> Way
    requires small { length ways.now ≤ 65536 }
    requires on { IsOn ways.now last.now }
    requires few { last.now.index < 65536 }
    ensures before { result.before ≡ last.now.block }
    ensures jump { (blocks : ℕ → ℕ) → IsLed ways.now blocks (last.now.index + 1)
        → last.now.block ≡ blocks last.now.index → result.jump ≡ blocks (last.now.index + 1 - result.over) }
    ensures some { 0 < result.over }
    ensures within { result.over ≤ last.now.index + 1 }
{
    let before = last.block.number() as u16;
    let near = ways[usize::from(before)];
    let far = ways[usize::from(near.jump)];
    if near.over == far.over {
        return Way {
            before,
            jump: far.jump,
            over: near.over + far.over + 1,
        };
    }
    Way {
        before,
        jump: before,
        over: 1,
    }
}

/// One step from a position back towards an index before it: the jump, unless it leads to a block before the index, and
/// else one block. In constant time.
pub fn step_back(ways: &[Way], from: &Cursor, index: u32) -> Cursor
    requires on { IsOn ways.now from.now }
    requires later { index < from.now.index }
    ensures nearer { result.index < from.now.index }
    ensures within { index ≤ result.index }
    ensures block { (blocks : ℕ → ℕ) → IsLed ways.now blocks (from.now.index + 1)
        → from.now.block ≡ blocks from.now.index → result.block ≡ blocks result.index }
{
    let way = ways[from.block.number() as usize];
    let jump_index = from.index - u32::from(way.over);
    if index <= jump_index {
        Cursor {
            block: BlockId::of_number(u32::from(way.jump)),
            index: jump_index,
        }
    } else {
        Cursor {
            block: BlockId::of_number(u32::from(way.before)),
            index: from.index - 1,
        }
    }
}

/// The position at an index, from a position at that index or after it. In at most 3 steps for each binary digit of the
/// index at which it begins.
pub fn find_back(ways: &[Way], from: Cursor, index: u32) -> Cursor
    requires on { IsOn ways.now from }
    requires later { index ≤ from.index }
    ensures index { result.index ≡ index }
    ensures block { (blocks : ℕ → ℕ) → IsLed ways.now blocks (from.index + 1) → from.block ≡ blocks from.index
        → result.block ≡ blocks index }
{
    let mut cursor = from;
    while index < cursor.index {
        cursor = step_back(ways, &cursor, index);
    }
    cursor
}
