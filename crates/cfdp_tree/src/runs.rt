//! A run of blocks: a chain of blocks that one owner holds.
ghost use Rattle.std.specs.Prelude.{◌≡◌, ℕ, ◌+◌, ◌-◌, ◌*◌, ◌<◌, ◌≤◌, ◌++◌, length, replicate, None};
ghost use Rattle.cfdp_arena.specs.Arena.{octets_at, free_count, with_block};
ghost use Rattle.cfdp_arena.specs.Blocks.{blank_block};
ghost use Rattle.cfdp_tree.specs.code.Block.{payload};
ghost use Rattle.cfdp_tree.specs.code.Nodes.{nodes_in};
ghost use Rattle.cfdp_tree.specs.code.Runs.{IsHeld, AllStay, OtherRunsStay, octets_of_run, nth};
ghost use Rattle.cfdp_tree.specs.code.Ways.{HasWays, StayLive, WaysStay};

use crate::header::{BlockKind, set_next, set_tag};
use cfdp_arena::{Arena, BlockId};
use cfdp_ways::{Way, begin_list, extend_list};

/// A run of blocks in an arena: its first block, its last block and how many there are. Where there are none, the two
/// blocks mean nothing.
#[derive(Clone, Copy)]
pub(crate) struct Run {
    pub(crate) first: BlockId,
    pub(crate) last: BlockId,
    pub(crate) count: u32,
}

impl Run {
    /// A run of no blocks.
    pub(crate) fn empty() -> Run
        ensures count { result.count ≡ 0 }
        ensures first { result.first ≡ 0 }
        ensures last { result.last ≡ 0 }
    {
        let none = BlockId::of_number(0);
        Run {
            first: none,
            last: none,
            count: 0,
        }
    }

    /// Takes the first block, of zeros, of a run that has none, and writes its way. In constant time.
    fn start_with_block(&mut self, arena: &mut Arena, ways: &mut [Way])
        requires ways { HasWays arena.old ways.old self.old }
        requires none { self.old.count ≡ 0 }
        requires room { 0 < free_count arena.old }
        ensures held { IsHeld arena.new self.new }
        ensures count { self.new.count ≡ 1 }
        ensures octets { octets_of_run arena.new self.new ≡ payload blank_block }
        ensures taken { free_count arena.new + 1 ≡ free_count arena.old }
        ensures size { length arena.new ≡ length arena.old }
        ensures others { AllStay arena.old arena.new }
        ensures fresh { octets_at arena.old self.new.first ≡ None }
        ensures nodes { nodes_in arena.new ≡ nodes_in arena.old }
        ensures live { StayLive arena.old arena.new }
        ensures ways { HasWays arena.new ways.new self.new }
        ensures ways_stay { WaysStay arena.old ways.old ways.new }
    {
        *self = begin(arena);
        begin_list(ways, self.first);
    }

    /// Takes one more block, of zeros, to the end of a run that has one, and writes its way. In constant time.
    fn grow(&mut self, arena: &mut Arena, ways: &mut [Way])
        requires held { IsHeld arena.old self.old }
        requires ways { HasWays arena.old ways.old self.old }
        requires some { 0 < self.old.count }
        requires few { self.old.count < 65536 }
        requires room { 0 < free_count arena.old }
        ensures held { IsHeld arena.new self.new }
        ensures count { self.new.count ≡ self.old.count + 1 }
        ensures octets { octets_of_run arena.new self.new ≡ octets_of_run arena.old self.old ++ payload blank_block }
        ensures taken { free_count arena.new + 1 ≡ free_count arena.old }
        ensures size { length arena.new ≡ length arena.old }
        ensures others { OtherRunsStay arena.old arena.new self.old }
        ensures first { self.new.first ≡ self.old.first }
        ensures sequence { (k : ℕ) → k < self.old.count → nth arena.new self.new.first k
            ≡ nth arena.old self.old.first k }
        ensures nodes { nodes_in arena.new ≡ nodes_in arena.old }
        ensures live { StayLive arena.old arena.new }
        ensures ways { HasWays arena.new ways.new self.new }
        ensures ways_stay { WaysStay arena.old ways.old ways.new }
    {
        let last = self.tail();
        self.lengthen(arena);
        extend_list(ways, &last, self.last);
    }

    /// Takes one more block to the end of a run that has one.
    fn lengthen(&mut self, arena: &mut Arena)
        requires held { IsHeld arena.old self.old }
        requires some { 0 < self.old.count }
        requires few { self.old.count < 65536 }
        requires room { 0 < free_count arena.old }
        ensures held { IsHeld arena.new self.new }
        ensures count { self.new.count ≡ self.old.count + 1 }
        ensures octets { octets_of_run arena.new self.new ≡ octets_of_run arena.old self.old ++ payload blank_block }
        ensures taken { free_count arena.new + 1 ≡ free_count arena.old }
        ensures size { length arena.new ≡ length arena.old }
        ensures others { OtherRunsStay arena.old arena.new self.old }
        ensures first { self.new.first ≡ self.old.first }
        ensures sequence { (k : ℕ) → k < self.old.count → nth arena.new self.new.first k
            ≡ nth arena.old self.old.first k }
        ensures nodes { nodes_in arena.new ≡ nodes_in arena.old }
        ensures live { StayLive arena.old arena.new }
        ensures was_free { octets_at arena.old self.new.last ≡ None }
        ensures within { self.new.last < length arena.old }
        ensures few_blocks { length arena.old ≤ 65536 }
    {
        let block = take_block(arena);
        set_tag(
            arena.bytes_mut(block),
            self.first,
            self.count,
            BlockKind::Content,
        );
        set_next(arena.bytes_mut(self.last), block);
        self.last = block;
        self.count += 1;
    }

    /// Takes blocks of zeros to the end of the run, up to a number of blocks, and writes their ways. In time linear in
    /// the blocks that are taken.
    pub(crate) fn grow_to(&mut self, arena: &mut Arena, ways: &mut [Way], count: u32)
        requires held { IsHeld arena.old self.old }
        requires ways { HasWays arena.old ways.old self.old }
        requires more { self.old.count ≤ count }
        requires few { count ≤ 65536 }
        requires room { count ≤ free_count arena.old + self.old.count }
        ensures held { IsHeld arena.new self.new }
        ensures count { self.new.count ≡ count }
        ensures octets { octets_of_run arena.new self.new
            ≡ octets_of_run arena.old self.old ++ replicate (120 * (count - self.old.count)) 0 }
        ensures taken { free_count arena.new + count ≡ free_count arena.old + self.old.count }
        ensures size { length arena.new ≡ length arena.old }
        ensures others { OtherRunsStay arena.old arena.new self.new }
        ensures first { 0 < self.old.count → self.new.first ≡ self.old.first }
        ensures fresh { self.old.count ≡ 0 → 0 < count → octets_at arena.old self.new.first ≡ None }
        ensures sequence { (k : ℕ) → k < self.old.count → nth arena.new self.new.first k
            ≡ nth arena.old self.old.first k }
        ensures nodes { nodes_in arena.new ≡ nodes_in arena.old }
        ensures live { StayLive arena.old arena.new }
        ensures ways { HasWays arena.new ways.new self.new }
        ensures ways_stay { WaysStay arena.old ways.old ways.new }
    {
        if self.count == 0 && 0 < count {
            self.start_with_block(arena, ways);
        }
        for _block in self.count..count {
            self.grow(arena, ways);
        }
    }

    /// Gives all blocks of the run back as one. In constant time.
    pub(crate) fn release(self, arena: &mut Arena)
        requires held { IsHeld arena.old self }
        ensures freed { free_count arena.new ≡ free_count arena.old + self.count }
        ensures size { length arena.new ≡ length arena.old }
        ensures others { OtherRunsStay arena.old arena.new self }
        ensures nodes { nodes_in arena.new ≡ nodes_in arena.old }
    {
        arena.give_chain(self.first, self.last, self.count);
    }
}

/// Takes a block of zeros, which makes a run of one block.
fn begin(arena: &mut Arena) -> Run
    requires room { 0 < free_count arena.old }
    ensures held { IsHeld arena.new result }
    ensures count { result.count ≡ 1 }
    ensures octets { octets_of_run arena.new result ≡ payload blank_block }
    ensures taken { free_count arena.new + 1 ≡ free_count arena.old }
    ensures size { length arena.new ≡ length arena.old }
    ensures others { AllStay arena.old arena.new }
    ensures fresh { octets_at arena.old result.first ≡ None }
    ensures within { result.first < length arena.old }
    ensures few_blocks { length arena.old ≤ 65536 }
    ensures live { StayLive arena.old arena.new }
    ensures nodes { nodes_in arena.new ≡ nodes_in arena.old }
{
    let block = take_block(arena);
    set_tag(arena.bytes_mut(block), block, 0, BlockKind::Content);
    Run {
        first: block,
        last: block,
        count: 1,
    }
}

/// Takes a block where one is free.
pub(crate) fn take_block(arena: &mut Arena) -> BlockId
    requires room { 0 < free_count arena.old }
    ensures was_free { octets_at arena.old result ≡ None }
    ensures within { result < length arena.old }
    ensures capacity { length arena.old ≤ 65536 }
    ensures zeros { arena.new ≡ with_block arena.old result blank_block }
{
    // Read for its contract alone: an arena has 1 to 65,536 blocks.
    let _free = arena.free();
    let Some(block) = arena.take() else {
        unreachable!();
    };
    block
}
