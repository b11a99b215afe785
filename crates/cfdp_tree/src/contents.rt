//! The octets of a file or of a staged list.
ghost use Rattle.std.specs.Prelude.{◌≡◌, ℕ, ◌+◌, ◌*◌, ◌/◌, ◌<◌, ◌≤◌, ◌++◌, length, slice_range};
ghost use Rattle.cfdp_arena.specs.Arena.{free_count};
ghost use Rattle.cfdp_actions.specs.Filestore.{blocks_of};
ghost use Rattle.cfdp_actions.specs.Store.{extended, overwritten};
ghost use Rattle.cfdp_checksum.specs.Checksum.{checksum_at};
ghost use Rattle.cfdp_tree.specs.code.Nodes.{nodes_in};
ghost use Rattle.cfdp_tree.specs.code.Runs.{IsAt, Apart, Spares, nth};
ghost use Rattle.cfdp_tree.specs.code.Frames.{ChangesOnly};
ghost use Rattle.cfdp_tree.specs.code.Ways.{HasWays};
ghost use Rattle.cfdp_tree.specs.code.Contents.{IsFilled, contents_in};
ghost use Rattle.cfdp_tree.specs.code.Kept.{contents_of_fields, file_of};
ghost use Rattle.cfdp_tree.specs.code.NodeFields.{node_fields_of, kind_of_octet};

use crate::header::PAYLOAD_OCTETS;
use crate::node_block::{first_of, kind_of, last_of, size_of, sum_of};
use crate::runs::Run;
use cfdp_actions::Kind;
use cfdp_arena::{Arena, Block};
use cfdp_checksum::modular_checksum_at;
use cfdp_ways::{Cursor, Way};

/// The octets of a file or of a staged list: a run that has just the blocks for them, how many they are, and their
/// modular checksum.
#[derive(Clone, Copy)]
pub(crate) struct Contents {
    pub(crate) run: Run,
    pub(crate) size: u32,
    pub(crate) sum: u32,
}

/// The blocks of this many octets.
pub(crate) fn blocks_of(octets: u32) -> u32
    requires { octets ≤ 7864320 }
    ensures { result ≡ blocks_of octets }
{
    octets.div_ceil(PAYLOAD_OCTETS as u32)
}

/// The octets of a file, by its node's block.
pub(crate) fn contents_of(block: &Block) -> Contents
    requires { (node_fields_of block.now).size ≤ 7864320 }
    ensures { result ≡ contents_of_fields Kind.File (node_fields_of block.now) }
{
    let size = size_of(block);
    Contents {
        run: Run {
            first: first_of(block),
            last: last_of(block),
            count: blocks_of(size),
        },
        size,
        sum: sum_of(block),
    }
}

/// What a node holds, by its block: the octets of a file, and of a directory none.
pub(crate) fn held_by(block: &Block) -> Contents
    requires { kind_of_octet (node_fields_of block.now).kind ≡ Kind.File → (node_fields_of block.now).size ≤ 7864320 }
    ensures { result ≡ file_of block.now }
{
    match kind_of(block) {
        Kind::File => contents_of(block),
        Kind::Directory => Contents::empty(),
    }
}

impl Contents {
    /// No octets.
    pub(crate) fn empty() -> Contents
        ensures blocks { result.run.count ≡ 0 }
        ensures size { result.size ≡ 0 }
        ensures sum { result.sum ≡ 0 }
        ensures first { result.run.first ≡ 0 }
        ensures last { result.run.last ≡ 0 }
    {
        Contents {
            run: Run::empty(),
            size: 0,
            sum: 0,
        }
    }

    /// Adds zeros at the end, up to the size, which is at most that of 65,536 blocks. The checksum stays. In time
    /// linear in the blocks that are taken.
    pub(crate) fn extend(&mut self, arena: &mut Arena, ways: &mut [Way], size: u32)
        requires filled { IsFilled arena.old self.old }
        requires ways { HasWays arena.old ways.old self.old.run }
        requires longer { self.old.size ≤ size }
        requires most { size ≤ 7864320 }
        requires room { blocks_of size ≤ free_count arena.old + blocks_of self.old.size }
        ensures only { ChangesOnly arena.old arena.new ways.old ways.new self.old self.new }
        ensures size { self.new.size ≡ size }
        ensures sum { self.new.sum ≡ self.old.sum }
        ensures octets { contents_in arena.new self.new ≡ extended (contents_in arena.old self.old) size }
        ensures taken { free_count arena.new + blocks_of size ≡ free_count arena.old + blocks_of self.old.size }
        ensures sequence { (k : ℕ) → k < self.old.run.count →
            nth arena.new self.new.run.first k ≡ nth arena.old self.old.run.first k }
    {
        let mut run = self.run;
        run.grow_to(arena, ways, blocks_of(size));
        *self = Contents {
            run,
            size,
            sum: self.sum,
        };
    }

    /// Overwrites the octets from the offset `at` on, and returns the position of the last block that was written. The
    /// caller says where the first of them is, and what the octets that are there add to the checksum. In time linear
    /// in the octets.
    pub(crate) fn put(
        &mut self,
        arena: &mut Arena,
        first: Cursor,
        at: u32,
        octets: &[u8],
        before: u32,
    ) -> Cursor
        requires filled { IsFilled arena.old self.old }
        requires first { IsAt arena.old self.old.run first }
        requires index { first.index ≡ at / 120 }
        requires range { at + length octets.now ≤ self.old.size }
        requires before { before ≡ checksum_at at (slice_range (contents_in arena.old self.old) at (at
            + length octets.now)) }
        ensures filled { IsFilled arena.new self.new }
        ensures run { self.new.run ≡ self.old.run }
        ensures size { self.new.size ≡ self.old.size }
        ensures octets { contents_in arena.new self.new ≡ overwritten (contents_in arena.old self.old) at octets.now }
        ensures cursor { IsAt arena.new self.new.run result }
        ensures free { free_count arena.new ≡ free_count arena.old }
        ensures capacity { length arena.new ≡ length arena.old }
        ensures spares { Spares arena.old arena.new self.old.run self.new.run }
        ensures sequence { (k : ℕ) → k ≤ self.old.run.count →
            nth arena.new self.new.run.first k ≡ nth arena.old self.old.run.first k }
        ensures nodes { nodes_in arena.new ≡ nodes_in arena.old }
    {
        let last = self.run.write(arena, first, at as usize, octets);
        let after = modular_checksum_at(at as usize, octets);
        self.sum = self.sum.wrapping_sub(before).wrapping_add(after);
        last
    }

    /// What the octets add to the checksum of a file in which they begin at an offset. In constant time if the offset
    /// is a multiple of 4, otherwise in time linear in the octets.
    fn sum_at(&self, arena: &Arena, offset: u32) -> u32
        requires filled { IsFilled arena.now self.now }
        ensures { result ≡ checksum_at offset (contents_in arena.now self.now) }
    {
        if offset % 4 == 0 {
            return self.sum;
        }
        self.run
            .sum_of(arena, self.run.start(), 0, self.size as usize, offset)
    }

    /// Fills the buffer with the octets from the offset `at` on, and returns the position of the last block that was
    /// read. In time linear in the octets; the first block is found as by `Run::find`.
    pub(crate) fn get(
        &self,
        arena: &Arena,
        ways: &[Way],
        from: Cursor,
        at: u32,
        buffer: &mut [u8],
    ) -> Cursor
        requires filled { IsFilled arena.now self.now }
        requires ways { HasWays arena.now ways.now self.now.run }
        requires from { IsAt arena.now self.now.run from }
        requires range { at + length buffer.old ≤ self.now.size }
        ensures octets { buffer.new ≡ slice_range (contents_in arena.now self.now) at (at + length buffer.old) }
        ensures cursor { IsAt arena.now self.now.run result }
    {
        self.run.read(arena, ways, from, at as usize, buffer)
    }

    /// Adds this many zeros at the end, and returns a cursor to the last block before them, so that writing them needs
    /// no search. In time linear in the blocks that are taken.
    fn make_room(&mut self, arena: &mut Arena, ways: &mut [Way], more: u32) -> Cursor
        requires filled { IsFilled arena.old self.old }
        requires ways { HasWays arena.old ways.old self.old.run }
        requires most { self.old.size + more ≤ 7864320 }
        requires room { blocks_of (self.old.size + more) ≤ free_count arena.old + blocks_of self.old.size }
        ensures only { ChangesOnly arena.old arena.new ways.old ways.new self.old self.new }
        ensures size { self.new.size ≡ self.old.size + more }
        ensures sum { self.new.sum ≡ self.old.sum }
        ensures octets { contents_in arena.new self.new ≡ extended (contents_in arena.old self.old) (self.old.size
            + more) }
        ensures cursor { IsAt arena.new self.new.run result }
        ensures taken { free_count arena.new + blocks_of (self.old.size + more)
            ≡ free_count arena.old + blocks_of self.old.size }
    {
        let tail = self.run.tail();
        let none = self.run.count == 0;
        self.extend(arena, ways, self.size + more);
        if none { self.run.start() } else { tail }
    }

    /// Puts the octets of another list after these, from block to block. In time linear in them.
    pub(crate) fn append(&mut self, arena: &mut Arena, ways: &mut [Way], source: &Contents)
        requires filled { IsFilled arena.old self.old }
        requires ways { HasWays arena.old ways.old self.old.run }
        requires source { IsFilled arena.old source.now }
        requires apart { Apart self.old.run source.now.run }
        requires most { self.old.size + source.now.size ≤ 7864320 }
        requires room { blocks_of (self.old.size + source.now.size) ≤ free_count arena.old + blocks_of self.old.size }
        ensures only { ChangesOnly arena.old arena.new ways.old ways.new self.old self.new }
        ensures size { self.new.size ≡ self.old.size + source.now.size }
        ensures octets { contents_in arena.new self.new ≡ contents_in arena.old self.old
            ++ contents_in arena.old source.now }
        ensures taken { free_count arena.new + blocks_of (self.old.size + source.now.size)
            ≡ free_count arena.old + blocks_of self.old.size }
    {
        if source.size == 0 {
            return;
        }
        let size = self.size as usize;
        let added = source.sum_at(arena, self.size);
        let to = self.make_room(arena, ways, source.size);
        self.run
            .copy(arena, to, size, &source.run, source.size as usize);
        self.sum = self.sum.wrapping_add(added);
    }

    /// Puts the octets after themselves, from block to block. In time linear in them.
    pub(crate) fn append_self(&mut self, arena: &mut Arena, ways: &mut [Way])
        requires filled { IsFilled arena.old self.old }
        requires ways { HasWays arena.old ways.old self.old.run }
        requires most { 2 * self.old.size ≤ 7864320 }
        requires room { blocks_of (2 * self.old.size) ≤ free_count arena.old + blocks_of self.old.size }
        ensures only { ChangesOnly arena.old arena.new ways.old ways.new self.old self.new }
        ensures size { self.new.size ≡ 2 * self.old.size }
        ensures octets { contents_in arena.new self.new ≡ contents_in arena.old self.old
            ++ contents_in arena.old self.old }
        ensures taken { free_count arena.new + blocks_of (2 * self.old.size)
            ≡ free_count arena.old + blocks_of self.old.size }
    {
        let size = self.size;
        let added = self.sum_at(arena, size);
        let to = self.make_room(arena, ways, size);
        self.run
            .copy(arena, to, size as usize, &self.run, size as usize);
        self.sum = self.sum.wrapping_add(added);
    }

    /// Replaces these octets by those of another list; their blocks go back first. In time linear in the other list.
    pub(crate) fn replace(&mut self, arena: &mut Arena, ways: &mut [Way], source: &Contents)
        requires filled { IsFilled arena.old self.old }
        requires ways { HasWays arena.old ways.old self.old.run }
        requires source { IsFilled arena.old source.now }
        requires apart { Apart self.old.run source.now.run }
        requires most { source.now.size ≤ 7864320 }
        requires room { blocks_of source.now.size ≤ free_count arena.old + blocks_of self.old.size }
        ensures only { ChangesOnly arena.old arena.new ways.old ways.new self.old self.new }
        ensures size { self.new.size ≡ source.now.size }
        ensures octets { contents_in arena.new self.new ≡ contents_in arena.old source.now }
        ensures taken { free_count arena.new + blocks_of source.now.size
            ≡ free_count arena.old + blocks_of self.old.size }
    {
        self.release(arena);
        *self = Contents::empty();
        self.append(arena, ways, source);
    }

    /// Gives the blocks back as one. In constant time.
    pub(crate) fn release(self, arena: &mut Arena)
        requires filled { IsFilled arena.old self }
        ensures freed { free_count arena.new ≡ free_count arena.old + blocks_of self.size }
        ensures capacity { length arena.new ≡ length arena.old }
        ensures spares { Spares arena.old arena.new self.run self.run }
        ensures nodes { nodes_in arena.new ≡ nodes_in arena.old }
    {
        self.run.release(arena);
    }
}
