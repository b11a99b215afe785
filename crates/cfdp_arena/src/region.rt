//! The memory of an arena: one allocation, reached through a raw pointer, in which blocks of 128 octets are side by
//! side.
ghost use Rattle.std.specs.Prelude.{◌≡◌, ◌+◌, ◌*◌, ◌^◌, ◌<◌, ◌≤◌, ℕ, List, [], ◌∷◌, ◌++◌, length, take};
ghost use Rattle.std.specs.Prelude.{slice_index_or, slice_set, IfOk};
ghost use Rattle.std.specs.Borrow.{sem};
ghost use Rattle.cfdp_arena.specs.Blocks.{blank_block, copied};
ghost use Rattle.cfdp_arena.specs.Ownership.{region_lends};
ghost use Rattle.cfdp_arena.specs.code.Ownership.{region_owns};

use crate::payload::{copy_between, copy_within};
use crate::{BLOCK_OCTETS, Block};
use std::alloc::{AllocError, Allocator, Global};
use std::marker::{Model, Send};
use std::slice::from_raw_parts_mut;

/// The memory of the blocks, which it owns, with room for more until all are made. It has no `Drop`, so that the
/// check refuses code that does not give a region to `release`.
pub struct Region {
    base: *mut Block,
    room: usize,
    ghost blocks: { List (List ℕ) },
}

impl Model for Region {
    ghost also_owns = { λ r. region_owns r.base r.room r.blocks };

    ghost also_shares = { λ r _ κ. region_lends r.base r.room r.blocks κ };
}

unsafe impl Send for Region {}

impl Region {
    ghost use Rattle.cfdp_arena.specs.code.Region.{LendsBlock, LendsFront};

    /// Takes the memory of `room` blocks, and writes none of it.
    pub(crate) fn reserve(alloc: &Global, room: usize) -> Result<Region, AllocError>
        requires small { room * 128 < 2 ^ 63 }
        ensures room { IfOk result (λ region. region.room ≡ room) }
        ensures empty { IfOk result (λ region. region.blocks ≡ []) }
    {
        match alloc.allocate(room * BLOCK_OCTETS, 1) {
            Ok(block) => Ok(Region {
                base: block as *mut Block,
                room,
            }),
            Err(refused) => Err(refused),
        }
    }

    /// Makes a block of zeros after the blocks that exist: the block of the next number.
    pub(crate) fn append_blank(&mut self, number: usize)
        requires next { number ≡ length self.old.blocks }
        requires room { number < self.old.room }
        ensures blocks { self.new.blocks ≡ self.old.blocks ++ blank_block ∷ [] }
        ensures room { self.new.room ≡ self.old.room }
    {
        unsafe { *self.base.add(number) = [0; BLOCK_OCTETS] };
    }

    /// Gives the memory back to the allocator.
    pub(crate) fn release(self, alloc: &Global) {
        let Region { base, room } = self;
        unsafe { alloc.deallocate(base as *mut u8, room * BLOCK_OCTETS, 1) };
    }

    /// Shows the block of this number, counted from 0.
    pub(crate) fn block(&self, number: usize) -> &Block
        requires within { number < length self.now.blocks }
        ensures value { result.now ≡ slice_index_or self.now.blocks number [] }
        ensures whole { length result.now ≡ 128 }
    {
        unsafe { &*self.base.add(number) }
    }

    /// Lends the block of this number, and changes no other.
    pub(crate) fn block_mut(&mut self, number: usize) -> &mut Block
        requires within { number < length self.old.blocks }
        ensures* writes_back { sem 𝓛 (LendsBlock self.entry number result) }
        ensures value { result.now ≡ slice_index_or self.old.blocks number [] }
        ensures whole { length result.now ≡ 128 }
    {
        unsafe { &mut *self.base.add(number) }
    }

    /// Lends the first `count` blocks as one slice, and changes no other.
    fn front_mut(&mut self, count: usize) -> &mut [Block]
        requires within { count ≤ length self.old.blocks }
        ensures* writes_back { sem 𝓛 (LendsFront self.entry count result) }
        ensures value { result.now ≡ take count self.old.blocks }
        ensures count { length result.now ≡ count }
    {
        unsafe { from_raw_parts_mut(self.base, count) }
    }

    /// Copies octets from the payload of the block `from` to that of the block `to`, which may be the same block. In
    /// time linear in `len`.
    pub(crate) fn copy_payload(
        &mut self,
        from: usize,
        from_at: usize,
        to: usize,
        to_at: usize,
        len: usize,
    )
        requires small { length self.old.blocks ≤ 65536 }
        requires from { from < length self.old.blocks }
        requires to { to < length self.old.blocks }
        requires from_within { from_at + len ≤ 120 }
        requires to_within { to_at + len ≤ 120 }
        ensures blocks { self.new.blocks ≡ slice_set self.old.blocks to
            (copied (slice_index_or self.old.blocks from []) from_at (slice_index_or self.old.blocks to []) to_at len) }
        ensures room { self.new.room ≡ self.old.room }
    {
        if from == to {
            copy_within(self.block_mut(from), from_at, to_at, len);
        } else {
            let blocks = self.front_mut(from.max(to) + 1);
            copy_between(blocks, from, from_at, to, to_at, len);
        }
    }
}
