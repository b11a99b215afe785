//! The arena: which blocks are live, and what they hold.
ghost use Rattle.std.specs.Prelude.{◌≡◌, ◌≢◌, ◌+◌, ◌-◌, ◌<◌, ◌≤◌, ◌↔◌, length, slice_index, All, AllPairs};
ghost use Rattle.std.specs.Prelude.{Some, IsNone, IfNone, IfSome, IfOk};
ghost use Rattle.std.specs.Borrow.{sem};
ghost use Rattle.cfdp_arena.specs.Blocks.{blank_block, copied};
ghost use Rattle.cfdp_arena.specs.Arena.{octets_at, IsLive, octets_of, free_count, all_free, with_block, without_block};
ghost use Rattle.cfdp_arena.specs.Chain.{chain_in};
ghost use Rattle.cfdp_arena.specs.FreeList.{vacated};

use crate::block_id::BlockId;
use crate::region::Region;
use crate::{Block, Memory, links};
use std::alloc::Global;
use std::marker::Model;

/// A fixed number of blocks of 128 octets, each of them free or live. A clause sees a list with an item for each
/// block: its octets where it is live.
///
/// A block is made when it is first taken: it gets the next number, and its octets are set to 0. So the blocks that
/// were made are the first ones, and nothing was written to the memory after them. A block that was given back is on a
/// list, and `take` takes it from there before it makes another. A block that is not made yet is free too.
///
/// The blocks and the links of the list are in the arena's memory. Beside it are only its address and a few numbers:
/// how many blocks it has room for, how many were made, how many are on the list, and the first one there.
pub struct Arena {
    /// What the memory was taken from, and goes back to.
    alloc: Global,
    /// The memory, with room for every block, and the blocks that were made.
    region: Region,
    /// How many blocks the arena has, made or not.
    capacity: u32,
    /// How many blocks were made: the first ones.
    made: u32,
    /// The first block of the list, if the list has one.
    head: u32,
    /// How many blocks are on the list.
    listed: u32,
}

impl Model for Arena {
    ghost use Rattle.cfdp_arena.specs.Arena.{Blocks};
    ghost use Rattle.cfdp_arena.specs.code.FreeList.{whole_view, IsArena};

    ghost Value = { Blocks };

    ghost view = { λ a. whole_view a.region.blocks a.listed a.head a.capacity };

    ghost invariant = { λ a. IsArena a.region.blocks a.listed a.head a.made a.capacity a.region.room };
}

impl Arena {
    ghost use Rattle.cfdp_arena.specs.Lending.{LendsOctets};

    /// Takes the memory of `blocks` blocks, from 1 to 65,536, all of them free. This is the only call that takes
    /// memory: 128 octets a block, which go back when the arena is dropped. The arena never grows after it. Nothing is
    /// written to that memory yet: a block's octets are set to 0 when it is first taken. In constant time.
    ///
    /// # Errors
    ///
    /// [`Memory`] when out of memory.
    pub fn new(alloc: Global, blocks: u32) -> Result<Arena, Memory>
        requires some { 0 < blocks }
        requires at_most { blocks ≤ 65536 }
        ensures all_free { IfOk result (λ arena. arena ≡ all_free blocks) }
    {
        let region = Region::reserve(&alloc, blocks as usize)?;
        let arena = Arena {
            alloc,
            region,
            capacity: blocks,
            made: 0,
            head: 0,
            listed: 0,
        };
        Ok(arena)
    }

    /// Takes a free block, which is then live and has 128 octets 0. `None` where no block is free. In constant time. It
    /// takes no memory, also where the block was never taken before.
    pub fn take(&mut self) -> Option<BlockId>
        ensures none { IsNone result ↔ (free_count self.old ≡ 0) }
        ensures was_free { IfSome result (λ block. octets_at self.old block ≡ None) }
        ensures within { IfSome result (λ block. block < length self.old) }
        ensures zeros { IfSome result (λ block. self.new ≡ with_block self.old block blank_block) }
        ensures unchanged { IfNone result (self.new ≡ self.old) }
    {
        if self.listed == 0 {
            let number = self.made;
            if number == self.capacity {
                return None;
            }
            self.region.append_blank(number as usize);
            self.made += 1;
            return Some(BlockId::of_number(number));
        }
        let number = self.head;
        let block = self.region.block_mut(number as usize);
        let next = links::next_free(block);
        links::blank(block);
        self.head = next;
        self.listed -= 1;
        Some(BlockId::of_number(number))
    }

    /// Gives a live block back, which is then free. In constant time.
    pub fn give(&mut self, block: BlockId)
        requires live { IsLive self.old block }
        ensures freed { self.new ≡ without_block self.old block }
    {
        let number = block.number();
        let next = self.head;
        links::link_to(self.region.block_mut(number as usize), next);
        self.head = number;
        self.listed += 1;
    }

    /// Gives a chain of live blocks back as one: `count` blocks, from `first` to `last`, each of which but the last has
    /// the number of the next one in its first two octets, the low octet first. They are then free, as after a `give`
    /// of each of them. Where `count` is 0, nothing changes. In constant time.
    pub fn give_chain(&mut self, first: BlockId, last: BlockId, count: u32)
        requires live { All (IsLive self.old) (chain_in self.old count first) }
        requires once { AllPairs (λ a b. a ≢ b) (chain_in self.old count first) }
        requires last { 0 < count → last ≡ slice_index (chain_in self.old count first) (count - 1) }
        ensures freed { self.new ≡ vacated (chain_in self.old count first) self.old }
    {
        if count == 0 {
            return;
        }
        let head = self.head;
        links::link_to(self.region.block_mut(last.number() as usize), head);
        self.head = first.number();
        self.listed += count;
    }

    /// Shows the octets of a live block: 8 for its owner's links, and the payload after them. In constant time.
    pub fn bytes(&self, block: BlockId) -> &Block
        requires live { IsLive self.now block }
        ensures octets { octets_at self.now block ≡ Some result.now }
        ensures whole { length result.now ≡ 128 }
    {
        self.region.block(block.number() as usize)
    }

    /// Lends the octets of a live block. A write to them changes no other block. In constant time.
    pub fn bytes_mut(&mut self, block: BlockId) -> &mut Block
        requires live { IsLive self.old block }
        ensures* writes_back { sem 𝓛 (LendsOctets self.entry block result) }
        ensures octets { octets_at self.old block ≡ Some result.now }
        ensures whole { length result.now ≡ 128 }
    {
        self.region.block_mut(block.number() as usize)
    }

    /// Copies `len` octets of the payload of `from`, from the offset `from_at` on, over those of the payload of `to`,
    /// from the offset `to_at` on. Offsets count within the payload, from 0 to 119. The two blocks may be the same, and
    /// the two ranges in it may overlap.
    ///
    /// The octets go straight from block to block, with no buffer: `copy_from_slice` copies them between two blocks
    /// that are lent at the same time, and `copy_within` inside one block. In time linear in `len`.
    pub fn copy_payload(
        &mut self,
        from: BlockId,
        from_at: usize,
        to: BlockId,
        to_at: usize,
        len: usize,
    )
        requires from_live { IsLive self.old from }
        requires to_live { IsLive self.old to }
        requires from_within { from_at + len ≤ 120 }
        requires to_within { to_at + len ≤ 120 }
        ensures target { self.new ≡ with_block self.old to
            (copied (octets_of self.old from) from_at (octets_of self.old to) to_at len) }
    {
        let from = from.number() as usize;
        let to = to.number() as usize;
        self.region.copy_payload(from, from_at, to, to_at, len);
    }

    /// Returns how many blocks are free: the capacity less the number of live blocks. In constant time.
    pub fn free(&self) -> u32
        ensures free { result ≡ free_count self.now }
        ensures within { result ≤ length self.now }
        ensures capacity { (0 < length self.now) × (length self.now ≤ 65536) }
    {
        self.listed + (self.capacity - self.made)
    }
}

impl Drop for Arena {
    fn drop(self) {
        let Arena {
            alloc,
            region,
            capacity: _,
            made: _,
            head: _,
            listed: _,
        } = self;
        region.release(&alloc);
    }
}
