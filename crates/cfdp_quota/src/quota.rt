//! The blocks of a filestore, and what of them is reserved.
ghost use Rattle.std.specs.Prelude.{◌≡◌, ◌+◌, ◌<◌, ◌≤◌, ◌↔◌, IsTrue, Some};
ghost use Rattle.cfdp_quota.specs.Budget.{IsBalanced, IsOpen, closing, entry_at, giving, reserve_at, reserved, reserving, spare, taking, unreserved, untouched, used};

use std::marker::Model;

/// How many slots have reserves.
pub const SLOTS: usize = 64;

/// The blocks of a filestore: how many there are, how many are free, and how many of the free ones are reserved
/// for the transaction in each slot. A slot is closed or has a reserve of 0 or more blocks. The spare blocks and
/// all reserves together are always the free blocks.
#[derive(Debug, Drop)]
pub struct Quota {
    capacity: u32,
    used: u32,
    spare: u32,
    reserves: [Option<u32>; SLOTS],
}

impl Model for Quota {
    ghost use Rattle.std.specs.Prelude.{◌≡◌, ◌+◌, ◌-◌, ◌≤◌, length, sum_by};
    ghost use Rattle.cfdp_quota.specs.Budget.{Budget, reserve_of};

    ghost Value = { Budget };

    ghost view = { λ q. record { capacity = q.capacity; free = q.capacity - q.used; reserves = q.reserves } };

    ghost invariant = { λ q. (q.used + (q.spare + sum_by reserve_of q.reserves) ≡ q.capacity)
        × (length q.reserves ≡ 64) };
}

impl Quota {
    /// `capacity` blocks, all of them free and spare, every slot closed.
    pub fn new(capacity: u32) -> Quota
        ensures { result ≡ untouched capacity }
    {
        Quota {
            capacity,
            used: 0,
            spare: capacity,
            reserves: [None; SLOTS],
        }
    }

    /// `capacity` blocks, of which `free` are free and spare and the others are in use, every slot closed.
    pub fn with_free(capacity: u32, free: u32) -> Quota
        requires { free ≤ capacity }
        ensures { result ≡ unreserved capacity free }
    {
        Quota {
            capacity,
            used: capacity - free,
            spare: free,
            reserves: [None; SLOTS],
        }
    }

    /// The blocks that are not in use, reserved or not.
    pub fn free(&self) -> u32
        ensures free { result ≡ self.now.free }
        ensures balanced { IsBalanced self.now }
    {
        self.capacity - self.used
    }

    /// The free blocks that no slot has reserved.
    pub fn spare(&self) -> u32
        ensures spare { result ≡ spare self.now }
        ensures rest { result + reserved self.now ≡ self.now.free }
    {
        self.spare
    }

    /// Whether the slot has a reserve, be it of 0 blocks.
    pub fn is_open(&self, slot: u8) -> bool
        requires { slot < SLOTS }
        ensures { IsTrue result ↔ IsOpen self.now slot }
    {
        self.reserves[usize::from(slot)].is_some()
    }

    /// The slot's reserve in blocks: 0 where the slot is closed.
    pub fn reserve_of(&self, slot: u8) -> u32
        requires { slot < SLOTS }
        ensures reserve { result ≡ reserve_at self.now slot }
        ensures within { result ≤ reserved self.now }
    {
        self.reserves[usize::from(slot)].unwrap_or(0)
    }

    /// Opens a slot with a reserve of `n` blocks out of the spare ones.
    pub fn reserve(&mut self, slot: u8, n: u32)
        requires slot { slot < SLOTS }
        requires closed { ¬ IsOpen self.old slot }
        requires room { n ≤ spare self.old }
        ensures reserved { self.new ≡ reserving self.old slot n }
        ensures opened { entry_at self.new slot ≡ Some n }
        ensures spare { spare self.new + n ≡ spare self.old }
    {
        self.spare -= n;
        self.reserves[usize::from(slot)] = Some(n);
    }

    /// Counts `n` blocks of the slot's reserve as in use from now on. The spare blocks stay.
    pub fn took(&mut self, slot: u8, n: u32)
        requires slot { slot < SLOTS }
        requires reserved { n ≤ reserve_at self.old slot }
        ensures taken { self.new ≡ taking self.old slot n }
        ensures spare { spare self.new ≡ spare self.old }
    {
        self.used += n;
        if let Some(reserve) = self.reserves[usize::from(slot)] {
            self.reserves[usize::from(slot)] = Some(reserve - n);
        }
    }

    /// Counts `n` used blocks as given back by the transaction in the slot: they are free, and its reserve grows by
    /// them. The spare blocks stay.
    pub fn gave(&mut self, slot: u8, n: u32)
        requires slot { slot < SLOTS }
        requires open { IsOpen self.old slot }
        requires used { n ≤ used self.old }
        ensures given { self.new ≡ giving self.old slot n }
        ensures spare { spare self.new ≡ spare self.old }
    {
        self.used -= n;
        self.reserves[usize::from(slot)] = Some(self.reserves[usize::from(slot)].unwrap_or(0) + n);
    }

    /// Closes a slot: its reserve is spare from now on. Nothing changes where the slot is closed.
    pub fn close(&mut self, slot: u8)
        requires { slot < SLOTS }
        ensures closed { self.new ≡ closing self.old slot }
        ensures spare { spare self.new ≡ spare self.old + reserve_at self.old slot }
    {
        self.spare += self.reserves[usize::from(slot)].take().unwrap_or(0);
    }
}
