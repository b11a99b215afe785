//! The name of a block.
ghost use Rattle.std.specs.Prelude.{◌≡◌};

use std::marker::Model;

/// The number of a block in its arena, counted from 0. A clause sees the number.
///
/// Any number makes a `BlockId`: the calls of an arena need the block to be live in that arena.
#[derive(Clone, Copy, Debug, PartialEq, Eq)]
pub struct BlockId {
    number: u32,
}

impl Model for BlockId {
    ghost use Rattle.std.specs.Prelude.{ℕ};

    ghost Value = { ℕ };

    ghost view = { λ b. b.number };

    ghost inverse = { λ n. record { number = n } };
}

impl BlockId {
    /// Returns the block of this number. It undoes `number`.
    pub fn of_number(number: u32) -> BlockId
        ensures same_number { result ≡ number }
    {
        BlockId { number }
    }

    /// Returns the block's number. It undoes `of_number`.
    pub fn number(self) -> u32
        ensures same_number { result ≡ self }
    {
        self.number
    }
}
