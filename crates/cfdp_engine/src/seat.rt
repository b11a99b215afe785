//! Seats: those who hand in events.

ghost use Rattle.std.specs.Prelude.{◌≡◌, []};

use crate::receipt::Receipt;
use std::alloc::Global;
use std::marker::Model;

/// One who hands in events, under a number, with the receipts of those that were taken, in the order in which they
/// were.
#[derive(Drop)]
pub struct Seat {
    pub(crate) number: u8,
    pub(crate) receipts: Vec<Receipt>,
}

impl Model for Seat {
    ghost use Rattle.cfdp_engine.specs.Seats as words;

    ghost Value = { words.Seated };

    ghost view = { λ s. record { number = s.number; receipts = s.receipts.items } };
}

impl Seat {
    /// A seat with this number, any octet, and no receipts. Allocates nothing.
    pub fn new(alloc: Global, number: u8) -> Seat
        ensures number { result.number ≡ number }
        ensures receipts { result.receipts ≡ [] }
    {
        Seat {
            number,
            receipts: Vec::new(alloc),
        }
    }

    /// Its number.
    pub fn number(&self) -> u8
        ensures { result ≡ self.now.number }
    {
        self.number
    }

    /// Its receipts, the oldest first.
    pub fn receipts(&self) -> &[Receipt]
        ensures { result.now ≡ self.now.receipts }
    {
        &self.receipts
    }
}
