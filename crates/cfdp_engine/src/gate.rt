//! The hook that a worker runs for each message.

use std::sync::Wait;

/// A hook that a worker runs for each message, after it took it and before it hands in its events. It may block; no
/// lock is held.
pub trait Gate {
    /// Lets the seat with this number pass with its message of this number, counted from 0; after 2⁶⁴ - 1 that number
    /// stays.
    fn pass<R: Wait>(&self, rt: &R, seat: u8, turn: u64);
}
