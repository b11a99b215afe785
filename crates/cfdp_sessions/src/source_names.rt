//! The sequence numbers of the transactions of one source that were closed last.

ghost use Rattle.std.specs.Prelude.{◌≡◌, ◌≤◌, ◌+◌, length, IfOk};
ghost use Rattle.cfdp_sessions.specs.Closed.{has_in, has_number, no_names, with_number};

use crate::closed::MOST_CLOSED;
use std::alloc::{AllocError, Global};
use std::collections::VecDeque;
use std::marker::Model;

/// The numbers of one source: 256 at most. Only [`SourceNames::new`] takes memory.
#[derive(Drop)]
pub(crate) struct SourceNames {
    /// The source entity ID.
    pub(crate) source: u64,
    /// The numbers of transactions that changed the filestore, the last one first.
    changed: VecDeque<u64>,
    /// The numbers of transactions that changed nothing, the last one first.
    idle: VecDeque<u64>,
}

impl Model for SourceNames {
    ghost use Rattle.std.specs.Prelude.{◌≤◌};
    ghost use Rattle.std.specs.VecDeque.{deque_len, deque_capacity};
    ghost use Rattle.cfdp_sessions.specs.Closed.{SourceFields};

    ghost Value = { SourceFields };

    ghost view = { λ s. record { source = s.source; changed = s.changed.items; idle = s.idle.items } };

    ghost invariant = { λ s. (deque_len s.changed ≤ 256) × (256 ≤ deque_capacity s.changed) × (deque_len s.idle ≤ 256)
        × (256 ≤ deque_capacity s.idle) };
}

/// Whether a number is one of these.
fn has_in(numbers: &VecDeque<u64>, number: u64) -> bool
    ensures { result ≡ has_in numbers.now.items number }
{
    numbers.iter().any(|n| *n == number)
}

impl SourceNames {
    /// No number, and the memory of 256 of each kind.
    pub(crate) fn new(alloc: Global) -> Result<SourceNames, AllocError>
        ensures { IfOk result (λ names. names ≡ no_names 0) }
    {
        Ok(SourceNames {
            source: 0,
            changed: VecDeque::with_capacity(alloc, MOST_CLOSED)?,
            idle: VecDeque::with_capacity(alloc, MOST_CLOSED)?,
        })
    }

    /// Makes it the one of this source, without a number.
    pub(crate) fn begin(&mut self, source: u64)
        ensures { self.new ≡ no_names source }
    {
        self.source = source;
        self.changed.clear();
        self.idle.clear();
    }

    /// Whether a number is one of them.
    pub(crate) fn has(&self, number: u64) -> bool
        ensures { result ≡ has_number self.now number }
    {
        has_in(&self.changed, number) || has_in(&self.idle, number)
    }

    /// How many there are.
    pub(crate) fn len(&self) -> usize
        ensures { result ≡ length self.now.changed + length self.now.idle }
    {
        self.changed.len() + self.idle.len()
    }

    /// Adds the number of a transaction that is closed. At most `most` are kept: the oldest ones are dropped that are
    /// too many, and first those of transactions that changed nothing.
    pub(crate) fn add(&mut self, most: usize, has_changed: bool, number: u64)
        requires some { 1 ≤ most }
        requires few { most ≤ 256 }
        ensures { self.new ≡ with_number most has_changed number self.old }
    {
        let room = most - 1;
        let idle = room.saturating_sub(self.changed.len());
        self.changed.truncate(room);
        self.idle.truncate(idle);
        if has_changed {
            self.changed.push_front_reserved(number);
        } else {
            self.idle.push_front_reserved(number);
        }
    }
}
