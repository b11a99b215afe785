//! How long a work takes, so that one that takes long can say how far it is.

use std::io;
use std::rt::Clock;
use std::time::{Duration, Instant};

/// How many seconds a work may take before it says how far it is, and between two times that it does.
const PATIENCE: u64 = 1;

/// How long a work took so far.
#[derive(Clone, Copy)]
pub struct Elapsed {
    total: Duration,
    /// When it says next how far it is.
    due: Duration,
}

/// How far a work is.
#[derive(Clone, Copy)]
pub struct ProgressReport {
    /// How many of its parts are done.
    pub done: usize,
    /// How many there are.
    pub count: usize,
    /// What the parts are, and what is done to them.
    pub what: &'static str,
}

impl Elapsed {
    /// No time.
    pub fn new() -> Elapsed {
        Elapsed {
            total: Duration::ZERO,
            due: Duration::from_secs(PATIENCE),
        }
    }

    /// Adds the time since a moment. Returns how many seconds the work took so far, if it is time to say how far it is:
    /// more than one second, and a second or more after it was said last. A clock that fails counts as no time.
    pub fn add<R: Clock>(&mut self, rt: &R, since: Instant) -> Option<u64> {
        let taken = since.elapsed(rt).unwrap_or(Duration::ZERO);
        self.total = self.total.checked_add(taken).unwrap_or(self.total);
        if self.total < self.due {
            return None;
        }
        let patience = Duration::from_secs(PATIENCE);
        self.due = self.total.checked_add(patience).unwrap_or(Duration::MAX);
        Some(self.total.as_secs())
    }

    /// Adds the time since a moment, and says on standard error how far the work on what has this name is, if it is
    /// time to.
    pub fn tell<R: Clock + Eprint>(
        &mut self,
        rt: &R,
        since: io::Result<Instant>,
        name: &str,
        progress: ProgressReport,
    ) {
        let Ok(since) = since else {
            return;
        };
        if let Some(seconds) = self.add(rt, since) {
            let ProgressReport { done, count, what } = progress;
            // Where standard error cannot be written, nothing is said.
            let _ = eprintln!(rt; "cfdp: {name}: {done} of {count} {what} after {seconds} s");
        }
    }
}
