//! The clock of the system, in milliseconds since the program looked at it first.

use crate::end::End;
use std::rt::Clock;
use std::time::Instant;

/// The clock. It never goes back.
#[derive(Clone, Copy)]
pub struct MillisecondClock {
    start: Instant,
    latest: u64,
}

impl MillisecondClock {
    /// Begins at 0.
    pub fn start<R: AllocGlobal + Clock>(rt: &R) -> Result<MillisecondClock, End> {
        match Instant::now(rt) {
            Ok(start) => Ok(MillisecondClock { start, latest: 0 }),
            Err(_) => {
                let said = String::from_str(rt.alloc(), "the clock cannot be read")?;
                Err(End::Failed(said.into_bytes()))
            }
        }
    }

    /// The present time. A clock that fails stops.
    pub fn now<R: Clock>(&mut self, rt: &R) -> u64 {
        if let Ok(passed) = self.start.elapsed(rt) {
            let millis = u64::try_from(passed.as_millis()).unwrap_or(u64::MAX);
            self.latest = self.latest.max(millis);
        }
        self.latest
    }
}
