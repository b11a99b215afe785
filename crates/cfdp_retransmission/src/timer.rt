//! A timer that counts how often it expired.

ghost use Rattle.std.specs.Prelude.{◌≡◌, ◌<◌, ◌+◌, ◌^◌, nat_le};
ghost use Rattle.cfdp_retransmission.specs.Timers.{served_timer, expiry, passed, restarted};
ghost use Rattle.cfdp_retransmission.specs.declared.timer.Expiry.TheVariants.{Again};

/// A timer: the moment from which it runs, and how often it expired in a row. Moments and intervals are in ticks of the
/// caller's clock.
#[derive(Clone, Copy, Debug, PartialEq, Eq)]
pub struct Timer {
    /// The moment from which it runs.
    pub since: u64,
    /// How often it expired since something new came.
    pub count: u64,
}

/// Whether a timer has expired at a moment.
#[derive(Clone, Copy, Debug, PartialEq, Eq)]
pub enum Expiry {
    /// It has not.
    NotDue,
    /// It has, and the limit is not reached.
    Again,
    /// It has, and this expiry reaches the limit.
    Limit,
}

impl Timer {
    /// A timer that begins now.
    pub fn start(now: u64) -> Timer
        ensures { result ≡ restarted now }
    {
        Timer {
            since: now,
            count: 0,
        }
    }

    /// Whether it has expired at the moment `now`: `interval` ticks after it began or later. A moment before it began
    /// is no fault: it is not due then. In constant time.
    pub fn is_due(&self, interval: u64, now: u64) -> bool
        ensures { result ≡ nat_le (self.now.since + interval) now }
    {
        match now.checked_sub(self.since) {
            Some(elapsed) => elapsed >= interval,
            None => false,
        }
    }

    /// Whether it has expired at the moment `now`, as [`Timer::is_due`] says. The expiry with the number `limit` in a
    /// row reaches the limit. In constant time.
    pub fn expiry(&self, interval: u64, limit: u64, now: u64) -> Expiry
        ensures { result ≡ expiry interval limit now self.now }
    {
        if !self.is_due(interval, now) {
            return Expiry::NotDue;
        }
        if limit.saturating_sub(1) <= self.count {
            Expiry::Limit
        } else {
            Expiry::Again
        }
    }

    /// The timer begun anew, with one expiry more in its count. In constant time.
    pub fn again(&self, now: u64) -> Timer
        requires { self.now.count + 1 < 2 ^ 64 }
        ensures { result ≡ passed now self.now Again }
    {
        Timer {
            since: now,
            count: self.count + 1,
        }
    }

    /// Serves the timer at the moment `now`, and returns whether it had expired. Then it begins anew, with one expiry
    /// more in its count, or with none where the limit was reached. Otherwise it stays as it is. In constant time.
    pub fn serve(&mut self, interval: u64, limit: u64, now: u64) -> Expiry
        ensures expiry { result ≡ expiry interval limit now self.old }
        ensures timer { self.new ≡ served_timer interval limit now self.old }
    {
        let expiry = self.expiry(interval, limit, now);
        match expiry {
            Expiry::NotDue => {}
            Expiry::Again => *self = self.again(now),
            Expiry::Limit => *self = Timer::start(now),
        }
        expiry
    }
}
