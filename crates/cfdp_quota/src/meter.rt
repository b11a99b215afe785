//! The steps of one transaction.
ghost use Rattle.std.specs.Prelude.{◌≡◌, ◌+◌, ◌≤◌};
ghost use Rattle.cfdp_quota.specs.Steps.{left};

use std::marker::Model;

/// The steps granted to one transaction: those that it has spent and those that it has left.
#[derive(Clone, Copy, Debug, PartialEq, Eq)]
pub struct Meter {
    granted: u32,
    spent: u32,
}

impl Model for Meter {
    ghost use Rattle.std.specs.Prelude.{◌≤◌};
    ghost use Rattle.cfdp_quota.specs.Steps.{Steps};

    ghost Value = { Steps };

    ghost view = { λ m. record { granted = m.granted; spent = m.spent } };

    ghost invariant = { λ m. m.spent ≤ m.granted };

    ghost inverse = { λ s. record { granted = s.granted; spent = s.spent } };
}

impl Meter {
    /// A meter of `granted` steps, none of them spent.
    pub const fn new(granted: u32) -> Meter
        ensures { result ≡ record { granted = granted; spent = 0 } }
    {
        Meter { granted, spent: 0 }
    }

    /// Spends `n` of the steps that are left.
    pub fn spend(&mut self, n: u32)
        requires { n ≤ left self.old }
        ensures spent { self.new.spent ≡ self.old.spent + n }
        ensures granted { self.new.granted ≡ self.old.granted }
        ensures left { left self.new + n ≡ left self.old }
    {
        self.spent += n;
    }

    /// The steps that may still be spent.
    pub fn left(&self) -> u32
        ensures left { result ≡ left self.now }
        ensures rest { self.now.spent + result ≡ self.now.granted }
    {
        self.granted - self.spent
    }

    /// The steps spent so far.
    pub fn spent(&self) -> u32
        ensures spent { result ≡ self.now.spent }
        ensures within { result ≤ self.now.granted }
    {
        self.spent
    }
}
