//! Octets in the middle of a staged list that were never written.
ghost use Rattle.std.specs.Prelude.{◌≡◌, ◌⊎◌, ◌↔◌, ◌-◌, ◌≤◌, max, min, IsTrue};
ghost use Rattle.cfdp_tree.specs.code.Slots.{no_gap};

/// A range of offsets of a staged list at which no octet was ever written, though octets after it were: there are zeros
/// from the offset `from` up to `to`. It may be empty.
#[derive(Clone, Copy)]
pub(crate) struct Gap {
    pub(crate) from: usize,
    pub(crate) to: usize,
}

impl Gap {
    /// No offsets.
    pub(crate) fn empty() -> Gap
        ensures { result ≡ no_gap }
    {
        Gap { from: 0, to: 0 }
    }

    /// Whether the offsets from `at` up to `end` are all in the gap.
    pub(crate) fn covers(&self, at: usize, end: usize) -> bool
        ensures { IsTrue result ↔ ((self.now.from ≤ at) × (end ≤ self.now.to)) }
    {
        self.from <= at && end <= self.to
    }

    /// The longer one of two gaps.
    pub(crate) fn longer(self, other: Gap) -> Gap
        requires ordered { self.from ≤ self.to }
        requires other_ordered { other.from ≤ other.to }
        ensures either { (result ≡ self) ⊎ (result ≡ other) }
        ensures long { self.to - self.from ≤ result.to - result.from }
        ensures other_long { other.to - other.from ≤ result.to - result.from }
    {
        if self.to - self.from < other.to - other.from {
            other
        } else {
            self
        }
    }

    /// What is left of the gap once octets are written from the offset `at` up to `end`: the longer one of what is
    /// before them and what is after them.
    pub(crate) fn without(self, at: usize, end: usize) -> Gap
        requires ordered { self.from ≤ self.to }
        ensures ordered { result.from ≤ result.to }
        ensures begins { self.from ≤ result.from }
        ensures ends { result.to ≤ self.to }
        ensures apart { (result.to ≤ at) ⊎ ((end ≤ result.from) ⊎ (result.from ≡ result.to)) }
        ensures before { min self.to at - self.from ≤ result.to - result.from }
        ensures after { self.to - max self.from end ≤ result.to - result.from }
    {
        let before = Gap {
            from: self.from,
            to: self.to.min(at).max(self.from),
        };
        let after = Gap {
            from: self.from.max(end).min(self.to),
            to: self.to,
        };
        before.longer(after)
    }
}
