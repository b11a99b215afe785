//! The offsets of a file that were received (CCSDS 727.0-B-5, copy file procedures), as ranges.

ghost use Rattle.std.specs.Prelude.{◌≡◌, ◌+◌, ◌≤◌, ◌<◌, nat_le, nat_lt, if◌then◌else◌, List, [], ◌∷◌, ◌++◌, length, IfSome, IfNone, Some, None};
ghost use Rattle.arrayvec.specs.ArrayVec.{array_vec_len};
ghost use Rattle.cfdp_transactions.specs.Pieces.{Range, range, with_range, between};
ghost use Rattle.cfdp_transactions.specs.code.Pieces.{with_pending, pending_count, is_all, end_of, IsNextGap, HasAll};

use arrayvec::ArrayVec;
use std::marker::Model;

/// How many separate pieces of one file may be received at most.
pub(crate) const MOST_PIECES: usize = 32;

/// One more than `MOST_PIECES`: the most gaps around 32 ranges, and the length of a list during an insert.
pub const MOST_GAPS: usize = MOST_PIECES + 1;

/// A start, and an end that is no longer part of it: offsets in octets.
pub type Range = (u64, u64);

/// At most 32 ranges of offsets, in order, none of which is empty or touches another. Contracts see the list of them.
/// No call takes memory, and each goes over the ranges once or twice.
#[derive(Drop)]
pub(crate) struct Ranges {
    ranges: ArrayVec<Range, MOST_GAPS>,
}

impl Model for Ranges {
    ghost use Rattle.std.specs.Prelude.{List, ℕ, ◌≤◌, length};
    ghost use Rattle.cfdp_transactions.specs.ReceivedLaws.{AreRuns};

    ghost Value = { List (ℕ × ℕ) };

    ghost view = { λ r. r.ranges.items };

    ghost invariant = { λ r. AreRuns 0 r.ranges.items × (length r.ranges.items ≤ 32) };
}

impl Ranges {
    /// No octet was received.
    pub(crate) fn new() -> Ranges
        ensures { result ≡ [] }
    {
        Ranges {
            ranges: ArrayVec::new(),
        }
    }

    /// The ranges once the offsets from `start` to `end` are there too: one more range at most.
    fn joined(&self, start: u64, end: u64) -> ArrayVec<Range, MOST_GAPS>
        ensures { result.items ≡ with_range start end self.now }
    {
        let mut joined = ArrayVec::new();
        let mut pending = Some((start, end));
        for range in self.ranges.as_slice() {
            pending = join_next(&mut joined, pending, *range);
        }
        if let Some(last) = pending {
            joined.push(last);
        }
        joined
    }

    /// Whether there is room for the offsets from `start` to `end`: at most 32 ranges with them.
    pub(crate) fn has_room_for(&self, start: u64, end: u64) -> bool
        ensures { result ≡ nat_le (length (with_range start end self.now)) 32 }
    {
        self.joined(start, end).len() <= MOST_PIECES
    }

    /// Adds the offsets from `start` to `end`; what they touch becomes one range with them.
    pub(crate) fn insert(&mut self, start: u64, end: u64)
        requires some { start < end }
        requires room { length (with_range start end self.old) ≤ 32 }
        ensures { self.new ≡ with_range start end self.old }
    {
        self.ranges = self.joined(start, end);
    }

    /// The greatest end: 0 where there are none.
    pub(crate) fn end(&self) -> u64
        ensures { result ≡ end_of self.now }
    {
        match self.ranges.as_slice() {
            [] => 0,
            [.., last] => last.1,
        }
    }

    /// Whether all offsets below the size are there, and none past it.
    pub(crate) fn is_whole(&self, size: u64) -> bool
        ensures { result ≡ is_all size self.now }
    {
        match self.ranges.as_slice() {
            [] => size == 0,
            [range] => range.0 == 0 && range.1 == size,
            [_, _, ..] => false,
        }
    }

    /// The first of the offsets from `from` to `to` that are missing, as one longest run; `None` where none is.
    pub(crate) fn next_gap(&self, from: u64, to: u64) -> Option<Range>
        ensures some { IfSome result (IsNextGap self.now from to) }
        ensures none { IfNone result (HasAll self.now from to) }
    {
        let mut at = from;
        for range in self.ranges.as_slice() {
            if at < range.0 {
                return run(at, range.0.min(to));
            }
            at = at.max(range.1);
        }
        run(at, to)
    }

    /// What is missing between the ranges, from offset 0 up to the limit (CCSDS 727.0-B-5, lost segment procedures).
    pub(crate) fn gaps(&self, limit: u64) -> ArrayVec<Range, MOST_GAPS>
        ensures { result.items ≡ between 0 self.now limit }
    {
        let mut gaps = ArrayVec::new();
        let mut at = 0;
        for range in self.ranges.as_slice() {
            push_run(&mut gaps, at, range.0);
            at = range.1;
        }
        push_run(&mut gaps, at, limit);
        gaps
    }
}

/// Puts the next range after those that are joined: it becomes one with the pending range where they touch, and a
/// pending range that ends before it is put first. Returns what is pending then.
fn join_next(
    joined: &mut ArrayVec<Range, MOST_GAPS>,
    pending: Option<Range>,
    range: Range,
) -> Option<Range>
    requires { array_vec_len joined.old + (pending_count pending + 1) ≤ 33 }
    ensures joined { (rest : List Range) → joined.new.items ++ with_pending result rest ≡ joined.old.items
        ++ with_pending pending (range ∷ rest) }
    ensures count { array_vec_len joined.new + pending_count result ≤ array_vec_len joined.old +
        (pending_count pending + 1) }
{
    match pending {
        None => {
            joined.push(range);
            None
        }
        Some((start, end)) => {
            if range.1 < start {
                joined.push(range);
                Some((start, end))
            } else if end < range.0 {
                joined.push((start, end));
                joined.push(range);
                None
            } else {
                Some((start.min(range.0), end.max(range.1)))
            }
        }
    }
}

/// The offsets from `start` to `end`, if there are any.
fn run(start: u64, end: u64) -> Option<Range>
    ensures { result ≡ (if nat_lt start end then Some (start, end) else None) }
{
    if start < end {
        Some((start, end))
    } else {
        None
    }
}

/// Adds the offsets from `start` to `end`, if there are any.
fn push_run(runs: &mut ArrayVec<Range, MOST_GAPS>, start: u64, end: u64)
    requires { array_vec_len runs.old + 1 ≤ 33 }
    ensures runs { (rest : List Range) → runs.new.items ++ rest ≡ runs.old.items ++ range start end rest }
    ensures count { array_vec_len runs.new ≤ array_vec_len runs.old + 1 }
{
    if start < end {
        runs.push((start, end));
    }
}
