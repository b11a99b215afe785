//! Timers at the moments around their expiry, and a NAK sequence that is cut into PDUs.

ghost use Rattle.std.specs.Prelude.{◌<◌, ◌+◌, ◌^◌, ◌≤◌};

use cfdp_directives::NakRange;
use cfdp_retransmission::{Expiry, NakPart, Timer, next_nak};

/// A timer of 10 ticks with the limit 3, and what it is at a moment.
struct TimerRow {
    name: &'static str,
    since: u64,
    count: u64,
    now: u64,
    expiry: Expiry,
    after: Timer,
}

static MOMENTS: [TimerRow; 9] = [
    TimerRow {
        name: "it has just begun",
        since: 5,
        count: 0,
        now: 5,
        expiry: Expiry::NotDue,
        after: Timer { since: 5, count: 0 },
    },
    TimerRow {
        name: "one tick before it expires",
        since: 5,
        count: 0,
        now: 14,
        expiry: Expiry::NotDue,
        after: Timer { since: 5, count: 0 },
    },
    TimerRow {
        name: "it expires",
        since: 5,
        count: 0,
        now: 15,
        expiry: Expiry::Again,
        after: Timer {
            since: 15,
            count: 1,
        },
    },
    TimerRow {
        name: "it expired long ago: it begins anew at the present moment",
        since: 5,
        count: 1,
        now: 1_000,
        expiry: Expiry::Again,
        after: Timer {
            since: 1_000,
            count: 2,
        },
    },
    TimerRow {
        name: "the third expiry reaches the limit",
        since: 5,
        count: 2,
        now: 15,
        expiry: Expiry::Limit,
        after: Timer {
            since: 15,
            count: 0,
        },
    },
    TimerRow {
        name: "the limit is not reached before the interval passed",
        since: 5,
        count: 2,
        now: 14,
        expiry: Expiry::NotDue,
        after: Timer { since: 5, count: 2 },
    },
    TimerRow {
        name: "it expired as often as can be counted",
        since: 5,
        count: u64::MAX,
        now: 15,
        expiry: Expiry::Limit,
        after: Timer {
            since: 15,
            count: 0,
        },
    },
    TimerRow {
        name: "a moment before it began",
        since: 5,
        count: 0,
        now: 4,
        expiry: Expiry::NotDue,
        after: Timer { since: 5, count: 0 },
    },
    TimerRow {
        name: "a deadline past the greatest moment",
        since: u64::MAX - 9,
        count: 0,
        now: u64::MAX,
        expiry: Expiry::NotDue,
        after: Timer {
            since: u64::MAX - 9,
            count: 0,
        },
    },
];

#[test]
fn timers(rt: HostRuntime) {
    for row in &MOMENTS {
        let mut timer = Timer {
            since: row.since,
            count: row.count,
        };
        assert!(rt;
            timer.is_due(10, row.now) == (row.expiry != Expiry::NotDue),
            "{}: due",
            row.name
        );
        assert!(rt;
            timer.expiry(10, 3, row.now) == row.expiry,
            "{}: expiry",
            row.name
        );
        assert!(rt;
            timer.serve(10, 3, row.now) == row.expiry,
            "{}: served",
            row.name
        );
        assert!(rt; timer == row.after, "{}: the timer after it", row.name);
    }
}

#[test]
fn a_limit_of_at_most_one(rt: HostRuntime) {
    for limit in [0, 1] {
        let mut timer = Timer::start(7);
        assert!(rt;
            timer.serve(1, limit, 7) == Expiry::NotDue,
            "limit {limit}: not due"
        );
        assert!(rt;
            timer.serve(1, limit, 8) == Expiry::Limit,
            "limit {limit}: reached"
        );
        assert!(rt; timer == Timer::start(8), "limit {limit}: begun anew");
    }
}

#[test]
fn again_counts_one_more(rt: HostRuntime) {
    let timer = Timer { since: 5, count: 2 }.again(40);
    assert!(rt;
        timer
            == Timer {
                since: 40,
                count: 3
            },
        "a timer of 5 that expires the third time at 40"
    );
}

/// A sequence from one offset to another, and its PDUs: the scope of each, and how many requests it has.
struct Sequence {
    name: &'static str,
    requests: &'static [NakRange],
    low: u64,
    high: u64,
    most: usize,
    pdus: &'static [(NakRange, usize)],
}

static SEQUENCES: [Sequence; 6] = [
    Sequence {
        name: "nothing is missing: one PDU without requests",
        requests: &[],
        low: 0,
        high: 15,
        most: 1,
        pdus: &[((0, 15), 0)],
    },
    Sequence {
        name: "two gaps in one PDU",
        requests: &[(0, 4), (8, 15)],
        low: 0,
        high: 15,
        most: 34,
        pdus: &[((0, 15), 2)],
    },
    Sequence {
        name: "two gaps, one request in each PDU",
        requests: &[(0, 4), (8, 15)],
        low: 0,
        high: 15,
        most: 1,
        pdus: &[((0, 4), 1), ((4, 15), 1)],
    },
    Sequence {
        name: "as many requests as fit",
        requests: &[(0, 4), (8, 15)],
        low: 0,
        high: 15,
        most: 2,
        pdus: &[((0, 15), 2)],
    },
    Sequence {
        name: "one more than fit in two PDUs",
        requests: &[(1, 2), (3, 4), (5, 6), (7, 8), (9, 10)],
        low: 1,
        high: 12,
        most: 2,
        pdus: &[((1, 4), 2), ((4, 8), 2), ((8, 12), 1)],
    },
    Sequence {
        name: "the Metadata PDU and all of the file",
        requests: &[(0, 0), (0, 15)],
        low: 0,
        high: 15,
        most: 1,
        pdus: &[((0, 0), 1), ((0, 15), 1)],
    },
];

impl Sequence {
    /// Whether the PDUs of the sequence are those of the row, and together have its requests in order.
    fn is_cut(&self) -> bool {
        let mut low = self.low;
        let mut rest = self.requests;
        let mut seen = 0;
        for (n, (scope, count)) in self.pdus.iter().enumerate() {
            let NakPart {
                scope: cut,
                requests,
                rest: more,
            } = next_nak(rest, low, self.high, self.most.max(1));
            let same = self.requests.iter().skip(seen).zip(requests);
            let is_last = n + 1 == self.pdus.len();
            if cut != *scope
                || requests.len() != *count
                || same.filter(|(a, b)| a != b).count() != 0
                || more.is_empty() != is_last
            {
                return false;
            }
            seen = seen.saturating_add(requests.len());
            low = cut.1;
            rest = more;
        }
        seen == self.requests.len()
    }
}

#[test]
fn sequences(rt: HostRuntime) {
    for row in &SEQUENCES {
        assert!(rt; row.is_cut(), "{}", row.name);
    }
}
