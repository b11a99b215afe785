//! Names of transactions in order. The table of actions and statuses is tried by `.ci/show`, each octet of it.

use super::{Row, all_hold};
use cfdp_status::TransactionId;
use std::alloc::{AllocError, Global};

// The sources and the numbers of two transactions, of which the first comes before the second.
type Ordered = [(u64, u64); 2];

// The names are ordered by their sources, and where these are equal by their numbers.
static ORDERED: [(&str, Ordered); 4] = [
    (
        "equal sources, and the second number is greater",
        [(1, 26), (1, 27)],
    ),
    (
        "the second source is greater, and its number less",
        [(1, 27), (2, 0)],
    ),
    ("the greatest source", [(2, 0), (u64::MAX, 0)]),
    ("the greatest number", [(u64::MAX, 0), (u64::MAX, u64::MAX)]),
];

fn name((source, number): (u64, u64)) -> TransactionId {
    TransactionId { source, number }
}

impl Row for Ordered {
    fn holds(&self, _: Global) -> Result<bool, AllocError> {
        Ok(name(self[0]) < name(self[1]))
    }
}

#[test]
fn transactions_in_order(rt: HostRuntime) {
    all_hold(&rt, rt.alloc(), &ORDERED);
}
