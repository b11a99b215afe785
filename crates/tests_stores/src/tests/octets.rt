//! What is read and written octet by octet. Each module has the tests of one crate.

mod checksums;
mod paths;
mod pdus;
mod quotas;
mod statuses;
mod tlvs;

use std::alloc::{AllocError, Global};
use std::process::Abort;

/// A row of a table of worked cases.
pub trait Row {
    /// Whether all is as the row says; `Err` out of memory.
    fn holds(&self, alloc: Global) -> Result<bool, AllocError>;
}

/// Whether a row holds. Where an allocation is refused (`rt try --test --fail-alloc N`), it is tried once more.
fn holds_at_last<T: Row>(alloc: Global, row: &T) -> bool {
    match row.holds(alloc) {
        Err(AllocError) => row.holds(alloc) == Ok(true),
        Ok(holds) => holds,
    }
}

/// Each row holds. Of one that does not the name is reported.
pub fn all_hold<T: Row>(rt: &impl Abort, alloc: Global, rows: &[(&str, T)]) {
    for (name, row) in rows {
        assert!(rt; holds_at_last(alloc, row), "{name}");
    }
}
