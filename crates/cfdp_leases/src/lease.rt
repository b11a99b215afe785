//! The two ways to hold a path.

/// How a footprint holds a path.
#[derive(Clone, Copy, Debug, PartialEq, Eq)]
pub enum Lease {
    /// Nobody else may change what is at the path or below it, or rely on it.
    Exclusive,
    /// Nobody may change what is at the path, but others may rely on it too.
    Shared,
}
