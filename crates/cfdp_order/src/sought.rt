//! What a search looks for, by comparisons.
ghost use Rattle.std.specs.Prelude.{◌≡◌, ℕ};
ghost use Rattle.std.specs.declared.cmp.Ordering.{Ordering};

use std::cmp::Ordering;

/// What a search looks for, and how it compares a node with that.
///
/// A search finds the right index if the order is sorted for what is sought: the nodes that come before it are the
/// first ones, and those that come after it are the last ones. In any other order it may miss the index, and does no
/// harm.
///
/// For clauses, `can_compare` says which nodes it compares, and `side` what each comparison returns.
pub trait Sought {
    ghost can_compare: { Self → ℕ → Type 0 };

    ghost side: { Self → ℕ → Ordering };

    /// Whether a node comes before what is sought (`Less`), is the sought one itself (`Equal`), or comes after it
    /// (`Greater`).
    fn compare(&self, node: u16) -> Ordering
        requires { can_compare self.now node }
        ensures { result ≡ side self.now node };
}
