//! The Finished PDU that is kept beside the sessions.

ghost use Rattle.std.specs.Prelude.{◌≡◌, ◌≤◌, [], length, vec_len};
ghost use Rattle.cfdp_transactions.specs.Writable.{longest_finished};

use std::alloc::Global;
use std::marker::Model;

/// A Finished PDU that awaits no acknowledgement closes its transaction at once. These are the octets of the last one:
/// none before the first, at most 16,488.
#[derive(Drop)]
pub(crate) struct LastFinished {
    octets: Vec<u8>,
}

impl Model for LastFinished {
    ghost use Rattle.std.specs.Prelude.{ℕ, List, ◌≤◌, vec_len};
    ghost use Rattle.cfdp_transactions.specs.Writable.{longest_finished};

    ghost Value = { List ℕ };

    ghost view = { λ c. c.octets.items };

    ghost invariant = { λ c. vec_len c.octets ≤ longest_finished };
}

impl LastFinished {
    /// No octets.
    pub(crate) fn none(alloc: Global) -> LastFinished
        ensures { result ≡ [] }
    {
        LastFinished {
            octets: Vec::new(alloc),
        }
    }

    /// These octets.
    pub(crate) fn of(octets: Vec<u8>) -> LastFinished
        requires { vec_len octets ≤ longest_finished }
        ensures { result ≡ octets.items }
    {
        LastFinished { octets }
    }

    /// Its octets.
    pub(crate) fn octets(&self) -> &[u8]
        ensures octets { result.now ≡ self.now }
        ensures short { length result.now ≤ longest_finished }
    {
        &self.octets
    }
}
