//! Why a list of filestore requests is refused.

ghost use Rattle.std.specs.Prelude.{◌≡◌};
ghost use Rattle.cfdp_verifier.specs.declared.refusal.NotGranted.TheVariants.{Memory};

use cfdp_status::{Status, TransactionId};
use std::alloc::{AllocError, AllocFailed};

/// A name of a proposal.
#[derive(Clone, Copy, Debug, PartialEq, Eq)]
pub enum Place {
    /// That of the file's destination.
    Destination,
    /// A name of the request with this number, counted from 0.
    Request(u8),
}

/// Why a list of filestore requests is refused, in the order in which it is tested. Numbers above 4,294,967,295 are
/// given as that.
#[derive(Clone, Copy, Debug, PartialEq, Eq)]
pub enum Refusal {
    /// There are more than 64 requests.
    TooManyRequests,
    /// The first name that is no path: the destination's, and then those of the requests in order.
    BadPath(Place),
    /// The first transaction in order of admission whose leased paths are in the way.
    Conflict(TransactionId),
    /// The file can't be installed at its destination as things are.
    DestinationNotAllowed,
    /// The requests before the one with this number are successful, and that one has this status.
    WouldFail(u8, Status),
    /// The list may take this many steps, which is more than 65,536.
    TooLong(u32),
    /// The list may take this many blocks, and only this many are to spare.
    NoRoom(u32, u32),
}

/// Why a list isn't granted.
#[derive(Clone, Copy, Debug)]
pub enum NotGranted {
    /// It is refused.
    Refused(Refusal),
    /// There was no memory to judge it.
    Memory,
}

impl From<AllocError> for NotGranted {
    ghost from_gives = { λ _ fault. fault ≡ Memory };

    fn from(_refusal: AllocError) -> NotGranted {
        Self::Memory
    }
}

impl<T: Drop> From<AllocFailed<T>> for NotGranted {
    ghost from_gives = { λ _ fault. fault ≡ Memory };

    fn from(_refusal: AllocFailed<T>) -> NotGranted {
        Self::Memory
    }
}
