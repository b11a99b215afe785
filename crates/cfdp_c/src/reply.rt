//! A reply as a struct of numbers.
ghost use Rattle.std.specs.Prelude.{◌≡◌};
ghost use Rattle.cfdp_c.specs.Reported.{bare, refusal_fields, reported};
ghost use Rattle.cfdp_c.specs.Numbers.{reply_none, reply_refused, reply_taken};

use crate::numbers;
use cfdp_status::TransactionId;
use cfdp_transactions::Reply;
use cfdp_verifier::{Place, Refusal};

/// A C `struct cfdp_reply`: the kind of a reply, the transaction that it is about, and the numbers that it brings. A
/// number that a kind has no use for is 0.
#[derive(Clone, Copy, Debug, PartialEq, Eq)]
#[repr(C)]
pub struct ReplyFields {
    /// Which reply it is.
    pub kind: u32,
    /// Of a refusal: which of the reasons it is.
    pub refusal: u32,
    /// The blocks granted, or those wanted that are not to spare.
    pub blocks: u32,
    /// The steps granted, or those that are too many.
    pub steps: u32,
    /// The blocks to spare.
    pub spare: u32,
    /// The number of a filestore request, from 0.
    pub request: u32,
    /// The first octet of a filestore response (CCSDS 727.0-B-5 §5.4.2): action code and status code.
    pub status: u32,
    /// A condition code (§5.2.2).
    pub condition: u32,
    /// The source entity ID of the transaction that the reply is about.
    pub source: u64,
    /// Its transaction sequence number.
    pub number: u64,
    /// The source entity ID of the transaction whose paths are in the way.
    pub other_source: u64,
    /// Its transaction sequence number.
    pub other_number: u64,
}

impl ReplyFields {
    /// A reply about a transaction that brings no numbers.
    fn bare(id: TransactionId, kind: u32) -> ReplyFields
        ensures { result ≡ bare id kind }
    {
        ReplyFields {
            kind,
            refusal: numbers::REFUSAL_NONE,
            blocks: 0,
            steps: 0,
            spare: 0,
            request: 0,
            status: 0,
            condition: 0,
            source: id.source,
            number: id.number,
            other_source: 0,
            other_number: 0,
        }
    }

    /// No reply, about a transaction.
    pub(crate) fn none(id: TransactionId) -> ReplyFields
        ensures { result ≡ bare id reply_none }
    {
        ReplyFields::bare(id, numbers::REPLY_NONE)
    }

    /// A refusal for a reason that brings no numbers.
    fn refused(id: TransactionId, refusal: u32) -> ReplyFields
        ensures { result ≡ record (bare id reply_refused) { refusal = refusal } }
    {
        ReplyFields {
            refusal,
            ..ReplyFields::bare(id, numbers::REPLY_REFUSED)
        }
    }

    /// A refusal.
    fn of_refusal(id: TransactionId, refusal: Refusal) -> ReplyFields
        ensures { result ≡ refusal_fields id refusal }
    {
        match refusal {
            Refusal::TooManyRequests => ReplyFields::refused(
                id,
                numbers::REFUSAL_TOO_MANY_REQUESTS,
            ),
            Refusal::BadPath(Place::Destination) => ReplyFields::refused(
                id,
                numbers::REFUSAL_BAD_DESTINATION,
            ),
            Refusal::BadPath(Place::Request(number)) => ReplyFields {
                request: u32::from(number),
                ..ReplyFields::refused(id, numbers::REFUSAL_BAD_REQUEST_PATH)
            },
            Refusal::Conflict(other) => ReplyFields {
                other_source: other.source,
                other_number: other.number,
                ..ReplyFields::refused(id, numbers::REFUSAL_CONFLICT)
            },
            Refusal::DestinationNotAllowed => ReplyFields::refused(
                id,
                numbers::REFUSAL_DESTINATION_NOT_ALLOWED,
            ),
            Refusal::WouldFail(number, status) => ReplyFields {
                request: u32::from(number),
                status: u32::from(status.octet()),
                ..ReplyFields::refused(id, numbers::REFUSAL_WOULD_FAIL)
            },
            Refusal::TooLong(steps) => ReplyFields {
                steps,
                ..ReplyFields::refused(id, numbers::REFUSAL_TOO_LONG)
            },
            Refusal::NoRoom(blocks, spare) => ReplyFields {
                blocks,
                spare,
                ..ReplyFields::refused(id, numbers::REFUSAL_NO_ROOM)
            },
        }
    }

    /// That an outcome with this condition code was taken.
    pub(crate) fn taken(id: TransactionId, condition: u8) -> ReplyFields
        ensures { result ≡ record (bare id reply_taken) { condition = condition } }
    {
        ReplyFields {
            condition: u32::from(condition),
            ..ReplyFields::bare(id, numbers::REPLY_TAKEN)
        }
    }

    /// A reply about a transaction.
    pub(crate) fn of(id: TransactionId, reply: &Reply) -> ReplyFields
        ensures { result ≡ reported id reply.now }
    {
        match reply {
            Reply::Admitted(blocks, steps) => ReplyFields {
                blocks: *blocks,
                steps: *steps,
                ..ReplyFields::bare(id, numbers::REPLY_ADMITTED)
            },
            Reply::Refused(refusal) => ReplyFields::of_refusal(id, *refusal),
            Reply::Stored => ReplyFields::bare(id, numbers::REPLY_STORED),
            Reply::Dropped => ReplyFields::bare(id, numbers::REPLY_DROPPED),
            Reply::Complete => ReplyFields::bare(id, numbers::REPLY_COMPLETE),
            Reply::Waiting => ReplyFields::bare(id, numbers::REPLY_WAITING),
            Reply::Faulted(condition) => ReplyFields {
                condition: u32::from(*condition),
                ..ReplyFields::bare(id, numbers::REPLY_FAULTED)
            },
            Reply::Performed(status) => ReplyFields {
                status: u32::from(status.octet()),
                ..ReplyFields::bare(id, numbers::REPLY_PERFORMED)
            },
            Reply::Installed => ReplyFields::bare(id, numbers::REPLY_INSTALLED),
            Reply::Done => ReplyFields::bare(id, numbers::REPLY_FINISHED),
            Reply::Cancelled => ReplyFields::bare(id, numbers::REPLY_CANCELLED),
            Reply::Taken(outcome) => ReplyFields::taken(id, outcome.outcome().finished.condition),
            Reply::Duplicate => ReplyFields::bare(id, numbers::REPLY_DUPLICATE),
            Reply::Unknown => ReplyFields::bare(id, numbers::REPLY_UNKNOWN),
            Reply::Idle => ReplyFields::bare(id, numbers::REPLY_IDLE),
            Reply::NotForUs => ReplyFields::bare(id, numbers::REPLY_NOT_FOR_US),
            Reply::TableFull => ReplyFields::bare(id, numbers::REPLY_TABLE_FULL),
            Reply::Memory | Reply::JournalFull => ReplyFields::bare(id, numbers::REPLY_NONE),
        }
    }
}
