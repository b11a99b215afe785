//! What the receiving entity replies.

ghost use Rattle.std.specs.Prelude.{◌≡◌, IsFalse, IsOk, IfOk};
ghost use Rattle.cfdp_transactions.specs.Events.{hands_out};

use crate::outcome::SharedOutcome;
use cfdp_paths::Memory;
use cfdp_status::Status;
use cfdp_verifier::Refusal;

/// What the receiving entity replies to an event.
#[derive(Drop)]
pub enum Reply {
    /// The transaction is admitted, with this many blocks and steps granted to it.
    Admitted(u32, u32),
    /// Its list of requests is refused.
    Refused(Refusal),
    /// The octets were kept; or there were none.
    Stored,
    /// The octets were passed over, since they would lie in more than 32 separate pieces.
    Dropped,
    /// The file is there, with the right checksum, and the items are performed next.
    Complete,
    /// Octets are missing.
    Waiting,
    /// The transaction ended with this condition code (CCSDS 727.0-B-5 §5.2.2).
    Faulted(u8),
    /// A request was performed, with this status.
    Performed(Status),
    /// The file was installed.
    Installed,
    /// The transaction is done; it had no items.
    Done,
    /// The transaction was cancelled.
    Cancelled,
    /// The outcome; the transaction is forgotten.
    Taken(SharedOutcome),
    /// The PDU came before.
    Duplicate,
    /// There is no such transaction.
    Unknown,
    /// There is nothing to do for the event in the transaction's phase.
    Idle,
    /// The PDU is for another entity.
    NotForUs,
    /// There are 64 transactions.
    TableFull,
    /// Out of memory: nothing changed.
    Memory,
    /// The journal is full: the event was not taken.
    JournalFull,
}

impl Reply {
    /// Another handle of the reply. It copies nothing and allocates nothing.
    ///
    /// # Errors
    ///
    /// Out of memory, where it hands out an outcome that has as many handles as can be counted.
    pub fn share(&self) -> Result<Reply, Memory>
        ensures same { IfOk result (λ other. other ≡ self.now) }
        ensures lean { IsFalse (hands_out self.now) → IsOk result }
    {
        Ok(match self {
            Reply::Taken(outcome) => Reply::Taken(outcome.share()?),
            Reply::Admitted(blocks, steps) => Reply::Admitted(*blocks, *steps),
            Reply::Refused(refusal) => Reply::Refused(*refusal),
            Reply::Faulted(condition) => Reply::Faulted(*condition),
            Reply::Performed(status) => Reply::Performed(*status),
            Reply::Stored => Reply::Stored,
            Reply::Dropped => Reply::Dropped,
            Reply::Complete => Reply::Complete,
            Reply::Waiting => Reply::Waiting,
            Reply::Installed => Reply::Installed,
            Reply::Done => Reply::Done,
            Reply::Cancelled => Reply::Cancelled,
            Reply::Duplicate => Reply::Duplicate,
            Reply::Unknown => Reply::Unknown,
            Reply::Idle => Reply::Idle,
            Reply::NotForUs => Reply::NotForUs,
            Reply::TableFull => Reply::TableFull,
            Reply::Memory => Reply::Memory,
            Reply::JournalFull => Reply::JournalFull,
        })
    }
}
