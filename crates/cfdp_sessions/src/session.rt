//! What is kept of one transaction.

ghost use Rattle.std.specs.Prelude.{◌≡◌};
ghost use Rattle.cfdp_leases.specs.Leases.{is_same};
ghost use Rattle.cfdp_sessions.specs.Sessions.{session_id};

use cfdp_pdus::{Eof, Header};
use cfdp_retransmission::Timer;
use cfdp_status::TransactionId;
use cfdp_transactions::transaction_of;
use std::marker::Model;

/// How a transaction ended that is not in the core: it has no requests, and nothing of its file is kept.
#[derive(Clone, Copy, Debug, PartialEq, Eq)]
pub struct Ending {
    /// The condition code, 0 to 15 (CCSDS 727.0-B-5 §5.2.2).
    pub condition: u8,
    /// Its Finished PDU is to be sent.
    pub is_sent: bool,
    /// The entity at fault, by its ID.
    pub at_fault: u64,
}

/// How far a transaction is, beside the core.
#[derive(Clone, Copy, Debug, PartialEq, Eq)]
pub enum Stage {
    /// Its EOF PDU came, and its Metadata PDU did not.
    Held(Eof),
    /// It is in the core's table, which says how far it is.
    Known,
    /// It is over, and is not in the core's table.
    Over(Ending),
    /// Its Finished PDU was sent, and is not acknowledged yet.
    Waiting,
}

/// What is kept of one transaction. Contracts see its values, and not where its octets lie in memory. What is sent of
/// it always fits its PDUs: its numbers fit their fields, and its Finished PDU has 16,488 octets at most.
#[derive(Debug, Drop)]
pub struct Session {
    /// The header of the PDU that began it; that of its Metadata PDU once that came.
    pub header: Header,
    /// How far it is.
    pub stage: Stage,
    /// The timer of its stage.
    pub timer: Timer,
    /// When the last Keep Alive PDU was sent, or when it began.
    pub alive_at: u64,
    /// The condition code for which this entity cancelled it.
    pub cause: Option<u8>,
    /// It was abandoned: its outcome is for nobody.
    pub is_abandoned: bool,
    /// While it waits for the acknowledgement: its file was installed, or a request was performed. `false` before.
    pub has_changed: bool,
    /// The octets of its Finished PDU, once that was sent. Empty before.
    pub finished: Vec<u8>,
}

impl Model for Session {
    ghost use Rattle.cfdp_sessions.specs.Sessions.{SessionFields};
    ghost use Rattle.std.specs.Prelude.{vec_len};
    ghost use Rattle.cfdp_sessions.specs.code.Sessions.{IsSessionWith};

    ghost Value = { SessionFields };

    ghost view = { λ s. record {
      header = s.header;
      stage = s.stage;
      timer = s.timer;
      alive_at = s.alive_at;
      cause = s.cause;
      is_abandoned = s.is_abandoned;
      has_changed = s.has_changed;
      finished = s.finished.items;
    } };

    ghost invariant = { λ s. IsSessionWith s.header s.stage s.timer s.cause (vec_len s.finished) };
}

impl Session {
    /// The name of its transaction: source entity ID and transaction sequence number (CCSDS 727.0-B-5 §5.1).
    pub fn name(&self) -> TransactionId
        ensures { result ≡ session_id self.now }
    {
        transaction_of(&self.header)
    }

    /// Whether it is the session of this transaction. The number is compared first: of one sender all transactions have
    /// one source.
    pub(crate) fn has_name(&self, id: TransactionId) -> bool
        ensures { result ≡ is_same (session_id self.now) id }
    {
        self.header.number == id.number && self.header.source == id.source
    }
}
