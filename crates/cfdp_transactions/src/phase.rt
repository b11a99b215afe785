//! How far a transaction is.

ghost use Rattle.std.specs.Prelude.{◌≡◌};
ghost use Rattle.cfdp_transactions.specs.Entry.{is_live, is_receiving, takes_data};

/// How far a transaction is at the receiving entity (CCSDS 727.0-B-5, copy file procedures).
#[derive(Clone, Copy, Debug, PartialEq, Eq)]
pub enum Phase {
    /// File data is taken, and no EOF PDU has come.
    Receiving,
    /// The EOF PDU came and octets are missing (timer procedures); this many checks were made since.
    Awaiting(u32),
    /// The file is there; the item of this number is performed next (filestore procedures).
    Executing(u8),
    /// Its list of requests was refused.
    Refused,
    /// All its items were performed.
    Done,
    /// It ended before it was done, with this condition code (cancel and fault handling procedures).
    Ended(u8),
}

impl Phase {
    /// Whether the transaction is live: not yet refused, done or ended.
    pub fn is_live(self) -> bool
        ensures { result ≡ is_live self }
    {
        match self {
            Phase::Receiving | Phase::Awaiting(_) | Phase::Executing(_) => true,
            Phase::Refused | Phase::Done | Phase::Ended(_) => false,
        }
    }

    /// Whether file data is taken and no EOF PDU has come.
    pub(crate) fn is_receiving(self) -> bool
        ensures { result ≡ is_receiving self }
    {
        matches!(self, Phase::Receiving)
    }

    /// Whether file data is taken.
    pub(crate) fn takes_data(self) -> bool
        ensures { result ≡ takes_data self }
    {
        matches!(self, Phase::Receiving | Phase::Awaiting(_))
    }
}
