//! The names of transactions.
ghost use Rattle.std.specs.Prelude.{◌≡◌, Some};
ghost use Rattle.cfdp_status.specs.Transaction.{transaction_name};

use std::fmt;

/// The name of a transaction (CCSDS 727.0-B-5 §5.1): the entity that it came from, and that
/// entity's number for it. Ordered by source, then by number. Printed as `S/N`, in decimal.
#[derive(Clone, Copy, Debug, PartialEq, Eq, PartialOrd, Ord, Hash)]
pub struct TransactionId {
    /// The source entity ID.
    pub source: u64,
    /// The transaction sequence number.
    pub number: u64,
}

impl fmt::Display for TransactionId {
    ghost use Rattle.std.specs.Prelude.{Some};
    ghost use Rattle.cfdp_status.specs.Transaction.{transaction_name};

    ghost output = { λ id. Some (transaction_name id) };

    fn fmt<W: fmt::Write>(&self, f: &mut fmt::Formatter<W>) -> fmt::Result {
        write!(f, "{}/{}", self.source, self.number)
    }
}
