//! The outcome of a transaction.

ghost use Rattle.std.specs.Prelude.{◌≡◌, IfOk};
ghost use Rattle.cfdp_transactions.specs.Writable.{IsWritable, finished_octets};

use cfdp_paths::Memory;
use cfdp_pdus::{Finished, Header, WriteFault, write_finished};
use std::alloc::{AllocError, Global};
use std::marker::Model;
use std::sync::Arc;

/// The outcome of a transaction: its Finished PDU, and whether it is sent.
#[derive(Debug, Drop)]
pub struct Outcome {
    /// The header of the Finished PDU, which goes toward the sender (CCSDS 727.0-B-5 §5.1).
    pub header: Header,
    /// Its data field (§5.2.3).
    pub finished: Finished,
    /// Whether it is sent: always in acknowledged mode, and in unacknowledged mode where closure was requested.
    pub send: bool,
}

impl Outcome {
    /// The octets of its Finished PDU (CCSDS 727.0-B-5 §5.2.3), none where it is not sent.
    ///
    /// # Errors
    ///
    /// Out of memory. Cost: an allocation of their length, where there are any, and a copy of the requests' names.
    pub fn octets(&self, alloc: Global) -> Result<Vec<u8>, Memory>
        requires { IsWritable self.now }
        ensures { IfOk result (λ octets. octets.items ≡ finished_octets self.now) }
    {
        let mut octets = Vec::new(alloc);
        if !self.send {
            return Ok(octets);
        }
        match write_finished(&self.header, &self.finished, &mut octets) {
            Ok(()) => Ok(octets),
            Err(WriteFault::Memory) => Err(AllocError),
            Err(WriteFault::TooLong) => unreachable!(),
        }
    }
}

/// An outcome that several holders share. Contracts see it as the outcome.
#[derive(Drop)]
pub struct SharedOutcome {
    pub(crate) shared: Arc<Outcome, Global>,
}

impl Model for SharedOutcome {
    ghost use Rattle.std.specs.Arc.{arc_value};
    ghost use Rattle.cfdp_transactions.specs.declared.outcome.Outcome.{Outcome};

    ghost Value = { Outcome };

    ghost view = { λ o. arc_value o.shared };
}

impl SharedOutcome {
    /// The first handle of an outcome.
    ///
    /// # Errors
    ///
    /// Out of memory: the outcome is dropped. Cost: one allocation.
    pub fn new(alloc: Global, outcome: Outcome) -> Result<SharedOutcome, Memory>
        ensures { IfOk result (λ made. made ≡ outcome) }
    {
        Ok(SharedOutcome {
            shared: Arc::new(alloc, outcome)?,
        })
    }

    /// One more handle of the same outcome. It copies nothing and allocates nothing.
    ///
    /// # Errors
    ///
    /// Out of memory: there are as many handles as can be counted.
    pub fn share(&self) -> Result<SharedOutcome, Memory>
        ensures { IfOk result (λ other. other ≡ self.now) }
    {
        Ok(SharedOutcome {
            shared: Arc::try_clone(&self.shared)?,
        })
    }

    /// The outcome. Costs nothing.
    pub fn outcome(&self) -> &Outcome
        ensures { result.now ≡ self.now }
    {
        &self.shared
    }
}
