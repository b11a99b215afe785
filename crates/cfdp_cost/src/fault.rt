//! Why a run ends before its first File Data PDU.

use cfdp_pdus::WriteFault;
use std::alloc::{AllocError, AllocFailed};
use std::fmt;

/// Why a run ends before its first File Data PDU.
#[derive(Clone, Copy, Debug, Drop)]
pub enum CostFault {
    /// Out of memory.
    Memory,
    /// The configuration, or the management information base, was refused.
    NotMade,
    /// A PDU is longer than it may be.
    TooLong,
    /// A transaction was not admitted.
    NotAdmitted,
    /// A transaction was not closed.
    NotClosed,
}

impl fmt::Display for CostFault {
    fn fmt<W: fmt::Write>(&self, f: &mut fmt::Formatter<W>) -> fmt::Result {
        f.write_str(match self {
            CostFault::Memory => "out of memory",
            CostFault::NotMade => "the entity or its receiver was not made",
            CostFault::TooLong => "a PDU is longer than it may be",
            CostFault::NotAdmitted => "a transaction was not admitted",
            CostFault::NotClosed => "a transaction was not closed",
        })
    }
}

impl From<AllocError> for CostFault {
    fn from(_refused: AllocError) -> CostFault {
        CostFault::Memory
    }
}

impl<T: Drop> From<AllocFailed<T>> for CostFault {
    fn from(_refused: AllocFailed<T>) -> CostFault {
        CostFault::Memory
    }
}

impl From<WriteFault> for CostFault {
    fn from(fault: WriteFault) -> CostFault {
        match fault {
            WriteFault::TooLong => CostFault::TooLong,
            WriteFault::Memory => CostFault::Memory,
        }
    }
}
