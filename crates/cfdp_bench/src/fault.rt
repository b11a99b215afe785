//! Why a workload ends before its last event.
use cfdp_entity::{NotHeard, NotTaken};
use cfdp_lines::{LinkFault, RunFault};
use cfdp_paths::PathFault;
use cfdp_transactions::ConfigFault;
use std::alloc::{AllocError, AllocFailed};
use std::fmt;

/// Why a workload ends before its last event.
#[derive(Clone, Copy, Debug, Drop)]
pub enum WorkloadFault {
    /// Out of memory.
    Memory,
    /// A script, a PDU or a configuration was refused that should not be.
    Refused,
    /// A list got another verdict than the one that it was made for.
    Verdict,
    /// A file that was delivered does not exist.
    Missing,
}

impl fmt::Display for WorkloadFault {
    fn fmt<W: fmt::Write>(&self, f: &mut fmt::Formatter<W>) -> fmt::Result {
        f.write_str(match self {
            WorkloadFault::Memory => "out of memory",
            WorkloadFault::Refused => "refused",
            WorkloadFault::Verdict =>
                "a list got another verdict than the one that it was made for",
            WorkloadFault::Missing => "a file that was delivered does not exist",
        })
    }
}

impl From<AllocError> for WorkloadFault {
    fn from(_refused: AllocError) -> WorkloadFault {
        WorkloadFault::Memory
    }
}

impl<T: Drop> From<AllocFailed<T>> for WorkloadFault {
    fn from(_refused: AllocFailed<T>) -> WorkloadFault {
        WorkloadFault::Memory
    }
}

impl From<ConfigFault> for WorkloadFault {
    fn from(_fault: ConfigFault) -> WorkloadFault {
        WorkloadFault::Refused
    }
}

impl From<NotHeard> for WorkloadFault {
    fn from(_fault: NotHeard) -> WorkloadFault {
        WorkloadFault::Refused
    }
}

impl From<NotTaken> for WorkloadFault {
    fn from(_fault: NotTaken) -> WorkloadFault {
        WorkloadFault::Refused
    }
}

impl From<PathFault> for WorkloadFault {
    fn from(_fault: PathFault) -> WorkloadFault {
        WorkloadFault::Refused
    }
}

impl From<RunFault> for WorkloadFault {
    fn from(_fault: RunFault) -> WorkloadFault {
        WorkloadFault::Refused
    }
}

impl From<LinkFault> for WorkloadFault {
    fn from(_fault: LinkFault) -> WorkloadFault {
        WorkloadFault::Refused
    }
}
