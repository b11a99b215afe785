//! Why a line has no answer, and why a run of a script can stop before its end.

use crate::fault_lines::{LinkLine, RunLine};
use std::alloc::AllocError;
use thiserror::Error;

/// Why a line has no answer.
#[derive(Clone, Copy, Debug, PartialEq, Eq)]
pub enum LineFault {
    /// It is a bad line.
    Bad,
    /// Out of memory.
    Memory,
}

impl From<AllocError> for LineFault {
    ghost use Rattle.std.specs.Prelude.{◌≡◌};
    ghost use Rattle.cfdp_lines.specs.declared.faults.LineFault.TheVariants.{Memory};

    ghost from_gives = { λ _ e. e ≡ Memory };

    fn from(_e: AllocError) -> LineFault {
        LineFault::Memory
    }
}

/// Why a run of a script stopped before its end. Its text is that of [`RunLine`].
#[derive(Clone, Copy, Debug, PartialEq, Eq, Drop, Error)]
#[error("{}", RunLine(*self))]
pub enum RunFault {
    /// The reader failed, or the script is longer than the input limit.
    Read,
    /// The writer failed.
    Write,
    /// Out of memory.
    Memory,
    /// The line of this number, counted from 1, is bad.
    BadLine(u64),
}

/// Why a run of `links` stopped before its end. Its text is that of [`LinkLine`].
#[derive(Clone, Copy, Debug, PartialEq, Eq, Drop, Error)]
#[error("{}", LinkLine(*self))]
pub enum LinkFault {
    /// The writer failed.
    Write,
    /// Out of memory, or a thread could not be started.
    Memory,
    /// The first file that has a bad line, counted from 0 as its seat is, and that line's number, counted from 1.
    BadLine(u8, u64),
    /// The journal was full.
    JournalFull,
    /// The receipts of the seats are not the journal, a worker did not take the messages of its file, or the entity's
    /// configuration is not that of the files.
    ReceiptsDiffer,
}

impl From<AllocError> for LinkFault {
    ghost use Rattle.std.specs.Prelude.{◌≡◌};
    ghost use Rattle.cfdp_lines.specs.declared.faults.LinkFault.TheVariants.{Memory};

    ghost from_gives = { λ _ fault. fault ≡ Memory };

    fn from(_refused: AllocError) -> LinkFault {
        LinkFault::Memory
    }
}
