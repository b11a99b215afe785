//! How the program ends.
ghost use Rattle.std.specs.Prelude.{◌≡◌};
ghost use Rattle.cfdp_ends.specs.Ends.{exit_status};

use crate::end_line::EndLine;
use cfdp_lines::{LinkFault, RunFault};
use thiserror::Error;

/// What the program ends with. Its text is that of [`EndLine`]: the line on standard error, empty where there is none.
/// It takes no memory.
#[derive(Clone, Copy, Debug, PartialEq, Eq, Drop, Error)]
#[error("{}", EndLine(*self))]
pub enum ProgramEnd {
    /// The whole input was run.
    Fine,
    /// The command line has words that the program does not know.
    Usage,
    /// The run stopped before its end.
    Run(RunFault),
    /// The run of several files stopped before its end.
    Link(LinkFault),
}

impl ProgramEnd {
    /// The exit status: 0 where the whole input was run, 1 for a read, a write or memory that failed, for a full
    /// journal and for receipts that differ, 2 for unknown words, 3 for a bad line. It takes no memory.
    pub fn status(&self) -> u8
        ensures { result ≡ exit_status self.now }
    {
        match self {
            ProgramEnd::Fine => 0,
            ProgramEnd::Run(RunFault::Read | RunFault::Write | RunFault::Memory) => 1,
            ProgramEnd::Usage => 2,
            ProgramEnd::Link(
                LinkFault::Write
                | LinkFault::Memory
                | LinkFault::JournalFull
                | LinkFault::ReceiptsDiffer,
            ) => 1,
            ProgramEnd::Run(RunFault::BadLine(_)) | ProgramEnd::Link(LinkFault::BadLine(..)) => 3,
        }
    }
}
