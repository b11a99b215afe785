//! How the program ends when it does not do what it was asked for.

use cfdp_status::TransactionId;
use std::alloc::{AllocError, AllocFailed, Global};
use std::io::Write;
use std::{fmt, io};

/// Why the program ends early.
#[derive(Debug, Drop)]
pub enum End {
    /// The words of the command line are no command, and why.
    Words(String),
    /// The input cannot be read.
    Read,
    /// The output cannot be written.
    Write,
    /// Out of memory.
    Memory,
    /// Something is wrong in a plan: where, and what.
    Plan(String),
    /// A stream or a file has octets that are no PDU, or a line that is bad: where, and why.
    Stream(String),
    /// A file cannot be read: which one, and why.
    File(String),
    /// A transaction that was admitted was not completed.
    Incomplete(TransactionId),
    /// How many transactions are refused, and how many there are.
    Refused(usize, usize),
    /// The text of a script cannot be written.
    Unwritten,
    /// A script, or a file beside it, cannot be read or written: which one.
    Failed(Vec<u8>),
    /// A line of a script is bad: where, and why.
    Script(Vec<u8>),
    /// A line that a script expects did not come: where, and which one.
    Unmet(Vec<u8>),
}

impl End {
    /// The fault of a script, or of a file beside it, that cannot be read.
    pub fn unread(alloc: Global, name: &str) -> End {
        format!(in alloc; "{name}: read failed").map_or(End::Memory, |said| {
            End::Failed(said.into_bytes())
        })
    }

    /// The fault of a file or a folder that cannot be written.
    pub fn unwritten(alloc: Global, name: &str) -> End {
        format!(in alloc; "{name}: write failed").map_or(End::Memory, |said| {
            End::Failed(said.into_bytes())
        })
    }

    /// Something is wrong with a file with a name, so that it cannot be read.
    pub fn file(alloc: Global, name: &str, what: &str) -> End {
        format!(in alloc; "{name}: {what}").map_or(End::Memory, End::File)
    }

    /// Something is wrong with what a file with a name has.
    pub fn stream(alloc: Global, name: &str, what: &str) -> End {
        format!(in alloc; "{name}: {what}").map_or(End::Memory, End::Stream)
    }

    /// What is said of a script that stops at a line which is bad or expects something that does not come; `None` of
    /// another end.
    pub fn stop_of_script(&self) -> Option<&[u8]> {
        match self {
            End::Script(said) | End::Unmet(said) => Some(said),
            _ => None,
        }
    }

    /// The exit status.
    pub fn status(&self) -> u8 {
        match self {
            End::Read
            | End::Write
            | End::Memory
            | End::File(_)
            | End::Incomplete(_)
            | End::Unwritten
            | End::Failed(_) => 1,
            End::Words(_) => 2,
            End::Plan(_) | End::Stream(_) | End::Script(_) => 3,
            End::Refused(_, _) | End::Unmet(_) => 4,
        }
    }

    /// Writes the line that says why. What a script has of it may be no text.
    pub fn write<W: Write>(&self, out: &mut W) -> io::Result<()> {
        match self {
            End::Failed(said) | End::Script(said) | End::Unmet(said) => {
                out.write_all(b"cfdp: ")?;
                out.write_all(said)?;
                out.write_all(b"\n")
            }
            end => writeln!(out, "cfdp: {end}"),
        }
    }
}

impl fmt::Display for End {
    fn fmt<W: fmt::Write>(&self, f: &mut fmt::Formatter<W>) -> fmt::Result {
        match self {
            End::Words(why) | End::Plan(why) | End::Stream(why) | End::File(why) => {
                f.write_str(why.as_str())
            }
            End::Read => f.write_str("the input cannot be read"),
            End::Write => f.write_str("the output cannot be written"),
            End::Memory => f.write_str("out of memory"),
            End::Incomplete(id) => write!(f, "transaction {id} was not completed"),
            End::Refused(refused, all) => write!(f, "refused: {refused} of {all} transactions"),
            End::Unwritten => f.write_str("write failed"),
            End::Failed(said) | End::Script(said) | End::Unmet(said) => {
                f.write_str(str::from_utf8(said).unwrap_or("what a script says is no text"))
            }
        }
    }
}

impl From<AllocError> for End {
    fn from(_refused: AllocError) -> End {
        End::Memory
    }
}

impl<T: Drop> From<AllocFailed<T>> for End {
    fn from(_refused: AllocFailed<T>) -> End {
        End::Memory
    }
}
