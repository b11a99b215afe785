//! The line that the program writes on standard error.

use crate::program_end::ProgramEnd;
use cfdp_lines::{LinkLine, RunLine};
use std::fmt;

/// The line that the program writes on standard error, without its newline; empty where it writes none.
#[derive(Drop)]
pub(crate) struct EndLine(pub(crate) ProgramEnd);

impl fmt::Display for EndLine {
    ghost use Rattle.std.specs.Prelude.{Some};
    ghost use Rattle.cfdp_ends.specs.code.Ends.{end_line};

    ghost output = { λ line. Some (end_line line.0) };

    fn fmt<W: fmt::Write>(&self, f: &mut fmt::Formatter<W>) -> fmt::Result {
        match self.0 {
            ProgramEnd::Fine => Ok(()),
            ProgramEnd::Usage => f.write_str("cfdpsim: usage"),
            ProgramEnd::Run(fault) => write!(f, "cfdpsim: {}", RunLine(fault)),
            ProgramEnd::Link(fault) => write!(f, "cfdpsim: {}", LinkLine(fault)),
        }
    }
}
