//! The texts of faults.

use crate::faults::{LinkFault, RunFault};
use std::fmt;

/// The text of a fault of a run.
#[derive(Drop)]
pub struct RunLine(pub RunFault);

impl fmt::Display for RunLine {
    ghost use Rattle.std.specs.Prelude.{Some};
    ghost use Rattle.cfdp_lines.specs.FaultTexts.{run_line};

    ghost output = { λ line. Some (run_line line.0) };

    fn fmt<W: fmt::Write>(&self, f: &mut fmt::Formatter<W>) -> fmt::Result {
        match self.0 {
            RunFault::Read => f.write_str("read failed"),
            RunFault::Write => f.write_str("write failed"),
            RunFault::Memory => f.write_str("out of memory"),
            RunFault::BadLine(number) => write!(f, "line {number}"),
        }
    }
}

/// The text of a fault of a run of `links`. Of a bad line it does not name the file.
#[derive(Drop)]
pub struct LinkLine(pub LinkFault);

impl fmt::Display for LinkLine {
    ghost use Rattle.std.specs.Prelude.{Some};
    ghost use Rattle.cfdp_lines.specs.FaultTexts.{link_line};

    ghost output = { λ line. Some (link_line line.0) };

    fn fmt<W: fmt::Write>(&self, f: &mut fmt::Formatter<W>) -> fmt::Result {
        match self.0 {
            LinkFault::Write => f.write_str("write failed"),
            LinkFault::Memory => f.write_str("out of memory"),
            LinkFault::BadLine(_, number) => write!(f, "line {number}"),
            LinkFault::JournalFull => f.write_str("journal full"),
            LinkFault::ReceiptsDiffer => f.write_str("receipts differ"),
        }
    }
}
