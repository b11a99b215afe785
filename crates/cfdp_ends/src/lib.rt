//! How the program `cfdpsim` ends: its exit status, and its line on standard error.
#![tactic(auto)]

mod end_line;
mod program_end;

pub use program_end::ProgramEnd;
