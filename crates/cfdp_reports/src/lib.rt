//! The text that `cfdp run` writes of what a receiving entity answers to an input: a line for each PDU that is sent,
//! one for an indication, and one for what became of the input. `specs/Reports.antt` defines it, and `docs/FORMATS.md`
//! lists the lines.
#![tactic(auto)]

mod answers;
mod indications;
mod outcomes;

pub use answers::{NotReported, push_answer, push_indications};
pub use outcomes::{dropped_line, push_name};
