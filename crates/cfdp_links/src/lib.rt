//! Several scripts of `replay` at once, a worker each, on one receiving entity: what their files say, the workers, and
//! the text of what they did.
//!
//! [`read_files`] makes messages of the lines of all files, which `cfdp_commands` reads. [`run_all`] runs a worker for
//! each file. [`reconcile`] compares the receipts of their seats with the journal, and [`text_of_closed`] is the text.
#![tactic(auto)]

mod closed_text;
mod journal_text;
mod link_files;
mod link_lines;
mod messages;
mod readable;
mod workers;

pub use closed_text::{reconcile, text_of_closed};
pub use link_files::{Prepared, read_files};
pub use messages::are_same;
pub use readable::messages_are_readable;
pub use workers::run_all;
