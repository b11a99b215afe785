//! Streams of octets: where a script's octets come from, and where its text goes.
//!
//! Input and output go through two small traits, so that a theorem can name their octets: those that a reader still has
//! to give, and those that a writer holds. std's readers and writers are such streams, and so are octets in memory.
#![tactic(auto)]

mod from_read;
mod from_slice;
mod input;
mod output;
mod streams;
mod to_write;

pub use from_read::FromRead;
pub use from_slice::FromSlice;
pub use input::read_some;
pub use output::write_all;
pub use streams::{Failed, ScriptIn, ScriptOut};
pub use to_write::ToWrite;
