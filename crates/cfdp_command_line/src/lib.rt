//! What the program `cfdpsim` is asked for: the words of its command line, and the files that they name.
#![tactic(auto)]

mod files;
mod words;

pub use files::{Opens, read_all, read_whole};
pub use words::{Asked, parse, read_words};
