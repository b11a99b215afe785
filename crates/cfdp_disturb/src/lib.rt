//! Scripts whose PDUs come over a bad link: lines of PDUs are lost, written twice, or swapped with the next one.
//!
//! A [`Link`] takes a script line by line, with a [`Draw`] for each, and appends the lines that come.
//! `specs/Disturbing.antt` says which lines these are, and [`laws`] what is true of them, whatever was drawn.
#![tactic(auto)]

mod draws;
pub mod laws;
mod lines;
mod link;
#[cfg(test)]
mod tests;

pub use draws::{Copies, Draw};
pub use lines::is_pdu_line;
pub use link::Link;
