//! Worked examples and limits, a module for each crate that they are about.

mod crc;
mod directives;
mod messages;
mod retransmission;
mod sessions;
mod verdicts;
mod words;
