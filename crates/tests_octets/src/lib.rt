//! Tests of CRCs, of directives (ACK, NAK, Prompt and Keep Alive PDUs), of messages to user, of timers and NAK
//! sequences, of the table of sessions, of verdicts in words, and of PDUs in words as `cfdp show` prints them. The
//! other PDUs, TLVs and paths are in `tests_stores`. This crate has tests alone.
#![tactic(auto)]

#[cfg(test)]
mod tests;
