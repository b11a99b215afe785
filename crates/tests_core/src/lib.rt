//! Tests of what no program prints: views of `cfdp_states`, what an entity says of itself between events, verdicts when
//! out of memory, a full journal, workers. Worked lists and transactions are in `.ci/cases`. This crate has tests
//! alone.
#![tactic(auto)]

#[cfg(test)]
mod tests;
