//! Tests of scripts that need more than the program: readers and writers that fail, running out of memory, workers at
//! a gate. The scripts that the program itself runs are in `.ci/cases`. This crate has tests alone.
#![tactic(auto)]

#[cfg(test)]
mod tests;
