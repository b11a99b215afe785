//! The receiving entity of `cfdp_receiver`, tried: what it sends, indicates and reports for each input, at each stage
//! and moment, and when out of memory. This crate has tests alone.
#![tactic(auto)]

#[cfg(test)]
mod tests;
