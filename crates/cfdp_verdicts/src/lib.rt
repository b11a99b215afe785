//! Verdicts on lists of filestore requests in words, for people who plan uploads: what a list is granted, or why it is
//! refused, and what each of its items takes.
//!
//! [`push_refused`] and [`push_admitted`] write the line of a verdict of `cfdp_verifier`, and `specs/Words.antt`
//! defines it. [`costs`] says how many steps and blocks a list takes up to each of its items, by the same definitions
//! as the verdict, and [`push_table`] writes them as a table.
#![tactic(auto)]

mod causes;
mod costing;
mod item_table;
mod numbers;
mod requests;
mod verdicts;

pub use costing::{Cost, costs};
pub use item_table::push_table;
pub use verdicts::{push_admitted, push_refused};
