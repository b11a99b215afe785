//! What is at some paths, kept by their names: a branch has what is at its own path, and by the next name the branches
//! below. So a rename of a directory moves one branch, whatever is below it.
#![tactic(auto)]

mod branch;

pub use branch::Branch;
