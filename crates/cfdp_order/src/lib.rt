//! Nodes in an order that is given from outside, as balanced binary trees beside an array.
//!
//! A node is a number. Its [`Links`] are at that index of an array, so that a caller takes the memory once. An
//! [`Order`] is a tree of some nodes: those in the left subtree of a node come before it, and those in the right one
//! after it. The two subtrees of each node differ by at most one level (the trees of Adelson-Velsky and Landis). So an
//! order of 65,536 nodes has at most 22 levels, whatever their sequence. Several orders of different nodes share one
//! array.
//!
//! This crate knows nothing of names. A call that searches takes a [`Sought`], which compares a node with what is
//! sought, and it compares at most one node for each level. No call takes memory.
#![tactic(auto)]

mod balancing;
mod inserting;
pub mod laws;
mod links;
mod removing;
mod searching;
mod sought;
#[cfg(test)]
mod tests;

pub use inserting::insert;
pub use links::{Links, Order};
pub use removing::remove;
pub use searching::{first, first_after, first_from};
pub use sought::Sought;
