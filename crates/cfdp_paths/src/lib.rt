//! Paths of the filestore: lists of 1 to 8 names of 1 to 96 octets, read from octets and compared by
//! their names. Contracts see a [`Path`] as its list of names, each a list of octets; `Rattle.cfdp_paths.specs.Paths`
//! has the words. What is read is exactly what a path's names spell when they are joined by `/`
//! (CCSDS 727.0-B-5 §5.4, filestore procedures).
#![tactic(auto)]

mod buffers;
mod fault;
pub mod laws;
mod lent_names;
mod octet_order;
mod parsing;
mod path_map;
mod paths;
mod relocating;
mod scan;
#[cfg(test)]
mod tests;

pub use fault::PathFault;
pub use lent_names::Names;
pub use path_map::PathMap;
pub use paths::{LONGEST_NAME, MOST_NAMES, Path};

/// Out of memory: the one refusal of a call that only allocates.
pub type Memory = std::alloc::AllocError;
