//! The block arena of the receiver's filestore: a fixed number of blocks of 128 octets, all taken from memory at once.
//!
//! An `Arena` hands out blocks and takes them back, and never asks for memory again after `new`. A block has 8
//! octets for its owner's links and a payload of 120 octets. Its octets are first written when it is first taken. The
//! blocks that were given back are a list whose links are in these blocks themselves (`links`). Octets go from payload
//! to payload with no buffer (`payload`). Callers see a capacity and a map from the live blocks to their octets. The
//! memory is one region, reached through a raw pointer that only `region` uses.
#![tactic(auto)]

mod arena;
mod block_id;
mod links;
mod payload;
mod region;

pub use arena::Arena;
pub use block_id::BlockId;
// A crate can name an arena in a contract only if the types of its fields are exported.
#[doc(hidden)]
pub use region::Region;

/// Out of memory: the one error of `Arena::new`.
pub type Memory = std::alloc::AllocError;

/// How many octets a block has.
pub const BLOCK_OCTETS: usize = 128;

/// The octets of a block: 8 for its owner's links, and a payload of 120.
pub type Block = [u8; BLOCK_OCTETS];
