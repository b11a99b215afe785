//! The way back in lists of blocks that grow at their end.
//!
//! In a list of blocks each block names the next one, so a search for a block in the middle would go over all blocks
//! before it. So beside the arena there is a [`Way`] for each block: the block before it in its list, and one block
//! further back, to which a search may jump. A search begins at a block that comes after the one that is wanted, and
//! takes a jump wherever it does not lead too far ([`find_back`]). It takes at most 3 steps for each binary digit of
//! the index at which it begins: the jumps are those of Myers' random-access stack.
//!
//! A block's way is written once, when the block comes to the end of its list ([`begin_list`], [`extend_list`]). It is
//! not written again before the block is used for another list. No call takes memory.
#![tactic(auto)]

mod cursor;
#[cfg(test)]
mod tests;
mod way;

pub use cursor::Cursor;
pub use way::{Way, begin_list, extend_list, find_back, step_back};
