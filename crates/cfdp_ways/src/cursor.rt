//! A position in a list of blocks.

use cfdp_arena::BlockId;

/// A position in a list of blocks: a block, and how many blocks of the list come before it. After the last block there
/// is a position too, whose block means nothing.
#[derive(Clone, Copy)]
pub struct Cursor {
    /// The block.
    pub block: BlockId,
    /// How many blocks of the list come before it.
    pub index: u32,
}
