//! A block that is known, and how sure the map is of it.

use oct_key::Block;

/// A block and what it answers.
#[derive(Clone, Copy, Debug, PartialEq, Eq)]
pub struct Found {
    /// The block, of the depth that was asked for.
    pub block: Block,
    /// The largest known value among the block's voxels, in thousandths.
    pub value: i32,
}
