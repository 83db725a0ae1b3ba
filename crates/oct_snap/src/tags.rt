//! The byte that a node begins with.

/// Nothing is known of the block.
pub(crate) const UNKNOWN: u8 = 0;

/// All voxels of the block have one value, which follows in four bytes.
pub(crate) const VALUE: u8 = 1;

/// They don't, and the nodes of the block's eight children follow.
pub(crate) const PARTED: u8 = 2;
