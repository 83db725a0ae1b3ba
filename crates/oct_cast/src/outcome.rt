//! What stops a straight way, or that nothing does.

use oct_key::Key;

/// What a cast finds.
#[derive(Clone, Copy, Debug, PartialEq, Eq)]
pub enum Cast {
    /// The first voxel that stops it is occupied.
    Hit(Key),
    /// The first voxel that stops it is unknown.
    Unknown(Key),
    /// No voxel stops it.
    Clear,
}
