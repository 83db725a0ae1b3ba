//! Beams: where they are cut, and the voxels that they meet.

mod cuts;
mod walks;
