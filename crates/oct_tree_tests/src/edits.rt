//! Edits of a tree: of one voxel, of a box, and by scans.

mod area;
mod checks;
mod scan;
mod voxel;
