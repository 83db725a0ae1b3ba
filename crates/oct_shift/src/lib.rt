//! A map moved by a whole number of voxels on each axis.
//!
//! ```text
//! let shift = Shift { x: 1, y: 0, z: -20 };
//! let moved = shifted(alloc, &tree, shift, 1 << 24)?;
//! let value = moved.at(key);                        // what `tree` has at key - shift
//! ```
//!
//! What the contracts promise of [`shifted`]:
//!
//! - Its tree gives each voxel the value that the other gives the voxel that far behind it, and
//!   none where that voxel lies outside the map (`shifted`). What the shift moves out of the map is
//!   dropped. [`stays_within`] says whether the voxels of a box stay in it.
//! - It is fresh and pruned, with the resolution and the log-odds of the other: a tree of these
//!   values has no fewer groups (`group_count`). The other tree may be any well-formed one.
//! - It is refused exactly where these groups are more than the caller allows, before memory is
//!   taken. Memory is taken once, for these groups and sixteen, and for none where the moved map
//!   has one value throughout.
//!
//! The new tree is walked from the root down. A block of it comes from up to eight blocks of the
//! other tree of the same depth, two on each axis, whose nodes are a [`Row`]. The row of a child
//! is read from that of its block: on each axis, which half of which node it is follows from three
//! bits, as in the addition of two numbers. One walk counts, the next one fills. Both end where
//! the nodes of a row are one node that is not Inner, so that they take time for the nodes that
//! either tree has, and none for the voxels of a leaf.
#![tactic(auto)]

mod counting;
mod fault;
mod filling;
mod offset;
mod row;
mod shift;
mod shifting;

pub use fault::ShiftFault;
pub use shift::{Shift, stays_within};
pub use shifting::shifted;
