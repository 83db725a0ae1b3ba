//! The frontier of a map: the free voxels beside unknown space, where a robot that explores may
//! look next.
//!
//! [`frontier`] lists, between two corners, the voxels that are free and have an unknown voxel of
//! the map beside them on an axis, by ascending x, then y, then z:
//!
//! ```text
//! let keys = frontier(alloc, &tree, lo, hi, 1_000_000)?;
//! ```
//!
//! The promise is that the list is a function of the voxels' classes (`frontier_between`): of the
//! voxels of the map in their order those that lie between the corners and at the frontier, and
//! that it has exactly these (`IsFrontierBetween`), which is a law for all classes too
//! ([`frontiers_are_right`]). A neighbour counts where it lies beyond the
//! corners, and not where it would lie beyond the map. More voxels than are allowed are refused,
//! exactly where there are more, and then none is listed. Memory is taken once, for exactly the
//! voxels of the answer, and none where it is refused as too many.
//!
//! It goes down the tree by blocks, and takes along the nodes over the six blocks beside the one
//! where it is (`Patch`), so that those of a child are one step further each, and nothing is looked
//! up from the root. Each child of a block is looked at by its own node first (`look_at`): one that
//! is unknown or occupied is passed over. Of a free one the nodes beside it are read too, up to the
//! first axis that settles it, and where all of them are leaves it is passed over. So of a free
//! block only the children at a face to something unknown, or to smaller blocks, are entered, and
//! all nodes around a block are gathered only where it is. A first walk counts the voxels and ends
//! at the first one too many, and a second one lists them into room for exactly that many, which
//! std sorts in place and the list takes over.
//!
//! It stands on `oct_tree`, and on `oct_values` for what classes are. `oct_file_tasks` stands on
//! this crate, for its task `frontier`; its tests are in `oct_tree_tests`.
#![tactic(auto)]

mod fault;
mod laws;
mod listing;
mod look;
mod patch;
mod walk;

pub use fault::FrontierFault;
pub use laws::frontiers_are_right;
pub use listing::frontier;
