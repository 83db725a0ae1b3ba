//! Questions to a tree of groups: what it holds for a block, how many groups and nodes it has,
//! which blocks its values are made of, and how far they reach.
//!
//! ```text
//! let value = query(&tree, Block::of(key, 15));     // the largest of eight voxels, or None
//! let value = paths.query(&tree, Block::of(key, 15));     // the same, by paths that are kept
//! let Counts { groups, nodes } = counts(&tree);
//! let LeastTree { groups, nodes, leaves } = least_tree(&tree);
//! for found in list(alloc, &tree, lo, hi, 15, 1_000_000)?.as_slice() { .. }
//! for leaf in leaves(alloc, &tree)?.as_slice() { .. }
//! for leaf in leaves_in(alloc, &tree, &window)?.as_slice() { .. }
//! for leaf in leaves_of(alloc, &tree, Sought::Occupied)?.as_slice() { .. }
//! let window = bounds(&tree, Sought::Occupied);     // None where no voxel is occupied
//! ```
//!
//! - [`query`] answers what stands in the node of a block, or in the leaf that covers it. In a
//!   fresh tree that is the largest known value among the block's voxels (`IsLargestIn` of
//!   `oct_values`), and for a voxel it is so in every tree. That an inner node has the maximum of
//!   its children is the rule of Hornung et al. 2013. [`Paths`] answer the same to many questions:
//!   they keep eight ways, and go down only from where two part.
//! - [`counts`] answers how many groups there are and how many nodes aren't absent. No tree of
//!   these values has fewer groups than there are blocks of depth 0 to 15 that aren't uniform
//!   (`group_count`), and exactly the pruned trees have no more ([`groups_are_needed`],
//!   [`pruned_is_least`]).
//! - [`least_tree`] answers how many groups, nodes and leaves such a least tree has (`group_count`,
//!   `node_count`, and the length of `leaves_of`), of a tree that may have more.
//! - [`list`] answers for all blocks of a depth that meet a box and aren't unknown, by ascending x,
//!   then y, then z: a function of the voxels' values (`listed_blocks`). A list of more blocks than
//!   are allowed is refused before one is looked at.
//! - [`leaves`] answers the greatest blocks whose voxels are known and have one value, in the order
//!   of the Morton codes of their first voxels (`leaves_of`), so a tree that isn't pruned gives the
//!   same ones; of a pruned tree they are its leaf nodes ([`leaves_are_leaf_nodes`]).
//!   [`leaves_in`] answers exactly those whose blocks meet a box (`leaves_met`), and [`leaves_of`]
//!   those of one class (`those_sought`).
//! - [`bounds`] answers the least box around the known voxels, or around those of one class
//!   (`IsExtent`).
//!
//! Walks go down from the root, and not into a block that doesn't meet the box, nor, where occupied
//! voxels are sought in a tree that is known to be fresh, into one whose node tells that it holds
//! none; in a block that lies in the box whole the box isn't asked any more, and a leaf there costs
//! no call. A list keeps the way to its last block (`Path`). Of a block with children `leaves`
//! first looks whether all of its voxels have one value, as far as the first two that differ: in a
//! pruned tree that is after at most eight nodes for each depth below. Lists alone take memory.
#![tactic(auto)]

mod block_list;
mod depths;
mod extent;
mod fault;
mod found;
mod laws;
mod leaf_list;
mod least;
mod listing;
mod nodes;
mod path;
mod paths;
mod sought;
mod totals;

pub use block_list::BlockList;
pub use depths::query;
pub use extent::bounds;
pub use fault::ListFault;
pub use found::Found;
pub use laws::{groups_are_needed, leaves_are_leaf_nodes, pruned_is_least};
pub use leaf_list::{leaves, leaves_in, leaves_of, leaves_of_in};
pub use least::least_tree;
pub use listing::list;
pub use nodes::counts;
pub use paths::Paths;
pub use sought::Sought;
pub use totals::{Counts, LeastTree};
