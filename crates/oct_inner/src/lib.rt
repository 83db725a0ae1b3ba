//! Passes over a whole occupancy tree: two that change no voxel, and one that makes each of them as
//! sure as it can be.
//!
//! An Inner node has a value of its own, by which queries at its depth are answered without a look
//! below it: the greatest that stands in its group, as in the OctoMap library. An edit that is lazy
//! leaves these values as they were, and groups that say no more than one node does. [`refresh`]
//! mends the values, as `updateInnerOccupancy` of the library does, and [`prune`] takes the groups
//! away, as its `prune` does.
//!
//! ```text
//! touch(&mut tree, key, Event::Add(850), true);     // lazy: no inner value is renewed
//! refresh(&mut tree);                               // each is the greatest of its group again
//! prune(&mut tree);                                 // and no group says what one node can say
//! ```
//!
//! What the contracts promise of a well-formed tree:
//!
//! - After [`refresh`] the tree is fresh: each Inner value is the greatest of its group. All else
//!   stays: every voxel's value, every leaf, every group with its home and its id, and every link
//!   (`IsSameButInner`). So a pruned tree stays pruned.
//! - After [`prune`] no group is left whose nodes are all absent or all leaves of one value. Every
//!   voxel keeps its value. No group comes to be, and each that is left has its home as before, and
//!   each Inner node that is left its place, its value and its link (`IsShrunk`). The tree stays
//!   well-formed, and fresh where it was. A tree that is pruned is left as it is.
//! - After [`maximum_likelihood`] each voxel has the value after the event `Likely`: the upper
//!   bound where it was occupied, the lower one where it was free, and none where it was unknown.
//!   The tree is fresh and pruned, whatever it was before, and has no more groups. It is the edit
//!   of a box that has every voxel of the map (`touch_box` of `oct_edit`), so each group is closed
//!   once.
//!
//! All go from the root down to the leaves and close each group on the way up, after all groups
//! below it, so that each group is visited once. None takes memory, and none can fail. How deep
//! they call themselves is bounded by the depth of the tree.
//!
//! The proof of the first two is one: `AllWithin` says of a block that something is so at each
//! place within it, and the pass of a block is done (`IsPassed`) once its eight children are and
//! its own node is closed. `Within` of the proofs of `oct_tree` has this for anything that is said
//! of a node and its group alone, and for whatever the pass keeps. The map with all its commands
//! stands on this crate.
#![tactic(auto)]

mod likelihood;
mod pruning;
mod refreshing;

pub use likelihood::maximum_likelihood;
pub use pruning::prune;
pub use refreshing::refresh;
