//! Casts: what lies first on a straight way through a map of voxels.
//!
//! A planner asks whether a robot may go straight from one point to another, and a sensor's model
//! what a beam would meet. [`cast`] goes along the segment from voxel to voxel, and answers the
//! first one that stops it: one that is occupied, or one that is unknown where unknown voxels
//! aren't ignored. Both ends count. So from a point to itself it asks the one voxel that holds it.
//!
//! ```text
//! match cast(&tree, origin, end, false) {
//!     Cast::Hit(key) => ..      // the first voxel that stops the way is occupied
//!     Cast::Unknown(key) => ..  // nothing is known of it
//!     Cast::Clear => ..         // all voxels on the way are free
//! }
//! ```
//!
//! What the contracts promise, for each tree, whether or not its inner values are fresh and its
//! groups pruned, since only the voxels' own classes count:
//!
//! - The answer names the one voxel that the segment meets, that stops the cast, and that precedes
//!   all others that do (`StopsFirst`), with its class. It is clear exactly where the segment meets
//!   no such voxel. `IsRight` says so in the words of `oct_ray`, which ask each voxel by itself.
//! - It is `cast_along` of the two ends and of a class for each voxel, so that whoever says what a
//!   program answers can compute it. That this is right is a law ([`casts_are_right`]), for every
//!   edge of a voxel, both ends and all classes, of a tree or not.
//!
//! The walk is that of `oct_ray`, which gives the Morton code of each voxel that the segment meets.
//! The way down the tree is kept from one voxel to the next: the groups that are linked above the
//! last node, at most sixteen of them. As long as the walk stays in the block of that node, which a
//! comparison of two codes tells, nothing is looked up, so that a leaf of many voxels, or a large
//! block of which nothing is known, is passed at the price of the walk alone. Else the way goes up
//! to the block that holds both voxels, and down from there; mostly that is one group. Where the
//! whole map is one node, the first voxel decides.
//!
//! In a tree that is known to be fresh no voxel is above the inner value of a block that holds it.
//! So a cast that ignores unknown voxels passes a block as a whole, too, where that value is below
//! the threshold, and looks at no group below it.
//!
//! A cast changes nothing, takes no memory and can't fail. The map stands on this crate, and cites
//! `cast_along`.
#![tactic(auto)]

mod laws;
mod outcome;
mod ray;
mod way;

pub use laws::casts_are_right;
pub use outcome::Cast;
pub use ray::cast;
