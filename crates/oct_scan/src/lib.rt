//! Scans: what the beams of a range sensor do to the voxels of a map.
//!
//! A scan is a pose and the points that a sensor saw from there. A beam goes from the pose's place
//! to each posed point, and is cut where it is longer than the sensor's range. The voxel of an end
//! is hit, and the voxels on the way are freed, as in the OctoMap library (Hornung et al. 2013). A
//! voxel that one beam hits stays hit where another beam passes through it, and a beam that is cut
//! says nothing of the voxel where it was cut. A box of voxels may be handed in, to which the
//! update is restricted.
//!
//! ```text
//! let scan = Scan { pose, points, range: Some(8_000_000_000), odds: None };
//! let update = update_bricks(alloc, &scan, res, 1 << 26, None)?;
//! let (hits, frees) = (update.hit_count(), update.free_count());
//! for brick in update.bricks() { .. }               // 64 voxels at a time
//! ```
//!
//! What the contracts promise:
//!
//! - [`update_bricks`] answers exactly the voxels that are hit and those that are freed, by
//!   definitions that ask about one voxel and all beams (`IsHit`, `IsFreed`), as far as they lie in
//!   the box, and how many of each there are (`IsUpdateOf`). They come as bricks of `oct_brick`;
//!   [`update_set`] lists them by Morton code, and promises the same.
//! - [`UpdateBricks::need`] is the number of blocks of depth 0 to 15 that hold such a voxel
//!   (`IsNeed`): at most that many groups of a tree have to be made for them.
//! - The same as functions, for whoever defines the answers of a session: `scan_outcome`,
//!   `hit_count`, `free_count`, `scan_fault` (`IsOutcomeOf`, `IsRefusal`). [`outcomes_are_exact`]
//!   says that they mean what the words above mean; [`counts_stay_within`] bounds hits and frees by
//!   the voxels met, and [`cut_ends_are_exact`] says where a beam is cut.
//! - A scan is refused for its origin, for the first beam that ends outside the map, or for the
//!   first beam with which the voxels met exceed the limit, in this order and exactly then. No
//!   refusal looks at the box. Memory runs out only where some is taken: the scan isn't refused,
//!   and has a point (`TakesMemory`).
//!
//! The beams are made first, and the scan is judged by a bound for each; voxel by voxel only where
//! the sum of these exceeds the limit, or where there is no memory for the beams. Then each beam is
//! walked; from 4,096 to 2^19 beams go in the order of the bricks where they end, so that those
//! that pass the same bricks mostly follow one another. One that doesn't lie in the box with both
//! ends begins where it comes to the box, by a division for each axis, and is walked up to its end
//! from its first voxel there, or up to where it leaves it. In a dense scan (`are_dense`) voxels
//! are set in a table of 2^17 bricks (`mark_steps`), where a brick stands by the last bits of its
//! code: by a loop in which no call stands as long as their bricks are there (`mark_known`), and
//! else in a brick that takes the place of another one, which goes to the pile (`exchange`). In any
//! other scan, and in a box that a beam comes to or leaves, a beam's voxels go into the brick where
//! it is, which is added to the pile when the beam leaves it. The pile remembers in a table of its
//! own where bricks stand, and merges them where those that it forgot become many, so that there
//! are never more than twice as many as codes, and 2^18 (`AreFew`): memory follows the bricks that
//! the beams touch, however often they do. The bricks are sorted by their codes, and those of one
//! code joined; each adds to the need the blocks that don't hold the one before it, and its own
//! octets.
//!
//! Both calls allocate, and touch nothing but their arguments.

#![tactic(auto)]

mod beam;
mod bricks;
mod code_box;
mod density;
mod entry;
mod fault;
mod gather;
mod judge;
mod laws;
mod marks;
mod need;
mod pile;
mod scan;
mod sensor_view;
mod table;
mod update;

pub use bricks::{UpdateBricks, update_bricks};
pub use fault::ScanFault;
pub use laws::{counts_stay_within, cut_ends_are_exact, outcomes_are_exact};
pub use scan::{Scan, ScanOdds};
pub use update::{UpdateSet, update_set};
