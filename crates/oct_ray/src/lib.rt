//! Beams: the voxels that a beam meets, and where a beam ends that is longer than the sensor's
//! range.
//!
//! A beam is the straight segment from the sensor, its origin, to a measured point, its end. A scan
//! makes the voxels on the way of its beams free, so it has to know each of them exactly. A voxel
//! takes its lower faces and not its upper ones, as in `oct_key`, and a beam meets each voxel that
//! contains a point of its closed segment. So where a beam passes through the corner of voxels
//! exactly, it goes on to the voxel across, and meets one beside only where that one has the
//! corner.
//!
//! ```text
//! let range_squared = u128::from(range.unsigned_abs()).pow(2);
//! let is_long = square_distance(origin, far) > range_squared;
//! let end = if is_long { cut(origin, far, range) } else { far };
//! for key in Walk::new(res, origin, end) {
//!     ..                                            // each voxel on the way, in order
//! }
//! ```
//!
//! What the contracts promise:
//!
//! - [`Walk::new`] makes the list of exactly the voxels that the segment meets: each of them once,
//!   each before all that come later on the way, the first with the origin and the last with the
//!   end. The voxels are asked one by one, by whole numbers, with no word of how the walk goes: a
//!   voxel is met if some place p/q of the segment lies between its faces on each axis.
//! - A [`Walk`] is seen as the list of the voxels that it has still to give, at most 3 * 65,535 + 1
//!   of them. As an iterator it takes off the first, and gives `None` exactly where the list is
//!   empty.
//! - [`Walk::between`] is the same for whoever knows the voxels of both ends, and divides nothing.
//! - [`Walk::after`] begins just after a part of the beam: what is left of the list there, for
//!   whoever has no use for the voxels before.
//! - [`Walk::near`] makes the same list a [`NearWalk`], in numbers of 64 bits, where they fit. Both
//!   are a [`BeamWalk`], which gives the codes of its voxels up to the last one.
//! - `met_by` computes the same list from the two points, and [`segments_are_walked`] says that it
//!   is that list, so that whoever counts or asks for met voxels can name them.
//! - [`cut`] moves the end of a beam toward the origin, to `o + (e - o) * r / length`, rounded
//!   toward the origin on each axis, where the length is rounded up. The cut end lies within the
//!   range.
//!
//! The walk goes from crossing to crossing. Each axis of the segment crosses the faces of voxels at
//! places a voxel's edge apart, as fractions over the axis's span; the walk keeps the next one of
//! each axis and takes the least, or all that are least together. At one place an axis that rises
//! crosses before one that falls, since a voxel has its lower faces. The fractions are kept
//! multiplied for the comparisons with both other axes, so that a step is a few additions and
//! comparisons, and no product or division. All numbers are whole and fit 128 bits, so no rounding
//! error skips a voxel. A near walk keeps of each two axes how much later the one crosses than the
//! other, and no place.
//!
//! No call allocates or fails. Scans (`oct_scan`) and casts (`oct_cast`) stand on this crate, and
//! cite `Meets` and `met_by`; casts cite `Precedes` too, and scans `IsWalkAlong`, `IsCutEnd`,
//! `cut_coordinate` and `square_distance`.

#![tactic(auto)]

mod axis;
mod beam_walk;
mod laws;
mod near;
mod placed;
mod range;
mod track;
mod walk;

pub use beam_walk::BeamWalk;
pub use laws::segments_are_walked;
pub use near::NearWalk;
pub use range::{cut, square_distance};
pub use walk::Walk;
