//! Poses: where a sensor stands, how it is turned, and where that takes the points that it sees.
//!
//! A pose is a translation in nanometres and a quaternion of four whole numbers, in the place of
//! the four numbers of length 1 that are usual in robotics. Only the quaternion's direction counts:
//! `(1, 0, 0, 1)` is a quarter turn about the z axis, as `(5, 0, 0, 5)` is.
//!
//! ```text
//! let metre = 1_000_000_000;
//! let pose = Pose::new(Point { x: 0, y: 0, z: metre }, 1, 0, 0, 1)?; // 1 m up, a quarter turn
//! let seen = pose.apply(Point { x: 2 * metre, y: 0, z: 0 });         // 0 m, 2 m, 1 m
//! ```
//!
//! What the contracts promise:
//!
//! - [`Pose::new`] refuses exactly the quaternion 0, and each [`Pose`] that exists has another one,
//!   and a translation whose coordinates are below 10^16 nm in magnitude.
//! - [`Pose::apply`] is the turn and the move without an error beyond one rounding: the point p
//!   goes to Hamilton's product `q p q*`, divided by the square of q's length, each coordinate
//!   rounded to the nearest whole number and half up, and then by the translation. No coordinate of
//!   the answer is further than 3 * 10^16 nm from the translation's.
//!
//! (By the parities of the quaternion's numbers no coordinate ever lies half way between two whole
//! numbers; no clause says so.)
//!
//! The product stands as a table of nine factors of the point's coordinates, in whole numbers of at
//! most 2^32. The weighted sums are of 128 bits, and only then divided, once, so that nothing is
//! lost before it. That no factor exceeds the square of the quaternion's length is why a turned
//! point stays near.
//!
//! No call allocates or touches anything but its arguments. Scans stand on this crate, since their
//! points are seen from a pose.

#![tactic(auto)]

mod pose;
mod rotation;

pub use pose::{Pose, ZeroQuaternion};
