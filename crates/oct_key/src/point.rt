//! Places in nanometres, and places in voxels.

use oct_num::Items;

/// A point, in nanometres.
#[derive(Clone, Copy, Debug, PartialEq, Eq)]
pub struct Point {
    pub x: i64,
    pub y: i64,
    pub z: i64,
}

/// Points in order.
pub type PointList = Items<Point>;

/// A voxel, by its place on each axis. The voxels just above the origin have 32768 there.
///
/// The order is by x, then by y, then by z.
#[derive(Clone, Copy, Debug, PartialEq, Eq, PartialOrd, Ord)]
pub struct Key {
    pub x: u16,
    pub y: u16,
    pub z: u16,
}

/// Keys of voxels in order.
pub type KeyList = Items<Key>;
