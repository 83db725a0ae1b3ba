//! The plain types that C passes and reads.
ghost use Rattle.std.specs.Prelude.{◌≡◌};
ghost use Rattle.octofix.specs.Points.{box_told, key_told, point_of, point_told};

use oct_key::{Key, Point, Window};

/// A point, in nanometres.
#[repr(C)]
#[derive(Clone, Copy)]
pub struct PointNm {
    pub x: i64,
    pub y: i64,
    pub z: i64,
}

/// A voxel, by its place on each axis. The voxels just above the origin have 32768 there.
#[repr(C)]
#[derive(Clone, Copy)]
pub struct VoxelKey {
    pub x: u16,
    pub y: u16,
    pub z: u16,
}

/// A box of voxels, with both corners.
#[repr(C)]
#[derive(Clone, Copy)]
pub struct VoxelBox {
    pub low: VoxelKey,
    pub high: VoxelKey,
}

/// The straight way from one point to another.
#[repr(C)]
#[derive(Clone, Copy)]
pub struct SegmentNm {
    pub origin: PointNm,
    pub end: PointNm,
}

/// Where a sensor stands, and the quaternion by which it is turned.
#[repr(C)]
#[derive(Clone, Copy)]
pub struct PoseNm {
    pub at: PointNm,
    pub w: i16,
    pub x: i16,
    pub y: i16,
    pub z: i16,
}

/// Log-odds, in thousandths.
#[repr(C)]
#[derive(Clone, Copy)]
pub struct LogOdds {
    pub hit: i32,
    pub miss: i32,
    pub min: i32,
    pub max: i32,
    pub thr: i32,
}

/// How large a map may grow, and how many voxels a scan may meet.
#[repr(C)]
#[derive(Clone, Copy)]
pub struct MapLimits {
    pub max_groups: u64,
    pub max_cells: u64,
}

/// What a map goes by, and how it stands.
#[repr(C)]
#[derive(Clone, Copy)]
pub struct Settings {
    pub res: i64,
    pub odds: LogOdds,
    pub limits: MapLimits,
    pub is_stale: bool,
    pub is_tracked: bool,
}

/// An edit of the voxel that holds a point.
#[repr(C)]
#[derive(Clone, Copy)]
pub struct PointEdit {
    pub point: PointNm,
    pub event: u32,
    pub number: i32,
}

/// How a scan is to be done. A negative range is none. Where hit and miss are both 0 they are those
/// of the map.
#[repr(C)]
#[derive(Clone, Copy)]
pub struct ScanOptions {
    pub range: i64,
    pub hit: i32,
    pub miss: i32,
    pub lazy: bool,
}

/// How many voxels a scan hit, and how many it freed.
#[repr(C)]
#[derive(Clone, Copy)]
pub struct Counted {
    pub hits: u64,
    pub frees: u64,
}

/// How many groups and nodes a map has.
#[repr(C)]
#[derive(Clone, Copy)]
pub struct TreeCounts {
    pub groups: u64,
    pub nodes: u64,
}

/// How many groups, nodes and leaves the least tree of a map's values has.
#[repr(C)]
#[derive(Clone, Copy)]
pub struct LeastTree {
    pub groups: u64,
    pub nodes: u64,
    pub leaves: u64,
}

/// A block that is known, and its value. Its numbers count blocks of its depth.
#[repr(C)]
#[derive(Clone, Copy)]
pub struct KnownBlock {
    pub depth: u16,
    pub x: u16,
    pub y: u16,
    pub z: u16,
    pub value: i32,
}

/// What one point of many is answered.
#[repr(C)]
#[derive(Clone, Copy)]
pub struct PointAnswer {
    pub value: i32,
    pub code: u32,
}

/// What one segment of many is answered.
#[repr(C)]
#[derive(Clone, Copy)]
pub struct CastStop {
    pub key: VoxelKey,
    pub code: u16,
}

/// A voxel whose class isn't the one that it had at the mark.
#[repr(C)]
#[derive(Clone, Copy)]
pub struct ChangedVoxel {
    pub key: VoxelKey,
    pub kind: u16,
}

/// What a refusal names: two numbers by its code, and 0 where it names less.
#[repr(C)]
#[derive(Clone, Copy)]
pub struct Details {
    pub first: u64,
    pub second: u64,
}

impl PointNm {
    /// The same point.
    pub fn point(self) -> Point
        ensures { result ≡ point_of self }
    {
        let PointNm { x, y, z } = self;
        Point { x, y, z }
    }

    /// The same point.
    pub fn of(point: Point) -> PointNm
        ensures { result ≡ point_told point }
    {
        let Point { x, y, z } = point;
        PointNm { x, y, z }
    }
}

impl VoxelKey {
    /// The same voxel.
    pub fn of(key: Key) -> VoxelKey
        ensures { result ≡ key_told key }
    {
        let Key { x, y, z } = key;
        VoxelKey { x, y, z }
    }
}

impl VoxelBox {
    /// The same box.
    pub fn of(window: Window) -> VoxelBox
        ensures { result ≡ box_told window }
    {
        VoxelBox {
            low: VoxelKey::of(window.lo()),
            high: VoxelKey::of(window.hi()),
        }
    }
}
