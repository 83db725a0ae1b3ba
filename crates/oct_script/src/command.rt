//! The commands of a script.
use crate::name::Name;
use oct_key::Point;
use thiserror::Error;

/// An edit of a voxel. The numbers are thousandths of log-odds, of a magnitude of at most
/// 1,000,000.
#[derive(Clone, Copy, Debug, PartialEq, Eq)]
pub enum Edit {
    /// A beam has ended in the voxel.
    Hit,
    /// A beam has passed through the voxel.
    Miss,
    /// The number is added to the voxel's value.
    Add(i32),
    /// The number is the voxel's value from now on.
    Set(i32),
    /// The voxel is unknown from now on.
    Forget,
}

/// How far the sensor of one scan is trusted: the log-odds that its hits and misses add, in
/// thousandths. A hit's is from 1 to 1,000,000, and a miss's from -1,000,000 to -1.
#[derive(Clone, Copy, Debug, PartialEq, Eq)]
pub struct ScanOdds {
    pub hit: i32,
    pub miss: i32,
}

/// The head of a scan: where the sensor was, how it was turned, and how far its beams count.
#[derive(Clone, Copy, Debug, PartialEq, Eq)]
pub struct ScanHead {
    /// Where the sensor was, in nanometres.
    pub t: Point,
    /// The quaternion that turns what the sensor saw into the map, `w` being its real part. All
    /// four may be 0.
    pub w: i16,
    pub x: i16,
    pub y: i16,
    pub z: i16,
    /// Where a longer beam is cut, in nanometres, if beams are cut at all.
    pub range: Option<i64>,
    /// The scan's own log-odds, if it doesn't go by those of the session.
    pub odds: Option<ScanOdds>,
    /// Whether inner values are left to a later refresh.
    pub lazy: bool,
}

/// What a line asks for.
#[derive(Clone, Copy, Debug, PartialEq, Eq)]
pub enum Command {
    /// Nothing: an empty line, one of blanks, or a comment.
    Blank,
    /// An edit of the voxel that holds the point `p`. A lazy one leaves the inner values to a later
    /// refresh.
    Edit { p: Point, e: Edit, lazy: bool },
    /// The same edit of each voxel of the box whose corners hold the two points, both included.
    Box { lo: Point, hi: Point, e: Edit },
    /// A scan, whose block begins after this line.
    Scan(ScanHead),
    /// A point that the open scan saw, from the sensor.
    Beam(Point),
    /// The end of the open scan's block.
    End,
    /// The value of the block of this depth that holds the point `p`. The depth has at most seven
    /// digits, and may be above that of a voxel.
    Get { p: Point, depth: u32 },
    /// The values of the known blocks of this depth that meet the box whose corners hold the two
    /// points, both included. The depth has at most seven digits, and may be above that of a voxel.
    List { lo: Point, hi: Point, depth: u32 },
    /// What lies first on the straight way from a point to another one. Unknown voxels stop it
    /// unless they are ignored.
    Cast { o: Point, e: Point, ignore: bool },
    /// The numbers of groups and nodes.
    Counts,
    /// All inner values are made anew.
    Refresh,
    /// All groups of equal leaves collapse.
    Prune,
    /// Each voxel becomes unknown.
    Clear,
    /// Each known voxel becomes as sure as it can be.
    MaxLik,
    /// From now on it's noted how voxels change.
    Track,
    /// From now on it isn't.
    Untrack,
    /// The voxels that have changed since `Track`.
    Changes,
    /// From now on scans are limited to the box whose corners hold the two points, both included.
    Limit { lo: Point, hi: Point },
    /// Scans are no longer limited to a box.
    NoLimit,
    /// The classes of all voxels, written to the file of this name.
    Save(Name),
    /// The classes of all voxels, read from the file of this name.
    Load(Name),
    /// The values of all voxels, with the log-odds and the update box, written to the file of this
    /// name.
    Snapshot(Name),
    /// The values of all voxels, with the log-odds and the update box, read from the file of this
    /// name.
    Restore(Name),
    /// The end of the session.
    Quit,
}

/// A line isn't in the grammar of scripts.
#[derive(Clone, Copy, Debug, PartialEq, Eq, Error)]
#[error("the line isn't in the grammar from column {column} on")]
pub struct Syntax {
    /// The column, counted in bytes from 1 on, of the first word that can't stand there, or one
    /// more than the line's length where a word is missing.
    pub column: u32,
}
