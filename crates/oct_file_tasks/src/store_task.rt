//! Tasks over two files of the store.
use oct_key::Point;
use oct_merge::Rule;
use oct_script::Name;

/// What is made of two maps.
#[derive(Clone, Copy, Debug)]
pub enum PairTask {
    /// The file of the map that they give together.
    Merge(Rule),
    /// How many voxels between two points have which classes in them.
    Table { lo: Point, hi: Point },
}

/// A task over two files of the store.
#[derive(Clone, Copy, Debug)]
pub struct StoreTask {
    pub first: Name,
    pub second: Name,
    pub asks: PairTask,
}
