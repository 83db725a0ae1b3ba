//! What may happen to a voxel, and what it counts as.

/// What happens to one voxel. Log-odds are in thousandths.
#[derive(Clone, Copy, Debug, PartialEq, Eq)]
pub enum Event {
    /// This much is added to the value, which counts as 0 where the voxel is unknown, and the sum
    /// is clamped.
    Add(i32),
    /// The value becomes this one, clamped.
    Set(i32),
    /// The voxel becomes unknown.
    Forget,
    /// An occupied voxel takes the model's largest value, a free one its smallest, and an unknown
    /// one stays unknown (maximum likelihood).
    Likely,
}

/// What a voxel counts as.
#[derive(Clone, Copy, Debug, PartialEq, Eq)]
pub enum Class {
    /// It has no value.
    Unknown,
    /// Its value is below the threshold.
    Free,
    /// Its value is the threshold or above it.
    Occupied,
}
