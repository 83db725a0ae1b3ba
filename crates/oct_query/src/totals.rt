//! The size of a tree, in groups and in nodes.

/// How many groups a tree has, and how many nodes that aren't absent, the root included.
#[derive(Clone, Copy, Debug, PartialEq, Eq)]
pub struct Counts {
    /// Groups of eight nodes.
    pub groups: u32,
    /// Nodes that aren't absent, the root among them.
    pub nodes: u64,
}

/// How large the least tree of a map's values is.
#[derive(Clone, Copy, Debug, PartialEq, Eq)]
pub struct LeastTree {
    /// Groups of eight nodes.
    pub groups: u64,
    /// Nodes that aren't absent, the root among them.
    pub nodes: u64,
    /// Leaves: the greatest blocks whose voxels are known and have one value.
    pub leaves: u64,
}
