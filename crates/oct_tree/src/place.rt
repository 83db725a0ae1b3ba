//! The root, or a child of a group: where a node stands.

use oct_arena::GroupId;

/// Where a node of a tree stands.
#[derive(Clone, Copy, Debug, PartialEq, Eq)]
pub enum Place {
    /// The node of the whole map.
    Root,
    /// A node of a group, by its child index from 0 to 7.
    Slot(GroupId, u8),
}
