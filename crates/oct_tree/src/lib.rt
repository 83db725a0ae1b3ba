//! The linked tree of an occupancy map: for each voxel a value, or none where nothing is known of
//! it.
//!
//! An [`OccTree`] is an octree as in Hornung et al. 2013: its node of the whole map stands at the
//! root, and where a node is Inner, the nodes of its block's eight children stand in a group of the
//! arena (`oct_arena`). A leaf gives its value to all voxels of its block, and an absent node
//! says that nothing is known of them. A node stands at a [`Place`]: the root, or a slot of a
//! group.
//!
//! ```text
//! let mut tree = OccTree::new(alloc, res, OddsModel::default());
//! tree.reserve(1)?;                                 // the one call that can fail
//! let id = tree.split(Place::Root);                 // eight absent nodes under the root
//! tree.set_place(Place::Slot(id, 3), Node::Leaf(850));
//! tree.settle(Place::Root);                         // Inner, with the value 850
//! let value = tree.at(key);                         // Some(850) in child 3, else None
//! ```
//!
//! What the contracts promise:
//!
//! - [`OccTree::node_over`] is the node that stands at a block, or the leaf or absent node that
//!   covers it (`StandsOver`): from the root by the voxel's child indices, until a node is not
//!   Inner. [`OccTree::at`] is the value that it gives a voxel (`value_at`). [`Descent`] gives
//!   these indices one by one, from the voxel's Morton code.
//! - Each tree is linked (`IsLinked`): a node that links a group links one whose home is the node's
//!   block, and each group is what the path to its home comes to. The type keeps that through every
//!   call. [`OccTree::shape`] says what follows: homes are distinct, one node alone links each
//!   group, and so on (`IsShaped`).
//! - [`OccTree::split`], [`OccTree::split_to`], [`OccTree::collapse`], [`OccTree::drop_absent`],
//!   [`OccTree::renew`], [`OccTree::settle`] and [`OccTree::settle_group`] change no voxel.
//!   [`OccTree::set_place`] changes the voxels of the place's block alone.
//! - Each of these says what it changes: one node (`IsWritten`), or one node and the group under it
//!   (`IsSplit`, where a collapse is a split undone). Every other node, home and entry stays, and
//!   so do the resolution and the log-odds.
//! - All of a tree that lies outside the place's block is as it was (`IsSameOutside`). Such changes
//!   join: one after another, and from a child to its block, so that a walk over a whole subtree is
//!   one change of its block.
//! - [`OccTree::reserve`] changes no node, and [`OccTree::copy`] answers another tree with the same
//!   ones. No other call asks for memory.
//!
//! A tree is well-formed where each group has a node that is not absent (`IsWellFormed`), fresh
//! where each inner value is the greatest of its group (`IsFresh`), and pruned where no group could
//! be collapsed (`IsPruned`). The edits above this crate keep these three.
//!
//! A tree can keep that it is known to be fresh, and to be pruned ([`Tidiness`]): whoever has shown
//! it says so by [`OccTree::note`], and [`OccTree::tidiness`] answers what still holds. Each call
//! that changes a node forgets it, so that what is known is so (`IsTrueOf`). An edit of such a tree
//! can end early.
//!
//! `at` reads at most sixteen nodes of the arena, and `settle` those of one group.
//!
//! Edits, passes, queries and the map stand on this crate. They cite the definitions in `specs/`,
//! and `proofs/` has the lemmas for them: how paths run and which places they read (`Paths`), what
//! they come to over a block (`Over`), which blocks a change leaves alone (`Frames`), what joins
//! the two (`Links`), what more room leaves (`Grown`), how a pass goes from the children of a block
//! to the block (`Within`), and how a block is filled child by child (`Fillings`).
#![tactic(auto)]

mod descent;
mod nodes;
mod place;
mod slots;
mod tidiness;
mod tree;

pub use descent::Descent;
pub use place::Place;
pub use tidiness::Tidiness;
pub use tree::OccTree;
