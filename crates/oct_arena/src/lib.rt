//! The groups of eight nodes that an octree is made of, and the arena that keeps them.
//!
//! A [`Node`] says what is known of a block of voxels: nothing, one value for all of it, or that
//! its eight children are in a [`Group`]. A group keeps which block it belongs to, its home, so
//! that two blocks never share one. Groups stand in a [`NodeArena`], each under a [`GroupId`] of
//! its own, and a node links a group by that id.
//!
//! ```text
//! let mut arena = NodeArena::new(alloc);
//! arena.reserve(1)?;                                // the one call that can fail
//! let id = arena.take(Block::whole_map(), [Node::Absent; 8]);
//! arena.set_node(id, 3, Node::Leaf(850));
//! let node = arena.node(id, 3);                     // Node::Leaf(850)
//! arena.give(id);
//! ```
//!
//! An arena is seen as a list of entries, where an id is the number of an entry: a group, or none
//! where the entry is vacant. What the contracts promise:
//!
//! - [`NodeArena::take`] puts the group that it is given into a vacant entry, [`NodeArena::give`]
//!   makes the entry vacant again, and [`NodeArena::set_node`] changes one node of one group.
//!   [`NodeArena::split_to`] does two of these at once: it puts eight copies of a node under it.
//!   Nothing else changes: each says the whole list after the call.
//! - [`NodeArena::node`], [`NodeArena::home`] and [`NodeArena::group`] answer what was put there.
//!   They may be asked of live groups only. [`NodeArena::link`] answers which group a node links,
//!   if any: whoever goes down reads nothing else on the way. [`Group::are_same`] compares two
//!   nodes of a group, and [`Group::rank`] says what stands in one as a number. These three don't
//!   unpack the node.
//! - [`NodeArena::reserve`] appends vacant entries until there are as many as asked for, and at
//!   most 1,023 more. It appends none where there are enough. No group moves to another id, also
//!   where memory runs out.
//! - [`NodeArena::copy`] answers another arena with the same entries, groups and vacant ones alike.
//! - [`NodeArena::live`] and [`NodeArena::spare`] are the numbers of groups and of vacant entries.
//!
//! Beside `copy`, `reserve` is the only call that asks for memory. So a caller that reserves first
//! what an edit may need can't fail on the way and leave half of it done.
//!
//! Groups lie in chunks of 1,024, which never move. A node takes eight bytes, a home too, and a
//! group 72. The memory of an entry is first written when it is first taken. The entries that were
//! given back are a list that is threaded through their own memory: the first node of each links
//! the next. The invariant says that each of them stands on the list once, and that each entry that
//! was ever taken has a group in its memory, and no other one. `take` takes the first entry of the
//! list, or, where that is empty, the first one that was never taken; `give` puts one in front. So
//! new entries are taken in the order of their ids, and groups that are made one after another lie
//! side by side. All calls but `copy` and `reserve` take a few steps, however many groups there
//! are. A copy is one pass over the entries that were ever taken, and reads no other memory. An
//! arena that is dropped gives all memory back.
//!
//! The tree stands on this crate, and cites `Groups`, `entry`, `IsLive`, `node_at` and `home_at`.
//! `IsArena` is what each list of an arena has: at most 2^31 + 1,023 entries, and eight nodes in
//! each group.
#![tactic(auto)]

mod arena;
mod chunk;
mod group;
mod home;
mod node;
mod rows;

pub use arena::NodeArena;
pub use node::{Group, GroupId, Node};
