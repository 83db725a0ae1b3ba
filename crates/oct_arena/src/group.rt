//! Eight nodes and the block that they divide, or a vacant entry that links the next one.
ghost use Rattle.std.specs.Prelude.{◌≡◌, ◌≤◌, ◌↔◌, IsTrue, Some, option_map};
ghost use Rattle.oct_key.specs.Block.{child_of};
ghost use Rattle.oct_arena.specs.Entries.{node_of};
ghost use Rattle.oct_arena.specs.Free.{linked_number};
ghost use Rattle.oct_arena.specs.Nodes.{link_of, stored_in, IsRankOf};

use crate::home::PackedBlock;
use crate::node::{Group, GroupId, Node, PackedNode};
use oct_key::Block;

impl Group {
    /// The entry that a vacant group links.
    pub(crate) fn next(&self) -> GroupId
        ensures { result.number ≡ linked_number (node_of (Some self.now) 0) }
    {
        match self.node(0) {
            Node::Inner(_, id) => id,
            _ => GroupId::new(0),
        }
    }

    /// Node i.
    pub fn node(&self, i: u8) -> Node
        requires { i ≤ 7 }
        ensures { result ≡ node_of (Some self.now) i }
    {
        self.nodes[i as usize].node()
    }

    /// The group that node i links, if it is Inner.
    #[inline(always)]
    pub(crate) fn link(&self, i: u8) -> Option<GroupId>
        requires { i ≤ 7 }
        ensures { option_map (λ g. g.number) result ≡ link_of (node_of (Some self.now) i) }
    {
        self.nodes[i as usize].link()
    }

    /// The block of node i, and the node as it lies.
    pub(crate) fn child(&self, i: u8) -> (PackedBlock, PackedNode)
        requires depth { self.now.home.depth ≤ 15 }
        requires index { i ≤ 7 }
        ensures home { result.0 ≡ child_of self.now.home i }
        ensures node { result.1 ≡ node_of (Some self.now) i }
    {
        (self.home.child(i), self.nodes[i as usize])
    }

    /// Whether the nodes i and j are one, compared as they lie.
    pub fn are_same(&self, i: u8, j: u8) -> bool
        requires { (i ≤ 7) × (j ≤ 7) }
        ensures { IsTrue result ↔ (node_of (Some self.now) i ≡ node_of (Some self.now) j) }
    {
        self.nodes[i as usize].is(self.nodes[j as usize])
    }

    /// The rank of the value that stands in node i: the value itself, or the least number where
    /// there is none. So the greatest of a group is found without a question for each node.
    pub fn rank(&self, i: u8) -> i32
        requires { i ≤ 7 }
        ensures { IsRankOf (stored_in (node_of (Some self.now) i)) result }
    {
        self.nodes[i as usize].rank()
    }
}
