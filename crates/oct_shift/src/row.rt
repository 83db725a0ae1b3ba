//! The nodes that a block of a moved map comes from.

ghost use Rattle.std.specs.Prelude.{◌≡◌, ◌+◌, ◌≤◌, ◌<◌, ◌/◌, ◌%◌, ℕ, IsTrue, IfSome, IfNone, None};
ghost use Rattle.std.specs.Prelude.{false};
ghost use Rattle.oct_key.specs.Block.{Cube, child_of, root_block};
ghost use Rattle.oct_arena.specs.Nodes.{link_of};
ghost use Rattle.oct_tree.specs.Tree.{IsLinked, step};
ghost use Rattle.oct_shift.specs.Moving.{IsNodeOf, IsRootNode, IsRow, from_child, from_node};
ghost use Rattle.oct_shift.specs.Moving.{node_of_row};

use crate::offset::{Offset, Step};
use oct_arena::Node;
use oct_tree::OccTree;

/// The nodes over the blocks that a block of the moved map comes from: on each axis those of the
/// first and of the second one, where bit 0 of the index says which on the x axis, bit 1 on the y
/// axis and bit 2 on the z axis. Where a block comes from one alone, that stands twice.
#[derive(Clone, Copy)]
pub(crate) struct Row {
    pub(crate) nodes: [Node; 8],
}

impl Row {
    /// The row of the whole map.
    pub(crate) fn whole_map(tree: &OccTree, offset: Offset) -> Row
        ensures { IsRow tree.now offset root_block result }
    {
        let mut nodes = [Node::Absent; 8];
        for j in 0u8..8 {
            nodes[usize::from(j)] = root_node(tree, offset, j);
        }
        Row { nodes }
    }

    /// The row of child i of the block.
    pub(crate) fn child(&self, tree: &OccTree, way: Step, i: u8) -> Row
        requires linked { IsLinked tree.now }
        requires child { i < 8 }
        requires nodes { (j : ℕ) → j < 8 → IsNodeOf tree.now (node_of_row self.now j) }
        requires way { (way.x.bit ≤ 1) × (way.y.bit ≤ 1) × (way.z.bit ≤ 1) }
        ensures { (j : ℕ) → j < 8 → node_of_row result j ≡ step tree.now.groups
            (node_of_row self.now (from_node way i j)) (from_child way i j) }
    {
        let mut nodes = self.nodes;
        for j in 0u8..8 {
            let (node, child) = way.source(i, j);
            nodes[usize::from(j)] = tree.child_node(self.nodes[usize::from(node)], child);
        }
        Row { nodes }
    }

    /// The node that all are, if it is one and isn't Inner.
    pub(crate) fn common(&self) -> Option<Node>
        ensures some { IfSome result (λ n. (link_of n ≡ None)
            × ((j : ℕ) → j < 8 → node_of_row self.now j ≡ n)) }
        ensures none { IfNone result (link_of (node_of_row self.now 0) ≡ None
            → ((j : ℕ) → j < 8 → node_of_row self.now j ≡ node_of_row self.now 0) → ⊥) }
    {
        let first = self.nodes[0];
        if matches!(first, Node::Inner(..)) {
            return None;
        }
        for j in 1usize..8 {
            if !is_same(self.nodes[j], first) {
                return None;
            }
        }
        Some(first)
    }
}

/// Whether both are one node, which isn't Inner.
fn is_same(a: Node, b: Node) -> bool
    ensures same { IsTrue result → a ≡ b }
    ensures else_not { result ≡ false → link_of b ≡ None → a ≡ b → ⊥ }
{
    match (a, b) {
        (Node::Absent, Node::Absent) => true,
        (Node::Leaf(v), Node::Leaf(w)) => v == w,
        _ => false,
    }
}

/// Node j of the row of the whole map: the root, or nothing.
fn root_node(tree: &OccTree, offset: Offset, j: u8) -> Node
    requires { j < 8 }
    ensures { IsRootNode tree.now offset j result }
{
    let x = (offset.x >> 16) + u32::from(j & 1);
    let y = (offset.y >> 16) + u32::from((j >> 1) & 1);
    let z = (offset.z >> 16) + u32::from((j >> 2) & 1);
    if x == 1 && y == 1 && z == 1 {
        tree.root()
    } else {
        Node::Absent
    }
}
