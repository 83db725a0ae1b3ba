//! A block of a tree with the nodes around it.
ghost use Rattle.std.specs.Prelude.{◌≡◌, ◌≢◌, ℕ, ◌+◌, ◌≤◌, ◌↔◌, IsTrue, Some};
ghost use Rattle.oct_key.specs.Block.{child_of, root_block};
ghost use Rattle.oct_key.specs.CubeOf.{cube_of};
ghost use Rattle.oct_arena.specs.Entries.{IsLive};
ghost use Rattle.oct_arena.specs.Nodes.{link_of};
ghost use Rattle.oct_frontier.specs.Patches.{IsLeaf, IsPatchOf, AreLeavesBeside, sides_of_child};
ghost use Rattle.oct_frontier.specs.Patches.{child_node, child_x, child_y, child_z};

use oct_arena::Node;
use oct_key::Block;
use oct_tree::OccTree;

/// What stands beyond the map: nothing there is unknown.
const BEYOND: Node = Node::Leaf(0);

/// The nodes over the two blocks beside a block on an axis.
#[derive(Clone, Copy)]
pub(crate) struct Sides {
    pub(crate) low: Node,
    pub(crate) high: Node,
}

/// A block, the node over it, and the nodes over the six blocks beside it, each the node of that
/// block or the leaf or absent node that covers it.
#[derive(Drop)]
pub(crate) struct Patch {
    pub(crate) block: Block,
    pub(crate) here: Node,
    pub(crate) x: Sides,
    pub(crate) y: Sides,
    pub(crate) z: Sides,
}

impl Patch {
    /// The whole map.
    pub(crate) fn whole(tree: &OccTree) -> Patch
        ensures patch { IsPatchOf tree.now result }
        ensures block { cube_of result.block ≡ root_block }
    {
        let beyond = Sides {
            low: BEYOND,
            high: BEYOND,
        };
        Patch {
            block: Block::whole_map(),
            here: tree.root(),
            x: beyond,
            y: beyond,
            z: beyond,
        }
    }

    /// Child i of the block. Reads at most seven nodes.
    pub(crate) fn child(&self, tree: &OccTree, i: u8) -> Patch
        requires patch { IsPatchOf tree.now self.now }
        requires depth { self.now.block.depth ≤ 15 }
        requires index { i ≤ 7 }
        ensures patch { IsPatchOf tree.now result }
        ensures block { cube_of result.block ≡ child_of (cube_of self.now.block) i }
    {
        Patch {
            block: self.block.child(i),
            here: self.child_node(tree, i),
            x: self.on_x(tree, i),
            y: self.on_y(tree, i),
            z: self.on_z(tree, i),
        }
    }

    /// The node over child i. Reads it alone.
    #[inline(always)]
    pub(crate) fn child_node(&self, tree: &OccTree, i: u8) -> Node
        requires patch { IsPatchOf tree.now self.now }
        requires index { i ≤ 7 }
        ensures { result ≡ child_node tree.now self.now i }
    {
        tree.child_node(self.here, i)
    }

    /// Whether all nodes beside child i are leaves, so that nothing beside it is unknown. Reads no
    /// further than up to the first axis where one isn't.
    pub(crate) fn encloses(&self, tree: &OccTree, i: u8) -> bool
        requires patch { IsPatchOf tree.now self.now }
        requires index { i ≤ 7 }
        ensures { IsTrue result ↔ AreLeavesBeside tree.now self.now i }
    {
        has_leaves(self.on_x(tree, i))
            && has_leaves(self.on_y(tree, i))
            && has_leaves(self.on_z(tree, i))
    }

    /// The nodes beside child i on the x axis.
    #[inline(always)]
    fn on_x(&self, tree: &OccTree, i: u8) -> Sides
        requires patch { IsPatchOf tree.now self.now }
        requires index { i ≤ 7 }
        ensures { result ≡ child_x tree.now self.now i }
    {
        sides_of_child(tree, self.here, self.x, i, 1, i % 2)
    }

    /// The nodes beside child i on the y axis.
    #[inline(always)]
    fn on_y(&self, tree: &OccTree, i: u8) -> Sides
        requires patch { IsPatchOf tree.now self.now }
        requires index { i ≤ 7 }
        ensures { result ≡ child_y tree.now self.now i }
    {
        sides_of_child(tree, self.here, self.y, i, 2, i / 2 % 2)
    }

    /// The nodes beside child i on the z axis.
    #[inline(always)]
    fn on_z(&self, tree: &OccTree, i: u8) -> Sides
        requires patch { IsPatchOf tree.now self.now }
        requires index { i ≤ 7 }
        ensures { result ≡ child_z tree.now self.now i }
    {
        sides_of_child(tree, self.here, self.z, i, 4, i / 4 % 2)
    }
}

/// Whether both nodes are leaves.
fn has_leaves(sides: Sides) -> bool
    ensures { IsTrue result ↔ (IsLeaf sides.low × IsLeaf sides.high) }
{
    is_leaf(sides.low) && is_leaf(sides.high)
}

/// Whether the node is a leaf.
fn is_leaf(node: Node) -> bool
    ensures { IsTrue result ↔ IsLeaf node }
{
    matches!(node, Node::Leaf(_))
}

/// The nodes beside child i on an axis: whether the axis' bit is set in i says in which half of the
/// block the child lies.
#[inline(always)]
#[tactic(auto, unfolding(crate::specs::Patches::sides_of_child))]
fn sides_of_child(tree: &OccTree, here: Node, sides: Sides, i: u8, bit: u8, half: u8) -> Sides
    requires here { (id : ℕ) → link_of here ≡ Some id → IsLive tree.now.groups id }
    requires low { (id : ℕ) → link_of sides.low ≡ Some id → IsLive tree.now.groups id }
    requires high { (id : ℕ) → link_of sides.high ≡ Some id → IsLive tree.now.groups id }
    requires index { i ≤ 7 }
    requires set { half ≡ 1 → bit ≤ i }
    requires unset { half ≢ 1 → i + bit ≤ 7 }
    ensures { result ≡ sides_of_child tree.now.groups here sides i bit half }
{
    if half == 1 {
        Sides {
            low: tree.child_node(here, i - bit),
            high: tree.child_node(sides.high, i - bit),
        }
    } else {
        Sides {
            low: tree.child_node(sides.low, i + bit),
            high: tree.child_node(here, i + bit),
        }
    }
}
