//! An edit of one voxel along its way: the groups from the root down to the first node that links
//! none. Above it no group has to be made, and in a tree that is known to be fresh and pruned none
//! has to be closed above a node that stays as it was, nor from a group on that keeps its greatest
//! value.

ghost use Rattle.std.specs.Prelude.{◌≡◌, ◌+◌, ◌≤◌, IsTrue, IsSome, Some, length, replicate};
ghost use Rattle.oct_key.specs.Block.{Cube, block_of};
ghost use Rattle.oct_values.specs.Events.{event_at};
ghost use Rattle.oct_arena.specs.Entries.{spare};
ghost use Rattle.oct_arena.specs.Nodes.{link_of, value_of};
ghost use Rattle.oct_tree.specs.Tree.{IsLinked, IsPlace, node_in, block_in, value_at};
ghost use Rattle.oct_tree.specs.Shape.{IsFresh, IsPruned};
ghost use Rattle.oct_edit.specs.Steps.{HasRoom, IsTouched, IsClosed};
ghost use Rattle.oct_edit.specs.Touch.{IsTaken};
ghost use Rattle.oct_edit.specs.Way.{IsWholeWay, KeepsGreatest, place_on};

use crate::voxel::{VoxelEdit, WayEnd, close, is_same_value, touch_under};
use oct_arena::{GroupId, Node};
use oct_key::{Key, child_of_code, morton};
use oct_tree::{Descent, OccTree, Place};

/// The groups from the root down to a voxel.
#[derive(Drop)]
pub(crate) struct Way {
    // The group that is linked at each depth of the way.
    groups: [GroupId; 16],
    // The depth at which none is.
    depth: u8,
}

impl Way {
    /// The way that goes no further than to the root's group.
    #[inline(always)]
    pub(crate) fn new(first: GroupId) -> Way
        ensures { result.groups ≡ replicate 16 first }
    {
        Way {
            groups: [first; 16],
            depth: 0,
        }
    }

    /// Goes down from the root's group to the first node that links none, and answers it.
    #[inline(always)]
    pub(crate) fn descend(&mut self, tree: &OccTree, first: GroupId, k: Key) -> Node
        requires root { link_of tree.now.root ≡ Some first.number }
        requires groups { self.old.groups ≡ replicate 16 first }
        ensures way { IsWholeWay tree.now k self.new.groups self.new.depth }
        ensures node { result ≡ node_in tree.now (place_on k self.new.groups self.new.depth) }
        ensures value { value_of result ≡ value_at tree.now k }
    {
        let arena = tree.arena();
        let mut steps = Descent::new(morton(k), 0);
        let mut id = first;
        let mut i = steps.step();
        let mut depth = 1usize;
        while let Some(next) = arena.link(id, i) {
            self.groups[depth] = next;
            depth += 1;
            id = next;
            i = steps.step();
        }
        self.depth = depth as u8;
        arena.node(id, i)
    }

    /// The place at a depth of the way to the voxel.
    #[inline(always)]
    fn place(&self, k: Key, depth: u8) -> Place
        requires long { length self.now.groups ≡ 16 }
        requires depth { depth ≤ 16 }
        ensures { result ≡ place_on k self.now.groups depth }
    {
        if depth == 0 {
            return Place::Root;
        }
        let above = depth - 1;
        Place::Slot(self.groups[above as usize], child_of_code(morton(k), above))
    }

    /// Applies the event to the voxel, which isn't saturated and at the end of whose way this node
    /// stands, and closes the groups of the way.
    ///
    /// In a tidy tree, one that is fresh and pruned, they are closed from below until a node stays
    /// as it was, or a group keeps its greatest value.
    #[inline(always)]
    pub(crate) fn touch(&self, tree: &mut OccTree, node: Node, edit: VoxelEdit, tidy: bool)
        requires way { IsWholeWay tree.old edit.k self.now.groups self.now.depth }
        requires node { node ≡ node_in tree.old (place_on edit.k self.now.groups self.now.depth) }
        requires linked { IsLinked tree.old }
        requires room { HasRoom tree.old edit.k 0 }
        requires taken { IsTaken tree.old edit }
        requires tidy { IsTrue tidy → IsFresh tree.old × IsPruned tree.old }
        ensures touched { IsTouched tree.old tree.new (block_of 0 edit.k)
            (event_at (Some edit.k) edit.event) edit.lazy }
        ensures spare { spare tree.old.groups ≤ spare tree.new.groups + 16 }
    {
        let mut depth = self.depth;
        let p = self.place(edit.k, depth);
        touch_under(tree, WayEnd { p, node, depth }, edit);
        let mut before = node;
        let mut now = tree.node(p);
        while depth > 0 {
            if tidy && is_same(before, now) {
                return;
            }
            depth -= 1;
            let q = self.place(edit.k, depth);
            let over = tree.node(q);
            if tidy && keeps_greatest(over, before, now) {
                return;
            }
            before = over;
            now = close_over(tree, q, over, edit.lazy);
        }
    }
}

/// Closes the group under the place, whose node this is, and answers its node then.
fn close_over(tree: &mut OccTree, p: Place, over: Node, lazy: bool) -> Node
    requires linked { IsLinked tree.old }
    requires place { IsPlace tree.old p }
    requires inner { IsSome (link_of (node_in tree.old p)) }
    requires over { over ≡ node_in tree.old p }
    requires block { (b : Cube) × (block_in tree.old p ≡ Some b) }
    ensures closed { (b : Cube) → block_in tree.old p ≡ Some b → IsClosed tree.old tree.new b lazy }
    ensures node { result ≡ node_in tree.new p }
{
    let Node::Inner(_, id) = over else {
        unreachable!();
    };
    close(tree, p, id, lazy);
    tree.node(p)
}

/// Whether a group whose greatest value stands in the node over it keeps that one, and isn't
/// collapsible, where one of its nodes changes so.
fn keeps_greatest(over: Node, before: Node, now: Node) -> bool
    ensures { IsTrue result → KeepsGreatest over before now }
{
    match (over, now) {
        (Node::Inner(most, _), Node::Inner(value, _)) => {
            value == most || (value < most && !is_same_value(before.stored(), Some(most)))
        }
        _ => false,
    }
}

/// Whether both are one node.
fn is_same(a: Node, b: Node) -> bool
    ensures { IsTrue result → a ≡ b }
{
    match (a, b) {
        (Node::Absent, Node::Absent) => true,
        (Node::Leaf(v), Node::Leaf(w)) => v == w,
        (Node::Inner(v, x), Node::Inner(w, y)) => v == w && x == y,
        _ => false,
    }
}
