//! A tree from the nodes of a snapshot.
ghost use Rattle.std.specs.Prelude.{◌≡◌, ◌+◌, ◌-◌, ◌≤◌, Some, Ok, length, drop};
ghost use Rattle.oct_key.specs.Values.{SameValues};
ghost use Rattle.oct_key.specs.Block.{Cube};
ghost use Rattle.oct_arena.specs.Entries.{live, spare};
ghost use Rattle.oct_tree.specs.Tree.{IsLinked, IsPlace, block_in, node_in, value_at};
ghost use Rattle.oct_tree.specs.Shape.{IsFresh, IsPruned};
ghost use Rattle.oct_snap.specs.Nodes.{group_total};
ghost use Rattle.oct_snap.specs.Reading.{Found, Snapshot, read_node, read_snapshot, values_of};
ghost use Rattle.oct_snap.specs.Filled.{IsNodeFilled};

use crate::checking::number_at;
use crate::head::read_fields;
use crate::tags::{UNKNOWN, VALUE};
use oct_arena::Node;
use oct_tree::{OccTree, Place, Tidiness};

/// Fills the tree of the unknown world with the values of a snapshot that is accepted with the
/// tree's log-odds, and has these itself.
///
/// The tree has room for the snapshot's groups, and takes exactly these. It comes out fresh and
/// pruned, and keeps that it is. Reads each byte once, at most seventeen calls deep, and takes no
/// memory.
pub fn fill(bytes: &[u8], tree: &mut OccTree)
    requires unknown { tree.old.root ≡ Node.Absent }
    requires accepted { (s : Snapshot) × (read_snapshot tree.old.odds bytes.now ≡ Ok s)
        × (s.head.odds ≡ tree.old.odds) × (group_total s.nodes ≤ spare tree.old.groups) }
    ensures values { (s : Snapshot) → read_snapshot tree.old.odds bytes.now ≡ Ok s
        → SameValues (values_of s) (value_at tree.new) }
    ensures fresh { IsFresh tree.new }
    ensures pruned { IsPruned tree.new }
    ensures groups { (s : Snapshot) → read_snapshot tree.old.odds bytes.now ≡ Ok s
        → live tree.new.groups ≡ group_total s.nodes }
    ensures spare { live tree.new.groups + spare tree.new.groups ≡ spare tree.old.groups }
    ensures length { length tree.new.groups ≡ length tree.old.groups }
    ensures res { tree.new.res ≡ tree.old.res }
    ensures odds { tree.new.odds ≡ tree.old.odds }
{
    // Called for its clauses alone: it computes nothing.
    tree.shape();
    let Ok(fields) = read_fields(bytes, tree.odds()) else {
        unreachable!();
    };
    fill_node(tree, Place::Root, 0, bytes, fields.start);
    tree.note(Tidiness {
        fresh: true,
        pruned: true,
    });
}

/// Makes the node of a snapshot that begins at this place of its bytes that of an absent place,
/// whose block has this depth. Answers the place after it.
fn fill_node(tree: &mut OccTree, p: Place, depth: u8, bytes: &[u8], at: usize) -> usize
    requires place { IsPlace tree.old p }
    requires block { (b : Cube) → block_in tree.old p ≡ Some b → b.depth ≡ depth }
    requires levels { depth ≤ 16 }
    requires absent { node_in tree.old p ≡ Node.Absent }
    requires linked { IsLinked tree.old }
    requires inside { at ≤ length bytes.now }
    requires node_there { (f : Found)
        × (read_node tree.old.odds (16 - depth) at (drop at bytes.now) ≡ Ok f)
        × (group_total f.nodes ≤ spare tree.old.groups) }
    ensures filled { (f : Found) (b : Cube)
        → read_node tree.old.odds (16 - depth) at (drop at bytes.now) ≡ Ok f
        → block_in tree.old p ≡ Some b
        → IsNodeFilled tree.old tree.new b depth bytes.now f result }
    ensures linked { IsLinked tree.new }
{
    if bytes[at] == UNKNOWN {
        return at + 1;
    }
    if bytes[at] == VALUE {
        let value = number_at(bytes, at + 1);
        tree.set_place(p, Node::Leaf(value));
        return at + 5;
    }
    let id = tree.split(p);
    let mut next = at + 1;
    for i in 0..8 {
        next = fill_node(tree, Place::Slot(id, i), depth + 1, bytes, next);
    }
    tree.settle(p);
    next
}
