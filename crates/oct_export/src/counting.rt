//! How many boxes occupied space makes.
ghost use Rattle.std.specs.Prelude.{◌≡◌, ◌≤◌, Some, length};
ghost use Rattle.oct_key.specs.Block.{Cube};
ghost use Rattle.oct_tree.specs.Tree.{IsLinked, IsPlace, block_in};
ghost use Rattle.oct_tree.specs.Classes.{classes_in};
ghost use Rattle.oct_export.specs.Boxes.{is_full, boxes_in, boxes_of};

use crate::strip::{are_both, class_of_node, is_occupied};
use oct_arena::Node;
use oct_tree::{OccTree, Place};

/// What a block has: whether all its voxels are occupied, and how many boxes.
#[derive(Clone, Copy)]
struct Tally {
    full: bool,
    boxes: u64,
}

/// What a place's block has, which has this depth.
fn count_in(tree: &OccTree, p: Place, depth: u8) -> Tally
    requires place { IsPlace tree.now p }
    requires block { (b : Cube) → block_in tree.now p ≡ Some b → b.depth ≡ depth }
    requires levels { depth ≤ 16 }
    ensures full { (b : Cube) → block_in tree.now p ≡ Some b
        → result.full ≡ is_full (classes_in tree.now) b }
    ensures boxes { (b : Cube) → block_in tree.now p ≡ Some b
        → result.boxes ≡ length (boxes_in (classes_in tree.now) b) }
    ensures linked { IsLinked tree.now }
{
    let node = tree.node(p);
    let Node::Inner(_, id) = node else {
        let full = is_occupied(class_of_node(tree, node));
        return Tally {
            full,
            boxes: u64::from(full),
        };
    };
    let mut full = true;
    let mut boxes = 0;
    for i in 0..8 {
        let child = count_in(tree, Place::Slot(id, i), depth + 1);
        full = are_both(full, child.full);
        boxes += child.boxes;
    }
    if full {
        return Tally { full, boxes: 1 };
    }
    Tally { full, boxes }
}

/// How many boxes a scene of the tree has: the greatest blocks all of whose voxels are occupied.
/// Goes through the tree once, and takes no memory.
pub fn box_count(tree: &OccTree) -> u64
    ensures { result ≡ length (boxes_of (classes_in tree.now)) }
{
    count_in(tree, Place::Root, 0).boxes
}
