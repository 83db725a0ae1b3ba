//! The tree of a moved map.

ghost use Rattle.std.specs.Prelude.{◌≡◌, ◌+◌, ◌-◌, ◌≤◌, Some};
ghost use Rattle.oct_key.specs.CubeOf.{cube_of};
ghost use Rattle.oct_arena.specs.Entries.{spare};
ghost use Rattle.oct_tree.specs.Filled.{IsFilledWith};
ghost use Rattle.oct_tree.specs.Tree.{IsLinked, IsPlace, block_in, node_in};
ghost use Rattle.oct_shift.specs.Moving.{IsRow, groups_in, moved_values};

use crate::offset::{Offset, Step};
use crate::row::Row;
use oct_arena::Node;
use oct_key::Block;
use oct_tree::{OccTree, Place};

/// Fills the block of an absent place, which has this row, with what is moved there.
pub(crate) fn fill_part(
    moved: &mut OccTree,
    p: Place,
    tree: &OccTree,
    offset: Offset,
    row: &Row,
    block: Block,
)
    requires linked { IsLinked moved.old }
    requires place { IsPlace moved.old p }
    requires block { block_in moved.old p ≡ Some (cube_of block) }
    requires absent { node_in moved.old p ≡ Node.Absent }
    requires tree { IsLinked tree.now }
    requires odds { moved.old.odds ≡ tree.now.odds }
    requires row { IsRow tree.now offset (cube_of block) row.now }
    requires room { groups_in (moved_values tree.now offset) (cube_of block) + (16 - block.depth)
        ≤ spare moved.old.groups }
    ensures filled { IsFilledWith moved.old moved.new (cube_of block)
        (moved_values tree.now offset) }
    ensures room { spare moved.old.groups ≡ spare moved.new.groups
        + groups_in (moved_values tree.now offset) (cube_of block) }
    ensures linked { IsLinked moved.new }
{
    if let Some(node) = row.common() {
        moved.set_place(p, node);
        return;
    }
    let way = Step::new(offset, block.depth + 1);
    let id = moved.split(p);
    for i in 0..8 {
        let child = row.child(tree, way, i);
        fill_part(
            moved,
            Place::Slot(id, i),
            tree,
            offset,
            &child,
            block.child(i),
        );
    }
    moved.settle(p);
}
