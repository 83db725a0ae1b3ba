//! A tree moved by whole voxels.

ghost use Rattle.std.specs.Prelude.{◌≡◌, ◌^◌, ◌≤◌, ◌<◌, ℕ, Err, IfOk, None};
ghost use Rattle.oct_values.specs.Counts.{group_count};
ghost use Rattle.oct_arena.specs.Nodes.{link_of, value_of};
ghost use Rattle.oct_tree.specs.Tree.{value_at};
ghost use Rattle.oct_shift.specs.declared.fault.ShiftFault.{ShiftFault};
ghost use Rattle.oct_shift.specs.Moved.{IsMoved};
ghost use Rattle.oct_shift.specs.Shifted as values;

use crate::counting::count_part;
use crate::fault::ShiftFault;
use crate::filling::fill_part;
use crate::offset::Offset;
use crate::row::Row;
use crate::shift::Shift;
use oct_arena::Node;
use oct_key::Block;
use oct_tree::{OccTree, Place, Tidiness};
use std::alloc::Global;

/// A tree that gives each voxel the value that this one gives the voxel that far behind it, or none
/// where that lies outside the map.
///
/// It is fresh and pruned, and keeps that it is. `TooMany` comes exactly where it needs more groups
/// than are allowed, and `Memory` only where it needs some.
pub fn shifted(
    alloc: Global,
    tree: &OccTree,
    shift: Shift,
    max_groups: u32,
) -> Result<OccTree, ShiftFault>
    requires limit { max_groups ≤ 2 ^ 30 }
    ensures moved { IfOk result (λ moved. IsMoved shift tree.now moved) }
    ensures refused { max_groups < group_count (values.shifted shift (value_at tree.now))
        → result ≡ Err (ShiftFault.TooMany
        (group_count (values.shifted shift (value_at tree.now)))) }
    ensures many { (groups : ℕ) → result ≡ Err (ShiftFault.TooMany groups)
        → (groups ≡ group_count (values.shifted shift (value_at tree.now)))
        × (max_groups < groups) }
    ensures memory { result ≡ Err ShiftFault.Memory
        → 0 < group_count (values.shifted shift (value_at tree.now)) }
{
    // Called for its clauses alone: it computes nothing.
    tree.shape();
    let offset = Offset::of(shift);
    let row = Row::whole_map(tree, offset);
    let block = Block::whole_map();
    let part = count_part(tree, offset, &row, block);
    if part.groups > u64::from(max_groups) {
        return Err(ShiftFault::TooMany {
            groups: part.groups,
        });
    }
    let mut moved = OccTree::new(alloc, tree.res(), tree.odds());
    if part.groups > 0 {
        moved.reserve(part.groups as u32 + 16)?;
        fill_part(&mut moved, Place::Root, tree, offset, &row, block);
    } else {
        moved.set_place(Place::Root, plain_node(part.value));
    }
    moved.note(Tidiness {
        fresh: true,
        pruned: true,
    });
    Ok(moved)
}

/// The node that gives each voxel of its block this value.
fn plain_node(value: Option<i32>) -> Node
    ensures plain { link_of result ≡ None }
    ensures value { value_of result ≡ value }
{
    match value {
        Some(value) => Node::Leaf(value),
        None => Node::Absent,
    }
}
