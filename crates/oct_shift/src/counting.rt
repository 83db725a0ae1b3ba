//! How many groups a moved map needs.

ghost use Rattle.std.specs.Prelude.{◌≡◌, ◌+◌, ◌-◌, ◌^◌, ◌≤◌, ◌<◌, ◌↔◌, IsTrue, true};
ghost use Rattle.std.specs.Prelude.{nat_lt, ◌||◌, not, if◌then◌else◌};
ghost use Rattle.oct_key.specs.Block.{lowest_voxel};
ghost use Rattle.oct_key.specs.CubeOf.{cube_of};
ghost use Rattle.oct_tree.specs.Tree.{IsLinked};
ghost use Rattle.oct_shift.specs.Moving.{IsRow, groups_in, moved_values};

use crate::offset::{Offset, Step};
use crate::row::Row;
use oct_key::Block;
use oct_tree::OccTree;

/// What a block of the moved map needs.
#[derive(Clone, Copy)]
pub(crate) struct Part {
    /// How many groups: one for the block and for each block in it that has several values.
    pub(crate) groups: u64,
    /// The value of its lowest voxel.
    pub(crate) value: Option<i32>,
}

/// What a block of the moved map needs that has this row.
pub(crate) fn count_part(tree: &OccTree, offset: Offset, row: &Row, block: Block) -> Part
    requires linked { IsLinked tree.now }
    requires row { IsRow tree.now offset (cube_of block) row.now }
    ensures groups { result.groups ≡ groups_in (moved_values tree.now offset) (cube_of block) }
    ensures value { result.value ≡ moved_values tree.now offset (lowest_voxel (cube_of block)) }
    ensures few { result.groups ≤ 9 ^ (16 - block.depth) }
{
    if let Some(node) = row.common() {
        return Part {
            groups: 0,
            value: node.value(),
        };
    }
    let way = Step::new(offset, block.depth + 1);
    let first = count_part(tree, offset, &row.child(tree, way, 0), block.child(0));
    let mut groups = first.groups;
    let mut is_even = true;
    for i in 1..8 {
        let part = count_part(tree, offset, &row.child(tree, way, i), block.child(i));
        groups += part.groups;
        is_even &= is_same_value(part.value, first.value);
    }
    Part {
        groups: with_own(groups, is_even),
        value: first.value,
    }
}

/// The groups of a block, by those of its children, and by whether these have one value where they
/// have no group.
fn with_own(groups: u64, is_even: bool) -> u64
    requires { groups + 1 < 2 ^ 64 }
    ensures { result ≡ groups + (if nat_lt 0 groups || not is_even then 1 else 0) }
{
    if groups > 0 || !is_even {
        groups + 1
    } else {
        groups
    }
}

/// Whether both are one value.
fn is_same_value(a: Option<i32>, b: Option<i32>) -> bool
    ensures { IsTrue result ↔ (a ≡ b) }
{
    a == b
}
