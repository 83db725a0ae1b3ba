//! How large the least tree of a tree's values is.
ghost use Rattle.std.specs.Prelude.{◌≡◌, ◌-◌, ◌^◌, ◌≤◌, ◌⊎◌, length, is_some, Option, Some, None};
ghost use Rattle.std.specs.Prelude.{if◌then◌else◌};
ghost use Rattle.oct_key.specs.Block.{Cube};
ghost use Rattle.oct_values.specs.Counts.{group_count, node_count};
ghost use Rattle.oct_arena.specs.Entries.{home_at};
ghost use Rattle.oct_tree.specs.Tree.{IsLinked, value_at};
ghost use Rattle.oct_query.specs.Leaves.{leaves_of};
ghost use Rattle.oct_query.specs.Least.{IsPart};

use crate::totals::LeastTree;
use oct_arena::{GroupId, Node};
use oct_tree::{OccTree, Place};

/// How many groups, nodes and leaves the least tree of the same values has. The tree itself may be
/// larger, and stays as it is. Looks at each node once and takes no memory.
pub fn least_tree(tree: &OccTree) -> LeastTree
    ensures groups { result.groups ≡ group_count (value_at tree.now) }
    ensures nodes { result.nodes ≡ node_count (value_at tree.now) }
    ensures leaves { result.leaves ≡ length (leaves_of (value_at tree.now)) }
    ensures linked { IsLinked tree.now }
{
    let node = tree.node(Place::Root);
    let whole = match node {
        Node::Inner(_, id) => part_under(tree, id, 0),
        _ => Part::of(node.value()),
    };
    LeastTree {
        groups: whole.groups,
        nodes: whole.groups + whole.leaves,
        leaves: whole.leaves,
    }
}

/// What the least tree has of a block.
#[derive(Clone, Copy)]
struct Part {
    /// The value of all its voxels, where unknown counts as one, or `None` where they have several.
    value: Option<Option<i32>>,
    groups: u64,
    leaves: u64,
}

impl Part {
    /// A block whose voxels all have this value.
    fn of(value: Option<i32>) -> Part
        ensures value { result.value ≡ Some value }
        ensures groups { result.groups ≡ 0 }
        ensures leaves { result.leaves ≡ (if is_some value then 1 else 0) }
    {
        let leaves = match value {
            Some(_) => 1,
            None => 0,
        };
        Part {
            value: Some(value),
            groups: 0,
            leaves,
        }
    }
}

/// The one value of two parts, or `None` where they have several.
fn common(a: Option<Option<i32>>, b: Option<Option<i32>>) -> Option<Option<i32>>
    ensures { ((result ≡ a) × (a ≡ b)) ⊎ ((result ≡ None) × (a ≡ b → ⊥)) }
{
    if a == b { a } else { None }
}

/// What the least tree has of the block of a group, which has this depth.
fn part_under(tree: &OccTree, id: GroupId, depth: u8) -> Part
    requires home { (b : Cube) × (home_at tree.now.groups id.number ≡ Some b) × (b.depth ≡ depth) }
    ensures part { (b : Cube) → home_at tree.now.groups id.number ≡ Some b
        → IsPart (value_at tree.now) b result.value result.groups result.leaves }
    ensures few { (result.groups ≤ 9 ^ (16 - depth)) × (result.leaves ≤ 9 ^ (16 - depth)) }
    ensures linked { IsLinked tree.now }
{
    let arena = tree.arena();
    let mut value = Some(None);
    let mut groups = 1;
    let mut leaves = 0;
    for i in 0..8 {
        let next = match arena.link(id, i) {
            Some(below) => part_under(tree, below, depth + 1),
            None => Part::of(tree.node(Place::Slot(id, i)).value()),
        };
        value = if i == 0 {
            next.value
        } else {
            common(value, next.value)
        };
        groups += next.groups;
        leaves += next.leaves;
    }
    match value {
        Some(value) => Part::of(value),
        None => Part {
            value: None,
            groups,
            leaves,
        },
    }
}
