//! How long the snapshot of a tree is.
ghost use Rattle.std.specs.Prelude.{◌*◌, ◌^◌, ◌≡◌, ◌-◌, ◌<◌, ◌≤◌, Some, length};
ghost use Rattle.oct_key.specs.Block.{Cube};
ghost use Rattle.oct_tree.specs.Tree.{IsLinked, IsPlace, block_in, value_at};
ghost use Rattle.oct_snap.specs.Common.{value_of_common};
ghost use Rattle.oct_snap.specs.Nodes.{whole_text};
ghost use Rattle.oct_snap.specs.Texts.{common_value, node_text, snap_text};

use crate::common::{Common, is_same};
use crate::heading::head_of;
use oct_arena::Node;
use oct_key::Window;
use oct_tree::{OccTree, Place};

/// What the voxels of a block have in common, and how long its node is.
#[derive(Clone, Copy)]
struct NodeCount {
    common: Common,
    bytes: u64,
}

/// How long the node of a block is whose voxels all have this value.
fn whole_len(value: Option<i32>) -> u64
    ensures { result ≡ length (whole_text value) }
{
    match value {
        Some(_) => 5,
        None => 1,
    }
}

/// What the node of a place's block comes to, which has this depth. Looks at each node once.
fn count_at(tree: &OccTree, p: Place, depth: u8) -> NodeCount
    requires place { IsPlace tree.now p }
    requires block { (b : Cube) → block_in tree.now p ≡ Some b → b.depth ≡ depth }
    requires levels { depth ≤ 16 }
    ensures common { (b : Cube) → block_in tree.now p ≡ Some b
        → value_of_common result.common ≡ common_value (value_at tree.now) b }
    ensures bytes { (b : Cube) → block_in tree.now p ≡ Some b
        → result.bytes ≡ length (node_text (16 - depth) (value_at tree.now) b) }
    ensures short { result.bytes < 6 * 8 ^ (16 - depth) }
    ensures linked { IsLinked tree.now }
{
    let node = tree.node(p);
    let Node::Inner(_, id) = node else {
        let value = node.value();
        return NodeCount {
            common: Common::Value(value),
            bytes: whole_len(value),
        };
    };
    let first = count_at(tree, Place::Slot(id, 0), depth + 1);
    let mut are_alike = !is_same(first.common, Common::Several);
    let mut bytes = 1 + first.bytes;
    for i in 1..8 {
        let child = count_at(tree, Place::Slot(id, i), depth + 1);
        are_alike &= is_same(child.common, first.common);
        bytes += child.bytes;
    }
    if are_alike {
        return first;
    }
    NodeCount {
        common: Common::Several,
        bytes,
    }
}

/// The length of the snapshot that [`write`](crate::write) makes of the tree. Takes no memory.
pub fn encoded_len(tree: &OccTree, window: Option<Window>) -> u64
    ensures { result
        ≡ length (snap_text tree.now.res tree.now.odds window (value_at tree.now)) }
{
    let head = head_of(tree.res(), tree.odds(), window);
    head.len() as u64 + count_at(tree, Place::Root, 0).bytes
}
