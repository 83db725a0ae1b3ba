//! What the voxels of a block have in common.
ghost use Rattle.std.specs.Prelude.{◌≡◌, ◌-◌, ◌+◌, ◌≤◌, ◌<◌, ◌↔◌, Some, IsTrue};
ghost use Rattle.oct_key.specs.Block.{Cube};
ghost use Rattle.oct_tree.specs.Tree.{IsLinked, IsPlace, block_in, value_at};
ghost use Rattle.oct_snap.specs.Texts.{common_value};
ghost use Rattle.oct_snap.specs.Common.{value_of_common};

use oct_arena::Node;
use oct_tree::{OccTree, Place};

/// What the voxels of a block have in common.
#[derive(Clone, Copy, PartialEq, Eq)]
pub(crate) enum Common {
    /// All have this value, where unknown counts as one.
    Value(Option<i32>),
    /// They have several values.
    Several,
}

/// Whether the two are one.
pub(crate) fn is_same(a: Common, b: Common) -> bool
    ensures { IsTrue result ↔ (a ≡ b) }
{
    a == b
}

/// What the voxels of the place's block have in common. The block has this depth. Looks at no node
/// after the first voxel of another value.
pub(crate) fn common_at(tree: &OccTree, p: Place, depth: u8) -> Common
    requires place { IsPlace tree.now p }
    requires block { (b : Cube) → block_in tree.now p ≡ Some b → b.depth ≡ depth }
    requires levels { depth ≤ 16 }
    ensures common { (b : Cube) → block_in tree.now p ≡ Some b
        → value_of_common result ≡ common_value (value_at tree.now) b }
    ensures linked { IsLinked tree.now }
{
    let node = tree.node(p);
    let Node::Inner(_, id) = node else {
        return Common::Value(node.value());
    };
    let first = common_at(tree, Place::Slot(id, 0), depth + 1);
    if is_same(first, Common::Several) {
        return Common::Several;
    }
    for i in 1..8 {
        if !is_same(common_at(tree, Place::Slot(id, i), depth + 1), first) {
            return Common::Several;
        }
    }
    first
}
