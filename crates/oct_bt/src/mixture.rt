//! What the voxels of a block of a tree are.
ghost use Rattle.std.specs.Prelude.{◌≡◌, ◌-◌, ◌≤◌, ◌↔◌, IsTrue, Some, None};
ghost use Rattle.oct_key.specs.Block.{Cube};
ghost use Rattle.oct_odds.specs.Update.{class_of};
ghost use Rattle.oct_arena.specs.Nodes.{link_of, value_of};
ghost use Rattle.oct_tree.specs.Tree.{IsLinked, IsPlace, block_in};
ghost use Rattle.oct_bt.specs.Mixtures.{IsSearched, IsMixtureOf};
ghost use Rattle.oct_tree.specs.Classes.{classes_in};

use oct_arena::Node;
use oct_odds::Class;
use oct_tree::{OccTree, Place};

/// What the voxels of a block are.
#[derive(Clone, Copy)]
pub(crate) enum Mixture {
    /// All are of this class.
    Pure(Class),
    /// The first ones are of this class, and this way leads to the first other one: the child
    /// indices down to it, the first one in the lowest three bits.
    Mixed(Class, u64),
}

impl Default for Mixture {
    fn default() -> Self {
        Mixture::Pure(Class::Unknown)
    }
}

/// What the voxels of a node's block count as, where the node isn't Inner.
#[inline(always)]
pub(crate) fn leaf_class(tree: &OccTree, node: Node) -> Class
    ensures { link_of node ≡ None → result ≡ class_of tree.now.odds (value_of node) }
{
    match node {
        Node::Absent | Node::Inner(..) => tree.odds().class(None),
        Node::Leaf(value) => tree.odds().class(Some(value)),
    }
}

/// Whether the two are one class.
pub(crate) fn is_same(a: Class, b: Class) -> bool
    ensures { IsTrue result ↔ (a ≡ b) }
{
    a == b
}

/// What the voxels of the place's block are, which has this depth. Looks at no node after the
/// first voxel of another class.
pub(crate) fn mixture_at(tree: &OccTree, p: Place, depth: u8) -> Mixture
    requires place { IsPlace tree.now p }
    requires block { (b : Cube) → block_in tree.now p ≡ Some b → b.depth ≡ depth }
    requires levels { depth ≤ 16 }
    ensures mixture { (b : Cube) → block_in tree.now p ≡ Some b
        → IsMixtureOf (classes_in tree.now) (16 - depth) b result }
    ensures linked { IsLinked tree.now }
{
    let node = tree.node(p);
    let Node::Inner(_, id) = node else {
        return Mixture::Pure(leaf_class(tree, node));
    };
    let first = match mixture_at(tree, Place::Slot(id, 0), depth + 1) {
        Mixture::Pure(first) => first,
        Mixture::Mixed(first, way) => return Mixture::Mixed(first, 8 * way),
    };
    for i in 1..8 {
        if let Some(way) = first_other(tree, Place::Slot(id, i), depth + 1, first) {
            return Mixture::Mixed(first, u64::from(i) + 8 * way);
        }
    }
    Mixture::Pure(first)
}

/// The way from the place's block, which has this depth, to its first voxel that isn't of the
/// class, or `None` where all are.
fn first_other(tree: &OccTree, p: Place, depth: u8, class: Class) -> Option<u64>
    requires place { IsPlace tree.now p }
    requires block { (b : Cube) → block_in tree.now p ≡ Some b → b.depth ≡ depth }
    requires levels { depth ≤ 16 }
    ensures searched { (b : Cube) → block_in tree.now p ≡ Some b
        → IsSearched (classes_in tree.now) class (16 - depth) b result }
    ensures linked { IsLinked tree.now }
{
    let node = tree.node(p);
    let Node::Inner(_, id) = node else {
        if is_same(leaf_class(tree, node), class) {
            return None;
        }
        return Some(0);
    };
    for i in 0..8 {
        if let Some(way) = first_other(tree, Place::Slot(id, i), depth + 1, class) {
            return Some(u64::from(i) + 8 * way);
        }
    }
    None
}
