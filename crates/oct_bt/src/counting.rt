//! How long the file of a tree's classes is.
ghost use Rattle.std.specs.Prelude.{◌≡◌, ◌-◌, ◌≤◌, ◌↔◌, ℕ, IsTrue, IsSome, Some, None};
ghost use Rattle.oct_key.specs.Block.{Cube};
ghost use Rattle.oct_odds.specs.Update.{class_of};
ghost use Rattle.oct_values.specs.Classes.{Classes, class_of_block};
ghost use Rattle.oct_arena.specs.Nodes.{link_of, value_of};
ghost use Rattle.oct_tree.specs.Tree.{IsLinked, IsPlace, block_in};
ghost use Rattle.oct_bt.specs.Counts.{class_of_kind, IsBlockCount};
ghost use Rattle.oct_bt.specs.Mixtures.{entry_nodes};
ghost use Rattle.oct_tree.specs.Classes.{classes_in};

use crate::mixture::leaf_class;
use oct_arena::Node;
use oct_odds::Class;
use oct_tree::{OccTree, Place};

/// What the voxels of a block count as.
#[derive(Clone, Copy, PartialEq, Eq)]
pub(crate) enum Kind {
    /// All are unknown.
    Unknown,
    /// All are free.
    Free,
    /// All are occupied.
    Occupied,
    /// They are of several classes.
    Several,
}

/// What a block adds to node data, beside its own code: where it is of several classes, the codes
/// that aren't 0 and the records of its data.
#[derive(Clone, Copy)]
pub(crate) struct BlockCount {
    pub(crate) kind: Kind,
    pub(crate) known: u64,
    pub(crate) records: u64,
}

/// The kind of a block of one class.
#[inline(always)]
fn kind_of(class: Class) -> Kind
    ensures { class_of_kind result ≡ Some class }
{
    match class {
        Class::Unknown => Kind::Unknown,
        Class::Free => Kind::Free,
        Class::Occupied => Kind::Occupied,
    }
}

/// The kind of a block, which is of the kind `next`, and of the `done` blocks after it, which are
/// of `kind`: that of the block alone where there are none.
#[inline(always)]
fn joined(done: u8, kind: Kind, next: Kind) -> Kind
    ensures first { done ≡ 0 → result ≡ next }
    ensures same { kind ≡ next → result ≡ next }
    ensures other { (done ≡ 0 → ⊥) → (kind ≡ next → ⊥) → result ≡ Kind.Several }
{
    if done == 0 {
        return next;
    }
    if kind == next { next } else { Kind::Several }
}

/// How many nodes a block of this kind has itself.
#[inline(always)]
fn entry_nodes(kind: Kind) -> u64
    ensures count { result ≡ entry_nodes (class_of_kind kind) }
    ensures few { result ≤ 1 }
{
    match kind {
        Kind::Unknown => 0,
        Kind::Free | Kind::Occupied | Kind::Several => 1,
    }
}

/// Whether a node links a group.
#[inline(always)]
fn is_inner(node: Node) -> bool
    ensures { IsTrue result ↔ IsSome (link_of node) }
{
    matches!(node, Node::Inner(..))
}

/// What the block of a node adds that isn't Inner.
#[inline(always)]
fn count_leaf(tree: &OccTree, node: Node) -> BlockCount
    requires { link_of node ≡ None }
    ensures { (classes : Classes) (depths : ℕ) (b : Cube)
        → class_of_block classes b ≡ Some (class_of tree.now.odds (value_of node))
        → IsBlockCount classes depths b result }
{
    BlockCount {
        kind: kind_of(leaf_class(tree, node)),
        known: 0,
        records: 0,
    }
}

/// Whether this is the kind of a block of several classes.
fn is_several(kind: Kind) -> bool
    ensures { IsTrue result ↔ (kind ≡ Kind.Several) }
{
    kind == Kind::Several
}

/// What the place's block adds, which has this depth. Looks at each node once.
pub(crate) fn count_at(tree: &OccTree, p: Place, depth: u8) -> BlockCount
    requires place { IsPlace tree.now p }
    requires block { (b : Cube) → block_in tree.now p ≡ Some b → b.depth ≡ depth }
    requires levels { depth ≤ 16 }
    ensures counted { (b : Cube) → block_in tree.now p ≡ Some b
        → IsBlockCount (classes_in tree.now) (16 - depth) b result }
    ensures linked { IsLinked tree.now }
{
    let node = tree.node(p);
    let Node::Inner(_, id) = node else {
        return count_leaf(tree, node);
    };
    let mut kind = Kind::Unknown;
    let mut known = 0;
    let mut records = 1;
    for done in 0..8 {
        let slot = Place::Slot(id, 7 - done);
        let below = tree.node(slot);
        let child = if is_inner(below) {
            count_at(tree, slot, depth + 1)
        } else {
            count_leaf(tree, below)
        };
        kind = joined(done, kind, child.kind);
        let nodes = entry_nodes(child.kind) + child.known;
        known += nodes;
        records += child.records;
    }
    if is_several(kind) {
        return BlockCount {
            kind,
            known,
            records,
        };
    }
    BlockCount {
        kind,
        known: 0,
        records: 0,
    }
}
