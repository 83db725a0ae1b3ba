//! One walk down two trees, which joins what the second one knows into the first.
ghost use Rattle.std.specs.Prelude.{◌≡◌, ◌≢◌, ◌+◌, ◌≤◌, ◌↔◌, ◌⊎◌, IsTrue, IsSome};
ghost use Rattle.std.specs.Prelude.{ℤ, Some, None, false};
ghost use Rattle.oct_key.specs.Voxel.{Voxel, IsInMap};
ghost use Rattle.oct_key.specs.Block.{Cube, IsBlock, HoldsVoxel};
ghost use Rattle.oct_key.specs.CubeOf.{cube_of};
ghost use Rattle.oct_odds.specs.Update.{IsWithin};
ghost use Rattle.oct_values.specs.Events.{Events};
ghost use Rattle.oct_arena.specs.declared.node.Node.{Node};
ghost use Rattle.oct_arena.specs.Entries.{live, spare};
ghost use Rattle.oct_arena.specs.Nodes.{link_of, stored_in, value_of};
ghost use Rattle.oct_tree.specs.Tree.{IsOver, IsLinked, IsPlace, node_in, block_in, value_at};
ghost use Rattle.oct_tree.specs.Shape.{IsFresh, IsPruned, IsWellFormed};
ghost use Rattle.oct_edit.specs.Edits.{IsEdited, IsEagerEdit, IsTidyAlong};
ghost use Rattle.oct_edit.specs.Steps.{IsTouched};
ghost use Rattle.oct_merge.specs.declared.rule.Rule.{Rule};
ghost use Rattle.oct_merge.specs.Merged.{merged, merge_event, merge_events};
ghost use Rattle.oct_merge.specs.Need.{merge_need};
ghost use Rattle.oct_merge.specs.Walk.{need_in};

use crate::rule::Rule;
use crate::walk::is_plain;
use oct_arena::Node;
use oct_edit::{close, enter};
use oct_key::Block;
use oct_tree::{OccTree, Place};

/// Merges the other map into this one, voxel by voxel. Both have one resolution and one model, and
/// `into` has room for [`merge_need`](crate::merge_need) groups. It can't fail, and takes no
/// memory.
pub fn merge(into: &mut OccTree, other: &OccTree, rule: Rule)
    requires into { IsWellFormed into.old }
    requires other { IsWellFormed other.now }
    requires res { into.old.res ≡ other.now.res }
    requires odds { into.old.odds ≡ other.now.odds }
    requires room { merge_need into.old other.now ≤ spare into.old.groups }
    ensures values { (k : Voxel) → IsInMap k → value_at into.new k
        ≡ merged rule (value_at into.old k) (value_at other.now k) }
    ensures edited { IsEdited into.old into.new
        (merge_events rule (value_at into.old) (value_at other.now)) }
    ensures eager { IsEagerEdit into.old into.new
        (merge_events rule (value_at into.old) (value_at other.now)) }
    ensures path { (k : Voxel) → IsInMap k → IsSome (value_at other.now k)
        → IsTidyAlong into.new k }
    ensures groups { live into.new.groups
        ≤ live into.old.groups + merge_need into.old other.now }
    ensures room { live into.new.groups + spare into.new.groups
        ≡ live into.old.groups + spare into.old.groups }
{
    let known = into.tidiness();
    merge_at(
        into,
        Place::Root,
        other,
        other.root(),
        Block::whole_map(),
        rule,
    );
    into.note(known);
}

/// Merges the voxels of the block of the place, over which this node stands in the other tree, and
/// closes the groups from there on.
fn merge_at(tree: &mut OccTree, p: Place, other: &OccTree, node: Node, block: Block, rule: Rule)
    requires linked { IsLinked tree.old }
    requires place { IsPlace tree.old p }
    requires block { block_in tree.old p ≡ Some (cube_of block) }
    requires other { IsWellFormed other.now }
    requires over { IsOver other.now (cube_of block) node }
    requires odds { tree.old.odds ≡ other.now.odds }
    requires room { need_in tree.old other.now (cube_of block) ≤ spare tree.old.groups }
    ensures touched { IsTouched tree.old tree.new (cube_of block)
        (merge_events rule (value_at tree.old) (value_at other.now)) false }
    ensures room { spare tree.old.groups
        ≤ spare tree.new.groups + need_in tree.old other.now (cube_of block) }
{
    if is_done(tree, p, node, rule) {
        return;
    }
    if are_plain(tree, p, node) {
        write_leaf(tree, p, node, rule);
        return;
    }
    merge_part(tree, p, other, node, block, rule);
}

/// The same, where one of the two has a group there, and something is to be done. What needs no
/// group is done for each child without a call.
fn merge_part(tree: &mut OccTree, p: Place, other: &OccTree, node: Node, block: Block, rule: Rule)
    requires linked { IsLinked tree.old }
    requires place { IsPlace tree.old p }
    requires block { block_in tree.old p ≡ Some (cube_of block) }
    requires other { IsWellFormed other.now }
    requires over { IsOver other.now (cube_of block) node }
    requires known { node ≢ Node.Absent }
    requires parted { link_of (node_in tree.old p) ≡ None → link_of node ≢ None }
    requires odds { tree.old.odds ≡ other.now.odds }
    requires room { need_in tree.old other.now (cube_of block) ≤ spare tree.old.groups }
    ensures touched { IsTouched tree.old tree.new (cube_of block)
        (merge_events rule (value_at tree.old) (value_at other.now)) false }
    ensures room { spare tree.old.groups
        ≤ spare tree.new.groups + need_in tree.old other.now (cube_of block) }
{
    if can_copy(tree, p, other) {
        copy_part(tree, p, other, node, block, rule);
        return;
    }
    let id = enter(tree, p);
    for i in 0..8 {
        let slot = Place::Slot(id, i);
        let child = other.child_node(node, i);
        if is_done(tree, slot, child, rule) {
            continue;
        }
        if are_plain(tree, slot, child) {
            write_leaf(tree, slot, child, rule);
            continue;
        }
        merge_part(tree, slot, other, child, block.child(i), rule);
    }
    close(tree, p, id, false);
}

/// Whether what the other tree has under a node can be copied to the place: nothing is known there,
/// and the other tree is known to be fresh and pruned.
#[inline(always)]
fn can_copy(tree: &OccTree, p: Place, other: &OccTree) -> bool
    requires { IsPlace tree.now p }
    ensures absent { IsTrue result → node_in tree.now p ≡ Node.Absent }
    ensures fresh { IsTrue result → IsFresh other.now }
    ensures pruned { IsTrue result → IsPruned other.now }
{
    let known = other.tidiness();
    if !known.fresh {
        return false;
    }
    if !known.pruned {
        return false;
    }
    is_absent(tree.node(p))
}

/// Merges into the absent place what the other tree has under the node, which links a group: each
/// group is copied with the value over it, and none has to be closed.
fn copy_part(tree: &mut OccTree, p: Place, other: &OccTree, node: Node, block: Block, rule: Rule)
    requires linked { IsLinked tree.old }
    requires place { IsPlace tree.old p }
    requires block { block_in tree.old p ≡ Some (cube_of block) }
    requires absent { node_in tree.old p ≡ Node.Absent }
    requires other { IsFresh other.now }
    requires pruned { IsPruned other.now }
    requires over { IsOver other.now (cube_of block) node }
    requires inner { link_of node ≢ None }
    requires odds { tree.old.odds ≡ other.now.odds }
    requires room { need_in tree.old other.now (cube_of block) ≤ spare tree.old.groups }
    ensures touched { IsTouched tree.old tree.new (cube_of block)
        (merge_events rule (value_at tree.old) (value_at other.now)) false }
    ensures room { spare tree.old.groups
        ≤ spare tree.new.groups + need_in tree.old other.now (cube_of block) }
    ensures stored { stored_in (node_in tree.new p) ≡ stored_in node }
    ensures inner { link_of (node_in tree.new p) ≢ None }
{
    let value = value_in(node);
    let id = tree.split_to(p, value);
    for i in 0..8 {
        let slot = Place::Slot(id, i);
        let child = other.child_node(node, i);
        if is_absent(child) {
            continue;
        }
        if is_plain(child) {
            tree.set_place(slot, child);
            continue;
        }
        copy_part(tree, slot, other, child, block.child(i), rule);
    }
}

/// The value that stands in the node, or 0 where there is none.
fn value_in(node: Node) -> i32
    ensures { (v : ℤ) → stored_in node ≡ Some v → result ≡ v }
{
    match node {
        Node::Inner(value, _) => value,
        Node::Leaf(value) => value,
        Node::Absent => 0,
    }
}

/// Whether each voxel of the place's block stays as it is: the other node is absent, or the place
/// has a leaf, and the rule takes the first map's value.
#[inline(always)]
fn is_done(tree: &OccTree, p: Place, node: Node, rule: Rule) -> bool
    requires { IsPlace tree.now p }
    ensures done { IsTrue result → (node ≡ Node.Absent)
        ⊎ ((rule ≡ Rule.First) × IsSome (value_of (node_in tree.now p))) }
    ensures known { result ≡ false → node ≢ Node.Absent }
{
    is_absent(node) || is_kept(tree, p, rule)
}

/// Whether the node is absent.
fn is_absent(node: Node) -> bool
    ensures { IsTrue result ↔ (node ≡ Node.Absent) }
{
    matches!(node, Node::Absent)
}

/// Whether the place has a leaf, and the rule takes the first map's value, so that each voxel of
/// its block stays as it is.
fn is_kept(tree: &OccTree, p: Place, rule: Rule) -> bool
    requires { IsPlace tree.now p }
    ensures { IsTrue result → (rule ≡ Rule.First) × IsSome (value_of (node_in tree.now p)) }
{
    match rule {
        Rule::First => tree.node(p).value().is_some(),
        _ => false,
    }
}

/// Whether neither the place nor the other node links a group.
#[inline(always)]
fn are_plain(tree: &OccTree, p: Place, node: Node) -> bool
    requires { IsPlace tree.now p }
    ensures { IsTrue result ↔ ((link_of (node_in tree.now p) ≡ None) × (link_of node ≡ None)) }
{
    is_plain(tree.node(p)) && is_plain(node)
}

/// Merges the leaf of the other tree into the leaf or absent node of the place.
#[inline(always)]
fn write_leaf(tree: &mut OccTree, p: Place, node: Node, rule: Rule)
    requires linked { IsLinked tree.old }
    requires place { IsPlace tree.old p }
    requires plain { link_of (node_in tree.old p) ≡ None }
    requires leaf { IsSome (value_of node) }
    requires within { IsWithin tree.old.odds (value_of node) }
    ensures touched { (b : Cube) (events : Events) → IsBlock b → block_in tree.old p ≡ Some b
        → ((k : Voxel) → IsInMap k → HoldsVoxel b k
        → events k ≡ merge_event rule (value_of (node_in tree.old p)) (value_of node))
        → IsTouched tree.old tree.new b events false }
    ensures spare { spare tree.new.groups ≡ spare tree.old.groups }
{
    let Some(value) = node.value() else {
        unreachable!();
    };
    let joined = rule.join(tree.node(p).value(), value);
    tree.set_place(p, Node::Leaf(joined));
}
