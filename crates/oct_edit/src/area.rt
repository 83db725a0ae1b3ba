//! An event on each voxel of a box, or on each one outside of it, block by block, and the groups
//! that it may need.
ghost use Rattle.std.specs.Prelude.{◌≡◌, ◌+◌, ◌^◌, ◌≤◌, ◌≤ℤ◌, ◌↔◌, IsTrue, IsSome, None, Some};
ghost use Rattle.std.specs.Prelude.{false};
ghost use Rattle.oct_key.specs.Voxel.{Voxel, IsInMap};
ghost use Rattle.oct_key.specs.Block.{root_block};
ghost use Rattle.oct_key.specs.CubeOf.{cube_of};
ghost use Rattle.oct_odds.specs.Update.{IsSmallEvent};
ghost use Rattle.oct_key.specs.Boxes.{IsBox};
ghost use Rattle.oct_values.specs.Boxes as boxes;
ghost use Rattle.oct_values.specs.Boxes.{box_events, met_on, within_on, cut_at};
ghost use Rattle.oct_arena.specs.Entries.{live, spare};
ghost use Rattle.oct_arena.specs.Nodes.{link_of};
ghost use Rattle.oct_tree.specs.Tree.{IsLinked, IsPlace, node_in, block_in};
ghost use Rattle.oct_tree.specs.Shape.{IsWellFormed};
ghost use Rattle.oct_edit.specs.Edits.{IsEdited, IsEagerEdit, IsTidyAlong};
ghost use Rattle.oct_edit.specs.Steps.{IsTouched};
ghost use Rattle.oct_edit.specs.Areas.{MeetsArea, LiesInArea, area_events, splits_in, IsUnmoved};
ghost use Rattle.oct_edit.specs.Areas.{IsForgotten};

use crate::voxel::{VOXEL_DEPTH, apply_at, close, enter, stays};
use oct_arena::Node;
use oct_key::{Block, Key, Window};
use oct_odds::Event;
use oct_tree::{OccTree, Place};

/// A part of the map: the voxels of a box, or all others.
#[derive(Clone, Copy)]
pub(crate) struct Area {
    pub(crate) window: Window,
    pub(crate) outside: bool,
}

impl Area {
    /// Whether some voxel of the block lies in the area.
    #[inline(always)]
    fn meets(&self, block: Block) -> bool
        ensures { IsTrue result ↔ MeetsArea self.now (cube_of block) }
    {
        if self.outside {
            !self.window.covers(block)
        } else {
            self.window.meets(block)
        }
    }

    /// Whether each voxel of the block lies in the area.
    #[inline(always)]
    fn covers(&self, block: Block) -> bool
        ensures { IsTrue result ↔ LiesInArea self.now (cube_of block) }
    {
        if self.outside {
            !self.window.meets(block)
        } else {
            self.window.covers(block)
        }
    }
}

/// The number of blocks of depth 0 to 15 that meet the box of the two corners and don't lie in it:
/// this many groups at most have to be made for an edit of it. Both corners lie in the box, and
/// `lo` exceeds `hi` on no axis.
pub fn box_need(lo: Key, hi: Key) -> u128
    requires { IsBox lo hi }
    ensures exact { result ≡ boxes.box_need lo hi }
    ensures few { result ≤ 2 ^ 49 }
{
    let mut need = 0;
    for depth in 0..VOXEL_DEPTH {
        need += u128::from(cut_at_depth(lo, hi, depth));
    }
    need
}

/// How many blocks of that depth meet the box and don't lie in it.
#[tactic(auto, unfolding(oct_values::specs::Boxes::cut_at))]
fn cut_at_depth(lo: Key, hi: Key, depth: u8) -> u64
    requires order { IsBox lo hi }
    requires depth { depth ≤ 15 }
    ensures exact { result ≡ cut_at lo hi depth }
    ensures few { result ≤ 2 ^ 45 }
{
    let met = met_across(lo.x, hi.x, depth)
        * met_across(lo.y, hi.y, depth)
        * met_across(lo.z, hi.z, depth);
    let within = within_across(lo.x, hi.x, depth)
        * within_across(lo.y, hi.y, depth)
        * within_across(lo.z, hi.z, depth);
    met - within
}

/// How many blocks of that depth have voxels of these numbers on an axis.
fn met_across(low: u16, high: u16, depth: u8) -> u64
    requires order { low ≤ high }
    requires depth { depth ≤ 15 }
    ensures exact { result ≡ met_on depth low high }
    ensures few { result ≤ 2 ^ 15 }
{
    let height = 16 - depth;
    (u64::from(high) >> height) + 1 - (u64::from(low) >> height)
}

/// How many blocks of that depth have voxels of these numbers alone on an axis.
fn within_across(low: u16, high: u16, depth: u8) -> u64
    requires depth { depth ≤ 15 }
    ensures exact { result ≡ within_on depth low high }
    ensures few { result ≤ met_on depth low high }
{
    let height = 16 - depth;
    let last = (1u64 << height) - 1;
    ((u64::from(high) + 1) >> height).saturating_sub((u64::from(low) + last) >> height)
}

/// Applies the event to each voxel of the box of the two corners, both included, and to no other.
///
/// It is eager. The tree has room for a group under each block that meets the box and doesn't lie
/// in it. A block in the box that is one leaf, or absent, stays one, and is not entered.
pub fn touch_box(tree: &mut OccTree, lo: Key, hi: Key, event: Event)
    requires well_formed { IsWellFormed tree.old }
    requires order { IsBox lo hi }
    requires room { boxes.box_need lo hi ≤ spare tree.old.groups }
    requires small { IsSmallEvent event }
    ensures edited { IsEdited tree.old tree.new (box_events lo hi event) }
    ensures eager { IsEagerEdit tree.old tree.new (box_events lo hi event) }
    ensures path { (k : Voxel) → IsInMap k → IsSome (box_events lo hi event k)
        → IsTidyAlong tree.new k }
    ensures groups { live tree.new.groups ≤ live tree.old.groups + boxes.box_need lo hi }
    ensures room { live tree.new.groups + spare tree.new.groups
        ≡ live tree.old.groups + spare tree.old.groups }
{
    let area = Area {
        window: Window::of(lo, hi),
        outside: false,
    };
    touch_area(tree, area, event);
}

/// Applies the event to each voxel of the area, and to no other. The tree has room for the groups
/// that this makes.
pub(crate) fn touch_area(tree: &mut OccTree, area: Area, event: Event)
    requires well_formed { IsWellFormed tree.old }
    requires room { splits_in tree.old area event root_block ≤ spare tree.old.groups }
    requires small { IsSmallEvent event }
    ensures edited { IsEdited tree.old tree.new (area_events area event) }
    ensures eager { IsEagerEdit tree.old tree.new (area_events area event) }
    ensures path { (k : Voxel) → IsInMap k → IsSome (area_events area event k)
        → IsTidyAlong tree.new k }
    ensures groups { live tree.new.groups
        ≤ live tree.old.groups + splits_in tree.old area event root_block }
    ensures room { live tree.new.groups + spare tree.new.groups
        ≡ live tree.old.groups + spare tree.old.groups }
{
    let map = Block::whole_map();
    if !area.meets(map) {
        return;
    }
    let known = tree.tidiness();
    touch_part(tree, Place::Root, map, &area, event);
    tree.note(known);
}

/// Applies the event to the voxels of the area in the block of the place, which holds some, and
/// closes the groups from there on.
fn touch_part(tree: &mut OccTree, p: Place, block: Block, area: &Area, event: Event)
    requires linked { IsLinked tree.old }
    requires place { IsPlace tree.old p }
    requires block { block_in tree.old p ≡ Some (cube_of block) }
    requires meets { MeetsArea area.now (cube_of block) }
    requires room { splits_in tree.old area.now event (cube_of block) ≤ spare tree.old.groups }
    requires small { IsSmallEvent event }
    ensures touched { IsTouched tree.old tree.new (cube_of block)
        (area_events area.now event) false }
    ensures room { spare tree.old.groups
        ≤ spare tree.new.groups + splits_in tree.old area.now event (cube_of block) }
{
    if takes_nothing(tree, p, event) {
        return;
    }
    if is_whole(tree, p, block, area) {
        apply_at(tree, p, event);
        return;
    }
    let id = enter(tree, p);
    for i in 0..8 {
        let child = block.child(i);
        if area.meets(child) {
            touch_part(tree, Place::Slot(id, i), child, area, event);
        }
    }
    close(tree, p, id, false);
}

/// Whether the event leaves what the place gives its voxels as it is: they are saturated, or it
/// forgets what isn't known.
fn takes_nothing(tree: &OccTree, p: Place, event: Event) -> bool
    requires { IsPlace tree.now p }
    ensures unmoved { IsTrue result ↔ IsUnmoved tree.now.odds event (node_in tree.now p) }
    ensures bounds { tree.now.odds.min ≤ℤ tree.now.odds.max }
{
    let node = tree.node(p);
    let odds = tree.odds();
    is_forgotten(event, node) || stays(odds, event, node.value())
}

/// Whether the event forgets what isn't known.
fn is_forgotten(event: Event, node: Node) -> bool
    ensures { IsTrue result ↔ IsForgotten event node }
{
    match event {
        Event::Forget => is_absent(node),
        _ => false,
    }
}

/// Whether the node is absent.
fn is_absent(node: Node) -> bool
    ensures { IsTrue result ↔ (node ≡ Node.Absent) }
{
    match node {
        Node::Absent => true,
        _ => false,
    }
}

/// Whether the place links no group, and its block lies in the area.
fn is_whole(tree: &OccTree, p: Place, block: Block, area: &Area) -> bool
    requires { IsPlace tree.now p }
    ensures { IsTrue result ↔ ((link_of (node_in tree.now p) ≡ None)
        × LiesInArea area.now (cube_of block)) }
{
    is_plain(tree.node(p)) && area.covers(block)
}

/// Whether the node links no group.
fn is_plain(node: Node) -> bool
    ensures { IsTrue result ↔ (link_of node ≡ None) }
{
    match node {
        Node::Inner(_, _) => false,
        _ => true,
    }
}
