//! Forgetting all that lies outside of a box, and the groups that it takes.
ghost use Rattle.std.specs.Prelude.{◌≡◌, ◌+◌, ◌*◌, ◌^◌, ◌<◌, ◌≤◌, ◌⊎◌, IsSome, true};
ghost use Rattle.oct_key.specs.Voxel.{Voxel, IsInMap};
ghost use Rattle.oct_key.specs.Block.{side};
ghost use Rattle.oct_key.specs.Boxes.{IsBox, MeetsBox};
ghost use Rattle.oct_key.specs.CubeOf.{cube_of};
ghost use Rattle.oct_values.specs.Boxes.{is_cut_by};
ghost use Rattle.oct_arena.specs.Entries.{live, spare};
ghost use Rattle.oct_tree.specs.Shape.{IsWellFormed};
ghost use Rattle.oct_tree.specs.Tree.{IsLinked, IsOver};
ghost use Rattle.oct_edit.specs.Areas.{cut_in, keep_need_in, IsClipped};
ghost use Rattle.oct_edit.specs.Edits.{IsEdited, IsEagerEdit, IsTidyAlong};
ghost use Rattle.oct_edit.specs.Keep as groups;
ghost use Rattle.oct_edit.specs.Keep.{keep_events};

use crate::area::{Area, box_need, touch_area};
use oct_arena::Node;
use oct_key::{Block, Key, Window};
use oct_odds::Event;
use oct_tree::OccTree;

/// Forgets each voxel outside of the box of the two corners, and changes none in it.
///
/// It is eager. The tree has room for a group under each block that the box cuts and that lies in a
/// leaf, and takes no other. What is unknown, and what lies in the box, is not entered.
pub fn keep_box(tree: &mut OccTree, lo: Key, hi: Key)
    requires well_formed { IsWellFormed tree.old }
    requires order { IsBox lo hi }
    requires room { groups.keep_need tree.old lo hi ≤ spare tree.old.groups }
    ensures edited { IsEdited tree.old tree.new (keep_events lo hi) }
    ensures eager { IsEagerEdit tree.old tree.new (keep_events lo hi) }
    ensures path { (k : Voxel) → IsInMap k → IsSome (keep_events lo hi k)
        → IsTidyAlong tree.new k }
    ensures groups { live tree.new.groups ≤ live tree.old.groups + groups.keep_need tree.old lo hi }
    ensures room { live tree.new.groups + spare tree.new.groups
        ≡ live tree.old.groups + spare tree.old.groups }
{
    let area = Area {
        window: Window::of(lo, hi),
        outside: true,
    };
    touch_area(tree, area, Event::Forget);
}

/// The number of blocks of depth 0 to 15 that the box of the two corners cuts, and that lie in a
/// leaf: this many groups have to be made to forget what lies outside of it. Visits the groups that
/// the box cuts, and takes no memory.
pub fn keep_need(tree: &OccTree, lo: Key, hi: Key) -> u128
    requires order { IsBox lo hi }
    ensures exact { result ≡ groups.keep_need tree.now lo hi }
    ensures few { result ≤ 9 ^ 16 }
{
    need_under(tree, tree.root(), Block::whole_map(), &Window::of(lo, hi))
}

/// How many of them there are in the block, over which this node stands.
fn need_under(tree: &OccTree, node: Node, block: Block, window: &Window) -> u128
    requires linked { IsLinked tree.now }
    requires node { IsOver tree.now (cube_of block) node }
    ensures exact { result ≡ keep_need_in tree.now window.now.lo window.now.hi (cube_of block) }
    ensures few { result ≤ 9 ^ 16 }
{
    if !is_cut(block, window) {
        return 0;
    }
    match node {
        Node::Absent => return 0,
        Node::Leaf(_) => return cuts_within(block, window),
        Node::Inner(_, _) => {}
    }
    let mut need = 0;
    for i in 0..8 {
        need += need_under(tree, tree.child_node(node, i), block.child(i), window);
    }
    need
}

/// Whether the box cuts the block: it has voxels in the box, and others.
fn is_cut(block: Block, window: &Window) -> bool
    ensures { result ≡ is_cut_by window.now.lo window.now.hi (cube_of block) }
{
    window.meets(block) && !window.covers(block)
}

/// How many blocks of depth 0 to 15 in the block, which is one of them, the box cuts: as many as
/// its part in the block cuts, but for the blocks above.
fn cuts_within(block: Block, window: &Window) -> u128
    requires { is_cut_by window.now.lo window.now.hi (cube_of block) ≡ true }
    ensures { result ≡ cut_in window.now.lo window.now.hi (cube_of block) }
{
    let part = clipped(block, window);
    box_need(part.lo(), part.hi()) - u128::from(block.depth)
}

/// The part of the box that lies in the block, which has voxels of it.
fn clipped(block: Block, window: &Window) -> Window
    requires { MeetsBox window.now.lo window.now.hi (cube_of block) }
    ensures { IsClipped window.now (cube_of block) result }
{
    let lo = window.lo();
    let hi = window.hi();
    let low = Key {
        x: first_within(lo.x, block.depth, block.x),
        y: first_within(lo.y, block.depth, block.y),
        z: first_within(lo.z, block.depth, block.z),
    };
    let high = Key {
        x: last_within(hi.x, block.depth, block.x),
        y: last_within(hi.y, block.depth, block.y),
        z: last_within(hi.z, block.depth, block.z),
    };
    Window::of(low, high)
}

/// The first number on an axis of a block of this depth and number that is no less than `low`.
fn first_within(low: u16, depth: u8, n: u16) -> u16
    requires depth { depth ≤ 16 }
    requires number { n < 2 ^ depth }
    ensures from { (low ≤ result) × (n * side depth ≤ result) }
    ensures least { (result ≡ low) ⊎ (result ≡ n * side depth) }
{
    let first = (u32::from(n) << (16 - depth)) as u16;
    low.max(first)
}

/// The last number on an axis of a block of this depth and number that is no more than `high`.
fn last_within(high: u16, depth: u8, n: u16) -> u16
    requires depth { depth ≤ 16 }
    requires number { n < 2 ^ depth }
    ensures to { (result ≤ high) × (result < (n + 1) * side depth) }
    ensures most { (result ≡ high) ⊎ (result + 1 ≡ (n + 1) * side depth) }
{
    let last = ((u32::from(n) + 1) << (16 - depth)) - 1;
    high.min(last as u16)
}
