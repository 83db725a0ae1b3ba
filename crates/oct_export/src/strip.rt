//! What columns of voxels show.
ghost use Rattle.std.specs.Prelude.{◌≡◌, ◌+◌, ◌*◌, ◌^◌, ◌<◌, ◌≤◌, ◌↔◌, ◌&&◌, IsTrue, None, ℕ};
ghost use Rattle.oct_key.specs.Voxel.{Voxel};
ghost use Rattle.oct_key.specs.Block.{HoldsVoxel, side};
ghost use Rattle.oct_key.specs.CubeOf.{cube_of};
ghost use Rattle.oct_odds.specs.Update.{class_of};
ghost use Rattle.oct_odds.specs.declared.event.Class.TheVariants.{Occupied as occupied};
ghost use Rattle.oct_arena.specs.Nodes.{link_of, value_of};
ghost use Rattle.oct_tree.specs.Tree.{reach};
ghost use Rattle.oct_tree.specs.Classes.{classes_in};
ghost use Rattle.oct_export.specs.Bands.{band_class, stronger};

use oct_arena::Node;
use oct_key::{Block, Key, child_index};
use oct_odds::Class;
use oct_tree::OccTree;

/// A block whose voxels are all of one class.
#[derive(Clone, Copy)]
pub(crate) struct Patch {
    pub(crate) block: Block,
    pub(crate) class: Class,
}

/// What a column shows, and the last column of its row up to which all show the same.
#[derive(Clone, Copy)]
pub(crate) struct Strip {
    pub(crate) class: Class,
    pub(crate) last: u16,
}

/// What the voxels of a node's block count as, where the node isn't Inner.
pub(crate) fn class_of_node(tree: &OccTree, node: Node) -> Class
    ensures { link_of node ≡ None → result ≡ class_of tree.now.odds (value_of node) }
{
    tree.odds().class(node.value())
}

/// The block of a depth around the voxel, which is of one class where the node over it isn't Inner.
fn patch_under(tree: &OccTree, k: Key, depth: u8, node: Node) -> Patch
    requires depth { depth ≤ 16 }
    requires reached { node ≡ reach tree.now depth k }
    requires leaf { link_of node ≡ None }
    ensures holds { HoldsVoxel (cube_of result.block) k }
    ensures class { (j : Voxel) → HoldsVoxel (cube_of result.block) j
        → classes_in tree.now j ≡ result.class }
{
    Patch {
        block: Block::of(k, depth),
        class: class_of_node(tree, node),
    }
}

/// The block around the voxel that a leaf or an absent node of the tree covers. Reads at most
/// sixteen nodes of the arena.
fn patch_at(tree: &OccTree, k: Key) -> Patch
    ensures holds { HoldsVoxel (cube_of result.block) k }
    ensures class { (j : Voxel) → HoldsVoxel (cube_of result.block) j
        → classes_in tree.now j ≡ result.class }
{
    let mut node = tree.root();
    for depth in 0..16 {
        let Node::Inner(_, id) = node else {
            return patch_under(tree, k, depth, node);
        };
        node = tree.arena().node(id, child_index(k, depth));
    }
    patch_under(tree, k, 16, node)
}

/// The last number on an axis of the voxels of a block of this depth and number.
fn last_number(number: u16, depth: u8) -> u16
    requires depth { depth ≤ 16 }
    requires number { number < 2 ^ depth }
    ensures { result + 1 ≡ (number + 1) * side depth }
{
    let side = 1u32 << (16 - depth);
    ((u32::from(number) + 1) * side - 1) as u16
}

/// Of two classes the one that shows: occupied before free, and free before unknown.
fn stronger(a: Class, b: Class) -> Class
    ensures { result ≡ stronger a b }
{
    match (a, b) {
        (Class::Occupied, _) => Class::Occupied,
        (Class::Free, Class::Occupied) => Class::Occupied,
        (Class::Free, Class::Free) => Class::Free,
        (Class::Free, Class::Unknown) => Class::Free,
        (Class::Unknown, _) => b,
    }
}

/// Whether a class is occupied.
pub(crate) fn is_occupied(class: Class) -> bool
    ensures { IsTrue result ↔ (class ≡ occupied) }
{
    class == Class::Occupied
}

/// Whether both are so.
pub(crate) fn are_both(a: bool, b: bool) -> bool
    ensures { result ≡ (a && b) }
{
    a && b
}

/// What the column of these numbers on x and y shows from one number on z to another, and how far
/// its row goes on showing it: as far as all the blocks do that were looked at, or as the one does
/// that is occupied.
pub(crate) fn strip_at(tree: &OccTree, x: u16, y: u16, lo: u16, hi: u16) -> Strip
    requires { lo ≤ hi }
    ensures reach { x ≤ result.last }
    ensures class { (n : ℕ) → x ≤ n → n ≤ result.last
        → band_class (classes_in tree.now) lo hi n y ≡ result.class }
{
    let mut class = Class::Unknown;
    let mut last = u16::MAX;
    let mut z = u32::from(lo);
    while z <= u32::from(hi) {
        let patch = patch_at(tree, Key { x, y, z: z as u16 });
        let right = last_number(patch.block.x, patch.block.depth);
        if is_occupied(patch.class) {
            return Strip {
                class: Class::Occupied,
                last: right,
            };
        }
        let top = last_number(patch.block.z, patch.block.depth);
        class = stronger(class, patch.class);
        last = last.min(right);
        z = u32::from(top.min(hi)) + 1;
    }
    Strip { class, last }
}

/// What the column of voxels with these numbers on x and y shows from the number `lo` on z to `hi`,
/// both included: occupied where some voxel is, else free where some voxel is, else unknown.
///
/// Goes from block to block, and reads at most sixteen nodes for each. Takes no memory.
pub fn band(tree: &OccTree, x: u16, y: u16, lo: u16, hi: u16) -> Class
    requires { lo ≤ hi }
    ensures { result ≡ band_class (classes_in tree.now) lo hi x y }
{
    strip_at(tree, x, y, lo, hi).class
}
