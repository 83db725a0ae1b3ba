//! What a child of a block has of the frontier, at one look.
ghost use Rattle.std.specs.Prelude.{◌≡◌, ◌≤◌, IsTrue, ◌↔◌, ◌&&◌};
ghost use Rattle.oct_key.specs.Block.{child_of, lowest_voxel};
ghost use Rattle.oct_key.specs.Boxes.{IsBetween, IsBox, MeetsBox};
ghost use Rattle.oct_key.specs.CubeOf.{cube_of};
ghost use Rattle.oct_odds.specs.Update.{class_of};
ghost use Rattle.oct_odds.specs.declared.event.Class.TheVariants.{Free};
ghost use Rattle.oct_arena.specs.Nodes.{value_of};
ghost use Rattle.oct_frontier.specs.Found.{IsLookAt};
ghost use Rattle.oct_frontier.specs.Patches.{IsOpen, IsPatchOf};

use crate::patch::Patch;
use oct_arena::Node;
use oct_key::{Block, Key};
use oct_odds::Class;
use oct_tree::OccTree;

/// What is to be done with a block.
#[derive(Clone, Copy)]
pub(crate) enum Look {
    /// Nothing: no voxel of it is asked for.
    Pass,
    /// It is this voxel, and asked for.
    Take(Key),
    /// Its children are to be looked at.
    Enter,
}

/// What is to be done with child i of the patch's block where the frontier between two corners is
/// asked for.
///
/// A child that is unknown or occupied is passed over at a look at its own node, and so is a free
/// one with leaves alone beside it. So of a free block those children are entered that have
/// something unknown beside them, or something smaller.
#[inline(always)]
pub(crate) fn look_at(tree: &OccTree, patch: &Patch, i: u8, lo: Key, hi: Key) -> Look
    requires patch { IsPatchOf tree.now patch.now }
    requires depth { patch.now.block.depth ≤ 15 }
    requires index { i ≤ 7 }
    requires order { IsBox lo hi }
    ensures { IsLookAt tree.now lo hi (child_of (cube_of patch.now.block) i) result }
{
    let block = patch.block.child(i);
    if !meets(block, lo, hi) || !is_open(tree, patch, i) {
        return Look::Pass;
    }
    if block.depth == 16 {
        Look::Take(voxel_of(block))
    } else {
        Look::Enter
    }
}

/// Whether child i may have voxels at the frontier, by the nodes over it and beside it: it has
/// children of its own, or it's free and not all nodes beside it are leaves.
fn is_open(tree: &OccTree, patch: &Patch, i: u8) -> bool
    requires patch { IsPatchOf tree.now patch.now }
    requires index { i ≤ 7 }
    ensures { IsTrue result ↔ IsOpen tree.now patch.now i }
{
    let node = patch.child_node(tree, i);
    match node {
        Node::Inner(_, _) => true,
        _ => is_free(tree, node) && !patch.encloses(tree, i),
    }
}

/// Whether the node makes the voxels of its block free.
fn is_free(tree: &OccTree, node: Node) -> bool
    ensures { IsTrue result ↔ (class_of tree.now.odds (value_of node) ≡ Free) }
{
    tree.odds().class(node.value()) == Class::Free
}

/// The voxel that a block of depth 16 is.
fn voxel_of(block: Block) -> Key
    requires { block.depth ≡ 16 }
    ensures { result ≡ lowest_voxel (cube_of block) }
{
    Key {
        x: block.x,
        y: block.y,
        z: block.z,
    }
}

/// Whether some voxel of the block lies between the corners.
fn meets(block: Block, lo: Key, hi: Key) -> bool
    requires { IsBox lo hi }
    ensures { IsTrue result ↔ MeetsBox lo hi (cube_of block) }
{
    let first = Block::of(lo, block.depth);
    let last = Block::of(hi, block.depth);
    let x = is_between(first.x, last.x, block.x);
    let y = is_between(first.y, last.y, block.y);
    let z = is_between(first.z, last.z, block.z);
    on_each(x, y, z)
}

/// Whether the number lies between the two others, both included.
fn is_between(low: u16, high: u16, n: u16) -> bool
    ensures { IsTrue result ↔ IsBetween low high n }
{
    (low..=high).contains(&n)
}

/// Whether something holds on each axis.
fn on_each(x: bool, y: bool, z: bool) -> bool
    ensures { result ≡ (x && y && z) }
{
    x && y && z
}
