//! The least box around the known space of a tree, or around its occupied space.
ghost use Rattle.std.specs.Prelude.{◌≡◌, ◌+◌, ◌*◌, ◌^◌, ◌<◌, ◌-◌, ◌≤◌, Bool, Some, None};
ghost use Rattle.oct_key.specs.Block.{lowest_voxel, side};
ghost use Rattle.oct_key.specs.CubeOf.{cube_of};
ghost use Rattle.oct_tree.specs.Tree.{IsLinked, IsPlace, block_in};
ghost use Rattle.oct_tree.specs.Classes.{classes_in};
ghost use Rattle.oct_query.specs.Extent.{IsExtent, IsFound, IsFoundIn, is_sought, joined, lower};
ghost use Rattle.oct_query.specs.Extent.{higher, highest_voxel};

use crate::depths::lowest_voxel;
use crate::sought::Sought;
use oct_arena::Node;
use oct_key::{Block, Key, Window};
use oct_odds::Class;
use oct_tree::{OccTree, Place};

/// The least box of voxels that holds every voxel of the map that is sought, or `None` exactly
/// where there is none. Reads each node once and takes no memory.
pub fn bounds(tree: &OccTree, sought: Sought) -> Option<Window>
    ensures exact { IsExtent (IsFound (classes_in tree.now) sought) result }
    ensures linked { IsLinked tree.now }
{
    bounds_in(tree, Place::Root, Block::whole_map(), sought)
}

/// The same for the voxels of the place's block.
fn bounds_in(tree: &OccTree, p: Place, block: Block, sought: Sought) -> Option<Window>
    requires place { IsPlace tree.now p }
    requires block { block_in tree.now p ≡ Some (cube_of block) }
    ensures exact { IsExtent (IsFoundIn (classes_in tree.now) sought (cube_of block)) result }
    ensures linked { IsLinked tree.now }
{
    let node = tree.node(p);
    let Node::Inner(_, id) = node else {
        return bounds_of(block, is_sought(sought, tree.odds().class(node.value())));
    };
    let mut bounds = None;
    for i in 0..8 {
        let part = bounds_in(tree, Place::Slot(id, i), block.child(i), sought);
        bounds = joined(bounds, part);
    }
    bounds
}

/// Whether a voxel of this class is one of those that are sought.
pub(crate) fn is_sought(sought: Sought, class: Class) -> bool
    ensures { result ≡ is_sought sought class }
{
    match sought {
        Sought::Known => match class {
            Class::Unknown => false,
            _ => true,
        },
        Sought::Occupied => match class {
            Class::Occupied => true,
            _ => false,
        },
        Sought::Free => match class {
            Class::Free => true,
            _ => false,
        },
    }
}

/// The box of a block's voxels where these are sought, else none.
fn bounds_of(block: Block, sought: bool) -> Option<Window>
    ensures none { sought ≡ Bool.false → result ≡ None }
    ensures some { sought ≡ Bool.true → result ≡ Some (record {
      lo = lowest_voxel (cube_of block);
      hi = highest_voxel (cube_of block);
    }) }
{
    if sought {
        Window::new(lowest_voxel(block), highest_voxel(block))
    } else {
        None
    }
}

/// The voxel of the block with the highest number on each axis.
pub(crate) fn highest_voxel(b: Block) -> Key
    ensures exact { result ≡ highest_voxel (cube_of b) }
{
    Key {
        x: last_number(b.x, b.depth),
        y: last_number(b.y, b.depth),
        z: last_number(b.z, b.depth),
    }
}

/// The last number on an axis of the voxels of a block of this depth and number.
fn last_number(number: u16, depth: u8) -> u16
    requires depth { depth ≤ 16 }
    requires number { number < 2 ^ depth }
    ensures { result ≡ (number + 1) * side depth - 1 }
{
    let side = 1u32 << (16 - depth);
    ((u32::from(number) + 1) * side - 1) as u16
}

/// The least box around two boxes, either of which may be none.
fn joined(a: Option<Window>, b: Option<Window>) -> Option<Window>
    ensures { result ≡ joined a b }
{
    let Some(first) = a else {
        return b;
    };
    let Some(second) = b else {
        return a;
    };
    Window::new(
        lower(first.lo(), second.lo()),
        higher(first.hi(), second.hi()),
    )
}

/// The voxel with the lower number of two on each axis.
fn lower(a: Key, b: Key) -> Key
    ensures { result ≡ lower a b }
{
    Key {
        x: a.x.min(b.x),
        y: a.y.min(b.y),
        z: a.z.min(b.z),
    }
}

/// The voxel with the higher number of two on each axis.
fn higher(a: Key, b: Key) -> Key
    ensures { result ≡ higher a b }
{
    Key {
        x: a.x.max(b.x),
        y: a.y.max(b.y),
        z: a.z.max(b.z),
    }
}
