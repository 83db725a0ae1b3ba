//! The known blocks of a depth in a box, plane by plane and row by row.
ghost use Rattle.std.specs.Prelude.{◌≡◌, ◌+◌, ◌-◌, ◌*◌, ◌/◌, ◌^◌, ◌<◌, ◌≤◌, ◌⊎◌, ◌++◌, ◌∷◌, []};
ghost use Rattle.std.specs.Prelude.{length, Err, IfOk, IfErr, OnOk, OnErr};
ghost use Rattle.std.specs.List.{filter_map};
ghost use Rattle.oct_key.specs.Block.{side};
ghost use Rattle.oct_key.specs.CubeOf.{cube_of};
ghost use Rattle.oct_key.specs.Order.{block_numbered};
ghost use Rattle.oct_key.specs.Boxes.{IsBox};
ghost use Rattle.oct_tree.specs.Tree.{value_at};
ghost use Rattle.oct_tree.specs.Shape.{IsFresh};
ghost use Rattle.oct_query.specs.declared.fault.ListFault.{ListFault};
ghost use Rattle.oct_query.specs.Listed.{met_blocks, listed_blocks, shown, IsRefused};
ghost use Rattle.oct_query.specs.Paths.{IsPathOf};
ghost use Rattle.oct_query.specs.Rows.{row_blocks, plane_blocks};

use crate::block_list::BlockList;
use crate::depths::lowest_voxel;
use crate::fault::ListFault;
use crate::found::Found;
use crate::path::Path;
use oct_key::{Block, Key};
use oct_num::Memory;
use oct_tree::OccTree;
use std::alloc::Global;

/// The blocks of a depth that meet the box of the two corners, both included, and aren't unknown,
/// each with what [`query`](crate::query) answers for it. They come by ascending x, then y, then z.
///
/// The tree is fresh, or the depth is 16, that of the voxels. A block that meets the box answers
/// for all its voxels, beyond the box too. Where more than `most` blocks meet the box, unknown ones
/// counted, the answer is `TooManyBlocks`, before a block is looked at. The work is in proportion
/// to the blocks that meet the box.
pub fn list(
    alloc: Global,
    tree: &OccTree,
    lo: Key,
    hi: Key,
    depth: u8,
    most: u64,
) -> Result<BlockList, ListFault>
    requires order { IsBox lo hi }
    requires levels { depth ≤ 16 }
    requires answers { IsFresh tree.now ⊎ (depth ≡ 16) }
    ensures listed { IfOk result
        (λ list. list ≡ listed_blocks (value_at tree.now) lo hi depth) }
    ensures few { IfOk result (λ _. length (met_blocks lo hi depth) ≤ most) }
    ensures refused { IfErr result
        (λ fault. IsRefused fault (length (met_blocks lo hi depth)) most) }
    ensures memory { result ≡ Err ListFault.Memory
        → listed_blocks (value_at tree.now) lo hi depth ≡ [] → ⊥ }
{
    let xs = span_on(lo.x, hi.x, depth);
    let ys = span_on(lo.y, hi.y, depth);
    let zs = span_on(lo.z, hi.z, depth);
    let count = xs.count() * ys.count() * zs.count();
    if count > most {
        return Err(ListFault::TooManyBlocks { count });
    }
    let mut path = Path::new(tree);
    let mut found = BlockList::new(alloc);
    for x in xs.from..xs.to {
        list_plane(tree, &mut path, &mut found, depth, x, ys, zs)?;
    }
    Ok(found)
}

/// Numbers of blocks on an axis: from one on, and below another.
#[derive(Clone, Copy)]
struct Span {
    from: u32,
    to: u32,
}

impl Span {
    /// How many numbers these are.
    fn count(self) -> u64
        requires { self.from ≤ self.to }
        ensures { result ≡ self.to - self.from }
    {
        u64::from(self.to - self.from)
    }
}

/// The numbers of the blocks of that depth that have voxels between the two numbers on an axis.
fn span_on(low: u16, high: u16, depth: u8) -> Span
    requires order { low ≤ high }
    requires levels { depth ≤ 16 }
    ensures from { result.from ≡ low / side depth }
    ensures to { result.to ≡ high / side depth + 1 }
    ensures order { result.from < result.to }
    ensures below { result.to ≤ 2 ^ depth }
    ensures few { result.to ≤ 65536 }
{
    let height = 16 - depth;
    Span {
        from: u32::from(low) >> height,
        to: (u32::from(high) >> height) + 1,
    }
}

/// Adds the blocks of a plane.
fn list_plane(
    tree: &OccTree,
    path: &mut Path,
    found: &mut BlockList,
    depth: u8,
    x: u32,
    ys: Span,
    zs: Span,
) -> Result<(), Memory>
    requires path { IsPathOf tree.now path.old }
    requires answers { IsFresh tree.now ⊎ (depth ≡ 16) }
    requires levels { depth ≤ 16 }
    requires x { x < 2 ^ depth }
    requires y { (ys.from < ys.to) × (ys.to ≤ 2 ^ depth) }
    requires z { (zs.from < zs.to) × (zs.to ≤ 2 ^ depth) }
    ensures listed { OnOk result (IsPathOf tree.now path.new × (found.new ≡ found.old
        ++ filter_map (shown (value_at tree.now))
        (plane_blocks depth x ys.from (ys.to - ys.from) zs.from (zs.to - zs.from)))) }
    ensures memory { OnErr result (filter_map (shown (value_at tree.now))
        (plane_blocks depth x ys.from (ys.to - ys.from) zs.from (zs.to - zs.from)) ≡ [] → ⊥) }
{
    for y in ys.from..ys.to {
        list_row(tree, path, found, depth, x, y, zs)?;
    }
    Ok(())
}

/// Adds the blocks of a row.
fn list_row(
    tree: &OccTree,
    path: &mut Path,
    found: &mut BlockList,
    depth: u8,
    x: u32,
    y: u32,
    zs: Span,
) -> Result<(), Memory>
    requires path { IsPathOf tree.now path.old }
    requires answers { IsFresh tree.now ⊎ (depth ≡ 16) }
    requires levels { depth ≤ 16 }
    requires x { x < 2 ^ depth }
    requires y { y < 2 ^ depth }
    requires z { (zs.from < zs.to) × (zs.to ≤ 2 ^ depth) }
    ensures listed { OnOk result (IsPathOf tree.now path.new × (found.new ≡ found.old
        ++ filter_map (shown (value_at tree.now))
        (row_blocks depth x y zs.from (zs.to - zs.from)))) }
    ensures memory { OnErr result (filter_map (shown (value_at tree.now))
        (row_blocks depth x y zs.from (zs.to - zs.from)) ≡ [] → ⊥) }
{
    for z in zs.from..zs.to {
        list_block(tree, path, found, block_at(depth, x, y, z))?;
    }
    Ok(())
}

/// Adds the block, unless it is unknown.
fn list_block(
    tree: &OccTree,
    path: &mut Path,
    found: &mut BlockList,
    block: Block,
) -> Result<(), Memory>
    requires path { IsPathOf tree.now path.old }
    requires answers { IsFresh tree.now ⊎ (block.depth ≡ 16) }
    ensures listed { OnOk result (IsPathOf tree.now path.new × (found.new ≡ found.old
        ++ filter_map (shown (value_at tree.now)) (cube_of block ∷ []))) }
    ensures memory { OnErr result
        (filter_map (shown (value_at tree.now)) (cube_of block ∷ []) ≡ [] → ⊥) }
{
    let node = path.go(tree, lowest_voxel(block), block.depth);
    match node.stored() {
        Some(value) => found.push(Found { block, value }),
        None => Ok(()),
    }
}

/// The block of that depth with these numbers on the axes.
fn block_at(depth: u8, x: u32, y: u32, z: u32) -> Block
    requires levels { depth ≤ 16 }
    requires x { x < 2 ^ depth }
    requires y { y < 2 ^ depth }
    requires z { z < 2 ^ depth }
    ensures { cube_of result ≡ block_numbered depth (record { x = x; y = y; z = z }) }
{
    Block {
        depth,
        x: x as u16,
        y: y as u16,
        z: z as u16,
    }
}
