//! The free voxels of a box beside unknown ones, counted first and then listed.
ghost use Rattle.std.specs.Prelude.{◌≡◌, ◌<◌, ◌≤◌, length, IsOk, IfOk, IfErr};
ghost use Rattle.oct_key.specs.Block.{root_block};
ghost use Rattle.oct_key.specs.Boxes.{IsBox};
ghost use Rattle.oct_key.specs.CubeOf.{cube_of};
ghost use Rattle.oct_frontier.specs.Patches.{IsPatchOf};
ghost use Rattle.oct_frontier.specs.Found.{found_in};
ghost use Rattle.oct_tree.specs.Classes.{classes_in};
ghost use Rattle.oct_frontier.specs.Frontier.{frontier_between, IsFrontierBetween, IsRefused};

use crate::fault::FrontierFault;
use crate::patch::Patch;
use crate::walk::{count_under, list_under};
use oct_key::{Key, KeyList};
use oct_num::Memory;
use oct_tree::OccTree;
use std::alloc::Global;

/// The frontier between two corners, both included: the free voxels that have an unknown voxel of
/// the map beside them on an axis. They come by ascending x, then y, then z.
///
/// A neighbour counts where it lies beyond the corners too. Where there are more than `most`, the
/// answer is `TooManyFrontiers`, and none is listed. Memory is taken once, for exactly the voxels
/// of the answer, and none where there are none.
pub fn frontier(
    alloc: Global,
    tree: &OccTree,
    lo: Key,
    hi: Key,
    most: u64,
) -> Result<KeyList, FrontierFault>
    requires order { IsBox lo hi }
    ensures exact { IfOk result (λ list. list ≡ frontier_between (classes_in tree.now) lo hi) }
    ensures right { IfOk result (λ list. IsFrontierBetween (classes_in tree.now) lo hi list) }
    ensures few { IfOk result (λ list. length list ≤ most) }
    ensures refused { IfErr result
        (λ fault. IsRefused fault (length (frontier_between (classes_in tree.now) lo hi)) most) }
{
    let whole = Patch::whole(tree);
    let Some(left) = count_under(tree, &whole, lo, hi, most) else {
        return Err(FrontierFault::TooManyFrontiers);
    };
    let keys = list_all(alloc, tree, &whole, lo, hi, most - left)?;
    Ok(keys)
}

/// The frontier in the patch of the whole map, of which it is known how many voxels it has.
fn list_all(
    alloc: Global,
    tree: &OccTree,
    whole: &Patch,
    lo: Key,
    hi: Key,
    count: u64,
) -> Result<KeyList, Memory>
    requires patch { IsPatchOf tree.now whole.now }
    requires block { cube_of whole.now.block ≡ root_block }
    requires order { IsBox lo hi }
    requires count { length (found_in tree.now lo hi root_block) ≡ count }
    ensures exact { IfOk result (λ list. list ≡ frontier_between (classes_in tree.now) lo hi) }
    ensures none { count ≡ 0 → IsOk result }
{
    let mut keys = Vec::with_capacity(alloc, count as usize)?;
    list_under(tree, whole, lo, hi, &mut keys);
    keys.sort_unstable();
    Ok(KeyList::from(keys))
}
