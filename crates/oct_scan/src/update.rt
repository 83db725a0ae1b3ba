//! What a scan does to the map, as two lists of voxels.
ghost use Rattle.std.specs.Prelude.{◌≡◌, ◌+◌, ◌++◌, ◌^◌, ◌<◌, ◌≤◌, pos, ◌≤ℤ◌, ◌<ℤ◌, None, Err};
ghost use Rattle.std.specs.Prelude.{length, map, All, IfOk, IfErr, IfSome, OnOk, OnErr};
ghost use Rattle.oct_pose.specs.Reach.{IsInReach};
ghost use Rattle.oct_brick.specs.Masks.{codes_of};
ghost use Rattle.oct_brick.specs.Bricks.{IsBrick};
ghost use Rattle.oct_brick.specs.Voxels.{coded_voxel};
ghost use Rattle.oct_scan.specs.Beam.{sighting_of};
ghost use Rattle.oct_scan.specs.Outcome.{scan_fault, TakesMemory};
ghost use Rattle.oct_scan.specs.Update.{listed, IsUpdateOf, IsOutcomeOf, IsWithinLimit, IsRefusal};

use crate::bricks::{UpdateBricks, update_bricks};
use crate::fault::ScanFault;
use crate::scan::Scan;
use oct_key::{KeyList, Res, Window, from_morton};
use oct_num::Memory;
use std::alloc::Global;
use std::marker::Model;

/// What a scan does to a map, as lists: the voxels that are hit, those that are freed, and how many
/// groups of a tree that may need.
#[derive(Debug, Drop)]
pub struct UpdateSet {
    hits: KeyList,
    frees: KeyList,
    need: u64,
}

impl Model for UpdateSet {
    ghost use Rattle.oct_scan.specs.Update.{UpdateSet as Lists};

    ghost Value = { Lists };

    ghost view = { λ set. record { hits = set.hits; frees = set.frees; need = set.need } };
}

impl UpdateSet {
    /// The voxels that are hit, ascending by their Morton codes, each once.
    pub fn hits(&self) -> &KeyList
        ensures { result.now ≡ self.now.hits }
    {
        &self.hits
    }

    /// The voxels that are freed, ascending by their Morton codes, each once. None of them is hit.
    pub fn frees(&self) -> &KeyList
        ensures { result.now ≡ self.now.frees }
    {
        &self.frees
    }

    /// How many blocks of depth 0 to 15 hold a voxel that is hit or freed.
    pub fn need(&self) -> u64
        ensures { result ≡ self.now.need }
    {
        self.need
    }
}

/// What a scan does to each voxel of a map of this resolution that lies in the box, where one
/// stands, as lists of voxels, where its beams meet no more voxels than `max_cells`.
///
/// A scan is refused first where its origin lies outside the map, then for the first beam that ends
/// outside, and then for the first beam with which the beams meet too many voxels, where a voxel
/// counts once for each beam that meets it. None of the three looks at the box. A scan that is
/// refused doesn't run out of memory, and one without points takes none.
pub fn update_set(
    alloc: Global,
    scan: &Scan,
    res: Res,
    max_cells: u64,
    window: Option<Window>,
) -> Result<UpdateSet, ScanFault>
    requires points { All IsInReach scan.now.points }
    requires range { IfSome scan.now.range (λ r. (pos 0 ≤ℤ r) × (r <ℤ pos (10 ^ 16))) }
    requires max_cells { max_cells ≤ 2 ^ 27 }

    ensures update { IfOk result (IsUpdateOf res window (sighting_of scan.now)) }
    ensures outcome { IfOk result (IsOutcomeOf res window (sighting_of scan.now)) }
    ensures few { IfOk result (λ set. length set.hits + length set.frees ≤ max_cells) }
    ensures limit { IfOk result (λ _. IsWithinLimit res (sighting_of scan.now) max_cells) }
    ensures accepted { IfOk result (λ _. scan_fault res (sighting_of scan.now) max_cells ≡ None) }

    ensures refused { IfErr result (IsRefusal res (sighting_of scan.now) max_cells) }
    ensures memory { result ≡ Err ScanFault.Memory →
        TakesMemory res (sighting_of scan.now) max_cells }
{
    let update = update_bricks(alloc, scan, res, max_cells, window)?;
    let set = list_voxels(alloc, &update)?;
    Ok(set)
}

/// The same update as lists.
fn list_voxels(alloc: Global, update: &UpdateBricks) -> Result<UpdateSet, Memory>
    requires { All IsBrick update.now.bricks }
    ensures same { IfOk result (λ set. set ≡ listed update.now) }
    ensures memory { OnErr result (0 < length update.now.bricks) }
{
    let mut hits = KeyList::new(alloc);
    let mut frees = KeyList::new(alloc);
    let bricks = update.bricks();
    for &brick in bricks {
        push_keys(&mut hits, brick.code, brick.hits)?;
        push_keys(&mut frees, brick.code, brick.frees())?;
    }
    Ok(UpdateSet {
        hits,
        frees,
        need: update.need(),
    })
}

/// Adds the voxels of a brick whose bits are set in a mask, in their order.
fn push_keys(keys: &mut KeyList, code: u64, mask: u64) -> Result<(), Memory>
    requires { code < 2 ^ 42 }
    ensures { OnOk result (keys.new ≡ keys.old ++ map coded_voxel (codes_of code mask)) }
{
    let mut left = mask;
    while left != 0 {
        let place = left.trailing_zeros();
        keys.push(from_morton((code << 6) + u64::from(place)))?;
        left &= left - 1;
    }
    Ok(())
}
