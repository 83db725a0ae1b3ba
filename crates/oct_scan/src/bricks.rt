//! What a scan does to the map, as bricks in order.
ghost use Rattle.std.specs.Prelude.{◌≡◌, ℕ, ◌+◌, ◌^◌, ◌<◌, ◌≤◌, pos, ◌≤ℤ◌, ◌<ℤ◌, None, Err};
ghost use Rattle.std.specs.Prelude.{List, length, All, Contains, IfOk, IfErr, IfSome, OnErr};
ghost use Rattle.oct_pose.specs.Reach.{IsInReach};
ghost use Rattle.oct_brick.specs.Bricks.{IsBrick, AreAscending};
ghost use Rattle.oct_brick.specs.Voxels.{hit_voxels, freed_voxels};
ghost use Rattle.oct_scan.specs.Beam.{sighting_of};
ghost use Rattle.oct_scan.specs.Outcome.{scan_fault, TakesMemory};
ghost use Rattle.oct_scan.specs.Gathered.{HoldCodes};
ghost use Rattle.oct_scan.specs.Update.{listed, IsSettled, IsMadeOfBricks, IsUpdateOf, IsOutcomeOf};
ghost use Rattle.oct_scan.specs.Update.{IsWithinLimit, IsRefusal};

use crate::fault::ScanFault;
use crate::gather::gather;
use crate::judge::judged_beams;
use crate::need::count_blocks;
use crate::scan::Scan;
use crate::sensor_view::SensorView;
use oct_brick::{Brick, merge_bricks};
use oct_key::{Res, Window};
use oct_num::Memory;
use std::alloc::Global;
use std::marker::Model;

/// What a scan does to a map, as bricks: the voxels that are hit and those that are freed, how many
/// there are, and how many groups of a tree they may need.
#[derive(Debug, Drop)]
pub struct UpdateBricks {
    bricks: Vec<Brick>,
    hit_count: u64,
    free_count: u64,
    need: u64,
}

impl Model for UpdateBricks {
    ghost use Rattle.oct_scan.specs.Update.{UpdateBricks as Bricks};

    ghost Value = { Bricks };

    ghost view = { λ set. record {
      bricks = set.bricks.items;
      hit_count = set.hit_count;
      free_count = set.free_count;
      need = set.need;
    } };
}

impl UpdateBricks {
    /// The bricks, ascending by their codes, each once.
    pub fn bricks(&self) -> &[Brick]
        ensures { result.now ≡ self.now.bricks }
    {
        self.bricks.as_slice()
    }

    /// How many voxels are hit.
    pub fn hit_count(&self) -> u64
        ensures { result ≡ self.now.hit_count }
    {
        self.hit_count
    }

    /// How many voxels are freed.
    pub fn free_count(&self) -> u64
        ensures { result ≡ self.now.free_count }
    {
        self.free_count
    }

    /// How many blocks of depth 0 to 15 hold a voxel that is hit or freed.
    pub fn need(&self) -> u64
        ensures { result ≡ self.now.need }
    {
        self.need
    }
}

/// What a scan does to each voxel of a map of this resolution that lies in the box, where one
/// stands, as bricks, where its beams meet no more voxels than `max_cells`. The clauses speak of
/// the lists that [`update_set`](crate::update_set) makes; none is made here.
///
/// A scan is refused first where its origin lies outside the map, then for the first beam that ends
/// outside, and then for the first beam with which the beams meet too many voxels, where a voxel
/// counts once for each beam that meets it. None of the three looks at the box. A scan that is
/// refused doesn't run out of memory, and one without points takes none.
pub fn update_bricks(
    alloc: Global,
    scan: &Scan,
    res: Res,
    max_cells: u64,
    window: Option<Window>,
) -> Result<UpdateBricks, ScanFault>
    requires points { All IsInReach scan.now.points }
    requires range { IfSome scan.now.range (λ r. (pos 0 ≤ℤ r) × (r <ℤ pos (10 ^ 16))) }
    requires max_cells { max_cells ≤ 2 ^ 27 }

    ensures made { IfOk result IsMadeOfBricks }
    ensures update { IfOk result (λ set. IsUpdateOf res window (sighting_of scan.now)
        (listed set)) }
    ensures outcome { IfOk result (λ set. IsOutcomeOf res window (sighting_of scan.now)
        (listed set)) }
    ensures few { IfOk result (λ set. set.hit_count + set.free_count ≤ max_cells) }
    ensures limit { IfOk result (λ _. IsWithinLimit res (sighting_of scan.now) max_cells) }
    ensures accepted { IfOk result (λ _. scan_fault res (sighting_of scan.now) max_cells ≡ None) }

    ensures refused { IfErr result (IsRefusal res (sighting_of scan.now) max_cells) }
    ensures memory { result ≡ Err ScanFault.Memory →
        TakesMemory res (sighting_of scan.now) max_cells }
{
    let origin = scan.pose.t;
    let Some(start) = res.key_of(origin) else {
        return Err(ScanFault::OriginOutside);
    };
    let beams = judged_beams(alloc, scan, res, start, max_cells)?;
    let view = SensorView {
        res,
        origin,
        start,
        window,
    };
    let bricks = gather(alloc, &view, &beams)?;
    let set = merge_update(alloc, bricks)?;
    Ok(set)
}

/// The update that these bricks make. Where there are none, it takes no memory.
fn merge_update(alloc: Global, bricks: Vec<Brick>) -> Result<UpdateBricks, Memory>
    requires { All IsBrick bricks.items }
    ensures settled { IfOk result (λ set. (scanned hits : List ℕ) →
        HoldCodes bricks.items scanned hits →
        ((code : ℕ) → Contains hits code → Contains scanned code) →
        IsSettled scanned hits (listed set)) }
    ensures made { IfOk result IsMadeOfBricks }
    ensures memory { OnErr result (0 < length bricks.items) }
{
    if bricks.is_empty() {
        return Ok(UpdateBricks {
            bricks,
            hit_count: 0,
            free_count: 0,
            need: 0,
        });
    }
    let bricks = merge_bricks(alloc, bricks)?;
    let need = count_blocks(&bricks);
    let (hit_count, free_count) = count_voxels(&bricks);
    Ok(UpdateBricks {
        bricks,
        hit_count,
        free_count,
        need,
    })
}

/// How many voxels of these bricks are hit, and how many are freed.
fn count_voxels(bricks: &[Brick]) -> (u64, u64)
    requires bricks { All IsBrick bricks.now }
    requires ascend { AreAscending bricks.now }
    ensures hits { result.0 ≡ length (hit_voxels bricks.now) }
    ensures frees { result.1 ≡ length (freed_voxels bricks.now) }
{
    let mut hits = 0;
    let mut frees = 0;
    for &brick in bricks {
        hits += u64::from(brick.hits.count_ones());
        frees += u64::from(brick.frees().count_ones());
    }
    (hits, frees)
}
