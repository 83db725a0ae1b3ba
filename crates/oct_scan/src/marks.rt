//! Voxels of a beam's way, set in a table of bricks that stands beside a pile.
ghost use Rattle.std.specs.Prelude.{◌^◌, ◌<◌, ◌≤◌, length, All, OnOk, IfSome, IfNone, None};
ghost use Rattle.oct_key.specs.Morton.{morton_of};
ghost use Rattle.oct_key.specs.Voxel.{Voxel, IsInMap};
ghost use Rattle.oct_brick.specs.Bricks.{IsBrick};
ghost use Rattle.oct_scan.specs.Gathered.{EndsAt, IsWayAdded};
ghost use Rattle.oct_scan.specs.Marked.{AreMarked, AreMarkedTo, BesidePiles, IsTable, with_table};
ghost use Rattle.oct_scan.specs.Piled.{IsVoxelAdded};

use crate::pile::{BrickPile, put_away};
use oct_brick::Brick;
use oct_num::Memory;
use oct_ray::{BeamWalk, NearWalk};

/// How many places a table has: one for each brick of a block of 64 by 64 by 32 of them.
pub const PLACES: usize = 1 << 17;

/// Sets the voxels of a walk but that of the end.
#[inline(never)]
pub fn mark_steps(pile: &mut BrickPile, places: &mut [Brick], walk: NearWalk) -> Result<(), Memory>
    requires bricks { All IsBrick (with_table pile.old places.old) }
    requires table { IsTable places.old }
    ensures added { OnOk result ((end : Voxel) → IsInMap end → EndsAt end walk
        → IsWayAdded None (morton_of end) walk (with_table pile.old places.old)
        (with_table pile.new places.new)) }
    ensures table { IsTable places.new }
{
    let mut walk = walk;
    while let Some(code) = mark_known(places, &mut walk) {
        exchange(pile, places, code)?;
    }
    Ok(())
}

/// Sets the voxels of a walk as long as their bricks stand in the table, and answers the code of
/// the first one whose brick doesn't, or `None` where the walk has come to its last voxel.
// No call stands in the loop, so that its numbers stay in registers.
#[inline(always)]
fn mark_known(places: &mut [Brick], walk: &mut NearWalk) -> Option<u64>
    requires table { IsTable places.old }
    ensures next { IfSome result (λ code.
        BesidePiles (AreMarkedTo code walk.old walk.new) places.old places.new) }
    ensures below { IfSome result (λ code. code < 2 ^ 48) }
    ensures all { IfNone result (BesidePiles (AreMarked walk.old walk.new) places.old places.new) }
    ensures last { IfNone result (length walk.new ≤ 1) }
    ensures table { IsTable places.new }
{
    while let Some(code) = walk.next_but_last() {
        let at = place_of(code);
        let known = places[at];
        if known.code != code >> 6 {
            return Some(code);
        }
        places[at] = known.with_scanned(code);
    }
    None
}

/// Sets a voxel, which isn't hit, in a fresh brick. The one that stands in its place goes to the
/// pile.
#[inline(never)]
fn exchange(pile: &mut BrickPile, places: &mut [Brick], code: u64) -> Result<(), Memory>
    requires bricks { All IsBrick (with_table pile.old places.old) }
    requires table { IsTable places.old }
    requires code { code < 2 ^ 48 }
    ensures added { OnOk result (IsVoxelAdded code (with_table pile.old places.old)
        (with_table pile.new places.new)) }
    ensures table { IsTable places.new }
{
    let brick = Brick::around(code).with_scanned(code);
    let at = place_of(code);
    let known = places[at];
    put_away(pile, known)?;
    places[at] = brick;
    Ok(())
}

/// The place of the brick of a voxel of this code: bricks that lie near one another have different
/// ones.
#[inline(always)]
fn place_of(code: u64) -> usize
    ensures { result < 131072 }
{
    (code >> 6) as usize & (PLACES - 1)
}
