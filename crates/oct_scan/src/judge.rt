//! The beams of a scan that stays in the map and within its limit.
ghost use Rattle.std.specs.Prelude.{◌≡◌, ◌≢◌, ℕ, ◌+◌, ◌*◌, ◌^◌, ◌≤◌, length, pos, ◌≤ℤ◌, Some, Err};
ghost use Rattle.std.specs.Prelude.{All, IfSome, IfOk, IfErr, OnOk, IsSome, IsNone};
ghost use Rattle.std.specs.Int.{abs_diff};
ghost use Rattle.oct_key.specs.Voxel.{IsResolution, key_at};
ghost use Rattle.oct_key.specs.declared.point.Point.{Point};
ghost use Rattle.oct_pose.specs.Reach.{IsInReach};
ghost use Rattle.oct_scan.specs.declared.fault.ScanFault.TheVariants.{Memory};
ghost use Rattle.oct_scan.specs.Beam.{bare, origin_of, beams_of, sighting_of, IsPlaced};
ghost use Rattle.oct_scan.specs.Answer.{first_outside, IsOutsideFault, IsExcessFault, MeetAtMost};
ghost use Rattle.oct_scan.specs.Answer.{IsRefusedFor, IsInside};
ghost use Rattle.oct_scan.specs.Outcome.{TakesMemory};

use crate::beam::{PlacedBeam, beam_to, beams_of};
use crate::fault::ScanFault;
use crate::scan::Scan;
use oct_key::{Key, Res};
use oct_ray::Walk;
use std::alloc::Global;

/// The beams of a scan whose origin lies in this voxel of the map. It is refused for the first beam
/// that ends outside, and then for the first with which the beams meet too many voxels. Where there
/// is no memory for the beams, it is judged without them.
pub fn judged_beams(
    alloc: Global,
    scan: &Scan,
    res: Res,
    start: Key,
    most: u64,
) -> Result<Vec<PlacedBeam>, ScanFault>
    requires points { All IsInReach scan.now.points }
    requires range { IfSome scan.now.range (λ r. pos 0 ≤ℤ r) }
    requires start { key_at res scan.now.pose.t ≡ Some start }
    requires most { most ≤ 2 ^ 27 }
    ensures ok { IfOk result (λ beams. bare beams.items ≡ beams_of (sighting_of scan.now)) }
    ensures placed { IfOk result (λ beams. All (IsPlaced res) beams.items) }
    ensures inside { IfOk result (λ _. IsInside res (sighting_of scan.now)) }
    ensures within { IfOk result (λ _. MeetAtMost res (origin_of (sighting_of scan.now))
        (beams_of (sighting_of scan.now)) most) }
    ensures refused { IfErr result (IsRefusedFor res (sighting_of scan.now) most) }
    ensures memory { result ≡ Err ScanFault.Memory → TakesMemory res (sighting_of scan.now) most }
{
    let beams = match beams_of(alloc, scan, res) {
        Ok(beams) => beams,
        Err(fault) => {
            judge(scan, res, most)?;
            return Err(fault);
        }
    };
    if bound_met(&beams, start, most) > most {
        count_met(scan, res, most)?;
    }
    Ok(beams)
}

/// A bound on how many voxels the beams from a voxel meet, as long as it stays within `most`.
fn bound_met(beams: &[PlacedBeam], start: Key, most: u64) -> u64
    requires most { most ≤ 2 ^ 27 }
    ensures { (edge : ℕ) (o : Point) → IsResolution edge → key_at edge o ≡ Some start →
        All (IsPlaced edge) beams.now → result ≤ most →
        MeetAtMost edge o (bare beams.now) result }
{
    let mut bound = 0;
    for beam in beams {
        bound = (bound + most_met(start, beam.voxel)).min(most + 1);
    }
    bound
}

/// The most voxels that a segment meets whose ends lie in these two: the first one, and one for
/// each face that it crosses.
pub fn most_met(a: Key, b: Key) -> u64
    ensures exact { result ≡ 1 + abs_diff a.x b.x + abs_diff a.y b.y + abs_diff a.z b.z }
    ensures few { result ≤ 3 * 65535 + 1 }
{
    1 + u64::from(a.x.abs_diff(b.x)) + u64::from(a.y.abs_diff(b.y)) + u64::from(a.z.abs_diff(b.z))
}

/// Refuses a scan whose origin lies in the map for the first beam that ends outside, and then for
/// the first with which the beams meet too many voxels. No memory is taken.
fn judge(scan: &Scan, res: Res, most: u64) -> Result<(), ScanFault>
    requires points { All IsInReach scan.now.points }
    requires range { IfSome scan.now.range (λ r. pos 0 ≤ℤ r) }
    requires origin { IsSome (key_at res scan.now.pose.t) }
    requires most { most ≤ 2 ^ 27 }
    ensures inside { OnOk result (IsInside res (sighting_of scan.now)) }
    ensures within { OnOk result (MeetAtMost res (origin_of (sighting_of scan.now))
        (beams_of (sighting_of scan.now)) most) }
    ensures refused { IfErr result (IsRefusedFor res (sighting_of scan.now) most) }
    ensures no_memory { IfErr result (λ fault. fault ≢ Memory) }
{
    check_ends(scan, res)?;
    count_met(scan, res, most)
}

/// Refuses a scan for the first beam that ends outside the map.
fn check_ends(scan: &Scan, res: Res) -> Result<(), ScanFault>
    requires points { All IsInReach scan.now.points }
    requires range { IfSome scan.now.range (λ r. pos 0 ≤ℤ r) }
    ensures inside { OnOk result (IsNone (first_outside res (sighting_of scan.now))) }
    ensures err { IfErr result (IsOutsideFault res (sighting_of scan.now)) }
    ensures no_memory { IfErr result (λ fault. fault ≢ Memory) }
{
    for (index, point) in scan.points.as_slice().iter().enumerate() {
        let beam = beam_to(scan, *point);
        if res.key_of(beam.end).is_none() {
            return Err(ScanFault::PointOutside {
                index: index as u64,
            });
        }
    }
    Ok(())
}

/// Counts the voxels that the beams meet, all of which end in the map, up to the first beam with
/// which they are too many.
fn count_met(scan: &Scan, res: Res, most: u64) -> Result<(), ScanFault>
    requires points { All IsInReach scan.now.points }
    requires range { IfSome scan.now.range (λ r. pos 0 ≤ℤ r) }
    requires inside { IsInside res (sighting_of scan.now) }
    requires most { most ≤ 2 ^ 27 }
    ensures within { OnOk result (MeetAtMost res (origin_of (sighting_of scan.now))
        (beams_of (sighting_of scan.now)) most) }
    ensures err { IfErr result (IsExcessFault res (origin_of (sighting_of scan.now))
        (beams_of (sighting_of scan.now)) most) }
    ensures no_memory { IfErr result (λ fault. fault ≢ Memory) }
{
    let mut total = 0;
    for (index, point) in scan.points.as_slice().iter().enumerate() {
        let beam = beam_to(scan, *point);
        total += count_way(Walk::new(res, scan.pose.t, beam.end));
        if total > most {
            return Err(ScanFault::TooManyCells {
                index: index as u64,
                cells: total,
            });
        }
    }
    Ok(())
}

/// How many voxels a walk has.
fn count_way(walk: Walk) -> u64
    requires few { length walk ≤ 3 * 65535 + 1 }
    ensures met { result ≡ length walk }
{
    let mut walk = walk;
    let mut met = 0;
    while let Some(_) = walk.next_code() {
        met += 1;
    }
    met
}
