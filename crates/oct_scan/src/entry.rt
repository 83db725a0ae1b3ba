//! Where the walk along a beam comes to a box.
ghost use Rattle.std.specs.Prelude.{◌≡◌, IsTrue};
ghost use Rattle.oct_key.specs.Boxes.{IsInBox};
ghost use Rattle.oct_key.specs.Voxel.{Voxel};
ghost use Rattle.oct_ray.specs.Met.{met_by};
ghost use Rattle.oct_scan.specs.Beam.{IsPlaced};
ghost use Rattle.oct_scan.specs.Entry.{IsBefore, IsWay, IsWalkTo, part_on_axis};
ghost use Rattle.oct_scan.specs.Gathered.{IsSpanned};

use crate::beam::PlacedBeam;
use crate::sensor_view::SensorView;
use oct_key::{Key, Window, from_morton};
use oct_ray::Walk;

/// Whether two voxels lie beyond a box on one side of it, so that no voxel of the box that they
/// span lies in it.
pub fn is_passed_by(window: &Window, a: Key, b: Key) -> bool
    ensures { IsTrue result → (k : Voxel) → IsSpanned a b k
        → IsInBox window.now.lo window.now.hi k → ⊥ }
{
    let (lo, hi) = (window.lo(), window.hi());
    let below = a.x.max(b.x) < lo.x || a.y.max(b.y) < lo.y || a.z.max(b.z) < lo.z;
    let above = hi.x < a.x.min(b.x) || hi.y < a.y.min(b.y) || hi.z < a.z.min(b.z);
    below || above
}

/// The walk along a beam, but for what comes before the box.
pub fn walk_to_box(view: &SensorView, beam: PlacedBeam, window: &Window) -> Walk
    requires placed { IsPlaced view.now.res beam }
    requires way { IsWay view.now.start beam.voxel (met_by view.now.res view.now.origin beam.end) }
    ensures { IsWalkTo window.now view.now.start beam.voxel
        (met_by view.now.res view.now.origin beam.end) result }
{
    if window.holds(view.start) {
        return view.walk(beam);
    }
    let part = part_before(window, view.start, beam.voxel);
    let rest = view.walk_after(beam, part);
    if is_before(window, view.start, &rest) {
        rest
    } else {
        view.walk(beam)
    }
}

/// Whether a walk that began at a voxel hasn't come to the box yet.
fn is_before(window: &Window, start: Key, rest: &Walk) -> bool
    ensures { IsTrue result → IsBefore window.now start rest.now }
{
    match rest.peek_code() {
        Some(code) => is_passed_by(window, start, from_morton(code)),
        None => false,
    }
}

/// A part of a beam between two voxels, in 65,536ths, after which it hasn't come to the box yet.
fn part_before(window: &Window, start: Key, end: Key) -> u16 {
    let (lo, hi) = (window.lo(), window.hi());
    let x = part_on_axis(lo.x, hi.x, start.x, end.x);
    let y = part_on_axis(lo.y, hi.y, start.y, end.y);
    let z = part_on_axis(lo.z, hi.z, start.z, end.z);
    x.max(y).max(z)
}

/// The same on one axis: a beam that crosses so many faces takes a part of at least one in one more
/// for each of them.
fn part_on_axis(lo: u16, hi: u16, start: u16, end: u16) -> u16
    ensures { result ≡ part_on_axis lo hi start end }
{
    let outside = u32::from(lo.saturating_sub(start).max(start.saturating_sub(hi)));
    let crossings = u32::from(start.abs_diff(end));
    (outside.saturating_sub(1) * 65_536 / (crossings + 1)).min(65_535) as u16
}
