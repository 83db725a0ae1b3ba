//! Beams walked into bricks, whole or as far as they lie in a box.
ghost use Rattle.std.specs.Prelude.{◌≡◌, ◌≢◌, ℕ, ◌/◌, ◌^◌, ◌<◌, ◌↔◌, ◌⊎◌, []};
ghost use Rattle.std.specs.Prelude.{◌∷◌, length, map, if◌then◌else◌, All, Contains, IfOk};
ghost use Rattle.std.specs.Prelude.{false, OnOk, OnErr, IfSome, IsNone, Option, Some};
ghost use Rattle.oct_key.specs.Boxes.{IsInBox};
ghost use Rattle.oct_key.specs.Voxel.{Voxel, IsInMap, key_at};
ghost use Rattle.oct_key.specs.Morton.{morton_of};
ghost use Rattle.oct_key.specs.PlaceKeys.{AreKeys};
ghost use Rattle.oct_brick.specs.Bricks.{scanned_codes, hit_codes, IsBrick};
ghost use Rattle.oct_scan.specs.Beam.{bare, bare_beam, IsPlaced};
ghost use Rattle.oct_scan.specs.Order.{EndsIn};
ghost use Rattle.oct_scan.specs.Gathered.{HoldAllGathered, IsBeamHeld, IsHeld, IsCurrent};
ghost use Rattle.oct_ray.specs.Met.{met_by};
ghost use Rattle.oct_scan.specs.Entry.{HasComeIn, IsWay, StaysOut};
ghost use Rattle.oct_scan.specs.Gathered.{is_mute, EndsAt, GoesTo, IsRestAdded, IsWayAdded};
ghost use Rattle.oct_scan.specs.Piled.{AreFew};

use crate::beam::PlacedBeam;
use crate::code_box::CodeBox;
use crate::entry::{is_passed_by, walk_to_box};
use crate::sensor_view::SensorView;
use crate::table::BrickTable;
use oct_brick::Brick;
use oct_key::{Key, Window, from_morton, morton, sorted_keys};
use oct_num::Memory;
use oct_ray::{BeamWalk, Walk};
use std::alloc::Global;

/// How many beams have keys at most, which take four megabytes then. A key is the code of the brick
/// where a beam ends times this, and the beam's place in the list.
const MOST_KEYED: u64 = 1 << 19;

/// How many beams have keys at least. Fewer of them pass few bricks that others pass too.
const LEAST_KEYED: u64 = 4096;

/// What beams from one origin change, brick by brick, in the box where one stands. They all lie in
/// the map.
pub fn gather(alloc: Global, view: &SensorView, beams: &[PlacedBeam]) -> Result<Vec<Brick>, Memory>
    requires placed { All (IsPlaced view.now.res) beams.now }
    ensures gathered { IfOk result (λ bricks. HoldAllGathered view.now.res view.now.window
        view.now.origin (bare beams.now) bricks.items) }
    ensures bricks { IfOk result (λ bricks. All IsBrick bricks.items) }
    ensures few { IfOk result (λ bricks. (n : ℕ) × AreFew n bricks.items) }
    ensures memory { OnErr result (0 < length beams.now) }
{
    if beams.is_empty() {
        return Ok(Vec::new(alloc));
    }
    let mut bricks = BrickTable::for_beams(alloc, view.start, beams)?;
    add_beams(alloc, &mut bricks, view, beams)?;
    let gathered = bricks.into_bricks()?;
    Ok(gathered)
}

/// Adds what beams change, in an order in which those that pass the same bricks mostly come one
/// after another.
fn add_beams(
    alloc: Global,
    bricks: &mut BrickTable,
    view: &SensorView,
    beams: &[PlacedBeam],
) -> Result<(), Memory>
    requires placed { All (IsPlaced view.now.res) beams.now }
    requires none { bricks.old ≡ [] }
    ensures gathered { OnOk result (HoldAllGathered view.now.res view.now.window view.now.origin
        (bare beams.now) bricks.new) }
    ensures bricks { OnOk result (All IsBrick bricks.new) }
    ensures memory { OnErr result (0 < length beams.now) }
{
    let count = beams.len() as u64;
    if count < LEAST_KEYED || MOST_KEYED < count {
        return add_in_order(bricks, view, beams);
    }
    let keys = sorted_keys(alloc, beams, MOST_KEYED, |beam| morton(beam.voxel) >> 6)?;
    add_by_keys(bricks, view, beams, &keys)
}

/// Adds what beams change, in the order of their keys.
fn add_by_keys(
    bricks: &mut BrickTable,
    view: &SensorView,
    beams: &[PlacedBeam],
    keys: &[u64],
) -> Result<(), Memory>
    requires placed { All (IsPlaced view.now.res) beams.now }
    requires keys { AreKeys EndsIn (2 ^ 19) beams.now keys.now }
    requires none { bricks.old ≡ [] }
    ensures gathered { OnOk result (HoldAllGathered view.now.res view.now.window view.now.origin
        (bare beams.now) bricks.new) }
    ensures bricks { OnOk result (All IsBrick bricks.new) }
    ensures memory { OnErr result (0 < length beams.now) }
{
    for &key in keys {
        add_beam(bricks, view, beams[(key % MOST_KEYED) as usize])?;
    }
    Ok(())
}

/// The same for beams that are too few or too many for keys, in their own order.
fn add_in_order(
    bricks: &mut BrickTable,
    view: &SensorView,
    beams: &[PlacedBeam],
) -> Result<(), Memory>
    requires placed { All (IsPlaced view.now.res) beams.now }
    requires none { bricks.old ≡ [] }
    ensures gathered { OnOk result (HoldAllGathered view.now.res view.now.window view.now.origin
        (bare beams.now) bricks.new) }
    ensures bricks { OnOk result (All IsBrick bricks.new) }
    ensures memory { OnErr result (0 < length beams.now) }
{
    for &beam in beams {
        add_beam(bricks, view, beam)?;
    }
    Ok(())
}

/// Adds what a beam changes in the box, where one stands.
fn add_beam(bricks: &mut BrickTable, view: &SensorView, beam: PlacedBeam) -> Result<(), Memory>
    requires placed { IsPlaced view.now.res beam }
    requires bricks { All IsBrick bricks.old }
    ensures added { OnOk result ((met : ℕ) × IsBeamHeld view.now.res view.now.window
        view.now.origin (bare_beam beam) met bricks.old bricks.new) }
    ensures bricks { OnOk result (All IsBrick bricks.new) }
{
    push_kept(bricks, view, beam)?;
    push_end(bricks, morton(beam.voxel), is_mute(&view.window, beam))?;
    Ok(())
}

/// Whether a beam says nothing of the voxel where it ends: it is cut there, or that voxel lies
/// outside the box.
fn is_mute(window: &Option<Window>, beam: PlacedBeam) -> bool
    ensures { result ≡ is_mute window.now (bare_beam beam) beam.voxel }
{
    let is_outside = match window {
        Some(window) => !window.holds(beam.voxel),
        None => false,
    };
    beam.is_cut || is_outside
}

/// Adds the voxels of a beam but that of the end, as far as they lie in the box, where one stands.
fn push_kept(bricks: &mut BrickTable, view: &SensorView, beam: PlacedBeam) -> Result<(), Memory>
    requires placed { IsPlaced view.now.res beam }
    requires way { IsWay view.now.start beam.voxel (met_by view.now.res view.now.origin beam.end) }
    requires bricks { All IsBrick bricks.old }
    ensures { OnOk result (IsWayAdded view.now.window (morton_of beam.voxel)
        (met_by view.now.res view.now.origin beam.end) bricks.old bricks.new) }
{
    match view.window {
        None => push_way(bricks, view.walk(beam), morton(beam.voxel)),
        Some(window) => push_part(bricks, view, beam, &window),
    }
}

/// The same in a box. A walk whose ends both lie in it lies in it with all its voxels, and none
/// that passes it by has one there. Any other is walked from where it comes to the box.
fn push_part(
    bricks: &mut BrickTable,
    view: &SensorView,
    beam: PlacedBeam,
    window: &Window,
) -> Result<(), Memory>
    requires placed { IsPlaced view.now.res beam }
    requires way { IsWay view.now.start beam.voxel (met_by view.now.res view.now.origin beam.end) }
    requires bricks { All IsBrick bricks.old }
    ensures { OnOk result (IsWayAdded (Some window.now) (morton_of beam.voxel)
        (met_by view.now.res view.now.origin beam.end) bricks.old bricks.new) }
{
    if window.holds(view.start) && window.holds(beam.voxel) {
        push_way(bricks, view.walk(beam), morton(beam.voxel))
    } else if is_passed_by(window, view.start, beam.voxel) {
        Ok(())
    } else {
        push_inside(bricks, walk_to_box(view, beam, window), beam.voxel, window)
    }
}

/// Adds the voxels of a walk that lie in a box, but not that of the end.
fn push_inside(bricks: &mut BrickTable, walk: Walk, end: Key, window: &Window) -> Result<(), Memory>
    requires ends { EndsAt end walk }
    requires onward { GoesTo end walk }
    requires bricks { All IsBrick bricks.old }
    ensures { OnOk result
        (IsWayAdded (Some window.now) (morton_of end) walk bricks.old bricks.new) }
{
    match walk.near(morton(end)) {
        Ok(near) => push_within(bricks, near, end, window),
        Err(walk) => push_within(bricks, walk, end, window),
    }
}

/// The same for a walk of either kind. Once it has come in, it stays in the box up to an end that
/// lies there, and else up to where it leaves it, since a box is convex.
#[inline(never)]
fn push_within<W: BeamWalk>(
    bricks: &mut BrickTable,
    walk: W,
    end: Key,
    window: &Window,
) -> Result<(), Memory>
    requires ends { EndsAt end (W.to_come walk) }
    requires onward { GoesTo end (W.to_come walk) }
    requires bricks { All IsBrick bricks.old }
    ensures { OnOk result
        (IsWayAdded (Some window.now) (morton_of end) (W.to_come walk) bricks.old bricks.new) }
{
    let mut walk = walk;
    let Some(first) = come_in(&mut walk, end, window) else {
        return Ok(());
    };
    let brick = Brick::around(first).with_scanned(first);
    if window.holds(end) {
        push_steps(bricks, walk, brick)
    } else {
        push_to_exit(bricks, walk, brick, window)
    }
}

/// Takes a walk to its first voxel in a box, and answers the code of that; or `None` where no voxel
/// but that of the end can lie there.
#[inline(always)]
fn come_in<W: BeamWalk>(walk: &mut W, end: Key, window: &Window) -> Option<u64>
    requires ends { EndsAt end (W.to_come walk.old) }
    requires onward { GoesTo end (W.to_come walk.old) }
    ensures first { IfSome result (λ code.
        HasComeIn window.now end (W.to_come walk.old) code (W.to_come walk.new)) }
    ensures below { IfSome result (λ code. code < 2 ^ 48) }
    ensures none { IsNone result → StaysOut window.now end (W.to_come walk.old) }
{
    let corners = CodeBox::of(window);
    let mut block = morton(end) >> 9;
    while let Some(code) = walk.next_but_last() {
        if corners.holds(code) {
            return Some(code);
        }
        if code >> 9 != block {
            block = code >> 9;
            if is_passed_by(window, from_morton(code), end) {
                return None;
            }
        }
    }
    None
}

/// Adds the current brick and the voxels of a walk that has come into a box, up to where it leaves
/// it.
#[inline(always)]
fn push_to_exit<W: BeamWalk>(
    bricks: &mut BrickTable,
    walk: W,
    brick: Brick,
    window: &Window,
) -> Result<(), Memory>
    requires bricks { All IsBrick bricks.old }
    requires current { IsCurrent brick }
    ensures { OnOk result ((first end : Voxel) → IsInBox window.now.lo window.now.hi first
        → IsInMap end → IsWay first end (W.to_come walk) → IsRestAdded (Some window.now)
        (morton_of end) (W.to_come walk) brick bricks.old bricks.new) }
{
    let corners = CodeBox::of(window);
    let mut walk = walk;
    let mut brick = brick;
    while let Some(code) = walk.next_but_last() {
        if !corners.holds(code) {
            break;
        }
        brick = push_code(bricks, brick, code)?;
    }
    push_some(bricks, brick)?;
    Ok(())
}

/// Adds the voxels of a walk but that of the end.
fn push_way(bricks: &mut BrickTable, walk: Walk, end: u64) -> Result<(), Memory>
    requires ends { (k : Voxel) × IsInMap k × (morton_of k ≡ end) × EndsAt k walk }
    requires end { end < 2 ^ 48 }
    requires bricks { All IsBrick bricks.old }
    ensures { OnOk result (IsWayAdded None end walk bricks.old bricks.new) }
{
    match walk.near(end) {
        Ok(near) => match bricks.mark_way(near)? {
            Some(near) => push_steps(bricks, near, Brick::around(end)),
            None => Ok(()),
        },
        Err(walk) => push_steps(bricks, walk, Brick::around(end)),
    }
}

/// Adds the current brick and the voxels of a walk of either kind but that of the end.
// Each kind has a function to itself, in which more of its numbers stand in registers, and the 0 of
// the hits in none.
#[inline(never)]
fn push_steps<W: BeamWalk>(bricks: &mut BrickTable, walk: W, brick: Brick) -> Result<(), Memory>
    requires bricks { All IsBrick bricks.old }
    requires current { IsCurrent brick }
    ensures { OnOk result ((end : Voxel) → IsInMap end → EndsAt end (W.to_come walk)
        → IsRestAdded None (morton_of end) (W.to_come walk) brick bricks.old bricks.new) }
{
    let mut walk = walk;
    let mut brick = Brick { hits: 0, ..brick };
    while let Some(code) = walk.next_but_last() {
        brick = push_code(bricks, brick, code)?;
    }
    push_some(bricks, brick)?;
    Ok(())
}

/// Adds a voxel to the current brick, where it lies in that, and else adds that one to the bricks,
/// and goes on with the voxel's own.
fn push_code(bricks: &mut BrickTable, brick: Brick, code: u64) -> Result<Brick, Memory>
    requires bricks { All IsBrick bricks.old }
    requires current { IsCurrent brick }
    requires code { code < 2 ^ 48 }
    ensures scanned { IfOk result (λ next. (c : ℕ) →
        IsHeld bricks.new next c ↔ (IsHeld bricks.old brick c ⊎ (code ≡ c))) }
    ensures hits { OnOk result ((c : ℕ) →
        Contains (hit_codes bricks.new) c ↔ Contains (hit_codes bricks.old) c) }
    ensures current { IfOk result IsCurrent }
    ensures bricks { OnOk result (All IsBrick bricks.new) }
    ensures memory { OnErr result (code / 64 ≢ brick.code) }
{
    if code >> 6 == brick.code {
        return Ok(brick.with_scanned(code));
    }
    push_some(bricks, brick)?;
    Ok(Brick::around(code).with_scanned(code))
}

/// Adds a brick, where a voxel is freed in it.
fn push_some(bricks: &mut BrickTable, brick: Brick) -> Result<(), Memory>
    requires bricks { All IsBrick bricks.old }
    requires current { IsCurrent brick }
    ensures scanned { OnOk result ((c : ℕ) →
        Contains (scanned_codes bricks.new) c ↔ IsHeld bricks.old brick c) }
    ensures hits { OnOk result ((c : ℕ) →
        Contains (hit_codes bricks.new) c ↔ Contains (hit_codes bricks.old) c) }
    ensures bricks { OnOk result (All IsBrick bricks.new) }
    ensures memory { OnErr result (brick.scanned ≢ 0) }
{
    if brick.scanned != 0 {
        bricks.push(brick)?;
    }
    Ok(())
}

/// Adds the voxel of the end of a beam, which is hit, but not where the beam says nothing of it.
fn push_end(bricks: &mut BrickTable, end: u64, is_mute: bool) -> Result<(), Memory>
    requires bricks { All IsBrick bricks.old }
    requires end { end < 2 ^ 48 }
    ensures scanned { OnOk result ((c : ℕ) → Contains (scanned_codes bricks.new) c ↔
        (Contains (scanned_codes bricks.old) c
        ⊎ Contains (if is_mute then [] else end ∷ []) c)) }
    ensures hits { OnOk result ((c : ℕ) → Contains (hit_codes bricks.new) c ↔
        (Contains (hit_codes bricks.old) c
        ⊎ Contains (if is_mute then [] else end ∷ []) c)) }
    ensures bricks { OnOk result (All IsBrick bricks.new) }
    ensures memory { OnErr result (is_mute ≡ false) }
{
    if !is_mute {
        bricks.push(Brick::around(end).with_hit(end))?;
    }
    Ok(())
}
