//! Scans.
ghost use Rattle.std.specs.Prelude.{◌≡◌, ◌^◌, ◌≤ℤ◌, ◌<ℤ◌, pos, [], All, Ok, Err, map, IfOk, IfErr};
ghost use Rattle.std.specs.Prelude.{IfSome, IsTrue};
ghost use Rattle.oct_pose.specs.Reach.{IsInReach};
ghost use Rattle.oct_scan.specs.Beam.{IsTrust};
ghost use Rattle.octofix.specs.Changed.{IsDone, IsValueTold};
ghost use Rattle.octofix.specs.Points.{point_of};
ghost use Rattle.octofix.specs.Scans.{IsRead, IsScan, IsScanInMap};
ghost use Rattle.octofix.specs.InMap.{EndsThere, standing, way_from};
ghost use Rattle.octofix.specs.Sightings.{is_in_reach, points_from, range_from, sighting_from};
ghost use Rattle.octofix.specs.Sightings.{trust_from};

use crate::answers::{details_of, tell};
use crate::handle::Octofix;
use crate::refusal::Refusal;
use crate::types::{Counted, Details, PointNm, PoseNm, ScanOptions};
use oct_key::{Point, PointList};
use oct_map::OccMap;
use oct_num::Memory;
use oct_odds::OddsField;
use oct_pose::Pose;
use oct_scan::{Scan, ScanOdds};
use std::alloc::Global;

/// The magnitude of each coordinate, and a range, is below this: 10,000 km.
const REACH: u64 = 10_000_000_000_000_000;

/// The largest magnitude of log-odds of a scan's own.
const MOST: i32 = 1_000_000;

/// Whether a point isn't too far away to be turned and moved.
pub fn is_in_reach(p: Point) -> bool
    ensures exact { result ≡ is_in_reach p }
    ensures near { IsTrue result → IsInReach p }
{
    p.x.unsigned_abs() < REACH && p.y.unsigned_abs() < REACH && p.z.unsigned_abs() < REACH
}

/// The points, in one piece of memory.
fn copied(alloc: Global, points: &[PointNm]) -> Result<PointList, Memory>
    ensures exact { IfOk result (λ list. list ≡ map point_of points.now) }
    ensures memory { IfErr result (λ _. points.now ≡ [] → ⊥) }
{
    let mut list = Vec::with_capacity(alloc, points.len())?;
    for place in points {
        list.push(place.point())?;
    }
    Ok(PointList::from(list))
}

/// The first point out of reach is refused.
pub fn test_points(points: &[PointNm]) -> Result<(), Refusal>
    ensures near { IfOk result (λ _. (points_from points.now ≡ Ok (map point_of points.now))
        × All IsInReach (map point_of points.now)) }
    ensures far { IfErr result (λ refusal. points_from points.now ≡ Err refusal) }
{
    for (index, place) in points.iter().enumerate() {
        if !is_in_reach(place.point()) {
            return Err(Refusal::BadArgument {
                index: index as u64,
            });
        }
    }
    Ok(())
}

/// The range, where it isn't negative.
fn range_of(range: i64) -> Result<Option<i64>, Refusal>
    ensures exact { result ≡ range_from range }
    ensures bounds { IfOk result
        (λ some. IfSome some (λ r. (pos 0 ≤ℤ r) × (r <ℤ pos (10 ^ 16)))) }
{
    if range < 0 {
        return Ok(None);
    }
    if range.unsigned_abs() >= REACH {
        return Err(Refusal::BadArgument { index: 0 });
    }
    Ok(Some(range))
}

/// The log-odds of a scan's own, or none where both are 0.
fn odds_of(hit: i32, miss: i32) -> Result<Option<ScanOdds>, Refusal>
    ensures exact { result ≡ trust_from hit miss }
    ensures trust { IfOk result (λ some. IfSome some IsTrust) }
{
    if hit == 0 && miss == 0 {
        return Ok(None);
    }
    if !(1..=MOST).contains(&hit) {
        return Err(Refusal::BadModel {
            which: OddsField::Hit,
        });
    }
    if !(-MOST..=-1).contains(&miss) {
        return Err(Refusal::BadModel {
            which: OddsField::Miss,
        });
    }
    Ok(Some(ScanOdds { hit, miss }))
}

/// What C passes, as a scan.
fn scan_of(
    alloc: Global,
    pose: PoseNm,
    points: &[PointNm],
    options: ScanOptions,
) -> Result<Scan, Refusal>
    ensures { IsRead (sighting_from pose points.now options) points.now result }
{
    let origin = pose.at.point();
    if !is_in_reach(origin) {
        return Err(Refusal::BadArgument { index: 0 });
    }
    test_points(points)?;
    let range = range_of(options.range)?;
    let pose = Pose::new(origin, pose.w, pose.x, pose.y, pose.z)?;
    let odds = odds_of(options.hit, options.miss)?;
    let points = copied(alloc, points)?;
    Ok(Scan {
        pose,
        points,
        range,
        odds,
    })
}

/// Scans a map.
fn scan(
    alloc: Global,
    map: &mut OccMap,
    pose: PoseNm,
    points: &[PointNm],
    options: ScanOptions,
) -> Result<Counted, Refusal>
    ensures { IsScan pose points.now options map.old map.new result }
{
    let scan = scan_of(alloc, pose, points, options)?;
    let done = map.scan(&scan, options.lazy)?;
    Ok(Counted {
        hits: done.hits,
        frees: done.frees,
    })
}

/// Scans the map of a handle.
fn scan_into(
    alloc: Global,
    handle: &mut Octofix,
    pose: PoseNm,
    points: &[PointNm],
    options: ScanOptions,
) -> Result<Counted, Refusal>
    ensures { IsDone handle.old handle.new (IsScan pose points.now options)
        result }
{
    scan(alloc, handle.map_mut()?, pose, points, options)
}

/// Does a scan of points in the sensor's frame, and tells how many voxels it hit and freed.
///
/// It is refused where the handle has no map, for a number out of its range, for the quaternion 0,
/// for its own log-odds, for its origin outside the map, for the first beam that ends outside or
/// with which too many voxels are met, where the map is full, and where memory runs out.
#[unsafe(no_mangle)]
pub extern "C" fn octofix_scan(
    alloc: Global,
    handle: &mut Octofix,
    pose: &PoseNm,
    points: &[PointNm],
    options: &ScanOptions,
    counted: &mut Counted,
    details: &mut Details,
) -> u32
    ensures { IsValueTold handle.old handle.new
        (IsScan pose.now points.now options.now) result details.new counted.old counted.new }
{
    let answer = scan_into(alloc, handle, *pose, points, *options);
    *details = details_of(&answer);
    tell(&answer, counted)
}

/// A sensor that stands there and isn't turned.
fn standing(at: PointNm) -> PoseNm
    ensures { result ≡ standing at }
{
    PoseNm {
        at,
        w: 1,
        x: 0,
        y: 0,
        z: 0,
    }
}

/// The way to a point from there, at whose end the point is. A sensor that stands there and isn't
/// turned sees the point so.
fn way_from(there: PointNm, to: PointNm) -> PointNm
    ensures exact { result ≡ way_from there to }
    ensures ends { EndsThere there to result }
{
    PointNm {
        x: to.x.wrapping_sub(there.x),
        y: to.y.wrapping_sub(there.y),
        z: to.z.wrapping_sub(there.z),
    }
}

/// Where points lie from there.
fn ways_from(alloc: Global, there: PointNm, points: &[PointNm]) -> Result<Vec<PointNm>, Memory>
    ensures exact { IfOk result (λ ways. ways.items ≡ map (way_from there) points.now) }
    ensures memory { IfErr result (λ _. points.now ≡ [] → ⊥) }
{
    let mut ways = Vec::with_capacity(alloc, points.len())?;
    for point in points {
        ways.push(way_from(there, *point))?;
    }
    Ok(ways)
}

/// Scans a map by points in its own frame.
fn scan_in_map(
    alloc: Global,
    map: &mut OccMap,
    origin: PointNm,
    points: &[PointNm],
    options: ScanOptions,
) -> Result<Counted, Refusal>
    ensures { IsScanInMap origin points.now options map.old map.new result }
{
    if !is_in_reach(origin.point()) {
        return Err(Refusal::BadArgument { index: 0 });
    }
    test_points(points)?;
    let ways = ways_from(alloc, origin, points)?;
    scan(alloc, map, standing(origin), &ways, options)
}

/// Scans the map of a handle by points in its own frame.
fn scan_in_map_into(
    alloc: Global,
    handle: &mut Octofix,
    origin: PointNm,
    points: &[PointNm],
    options: ScanOptions,
) -> Result<Counted, Refusal>
    ensures { IsDone handle.old handle.new (IsScanInMap origin points.now options) result }
{
    scan_in_map(alloc, handle.map_mut()?, origin, points, options)
}

/// Does a scan of points in the frame of the map, and tells how many voxels it hit and freed: the
/// one of a sensor that stands at the origin, isn't turned, and sees them from there.
///
/// It is refused where the handle has no map, for a point out of its range, and as the other scan.
#[unsafe(no_mangle)]
pub extern "C" fn octofix_scan_in_map(
    alloc: Global,
    handle: &mut Octofix,
    origin: &PointNm,
    points: &[PointNm],
    options: &ScanOptions,
    counted: &mut Counted,
    details: &mut Details,
) -> u32
    ensures { IsValueTold handle.old handle.new (IsScanInMap origin.now points.now options.now)
        result details.new counted.old counted.new }
{
    let answer = scan_in_map_into(alloc, handle, *origin, points, *options);
    *details = details_of(&answer);
    tell(&answer, counted)
}
