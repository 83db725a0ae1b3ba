//! What a map keeps and gives back, and the texts of its faults.
ghost use Rattle.std.specs.Prelude.{◌≡◌, ◌^◌, ◌≤◌, None, All, IfOk};
ghost use Rattle.oct_odds.specs.Update.{IsSmallEvent};
ghost use Rattle.oct_pose.specs.Reach.{IsInReach};

use oct_key::{Point, PointList, Res};
use oct_map::{Limits, MapFault, OccMap, ScanDone};
use oct_num::Memory;
use oct_odds::{Event, OddsModel};
use oct_pose::Pose;
use oct_scan::Scan;
use std::alloc::Global;
use std::process::Abort;
use std::test::Fail;

/// What an addition of a hit adds.
const HIT: Event = Event::Add(850);

/// The point at the origin's corner.
const ORIGIN: Point = Point { x: 0, y: 0, z: 0 };

/// The middle of the voxel just above the origin.
const SENSOR: Point = Point {
    x: 50_000_000,
    y: 50_000_000,
    z: 50_000_000,
};

/// A point at this many tenths of a metre on each axis.
fn tenths(x: i8, y: i8, z: i8) -> Point
    ensures { IsInReach result }
{
    Point {
        x: i64::from(x) * 100_000_000,
        y: i64::from(y) * 100_000_000,
        z: i64::from(z) * 100_000_000,
    }
}

/// A place, in tenths of a metre on each axis.
type Place = (i8, i8, i8);

/// The points at these places.
fn list_of(alloc: Global, places: &[Place]) -> Result<PointList, Memory>
    ensures { IfOk result (λ list. All IsInReach list) }
{
    let mut list = PointList::new(alloc);
    for (x, y, z) in places {
        list.push(tenths(*x, *y, *z))?;
    }
    Ok(list)
}

/// A scan of these places from the sensor, without a turn and without a range.
fn scan_of(alloc: Global, places: &[Place]) -> Result<Scan, Memory>
    ensures points { IfOk result (λ scan. All IsInReach scan.points) }
    ensures range { IfOk result (λ scan. scan.range ≡ None) }
    ensures odds { IfOk result (λ scan. scan.odds ≡ None) }
{
    Ok(seen(list_of(alloc, places)?))
}

/// 25 places on a face of a cube of 24 metres.
const WIDE: &[Place] = &[
    (120, -120, -120),
    (120, -120, -60),
    (120, -120, 0),
    (120, -120, 60),
    (120, -120, 120),
    (120, -60, -120),
    (120, -60, -60),
    (120, -60, 0),
    (120, -60, 60),
    (120, -60, 120),
    (120, 0, -120),
    (120, 0, -60),
    (120, 0, 0),
    (120, 0, 60),
    (120, 0, 120),
    (120, 60, -120),
    (120, 60, -60),
    (120, 60, 0),
    (120, 60, 60),
    (120, 60, 120),
    (120, 120, -120),
    (120, 120, -60),
    (120, 120, 0),
    (120, 120, 60),
    (120, 120, 120),
];

/// The scan of these points from the sensor.
fn seen(points: PointList) -> Scan
    requires { All IsInReach points }
    ensures points { All IsInReach result.points }
    ensures range { result.range ≡ None }
    ensures odds { result.odds ≡ None }
{
    seen_from(SENSOR, points)
}

/// The scan of these points from that place.
fn seen_from(t: Point, points: PointList) -> Scan
    requires place { IsInReach t }
    requires reached { All IsInReach points }
    ensures points { All IsInReach result.points }
    ensures range { result.range ≡ None }
    ensures odds { result.odds ≡ None }
{
    let pose = Pose {
        t,
        w: 1,
        x: 0,
        y: 0,
        z: 0,
    };
    Scan {
        pose,
        points,
        range: None,
        odds: None,
    }
}

/// Voxels of a tenth of a metre.
fn tenth(rt: &impl Abort) -> Res {
    match Res::new(100_000_000) {
        Ok(res) => res,
        Err(_) => panic!(rt; "a tenth of a metre is refused"),
    }
}

/// A map of voxels of a tenth of a metre, of this many groups, whose scans meet at most `max_cells`
/// voxels.
fn bounded(rt: &impl Abort, alloc: Global, max_groups: u32, max_cells: u64) -> OccMap
    requires some { 16 ≤ max_groups }
    requires few { max_groups ≤ 2 ^ 26 }
    requires some_cells { 1 ≤ max_cells }
    requires few_cells { max_cells ≤ 2 ^ 27 }
{
    let limits = Limits {
        max_groups,
        max_cells,
    };
    OccMap::new(alloc, tenth(rt), OddsModel::default(), limits)
}

/// Such a map whose scans meet at most 1000 voxels.
fn world(rt: &impl Abort, alloc: Global, max_groups: u32) -> OccMap
    requires some { 16 ≤ max_groups }
    requires few { max_groups ≤ 2 ^ 26 }
{
    bounded(rt, alloc, max_groups, 1000)
}

/// Expects this answer for the block of that depth around the point.
fn expect_block(
    rt: &impl Abort,
    map: &OccMap,
    p: Point,
    depth: u32,
    want: Result<Option<i32>, MapFault>,
) {
    assert_eq!(rt; map.get(p, depth), want, "{p:?} at {depth}");
}

/// Expects that a call is answered so.
fn expect_answer(rt: &impl Abort, answer: Result<(), MapFault>, want: Result<(), MapFault>) {
    assert_eq!(rt; answer, want);
}

/// Expects that an edit of the voxel is answered so.
fn expect_edit(
    rt: &impl Abort,
    map: &mut OccMap,
    p: Point,
    event: Event,
    lazy: bool,
    want: Result<(), MapFault>,
)
    requires { IsSmallEvent event }
{
    expect_answer(rt, map.edit(p, event, lazy), want);
}

/// Hits the eight voxels beside the origin's corner.
fn hit_eight(rt: &impl Abort, map: &mut OccMap, lazy: bool) {
    for x in [0, 1] {
        for y in [0, 1] {
            for z in [0, 1] {
                expect_edit(rt, map, tenths(x, y, z), HIT, lazy, Ok(()));
            }
        }
    }
}

/// Expects that a scan is answered so.
fn expect_scan(
    rt: &impl Abort,
    map: &mut OccMap,
    scan: &Scan,
    lazy: bool,
    want: Result<ScanDone, MapFault>,
)
    requires points { All IsInReach scan.now.points }
    requires range { scan.now.range ≡ None }
    requires odds { scan.now.odds ≡ None }
{
    assert_eq!(rt; map.scan(scan, lazy), want);
}

/// Expects that the arena of the map has this many groups, and this many vacant entries.
fn expect_entries(rt: &impl Abort, map: &OccMap, live: u32, spare: u32) {
    let arena = map.tree().arena();
    assert_eq!(rt; (arena.live(), arena.spare()), (live, spare));
}

/// The numbers of this scan are those that the model in `tests/model` gives for it too.
#[test]
fn makes_room_for_thousands_of_groups(rt: HostRuntime) -> Result<(), Fail> {
    let scan = scan_of(rt.alloc(), WIDE)?;
    let mut map = bounded(&rt, rt.alloc(), 100_000, 100_000);
    let done = ScanDone {
        hits: 25,
        frees: 5079,
    };
    expect_scan(&rt, &mut map, &scan, false, Ok(done));
    // The arena takes whole chunks, and five of 1,024 entries have room for 4,780 groups.
    expect_entries(&rt, &map, 4776, 5 * 1024 - 4776);
    Ok(())
}

#[test]
fn a_map_is_made_sure_and_then_cleared(rt: HostRuntime) {
    let mut map = world(&rt, rt.alloc(), 64);
    hit_eight(&rt, &mut map, true);
    expect_entries(&rt, &map, 16, 1024 - 16);
    map.prune();
    expect_entries(&rt, &map, 15, 1024 - 15);
    map.max_likelihood();
    expect_block(&rt, &map, ORIGIN, 15, Ok(Some(3500)));
    map.clear();
    expect_block(&rt, &map, ORIGIN, 0, Ok(None));
    expect_entries(&rt, &map, 0, 0);
}

/// Expects that the map holds this many bytes.
fn expect_memory(rt: &impl Abort, map: &OccMap, want: u64) {
    assert_eq!(rt; map.memory(), want);
}

#[test]
fn tells_the_memory_that_it_holds(rt: HostRuntime) {
    let mut map = world(&rt, rt.alloc(), 64);
    expect_memory(&rt, &map, 0);
    // A chunk of 1,024 groups, and then room for one note.
    expect_edit(&rt, &mut map, ORIGIN, HIT, false, Ok(()));
    expect_memory(&rt, &map, 73_728);
    map.track();
    expect_edit(&rt, &mut map, ORIGIN, HIT, false, Ok(()));
    expect_memory(&rt, &map, 73_736);
    map.clear();
    expect_memory(&rt, &map, 0);
}

/// Expects this text of a fault.
fn expect_text(rt: &impl Abort, alloc: Global, fault: MapFault, want: &str) {
    match format!(in alloc; "{fault}") {
        Ok(text) => assert_eq!(rt; text.as_str(), want),
        Err(_) => panic!(rt; "out of memory"),
    }
}

/// Expects the text of each fault of a table.
fn expect_texts(rt: &impl Abort, alloc: Global, cases: &[(MapFault, &str)]) {
    for (fault, want) in cases {
        expect_text(rt, alloc, *fault, want);
    }
}

/// Faults of maps, and their texts.
const TEXTS: &[(MapFault, &str)] = &[
    (
        MapFault::OriginOutside,
        "the origin of the scan lies outside the map",
    ),
    (
        MapFault::PointOutside { index: 1 },
        "the beam to point 1 ends outside the map",
    ),
    (
        MapFault::TooManyCells { index: 1, cells: 8 },
        "with point 1 the beams meet 8 voxels, more than are allowed",
    ),
    (
        MapFault::Full {
            groups: 16,
            need: 16,
        },
        "16 groups and 16 more are too many",
    ),
    (
        MapFault::Outside { point: 1 },
        "point 1 lies outside the map",
    ),
    (
        MapFault::OtherResolution {
            file: 200_000_000,
            session: 100_000_000,
        },
        "the file's voxels have 200000000 nanometres, and the map's have 100000000",
    ),
    (
        MapFault::TrailingBytes { at: 17 },
        "bytes follow the snapshot at byte 17",
    ),
];

#[test]
fn says_why_it_refuses(rt: HostRuntime) {
    expect_texts(&rt, rt.alloc(), TEXTS);
}
