//! Beams with the voxels that they meet, there and back, short and across the whole map.
use oct_key::{Key, Point, Res, morton};
use oct_ray::{BeamWalk, NearWalk, Walk};
use std::alloc::{AllocError, Global};
use std::process::Abort;
use std::test::Fail;

/// A tenth of a metre.
const TENTH: i64 = 100_000_000;

/// The key of the voxels just above the origin.
const MIDDLE: u16 = 32_768;

/// A walk between two points of the map.
fn walk(rt: &impl Abort, res: Res, o: Point, e: Point) -> Walk {
    assert!(rt; res.key_of(o).is_some() && res.key_of(e).is_some());
    Walk::new(res, o, e)
}

/// The point at this many hundredths of a metre.
fn hundredths(x: i16, y: i16, z: i16) -> Point {
    Point {
        x: i64::from(x) * 10_000_000,
        y: i64::from(y) * 10_000_000,
        z: i64::from(z) * 10_000_000,
    }
}

/// The key this many voxels from the middle.
fn key(x: i16, y: i16, z: i16) -> Key {
    Key {
        x: MIDDLE.wrapping_add_signed(x),
        y: MIDDLE.wrapping_add_signed(y),
        z: MIDDLE.wrapping_add_signed(z),
    }
}

/// Three numbers, one for each axis.
type Triple = (i16, i16, i16);

/// The ends of a beam in hundredths of a metre, and the voxels that it meets, from the middle.
type Beam = (Triple, Triple, &'static [Triple]);

const BEAMS: &[Beam] = &[
    // A corner touched in one point: the voxel that holds it is met.
    ((5, 15, 5), (15, 5, 5), &[(0, 1, 0), (1, 1, 0), (1, 0, 0)]),
    // An exact diagonal meets no voxel beside it.
    ((5, 5, 5), (25, 25, 5), &[(0, 0, 0), (1, 1, 0), (2, 2, 0)]),
    (
        (5, 5, 5),
        (-15, -15, -15),
        &[(0, 0, 0), (-1, -1, -1), (-2, -2, -2)],
    ),
    // A point to itself, inside and on faces.
    ((5, -5, 5), (5, -5, 5), &[(0, -1, 0)]),
    ((0, 10, -10), (0, 10, -10), &[(0, 1, -1)]),
    // Along each axis from a face, up and down.
    ((0, 0, 0), (20, 0, 0), &[(0, 0, 0), (1, 0, 0), (2, 0, 0)]),
    ((0, 0, 0), (-20, 0, 0), &[(0, 0, 0), (-1, 0, 0), (-2, 0, 0)]),
    ((0, 10, 0), (0, 25, 0), &[(0, 1, 0), (0, 2, 0)]),
    ((0, 10, 0), (0, -1, 0), &[(0, 1, 0), (0, 0, 0), (0, -1, 0)]),
    ((0, 0, -10), (0, 0, 10), &[(0, 0, -1), (0, 0, 0), (0, 0, 1)]),
    (
        (0, 0, -10),
        (0, 0, -21),
        &[(0, 0, -1), (0, 0, -2), (0, 0, -3)],
    ),
    // Two steps on one axis for each on another.
    (
        (5, 5, 5),
        (25, 15, 5),
        &[(0, 0, 0), (1, 0, 0), (1, 1, 0), (2, 1, 0)],
    ),
];

/// The voxels of a beam.
fn met(
    rt: &impl Abort,
    alloc: Global,
    res: Res,
    o: Point,
    e: Point,
) -> Result<Vec<Key>, AllocError> {
    walk(rt, res, o, e).collect(alloc)
}

/// The keys these many voxels from the middle.
fn keys(alloc: Global, places: &[Triple]) -> Result<Vec<Key>, AllocError> {
    let mut keys = Vec::new(alloc);
    for (x, y, z) in places {
        keys.push(key(*x, *y, *z))?;
    }
    Ok(keys)
}

/// Expects the voxels of the beam between two points.
fn expect_beam(
    rt: &impl Abort,
    alloc: Global,
    res: Res,
    (o, e, want): Beam,
) -> Result<(), AllocError> {
    let met = met(rt, alloc, res, point_at(o), point_at(e))?;
    let want = keys(alloc, want)?;
    assert_eq!(rt; met.as_slice(), want.as_slice());
    Ok(())
}

/// Expects the voxels of each beam.
fn expect_beams(
    rt: &impl Abort,
    alloc: Global,
    res: Res,
    cases: &[Beam],
) -> Result<(), AllocError> {
    for case in cases {
        expect_beam(rt, alloc, res, *case)?;
    }
    Ok(())
}

/// The point at these many hundredths of a metre.
fn point_at((x, y, z): Triple) -> Point {
    hundredths(x, y, z)
}

#[test]
fn lists_the_voxels_of_a_beam_in_order(rt: HostRuntime) -> Result<(), Fail> {
    expect_beams(&rt, rt.alloc(), Res::new(TENTH)?, BEAMS)?;
    Ok(())
}

/// Expects the code of the next voxel of a walk, where that isn't the last one.
fn expect_code(rt: &impl Abort, walk: &mut Walk, want: Option<u64>) {
    assert_eq!(rt; walk.next_but_last(), want);
}

/// Expects the next voxel of a walk.
fn expect_next(rt: &impl Abort, walk: &mut Walk, want: Option<Key>) {
    assert_eq!(rt; walk.next(), want);
}

#[test]
fn stops_before_the_last_voxel(rt: HostRuntime) -> Result<(), Fail> {
    let res = Res::new(TENTH)?;
    let mut way = walk(&rt, res, hundredths(0, 0, 0), hundredths(20, 0, 0));
    expect_code(&rt, &mut way, Some(0o7000_0000_0000_0000));
    expect_code(&rt, &mut way, Some(0o7000_0000_0000_0001));
    expect_code(&rt, &mut way, None);
    expect_next(&rt, &mut way, Some(key(2, 0, 0)));
    Ok(())
}

/// What is left of a walk between two points of the map after a part of its way, in 65,536ths.
fn rest(rt: &impl Abort, res: Res, o: Point, e: Point, part: u16) -> Walk {
    let start = res.key_of(o).expect(rt, "a point of the map");
    let end = res.key_of(e).expect(rt, "a point of the map");
    Walk::after(res, o, e, start, end, part)
}

#[test]
fn goes_on_after_half_of_its_way(rt: HostRuntime) -> Result<(), Fail> {
    let res = Res::new(TENTH)?;
    let mut up = rest(&rt, res, hundredths(0, 0, 0), hundredths(20, 0, 0), 32_768);
    expect_next(&rt, &mut up, Some(key(1, 0, 0)));
    expect_next(&rt, &mut up, Some(key(2, 0, 0)));
    expect_next(&rt, &mut up, None);
    let mut down = rest(&rt, res, hundredths(20, 0, 0), hundredths(0, 0, 0), 32_768);
    expect_next(&rt, &mut down, Some(key(0, 0, 0)));
    Ok(())
}

/// A walk in 64 bits between two points of the map.
fn near(rt: &impl Abort, res: Res, o: Point, e: Point) -> NearWalk {
    assert!(rt; res.key_of(o).is_some());
    let last = res.key_of(e).expect(rt, "a point of the map");
    match Walk::new(res, o, e).near(morton(last)) {
        Ok(near) => near,
        Err(_) => panic!(rt; "the beam is short"),
    }
}

/// Expects the code of the next voxel of a walk in 64 bits, where that isn't the last one.
fn expect_near_code(rt: &impl Abort, walk: &mut NearWalk, want: Option<u64>) {
    assert_eq!(rt; walk.next_but_last(), want);
}

/// Expects that a walk in 64 bits gives the voxels of a beam but the last.
fn expect_near(rt: &impl Abort, res: Res, (o, e, want): Beam) {
    let mut way = near(rt, res, point_at(o), point_at(e));
    if let Some((_, front)) = want.split_last() {
        for (x, y, z) in front {
            expect_near_code(rt, &mut way, Some(morton(key(*x, *y, *z))));
        }
    }
    expect_near_code(rt, &mut way, None);
}

#[test]
fn walks_alike_in_64_bits(rt: HostRuntime) -> Result<(), Fail> {
    let res = Res::new(TENTH)?;
    for case in BEAMS {
        expect_near(&rt, res, *case);
    }
    Ok(())
}

/// Points, in hundredths of a metre.
const POINTS: &[Triple] = &[
    (5, 15, 5),
    (15, 5, 5),
    (0, 0, 0),
    (30, 30, -30),
    (-30, 20, 10),
    (7, -13, 29),
    (-20, -20, -20),
    (40, -40, 0),
];

/// Expects that the beam back meets the voxels of the beam there in the exact reverse.
fn expect_reverse(
    rt: &impl Abort,
    alloc: Global,
    res: Res,
    o: Point,
    e: Point,
) -> Result<(), AllocError> {
    let there = met(rt, alloc, res, o, e)?;
    let mut back = met(rt, alloc, res, e, o)?;
    back.reverse();
    assert_eq!(rt; there.as_slice(), back.as_slice());
    Ok(())
}

/// Expects the exact reverse of the beam between each two points.
fn expect_reverses(
    rt: &impl Abort,
    alloc: Global,
    res: Res,
    points: &[Triple],
) -> Result<(), AllocError> {
    for o in points {
        for e in points {
            expect_reverse(rt, alloc, res, point_at(*o), point_at(*e))?;
        }
    }
    Ok(())
}

#[test]
fn walks_back_in_the_exact_reverse(rt: HostRuntime) -> Result<(), Fail> {
    expect_reverses(&rt, rt.alloc(), Res::new(TENTH)?, POINTS)?;
    Ok(())
}

/// Expects a voxel.
fn expect_voxel(rt: &impl Abort, found: Option<Key>, want: Option<Key>) {
    assert_eq!(rt; found, want);
}

/// Expects the first and the last voxel of a beam, and how many it meets.
fn expect_length(
    rt: &impl Abort,
    alloc: Global,
    res: Res,
    (o, e): (Point, Point),
    voxels: usize,
) -> Result<(), AllocError> {
    let keys = met(rt, alloc, res, o, e)?;
    expect_voxel(rt, keys.first().copied(), res.key_of(o));
    expect_voxel(rt, keys.last().copied(), res.key_of(e));
    assert_eq!(rt; keys.len(), voxels);
    Ok(())
}

/// Expects the lengths of beams across the whole map in a resolution.
fn expect_across(rt: &impl Abort, alloc: Global, res: Res) -> Result<(), AllocError> {
    let edge = res.nm();
    let half = 32_768 * edge;
    let third = edge / 3;
    // From corner to corner: each step is through an exact corner.
    expect_length(rt, alloc, res, (cube(-half), cube(half - 1)), 65_536)?;
    expect_length(rt, alloc, res, (cube(half - 1), cube(-half)), 65_536)?;
    // One axis rises and one falls, and starts a nanometre nearer to its first face: no two faces
    // are crossed together.
    let o = Point {
        x: -half,
        y: half - 1,
        z: 0,
    };
    let e = Point {
        x: half - 1,
        y: -half,
        z: 0,
    };
    expect_length(rt, alloc, res, (o, e), 131_071)?;
    // No two axes cross together: the longest list of a beam.
    let o = Point {
        x: -half,
        y: -half + third,
        z: -half + 2 * third,
    };
    let e = Point {
        x: half - 1 - 2 * third,
        y: half - 1 - third,
        z: half - 1,
    };
    expect_length(rt, alloc, res, (o, e), 196_606)
}

#[test]
fn walks_across_the_whole_map(rt: HostRuntime) -> Result<(), Fail> {
    expect_across(&rt, rt.alloc(), Res::new(100_000)?)?;
    expect_across(&rt, rt.alloc(), Res::new(TENTH)?)?;
    expect_across(&rt, rt.alloc(), Res::new(100_000_000_000)?)?;
    Ok(())
}

/// The point with this number on each axis.
fn cube(c: i64) -> Point {
    Point { x: c, y: c, z: c }
}
