//! Turned and moved points, and the quaternion that turns nothing.
ghost use Rattle.std.specs.Prelude.{◌↔◌, IsTrue};
ghost use Rattle.oct_pose.specs.Reach.{IsInReach};

use oct_key::Point;
use oct_pose::{Pose, ZeroQuaternion};
use std::process::Abort;
use std::test::Fail;

/// A metre, in nanometres.
const METRE: i64 = 1_000_000_000;

/// What each coordinate of a point in reach is below in magnitude.
const LIMIT: u64 = 10_000_000_000_000_000;

/// The greatest coordinate in reach.
const REACH: i64 = 9_999_999_999_999_999;

const ORIGIN: Point = Point { x: 0, y: 0, z: 0 };

/// Whether each coordinate is below 10^16 in magnitude.
fn is_in_reach(p: Point) -> bool
    ensures { IsTrue result ↔ IsInReach p }
{
    p.x.unsigned_abs() < LIMIT && p.y.unsigned_abs() < LIMIT && p.z.unsigned_abs() < LIMIT
}

/// Where a pose takes a point, if there is such a pose and both points are in reach.
fn posed(t: Point, quaternion: (i16, i16, i16, i16), p: Point) -> Option<Point> {
    if !is_in_reach(t) || !is_in_reach(p) {
        return None;
    }
    let (w, x, y, z) = quaternion;
    let pose = Pose::new(t, w, x, y, z).ok()?;
    Some(pose.apply(p))
}

/// Three coordinates.
type Triple = (i64, i64, i64);

/// A translation, a quaternion, a point, and where they take it.
type Posed = (Triple, (i16, i16, i16, i16), Triple, Triple);

const POSED: &[Posed] = &[
    // Nothing is turned or moved.
    ((0, 0, 0), (1, 0, 0, 0), (7, -8, 9), (7, -8, 9)),
    ((0, 0, 0), (-32_768, 0, 0, 0), (7, -8, 9), (7, -8, 9)),
    // The translation alone.
    ((10, 20, -30), (3, 0, 0, 0), (7, -8, 9), (17, 12, -21)),
    // A quarter turn about each axis, and the way back.
    ((0, 0, 0), (1, 0, 0, 1), (METRE, 0, 0), (0, METRE, 0)),
    ((0, 0, 0), (1, 0, 0, -1), (METRE, 0, 0), (0, -METRE, 0)),
    ((0, 0, 0), (1, 1, 0, 0), (0, METRE, 0), (0, 0, METRE)),
    ((0, 0, 0), (1, 0, 1, 0), (0, 0, METRE), (METRE, 0, 0)),
    ((0, 0, 0), (5, 0, 0, 5), (1, 2, 3), (-2, 1, 3)),
    // A half turn about each axis.
    ((0, 0, 0), (0, 1, 0, 0), (1, 2, 3), (1, -2, -3)),
    ((0, 0, 0), (0, 0, 1, 0), (1, 2, 3), (-1, 2, -3)),
    ((0, 0, 0), (0, 0, 0, 1), (1, 2, 3), (-1, -2, 3)),
    // A third of a turn about the diagonal takes x to y, y to z and z to x.
    ((0, 0, 0), (1, 1, 1, 1), (1, 2, 3), (3, 1, 2)),
    // Rounded to the nearest: (-3/5, 4/5, 0), then (0, 8/10, 6/10) and (0, -8/10, -6/10).
    ((0, 0, 0), (1, 0, 0, 2), (1, 0, 0), (-1, 1, 0)),
    ((100, 100, 100), (1, 0, 0, 2), (1, 0, 0), (99, 101, 100)),
    ((0, 0, 0), (1, 2, 1, 2), (1, 0, 0), (0, 1, 1)),
    ((0, 0, 0), (1, 2, 1, 2), (-1, 0, 0), (0, -1, -1)),
    // Without a rest: (8/10, 6/10, 0) times 5.
    ((0, 0, 0), (3, 0, 0, 1), (5, 0, 0), (4, 3, 0)),
    // The ends of the reach, with the greatest quaternions.
    (
        (REACH, -REACH, 0),
        (1, 0, 0, 0),
        (REACH, -REACH, REACH),
        (19_999_999_999_999_998, -19_999_999_999_999_998, REACH),
    ),
    (
        (0, 0, 0),
        (-32_768, -32_768, -32_768, -32_768),
        (REACH, -REACH, 1),
        (1, REACH, -REACH),
    ),
    (
        (REACH, REACH, REACH),
        (0, 0, 0, 32_767),
        (-REACH, -REACH, -REACH),
        (19_999_999_999_999_998, 19_999_999_999_999_998, 0),
    ),
];

/// The point of three coordinates.
fn point((x, y, z): Triple) -> Point {
    Point { x, y, z }
}

/// Expects where a pose takes a point.
fn expect_posed(rt: &impl Abort, (t, quaternion, p, want): Posed) {
    let found = posed(point(t), quaternion, point(p));
    assert_eq!(rt; found, Some(point(want)), "at {quaternion:?}");
}

/// Expects where each pose of a table takes its point.
fn expect_all_posed(rt: &impl Abort, cases: &[Posed]) {
    for case in cases {
        expect_posed(rt, *case);
    }
}

#[test]
fn turns_and_moves_points(rt: HostRuntime) {
    expect_all_posed(&rt, POSED);
}

/// Quaternions other than 0.
const QUATERNIONS: &[(i16, i16, i16, i16)] = &[
    (1, 0, 0, 0),
    (0, 1, 0, 0),
    (0, 0, -1, 0),
    (0, 0, 0, i16::MIN),
];

/// Expects that a quaternion makes a pose of its numbers.
fn expect_pose(rt: &impl Abort, (w, x, y, z): (i16, i16, i16, i16)) {
    match Pose::new(ORIGIN, w, x, y, z) {
        Ok(pose) => assert_eq!(rt;
            (pose.t, pose.w, pose.x, pose.y, pose.z),
            (ORIGIN, w, x, y, z)
        ),
        Err(ZeroQuaternion) => assert!(rt; false),
    }
}

/// Expects that each quaternion of a table makes a pose of its numbers.
fn expect_poses(rt: &impl Abort, cases: &[(i16, i16, i16, i16)]) {
    for quaternion in cases {
        expect_pose(rt, *quaternion);
    }
}

#[test]
fn refuses_the_quaternion_0(rt: HostRuntime) {
    assert_eq!(rt; Pose::new(ORIGIN, 0, 0, 0, 0), Err(ZeroQuaternion));
    expect_poses(&rt, QUATERNIONS);
}

#[test]
fn says_what_is_wrong_with_a_quaternion(rt: HostRuntime) -> Result<(), Fail> {
    let text = format!(in rt.alloc(); "{ZeroQuaternion}")?;
    assert_eq!(rt; text.as_str(), "the quaternion of a pose must not be 0");
    Ok(())
}
