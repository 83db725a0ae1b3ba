//! Cuts of beams in each direction, up to the longest one.
ghost use Rattle.std.specs.Prelude.{◌*◌, ◌^◌, ◌<◌, ◌≤◌, pos, ◌≤ℤ◌, unsigned_abs};
ghost use Rattle.oct_ray.specs.Range.{square_distance};

use oct_key::Point;
use oct_ray::{cut, square_distance};
use std::process::Abort;

/// The point of three coordinates, in nanometres.
macro_rules! point {
    ($x:expr, $y:expr, $z:expr) => {
        Point { x: $x, y: $y, z: $z }
    };
}

const ZERO: Point = point!(0, 0, 0);

/// The ends of a beam from (10, -10, 5) to (7, -6, 5).
const NEAR: Point = point!(10, -10, 5);

const FAR: Point = point!(7, -6, 5);

/// The ends of the longest beam.
const LOW: Point = point!(-36_028_797_018_963_968, 0, 0);

const HIGH: Point = point!(36_028_797_018_963_968, 0, 0);

/// Expects where a beam is cut.
fn expect_cut(rt: &impl Abort, o: Point, e: Point, r: i64, want: Point)
    requires range { pos 0 ≤ℤ r }
    requires beyond { unsigned_abs r * unsigned_abs r < square_distance o e }
    requires reach { square_distance o e ≤ 2 ^ 112 }
{
    assert_eq!(rt; cut(o, e, r), want);
}

#[test]
fn cuts_toward_the_origin(rt: HostRuntime) {
    // 5 m long, and cut at 1 m.
    let end = point!(3_000_000_000, 4_000_000_000, 0);
    expect_cut(
        &rt,
        ZERO,
        end,
        1_000_000_000,
        point!(600_000_000, 800_000_000, 0),
    );
    // The root of 18 is rounded up to 5, and 9 / 5 toward 0: with a length of 4 it would be 9 / 4.
    expect_cut(&rt, ZERO, point!(-3, -3, 0), 3, point!(-1, -1, 0));
    // From another origin: -12 / 5 and 16 / 5.
    expect_cut(&rt, NEAR, FAR, 4, point!(8, -7, 5));
    // No range at all.
    expect_cut(&rt, NEAR, FAR, 0, NEAR);
}

#[test]
fn cuts_with_the_signs_of_the_beam(rt: HostRuntime) {
    // 6 / 5 toward 0.
    expect_cut(&rt, ZERO, point!(-3, -3, 0), 2, point!(-1, -1, 0));
    expect_cut(&rt, ZERO, point!(3, 3, 0), 2, point!(1, 1, 0));
    // A length that is whole.
    expect_cut(&rt, ZERO, point!(0, 0, -7), 6, point!(0, 0, -6));
    // The longest beam and the greatest range.
    let want = point!(-26_028_797_018_963_969, 0, 0);
    expect_cut(&rt, LOW, HIGH, 9_999_999_999_999_999, want);
}

#[test]
fn adds_the_squares_of_three_axes(rt: HostRuntime) {
    assert_eq!(rt; square_distance(point!(1, -2, 3), point!(-3, 1, 15)), 169);
}
