//! Where a beam that is too long is cut, never beyond the range.
ghost use Rattle.std.specs.Prelude.{◌≡◌, ◌*◌, ◌/◌, ◌^◌, ◌<◌, ◌≤◌, pos, ◌≤ℤ◌, unsigned_abs};
ghost use Rattle.oct_ray.specs.Range.{IsCutEnd, axis_distance, cut_coordinate, square_distance};

use oct_key::Point;
use oct_num::ceil_sqrt;

/// Where a beam from `o` to `e` that is longer than the range `r` is cut, all in nanometres: `o +
/// (e - o) * r / length`, rounded toward `o` on each axis. The length is that of the beam, rounded
/// up, so that no cut end lies beyond the range.
///
/// A beam is longer than the range where [`square_distance`] of its ends is above the range's
/// square.
pub fn cut(o: Point, e: Point, r: i64) -> Point
    requires range { pos 0 ≤ℤ r }
    requires beyond { unsigned_abs r * unsigned_abs r < square_distance o e }
    requires reach { square_distance o e ≤ 2 ^ 112 }
    ensures cut { IsCutEnd o e r result }
    ensures within { square_distance o result ≤ unsigned_abs r * unsigned_abs r }
{
    let range = r.unsigned_abs();
    let length = ceil_sqrt(square_distance(o, e));
    cut_point(o, e, range, length)
}

/// The point that is `range / length` of the way from `o` to `e`, rounded toward `o` on each axis.
fn cut_point(o: Point, e: Point, range: u64, length: u64) -> Point
    requires range { range < length }
    requires reach { square_distance o e ≤ 2 ^ 112 }
    ensures x { result.x ≡ cut_coordinate o.x e.x (pos range) length }
    ensures y { result.y ≡ cut_coordinate o.y e.y (pos range) length }
    ensures z { result.z ≡ cut_coordinate o.z e.z (pos range) length }
{
    Point {
        x: cut_coordinate(o.x, e.x, range, length),
        y: cut_coordinate(o.y, e.y, range, length),
        z: cut_coordinate(o.z, e.z, range, length),
    }
}

/// The square of the distance of two points, in square nanometres. It fits where they are at most
/// `2^56` nm apart.
pub fn square_distance(o: Point, e: Point) -> u128
    requires { square_distance o e ≤ 2 ^ 112 }
    ensures { result ≡ square_distance o e }
{
    let x = u128::from(axis_distance(o.x, e.x));
    let y = u128::from(axis_distance(o.y, e.y));
    let z = u128::from(axis_distance(o.z, e.z));
    x * x + y * y + z * z
}

/// The distance of two coordinates.
fn axis_distance(o: i64, e: i64) -> u64
    ensures { result ≡ axis_distance o e }
{
    e.abs_diff(o)
}

/// The coordinate that is `range / length` of the way from `o` to `e`, rounded toward `o`.
fn cut_coordinate(o: i64, e: i64, range: u64, length: u64) -> i64
    requires range { range < length }
    requires reach { axis_distance o e ≤ 2 ^ 56 }
    ensures { result ≡ cut_coordinate o e (pos range) length }
{
    let part = cut_distance(axis_distance(o, e), range, length);
    if o <= e { o + part } else { o - part }
}

/// `range / length` of a distance, rounded down.
fn cut_distance(distance: u64, range: u64, length: u64) -> i64
    requires range { range < length }
    requires reach { distance ≤ 2 ^ 56 }
    ensures part { result ≡ pos (distance * range / length) }
    ensures less { distance * range / length ≤ distance }
{
    let part = u128::from(distance) * u128::from(range) / u128::from(length);
    part as i64
}
