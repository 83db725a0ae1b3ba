//! A point turned by a quaternion of whole numbers, with each coordinate rounded once.
ghost use Rattle.std.specs.Prelude.{◌≡◌, ◌^◌, ◌*◌, ◌<◌, ◌≤◌, pos, ◌+ℤ◌, ◌-ℤ◌, ◌*ℤ◌, ◌≤ℤ◌};
ghost use Rattle.std.specs.Prelude.{unsigned_abs, IsTrue};
ghost use Rattle.oct_num.specs.Rounding.{half_up};
ghost use Rattle.oct_pose.specs.Reach.{IsInReach, IsZero};
ghost use Rattle.oct_pose.specs.Rotation.{norm, x_row, y_row, z_row, weighted, rotated, IsBounded};

use oct_key::Point;
use oct_num::round_half_up;

/// A quaternion of whole numbers.
#[derive(Clone, Copy)]
pub(crate) struct Quaternion {
    pub(crate) w: i16,
    pub(crate) x: i16,
    pub(crate) y: i16,
    pub(crate) z: i16,
}

/// The factors of a point's coordinates in one coordinate of the turned point, before it is divided
/// by the square of the quaternion's length.
#[derive(Clone, Copy)]
struct Row {
    x: i64,
    y: i64,
    z: i64,
}

impl Quaternion {
    /// A point in reach, turned by a quaternion that isn't 0.
    pub(crate) fn rotate(self, p: Point) -> Point
        requires turns { ¬ IsZero self.w self.x self.y self.z }
        requires reach { IsInReach p }
        ensures exact { result ≡ rotated self p }
        ensures x { unsigned_abs result.x ≤ 3 * 10 ^ 16 }
        ensures y { unsigned_abs result.y ≤ 3 * 10 ^ 16 }
        ensures z { unsigned_abs result.z ≤ 3 * 10 ^ 16 }
    {
        if self.is_upright() {
            return p;
        }
        self.rotate_by_rows(p)
    }

    /// The same by the rows of factors, whatever the quaternion.
    fn rotate_by_rows(self, p: Point) -> Point
        requires turns { ¬ IsZero self.w self.x self.y self.z }
        requires reach { IsInReach p }
        ensures exact { result ≡ rotated self p }
        ensures x { unsigned_abs result.x ≤ 3 * 10 ^ 16 }
        ensures y { unsigned_abs result.y ≤ 3 * 10 ^ 16 }
        ensures z { unsigned_abs result.z ≤ 3 * 10 ^ 16 }
    {
        let norm = self.norm();
        Point {
            x: self.x_row().coordinate(norm, p),
            y: self.y_row().coordinate(norm, p),
            z: self.z_row().coordinate(norm, p),
        }
    }

    /// Whether it turns nothing, so that nothing has to be reckoned.
    fn is_upright(self) -> bool
        ensures { IsTrue result → (self.x ≡ pos 0) × (self.y ≡ pos 0) × (self.z ≡ pos 0) }
    {
        self.x == 0 && self.y == 0 && self.z == 0
    }

    /// The square of the quaternion's length.
    fn norm(self) -> i64
        ensures value { result ≡ norm self }
        ensures high { result ≤ℤ pos (2 ^ 32) }
    {
        product(self.w, self.w)
            + product(self.x, self.x)
            + product(self.y, self.y)
            + product(self.z, self.z)
    }

    fn x_row(self) -> Row
        ensures value { result ≡ x_row self }
        ensures bounded { IsBounded (norm self) result }
    {
        Row {
            x: diagonal(self.w, self.x, self.y, self.z),
            y: twice_difference(self.x, self.y, self.w, self.z),
            z: twice_sum(self.x, self.z, self.w, self.y),
        }
    }

    fn y_row(self) -> Row
        ensures value { result ≡ y_row self }
        ensures bounded { IsBounded (norm self) result }
    {
        Row {
            x: twice_sum(self.x, self.y, self.w, self.z),
            y: diagonal(self.w, self.y, self.x, self.z),
            z: twice_difference(self.y, self.z, self.w, self.x),
        }
    }

    fn z_row(self) -> Row
        ensures value { result ≡ z_row self }
        ensures bounded { IsBounded (norm self) result }
    {
        Row {
            x: twice_difference(self.x, self.z, self.w, self.y),
            y: twice_sum(self.y, self.z, self.w, self.x),
            z: diagonal(self.w, self.z, self.x, self.y),
        }
    }
}

impl Row {
    /// One coordinate of the turned point: the weighted sum over the square of the quaternion's
    /// length, rounded half up.
    fn coordinate(self, norm: i64, p: Point) -> i64
        requires positive { pos 1 ≤ℤ norm }
        requires small { norm ≤ℤ pos (2 ^ 32) }
        requires bounded { IsBounded norm self }
        requires reach { IsInReach p }
        ensures exact { result ≡ half_up (weighted self p) norm }
        ensures near { unsigned_abs result ≤ 3 * 10 ^ 16 }
    {
        let sum = sum(
            wide_product(self.x, p.x),
            wide_product(self.y, p.y),
            wide_product(self.z, p.z),
        );
        round_half_up(sum, i128::from(norm)) as i64
    }
}

/// `ab`.
fn product(a: i16, b: i16) -> i64
    ensures value { result ≡ a *ℤ b }
    ensures reach { unsigned_abs result ≤ 2 ^ 30 }
{
    i64::from(a) * i64::from(b)
}

/// `aa + bb - cc - dd`.
fn diagonal(a: i16, b: i16, c: i16, d: i16) -> i64
    ensures { result ≡ (a *ℤ a +ℤ b *ℤ b -ℤ c *ℤ c -ℤ d *ℤ d) }
{
    product(a, a) + product(b, b) - product(c, c) - product(d, d)
}

/// `2(ab + cd)`.
fn twice_sum(a: i16, b: i16, c: i16, d: i16) -> i64
    ensures { result ≡ (pos 2 *ℤ (a *ℤ b +ℤ c *ℤ d)) }
{
    2 * (product(a, b) + product(c, d))
}

/// `2(ab - cd)`.
fn twice_difference(a: i16, b: i16, c: i16, d: i16) -> i64
    ensures { result ≡ (pos 2 *ℤ (a *ℤ b -ℤ c *ℤ d)) }
{
    2 * (product(a, b) - product(c, d))
}

/// A factor of a coordinate, times that coordinate.
fn wide_product(factor: i64, coordinate: i64) -> i128
    requires factor { unsigned_abs factor ≤ 2 ^ 32 }
    requires coordinate { unsigned_abs coordinate < 10 ^ 16 }
    ensures value { result ≡ factor *ℤ coordinate }
    ensures reach { unsigned_abs result ≤ 2 ^ 100 }
{
    i128::from(factor) * i128::from(coordinate)
}

/// A sum of three products.
fn sum(a: i128, b: i128, c: i128) -> i128
    requires a { unsigned_abs a ≤ 2 ^ 100 }
    requires b { unsigned_abs b ≤ 2 ^ 100 }
    requires c { unsigned_abs c ≤ 2 ^ 100 }
    ensures value { result ≡ (a +ℤ b +ℤ c) }
    ensures reach { unsigned_abs result ≤ 2 ^ 110 }
{
    a + b + c
}
