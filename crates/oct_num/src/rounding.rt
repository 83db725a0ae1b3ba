//! The whole number nearest to a fraction.
ghost use Rattle.std.specs.Prelude.{◌≡◌, ◌^◌, ◌≤◌, pos, ◌≤ℤ◌, unsigned_abs};
ghost use Rattle.oct_num.specs.Rounding.{half_up, IsNearest};

use crate::division::floor_div;

/// The whole number nearest to `n / d`, and the upper one where two are equally near: the floor of
/// `(2n + d) / (2d)`. So `round_half_up(1, 2)` is 1, and `round_half_up(-1, 2)` is 0.
pub fn round_half_up(n: i128, d: i128) -> i128
    requires positive { pos 1 ≤ℤ d }
    requires divisor { d ≤ℤ pos (2 ^ 60) }
    requires reach { unsigned_abs n ≤ 2 ^ 120 }
    ensures exact { result ≡ half_up n d }
    ensures nearest { IsNearest n d result }
{
    floor_div(2 * n + d, 2 * d)
}
