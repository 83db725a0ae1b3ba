//! Division toward the lower number, also below 0.
ghost use Rattle.std.specs.Prelude.{◌≡◌, pos, ◌+ℤ◌, ◌*ℤ◌, ◌≤ℤ◌, ◌<ℤ◌};
ghost use Rattle.std.specs.Int.{int_div_euclid};

/// The quotient of `n` by `d`, rounded down: the greatest whole number whose product with `d` is
/// at most `n`. So `floor_div(-1, 2)` is -1.
pub fn floor_div(n: i128, d: i128) -> i128
    requires { pos 1 ≤ℤ d }
    ensures exact { result ≡ int_div_euclid n d }
    ensures low { (result *ℤ d) ≤ℤ n }
    ensures high { n <ℤ (result *ℤ d +ℤ d) }
{
    n.div_euclid(d)
}
