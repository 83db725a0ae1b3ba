//! The whole square root that is never too small.
ghost use Rattle.std.specs.Prelude.{ℕ, ◌*◌, ◌^◌, ◌≤◌};

/// The square root of `n`, rounded up: the least whole number whose square is at least `n`. So
/// `ceil_sqrt(4)` is 2, and `ceil_sqrt(5)` is 3.
pub fn ceil_sqrt(n: u128) -> u64
    requires { n ≤ 2 ^ 112 }
    ensures enough { n ≤ result * result }
    ensures least { (root : ℕ) → n ≤ root * root → result ≤ root }
    ensures reach { result ≤ 2 ^ 56 }
{
    let floor = n.isqrt();
    let root = if floor * floor < n { floor + 1 } else { floor };
    root as u64
}
