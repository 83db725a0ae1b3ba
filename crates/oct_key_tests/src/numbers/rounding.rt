//! Quotients rounded to the nearest.
use super::expect_number;
use oct_num::round_half_up;
use std::process::Abort;

/// Numbers, their divisors, and the nearest whole numbers to the quotients.
const QUOTIENTS: &[(i128, i128, i128)] = &[
    (1, 2, 1),
    (-1, 2, 0),
    (-3, 2, -1),
    (3, 2, 2),
    (0, 1, 0),
    (-7, 1, -7),
    (1, 3, 0),
    (2, 3, 1),
    (-1, 3, 0),
    (-2, 3, -1),
    (5, 10, 1),
    (-5, 10, 0),
    (-6, 10, -1),
    (1 << 120, 1, 1 << 120),
    (-(1 << 120), 1 << 60, -(1 << 60)),
    (1 << 59, 1 << 60, 1),
    ((1 << 59) - 1, 1 << 60, 0),
];

/// Expects that a quotient is rounded to a number.
fn expect_rounded(rt: &impl Abort, n: i128, d: i128, want: i128) {
    assert!(rt; d >= 1 && d <= 1 << 60 && n >= -(1 << 120) && n <= 1 << 120);
    expect_number(rt, round_half_up(n, d), want);
}

/// Expects that each quotient of a table is rounded to its number.
fn expect_all_rounded(rt: &impl Abort, cases: &[(i128, i128, i128)]) {
    for (n, d, want) in cases {
        expect_rounded(rt, *n, *d, *want);
    }
}

#[test]
fn rounds_ties_up_on_both_sides_of_0(rt: HostRuntime) {
    expect_all_rounded(&rt, QUOTIENTS);
}
