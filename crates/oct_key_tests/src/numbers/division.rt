//! Quotients rounded down.
use super::expect_number;
use oct_num::floor_div;
use std::process::Abort;

/// Numbers, their divisors, and the quotients rounded down.
const QUOTIENTS: &[(i128, i128, i128)] = &[
    (7, 2, 3),
    (-7, 2, -4),
    (6, 3, 2),
    (-6, 3, -2),
    (0, 5, 0),
    (1, 1000, 0),
    (-1, 1000, -1),
    (i128::MAX, 1, i128::MAX),
    (i128::MIN, 1, i128::MIN),
    (i128::MIN, i128::MAX, -2),
];

/// Expects that a quotient is rounded down to a number.
fn expect_floor(rt: &impl Abort, n: i128, d: i128, want: i128) {
    assert!(rt; d >= 1);
    expect_number(rt, floor_div(n, d), want);
}

/// Expects that each quotient of a table is rounded down to its number.
fn expect_floors(rt: &impl Abort, cases: &[(i128, i128, i128)]) {
    for (n, d, want) in cases {
        expect_floor(rt, *n, *d, *want);
    }
}

#[test]
fn rounds_down_on_both_sides_of_0(rt: HostRuntime) {
    expect_floors(&rt, QUOTIENTS);
}
