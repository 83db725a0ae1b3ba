//! Roots rounded up.
use oct_num::ceil_sqrt;
use std::process::Abort;

/// Numbers, and their roots rounded up.
const ROOTS: &[(u128, u64)] = &[
    (0, 0),
    (1, 1),
    (2, 2),
    (3, 2),
    (4, 2),
    (5, 3),
    (9, 3),
    (10, 4),
    (1 << 110, 1 << 55),
    ((1 << 110) - 1, 1 << 55),
    ((1 << 110) + 1, (1 << 55) + 1),
    ((1 << 112) - 1, 1 << 56),
    (1 << 112, 1 << 56),
];

/// Expects this root of a number.
fn expect_value(rt: &impl Abort, n: u128, root: u64, want: u64) {
    assert_eq!(rt; root, want, "at {n}");
}

/// Expects that the root of a number is rounded up to another.
fn expect_root(rt: &impl Abort, n: u128, want: u64) {
    assert!(rt; n <= 1 << 112);
    expect_value(rt, n, ceil_sqrt(n), want);
}

/// Expects that the root of each number of a table is rounded up to its partner.
fn expect_roots(rt: &impl Abort, cases: &[(u128, u64)]) {
    for (n, want) in cases {
        expect_root(rt, *n, *want);
    }
}

#[test]
fn rounds_roots_up(rt: HostRuntime) {
    expect_roots(&rt, ROOTS);
}
