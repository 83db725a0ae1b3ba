//! Whole numbers that are read and written.
use super::expect_text;
use oct_num::{Memory, push_whole, read_natural, read_whole};
use std::alloc::Global;
use std::process::Abort;
use std::test::Fail;

/// Texts, and the whole numbers that they are, if any.
const TEXTS: &[(&str, Option<i64>)] = &[
    ("0", Some(0)),
    ("-0", Some(0)),
    ("42", Some(42)),
    ("-42", Some(-42)),
    ("007", Some(7)),
    ("999999999999999999", Some(999_999_999_999_999_999)),
    ("-999999999999999999", Some(-999_999_999_999_999_999)),
    ("000000000000000001", Some(1)),
    ("1000000000000000000", None),
    ("0000000000000000001", None),
    ("-0000000000000000001", None),
    ("", None),
    ("-", None),
    ("--1", None),
    ("+1", None),
    (" 1", None),
    ("1 ", None),
    ("1.0", None),
    ("1e3", None),
    ("1-", None),
];

/// Expects that a text is a whole number, or none.
fn expect_read(rt: &impl Abort, text: &str, want: Option<i64>) {
    assert_eq!(rt; read_whole(text.as_bytes()), want, "at {text:?}");
}

/// Expects that each text of a table is its whole number, or none.
fn expect_reads(rt: &impl Abort, cases: &[(&str, Option<i64>)]) {
    for (text, want) in cases {
        expect_read(rt, text, *want);
    }
}

#[test]
fn reads_whole_numbers(rt: HostRuntime) {
    expect_reads(&rt, TEXTS);
}

/// Texts, and the numbers without a sign that they are, if any.
const NATURALS: &[(&str, Option<u64>)] = &[
    ("0", Some(0)),
    ("007", Some(7)),
    ("42", Some(42)),
    ("999999999999999999", Some(999_999_999_999_999_999)),
    ("1000000000000000000", None),
    ("", None),
    ("-1", None),
    ("1 ", None),
];

/// Expects that a text is a number without a sign, or none.
fn expect_natural(rt: &impl Abort, text: &str, want: Option<u64>) {
    assert_eq!(rt; read_natural(text.as_bytes()), want, "at {text:?}");
}

/// Expects that each text of a table is its number without a sign, or none.
fn expect_naturals(rt: &impl Abort, cases: &[(&str, Option<u64>)]) {
    for (text, want) in cases {
        expect_natural(rt, text, *want);
    }
}

#[test]
fn reads_numbers_without_a_sign(rt: HostRuntime) {
    expect_naturals(&rt, NATURALS);
}

/// Whole numbers, and what a list that begins with `n=` holds once they are added.
const NUMBERS: &[(i64, &str)] = &[
    (0, "n=0"),
    (7, "n=7"),
    (-1, "n=-1"),
    (1_000_000, "n=1000000"),
    (i64::MAX, "n=9223372036854775807"),
    (i64::MIN, "n=-9223372036854775808"),
];

/// Expects what a list that begins with `n=` holds once a number is added.
fn expect_appended(rt: &impl Abort, alloc: Global, n: i64, want: &str) -> Result<(), Memory> {
    let mut out = Vec::from_slice(alloc, b"n=")?;
    push_whole(&mut out, n)?;
    expect_text(rt, out.as_slice(), want);
    Ok(())
}

/// Expects that each number of a table is added as its text.
fn expect_all_appended(
    rt: &impl Abort,
    alloc: Global,
    cases: &[(i64, &str)],
) -> Result<(), Memory> {
    for (n, want) in cases {
        expect_appended(rt, alloc, *n, want)?;
    }
    Ok(())
}

#[test]
fn appends_whole_numbers(rt: HostRuntime) -> Result<(), Fail> {
    expect_all_appended(&rt, rt.alloc(), NUMBERS)?;
    Ok(())
}
