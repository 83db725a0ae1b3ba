//! Lengths that are read, and where a text stops being one.
use super::{expect_read, expect_text};
use oct_num::{NumFault, metres_at};
use std::process::Abort;
use std::test::Fail;

const NM: i64 = 1_000_000_000;

/// Lengths in metres, and their nanometres.
const LENGTHS: &[(&str, i64)] = &[
    ("0", 0),
    ("1", NM),
    ("-1", -NM),
    ("0.05", 50_000_000),
    ("1.5", 1_500_000_000),
    ("007.250", 7_250_000_000),
    ("-0", 0),
    ("-0.0", 0),
    ("0000000", 0),
    ("0.000000001", 1),
    ("-0.000000001", -1),
    ("1234567.123456789", 1_234_567_123_456_789),
    ("9999999.999999999", 9_999_999_999_999_999),
    ("-9999999.999999999", -9_999_999_999_999_999),
];

/// Expects that each text of a table is its length.
fn expect_lengths(rt: &impl Abort, cases: &[(&str, i64)]) {
    for (text, want) in cases {
        expect_read(rt, text, Ok(*want));
    }
}

#[test]
fn reads_metres_as_nanometres(rt: HostRuntime) {
    expect_lengths(&rt, LENGTHS);
}

/// Texts that aren't numbers, and the bytes at which they stop being one.
const NO_NUMBERS: &[(&str, u64)] = &[
    ("", 0),
    ("-", 1),
    (".5", 0),
    ("-.5", 1),
    ("1.", 2),
    ("5.", 2),
    ("-1.", 3),
    ("1..2", 2),
    ("1.2.3", 3),
    ("1,5", 1),
    ("+1", 0),
    ("--1", 1),
    ("1-", 1),
    ("1.-5", 2),
    ("1e5", 1),
    ("1.5e3", 3),
    (" 1", 0),
    ("1 ", 1),
    ("nan", 0),
    ("½", 0),
    ("12345678.", 9),
    ("12345678x", 8),
    ("1.1234567890x", 12),
];

/// Expects that each text of a table stops being a number at its byte.
fn expect_syntaxes(rt: &impl Abort, cases: &[(&str, u64)]) {
    for (text, at) in cases {
        expect_read(rt, text, Err(NumFault::Syntax { at: *at }));
    }
}

#[test]
fn finds_where_a_text_stops_being_a_number(rt: HostRuntime) {
    expect_syntaxes(&rt, NO_NUMBERS);
}

/// Numbers of too many digits, and the bytes of the first digits too many.
const LONG_NUMBERS: &[(&str, u64)] = &[
    ("12345678", 7),
    ("-12345678", 8),
    ("00000001", 7),
    ("123456789.5", 7),
    ("1.1234567890", 11),
    ("-1.1234567890", 12),
    ("1234567.0000000000", 17),
    ("12345678.1234567890", 7),
];

/// Expects that each text of a table has its first digit too many at its byte.
fn expect_excesses(rt: &impl Abort, cases: &[(&str, u64)]) {
    for (text, at) in cases {
        expect_read(rt, text, Err(NumFault::Digits { at: *at }));
    }
}

#[test]
fn finds_the_first_digit_too_many(rt: HostRuntime) {
    expect_excesses(&rt, LONG_NUMBERS);
}

/// Texts, and the lengths that they begin with and the indices of what follows these, if any.
const FRONTS: &[(&str, Option<(i64, usize)>)] = &[
    ("1.5 2", Some((1_500_000_000, 3))),
    ("-0.05", Some((-50_000_000, 5))),
    ("7.", Some((7 * NM, 1))),
    ("1.2.3", Some((1_200_000_000, 3))),
    (".5", None),
    ("-", None),
    ("12345678", None),
    ("1.1234567890", None),
];

/// Expects the length that each text of a table begins with.
fn expect_fronts(rt: &impl Abort, cases: &[(&str, Option<(i64, usize)>)]) {
    for (text, want) in cases {
        assert_eq!(rt; metres_at(text.as_bytes(), 0), *want);
    }
}

#[test]
fn takes_the_length_that_a_text_begins_with(rt: HostRuntime) {
    expect_fronts(&rt, FRONTS);
}

#[test]
fn prints_the_faults(rt: HostRuntime) -> Result<(), Fail> {
    let syntax = NumFault::Syntax { at: 3 };
    let digits = NumFault::Digits { at: 7 };
    let text = format!(in rt.alloc(); "{syntax}; {digits}")?;
    let want = "no decimal number at byte 3; a digit too many at byte 7";
    expect_text(&rt, text.as_bytes(), want);
    Ok(())
}
