//! Lengths that are written, and read back.
ghost use Rattle.std.specs.Prelude.{◌^◌, ◌<◌, ◌≤◌};

use super::{expect_read, expect_text};
use oct_num::{Memory, fraction_text, metres_text, push_metres};
use std::alloc::Global;
use std::process::Abort;
use std::test::Fail;

const NM: i64 = 1_000_000_000;

/// Lengths in nanometres, and their texts.
const TEXTS: &[(i64, &str)] = &[
    (0, "0"),
    (NM, "1"),
    (-NM, "-1"),
    (10 * NM, "10"),
    (50_000_000, "0.05"),
    (100_000_000, "0.1"),
    (-170_000_000, "-0.17"),
    (1_623_000_000, "1.623"),
    (100_000, "0.0001"),
    (1, "0.000000001"),
    (-1, "-0.000000001"),
    (9_999_999_999_999_999, "9999999.999999999"),
    (i64::MAX, "9223372036.854775807"),
    (i64::MIN, "-9223372036.854775808"),
];

/// Expects that a length has a text.
fn expect_metres(rt: &impl Abort, nm: i64, want: &str) {
    expect_text(rt, metres_text(nm).as_bytes(), want);
}

/// Expects that bytes are `res ` and a text.
fn expect_behind(rt: &impl Abort, bytes: &[u8], want: &str) {
    match bytes.strip_prefix(b"res ".as_slice()) {
        Some(added) => expect_text(rt, added, want),
        None => panic!(rt; "another front"),
    }
}

/// Expects what a list that begins with `res ` has behind that once a length is added.
fn expect_added(rt: &impl Abort, alloc: Global, nm: i64, want: &str) -> Result<(), Memory> {
    let mut out = Vec::from_slice(alloc, b"res ")?;
    push_metres(&mut out, nm)?;
    expect_behind(rt, out.as_slice(), want);
    Ok(())
}

/// Expects that each length of a table has its text, and that this is added to a list.
fn expect_texts(rt: &impl Abort, alloc: Global, cases: &[(i64, &str)]) -> Result<(), Memory> {
    for (nm, want) in cases {
        expect_metres(rt, *nm, want);
        expect_added(rt, alloc, *nm, want)?;
    }
    Ok(())
}

#[test]
fn writes_nanometres_as_metres(rt: HostRuntime) -> Result<(), Fail> {
    expect_texts(&rt, rt.alloc(), TEXTS)?;
    Ok(())
}

/// Expects that a fraction of this many places has a text.
fn expect_fraction(rt: &impl Abort, places: u32, n: u64, want: &str)
    requires most { places ≤ 19 }
    requires few { n < 10 ^ places }
{
    expect_text(rt, fraction_text(places, n).as_bytes(), want);
}

#[test]
fn writes_fractions_without_zeros_at_the_end(rt: HostRuntime) {
    expect_fraction(&rt, 9, 0, "");
    expect_fraction(&rt, 9, 50_000_000, ".05");
    expect_fraction(&rt, 10, 500_005, ".0000500005");
}

/// Lengths in nanometres that can be read.
const LENGTHS: &[i64] = &[0, 1, -1, 50_000_000, -170_000_000, 9_999_999_999_999_999];

/// Expects that a length is read back from its text.
fn expect_read_back(rt: &impl Abort, nm: i64) {
    expect_read(rt, metres_text(nm).as_str(), Ok(nm));
}

/// Expects that each of these lengths is read back from its text.
fn expect_all_read_back(rt: &impl Abort, lengths: &[i64]) {
    for nm in lengths {
        expect_read_back(rt, *nm);
    }
}

#[test]
fn reads_back_what_it_writes(rt: HostRuntime) {
    expect_all_read_back(&rt, LENGTHS);
}
