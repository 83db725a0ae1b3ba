//! Numbers: read, written, divided and rounded.

mod division;
mod memory;
mod metres;
mod metres_writing;
mod root;
mod rounding;
mod sign;
mod whole;

use oct_num::{NumFault, read_metres};
use std::process::Abort;

/// Expects that bytes are a text.
fn expect_text(rt: &impl Abort, bytes: &[u8], want: &str) {
    assert_eq!(rt; str::from_utf8(bytes).ok(), Some(want));
}

/// Expects a whole number.
fn expect_number(rt: &impl Abort, number: i128, want: i128) {
    assert_eq!(rt; number, want);
}

/// Expects what a text is read as.
fn expect_read(rt: &impl Abort, text: &str, want: Result<i64, NumFault>) {
    assert_eq!(rt; read_metres(text.as_bytes()), want, "at {text:?}");
}
