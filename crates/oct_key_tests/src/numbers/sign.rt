//! A minus that is taken off.
use oct_num::split_sign;
use std::process::Abort;

/// Expects whether a text begins with a minus, and the text without it.
fn expect_split(rt: &impl Abort, text: &str, minus: bool, rest: &str) {
    assert_eq!(rt; split_sign(text.as_bytes()), (minus, rest.as_bytes()));
}

#[test]
fn takes_a_minus_off(rt: HostRuntime) {
    expect_split(&rt, "-5", true, "5");
    expect_split(&rt, "5", false, "5");
    expect_split(&rt, "--5", true, "-5");
    expect_split(&rt, "", false, "");
}
