//! What is said where memory runs out.
use super::expect_text;
use oct_num::Memory;
use std::test::Fail;

#[test]
fn says_what_was_wanting(rt: HostRuntime) -> Result<(), Fail> {
    let text = format!(in rt.alloc(); "{Memory}")?;
    expect_text(&rt, text.as_bytes(), "out of memory");
    Ok(())
}
