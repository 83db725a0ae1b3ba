//! Bytes of a file, in the order of their adding.
use super::{expect_bytes, expect_count};
use oct_io::FileBytes;
use std::process::Abort;
use std::test::Fail;

/// Expects this many bytes.
fn expect_length(rt: &impl Abort, bytes: &FileBytes, want: u64) {
    expect_count(rt, bytes.len() as u64, want);
    assert!(rt; bytes.is_empty() == (want == 0));
}

#[test]
fn bytes_stand_in_the_order_of_their_adding(rt: HostRuntime) -> Result<(), Fail> {
    let mut bytes = FileBytes::new(rt.alloc());
    expect_bytes(&rt, bytes.as_slice(), b"");
    expect_length(&rt, &bytes, 0);
    bytes.push(b'm')?;
    bytes.extend_from_slice(b"ap")?;
    expect_bytes(&rt, bytes.as_slice(), b"map");
    expect_length(&rt, &bytes, 3);
    Ok(())
}

#[test]
fn a_list_of_bytes_is_taken_over(rt: HostRuntime) -> Result<(), Fail> {
    let taken_over = FileBytes::from(vec![in rt.alloc(); 1, 2]?);
    expect_bytes(&rt, taken_over.as_slice(), &[1, 2]);
    Ok(())
}
