//! Pieces with at most one byte too many.
use super::expect_moved;
use oct_io::{FileBytes, MemorySource, read_piece};
use std::process::Abort;
use std::test::Fail;

/// Expects that a read with this much room moves these bytes.
fn expect_piece(rt: &impl Abort, source: &mut MemorySource, room: u64, want: &[u8]) {
    let mut buffer = [0u8; 8];
    let count = read_piece(source, &mut buffer, room);
    expect_moved(rt, &buffer, count, want);
}

#[test]
fn a_piece_has_at_most_one_byte_too_many(rt: HostRuntime) -> Result<(), Fail> {
    let bytes = FileBytes::from_slice(rt.alloc(), b"0123456789abc")?;
    let mut source = MemorySource::new(bytes, 64);
    expect_piece(&rt, &mut source, 2, b"012");
    expect_piece(&rt, &mut source, 100, b"3456789a");
    expect_piece(&rt, &mut source, 0, b"b");
    expect_piece(&rt, &mut source, 1, b"c");
    expect_piece(&rt, &mut source, 0, b"");
    Ok(())
}
