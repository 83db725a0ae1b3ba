//! A sink in memory that takes a few bytes at a time.
use super::{expect_bytes, expect_write, expect_write_all};
use oct_io::MemorySink;
use std::process::Abort;

/// Expects that these bytes were written so far.
fn expect_written(rt: &impl Abort, sink: &MemorySink, want: &[u8]) {
    expect_bytes(rt, sink.written(), want);
}

#[test]
fn a_sink_of_three_bytes_a_write_gets_whole_pieces(rt: HostRuntime) {
    let mut sink = MemorySink::new(rt.alloc(), 3);
    expect_write_all(&rt, &mut sink, b"", Ok(()));
    expect_write_all(&rt, &mut sink, b"occupied", Ok(()));
    expect_written(&rt, &sink, b"occupied");
    expect_write(&rt, &mut sink, b" or free", Ok(3));
    expect_write(&rt, &mut sink, b"", Ok(0));
    expect_write(&rt, &mut sink, b" ", Ok(1));
    expect_written(&rt, &sink, b"occupied or ");
}
