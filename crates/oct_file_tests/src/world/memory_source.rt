//! A source in memory that gives a few bytes at a time.
ghost use Rattle.std.specs.Prelude.{◌≤◌};

use super::expect_moved;
use oct_io::{FileBytes, MemorySource, Source};
use oct_num::Memory;
use std::alloc::Global;
use std::process::Abort;
use std::test::Fail;

/// Expects that a read into a buffer of this length moves these bytes.
fn expect_read(rt: &impl Abort, source: &mut MemorySource, room: usize, want: &str)
    requires { room ≤ 16 }
{
    let mut buffer = [0u8; 16];
    let count = source.read(&mut buffer[..room]);
    expect_moved(rt, &buffer, count, want.as_bytes());
}

/// Expects these pieces of ten digits, by reads of `most` bytes into buffers of a length.
fn expect_reads(
    rt: &impl Abort,
    alloc: Global,
    most: usize,
    room: usize,
    want: &[&str],
) -> Result<(), Memory> {
    assert!(rt; most > 0 && room <= 16);
    let mut source = MemorySource::new(FileBytes::from_slice(alloc, b"0123456789")?, most);
    for piece in want {
        expect_read(rt, &mut source, room, piece);
    }
    Ok(())
}

/// The most bytes of a read, the length of the buffer, and the pieces of ten digits.
const READS: &[(usize, usize, &[&str])] = &[
    (
        1,
        16,
        &["0", "1", "2", "3", "4", "5", "6", "7", "8", "9", "", ""],
    ),
    (2, 16, &["01", "23", "45", "67", "89", "", ""]),
    (7, 16, &["0123456", "789", "", ""]),
    (4096, 16, &["0123456789", "", ""]),
    (7, 4, &["0123", "4567", "89", "", ""]),
];

/// Expects the pieces of each row of a table.
fn expect_all_reads(
    rt: &impl Abort,
    alloc: Global,
    cases: &[(usize, usize, &[&str])],
) -> Result<(), Memory> {
    for (most, room, want) in cases {
        expect_reads(rt, alloc, *most, *room, want)?;
    }
    Ok(())
}

#[test]
fn every_length_of_read_gives_the_same_bytes(rt: HostRuntime) -> Result<(), Fail> {
    expect_all_reads(&rt, rt.alloc(), READS)?;
    Ok(())
}
