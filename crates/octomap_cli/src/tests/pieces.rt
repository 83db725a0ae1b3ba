//! Inputs that are read in pieces of any length, and how many calls of the sink an answer takes.
ghost use Rattle.std.specs.Prelude.{◌<◌};

use super::{answer, expect_answer_by, expect_end, only, status_over};
use oct_io::{FailingSink, MemoryStore, Status};
use std::alloc::Global;
use std::process::Abort;
use std::test::Fail;

/// The status of the program on its words and an input, and what it writes to a sink that takes
/// whole pieces, but for the write of this number, which fails.
fn failing(
    alloc: Global,
    words: &[&str],
    input: &[u8],
    number: u64,
) -> Result<(Status, FailingSink), Fail> {
    let mut sink = FailingSink::new(alloc, 8192, only(alloc, number)?);
    let mut store = MemoryStore::new(alloc);
    let status = status_over(alloc, words, (input, 4096), &mut sink, &mut store)?;
    Ok((status, sink))
}

/// Expects that the program ends and writes so then.
fn expect_failing(
    rt: &impl Abort,
    alloc: Global,
    words: &[&str],
    input: &[u8],
    number: u64,
    want: (Status, &[u8]),
) -> Result<(), Fail> {
    let (status, sink) = failing(alloc, words, input, number)?;
    expect_end(rt, words, input, (status, sink.written()), want);
    Ok(())
}

/// What the program writes has at least three pieces, of 4,096 bytes each but for the last one, and
/// the sink is called once for each.
fn check_calls(rt: &impl Abort, alloc: Global, words: &[&str], input: &[u8]) -> Result<(), Fail> {
    let (_, whole) = answer(alloc, words, input, 4096, 100)?;
    let mut calls: u64 = 1;
    let mut length: usize = 0;
    for piece in whole.chunks(4096) {
        let front = whole.get(..length).unwrap_or(&[]);
        expect_failing(rt, alloc, words, input, calls, (Status::WriteFault, front))?;
        length = length.saturating_add(piece.len());
        calls = calls.saturating_add(1);
    }
    expect_failing(rt, alloc, words, input, calls, (Status::Done, &whole))?;
    assert!(rt; calls > 3);
    Ok(())
}

#[test]
fn a_file_takes_a_call_for_each_4096_bytes(rt: HostRuntime) -> Result<(), Fail> {
    let alloc = rt.alloc();
    let (_, script) = answer(alloc, &["gen", "1", "1", "30"], b"", 4096, 4096)?;
    check_calls(&rt, alloc, &["build", "0.05"], &script)?;
    let (_, file) = answer(alloc, &["build", "0.05"], &script, 4096, 4096)?;
    check_calls(&rt, alloc, &["convert"], &file)
}

/// Node data down to a block of eight voxels that is parted, all of them occupied.
const FOREIGN: &[u8] = b"# Octomap OcTree binary file\r\n# a comment\r\nauthor x\r\nsize 24\r\n\
      res 0.1\r\nid OcTree\r\ndata\r\n\
      \x00\xC0\x03\x00\x03\x00\x03\x00\x03\x00\x03\x00\x03\x00\x03\x00\x03\x00\x03\x00\x03\x00\x03\
      \x00\x03\x00\x03\x00\x03\x00\xAA\xAA";

/// Its canonical file.
const CANONICAL: &[u8] = b"# Octomap OcTree binary file\n\
      # (feel free to add / change comments, but leave the first line as it is!)\n#\nid OcTree\n\
      size 16\nres 0.1\ndata\n\
      \x00\xC0\x03\x00\x03\x00\x03\x00\x03\x00\x03\x00\x03\x00\x03\x00\x03\x00\x03\x00\x03\x00\x03\
      \x00\x03\x00\x03\x00\x02\x00";

/// Words, an input, what is written, and the status. The last line of the first script has no line
/// feed, and isn't read.
const CUT: &[(&[&str], &[u8], &[u8], Status)] = &[
    (
        &["session", "0.1"],
        b"hit 0 0 0\r\n\nget 0 0 0 16\nhit\nget 1 0 0 16\nquit\nhit 0 0 0",
        b"ok\nknown 850 occupied\nrefused 29 Syntax line 4 column 4\nunknown\n",
        Status::Refused,
    ),
    (
        &["session", "0.1", "--max-bytes", "22"],
        b"hit 0 0 0\nget 0 0 0 16\n",
        b"ok\n",
        Status::TooLong,
    ),
    (
        &["session", "0.1", "--max-bytes", "15"],
        b"hit 0 0 0\nquit\nhit 0 0 0\n",
        b"ok\n",
        Status::Done,
    ),
    (
        &["inspect"],
        FOREIGN,
        b"res 0.1\nsize 24\nrecords 16\nfree 0\noccupied 8\ncanonical no\n",
        Status::Done,
    ),
    (&["convert"], FOREIGN, CANONICAL, Status::Done),
];

/// Expects what each row says, by reads and writes of these lengths.
fn expect_all_by(rt: &impl Abort, alloc: Global, most_read: usize, most_written: usize)
    requires read { 0 < most_read }
    requires written { 0 < most_written }
{
    for &(words, input, text, ends) in CUT {
        let lengths = (most_read, most_written);
        expect_answer_by(rt, alloc, words, input, lengths, (ends, text));
    }
}

#[test]
fn any_cut_of_the_input_and_of_the_output_is_the_same(rt: HostRuntime) {
    for most_read in [1, 2, 5, 7, 4096] {
        expect_all_by(&rt, rt.alloc(), most_read, 3);
    }
    expect_all_by(&rt, rt.alloc(), 7, 4096);
}
