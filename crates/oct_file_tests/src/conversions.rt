//! Files from sources in memory, and from one that fails, and what the tasks write of them.
ghost use Rattle.std.specs.Prelude.{◌<◌};

use oct_bt::{BtFault, HeaderWord};
use oct_file_tasks::{FileTask, NoFile, answer_over_file, read_file};
use oct_io::{FailingSource, FileBytes, KeptList, MemorySink, MemorySource, Status};
use oct_num::Memory;
use std::alloc::Global;
use std::process::Abort;
use std::test::Fail;

/// A file of 61 bytes, whose voxels are all occupied.
const FILE: &[u8] = b"# Octomap OcTree binary file\nid OcTree\nsize 9\nres 0.1\ndata\n\xAA\xAA";

/// The most bytes that a file may have, the file, and the nodes that it has or why there is none.
type Case = (u64, &'static [u8], Result<u64, NoFile>);

const CASES: &[Case] = &[
    (61, FILE, Ok(9)),
    (1 << 32, FILE, Ok(9)),
    (60, FILE, Err(NoFile::TooLong)),
    (0, b"x", Err(NoFile::TooLong)),
    (0, b"", Err(NoFile::BadFile(BtFault::NotOctomap))),
    (
        100,
        b"# Octomap OcTree binary file\n",
        Err(NoFile::BadFile(BtFault::MissingField {
            word: HeaderWord::Data,
        })),
    ),
    (3, b"abcd", Err(NoFile::TooLong)),
];

/// The nodes of a file that is read by reads of this length, or why there is none.
fn nodes_read(alloc: Global, bytes: &[u8], max_bytes: u64, most: usize) -> Result<u64, NoFile>
    requires { 0 < most }
{
    let mut source = MemorySource::new(FileBytes::from_slice(alloc, bytes)?, most);
    let file = read_file(alloc, max_bytes, &mut source)?;
    Ok(file.nodes())
}

/// Reads each file of the table, by reads of this length.
fn check(rt: &impl Abort, alloc: Global, most: usize)
    requires { 0 < most }
{
    for (max_bytes, bytes, want) in CASES {
        let got = nodes_read(alloc, bytes, *max_bytes, most);
        assert_eq!(rt; got, *want, "{bytes:?} within {max_bytes}");
    }
}

#[test]
fn reads_a_file_in_pieces_of_any_length(rt: HostRuntime) {
    check(&rt, rt.alloc(), 1);
    check(&rt, rt.alloc(), 7);
    check(&rt, rt.alloc(), 4096);
}

/// The most bytes that a file may have, the file, what `convert` and `inspect` write, and how both
/// end.
type TaskCase = (u64, &'static [u8], &'static [u8], &'static [u8], Status);

const TASKS: &[TaskCase] = &[
    (
        61,
        FILE,
        b"# Octomap OcTree binary file\n\
            # (feel free to add / change comments, but leave the first line as it is!)\n#\n\
            id OcTree\nsize 9\nres 0.1\ndata\n\xAA\xAA",
        b"res 0.1\nsize 9\nrecords 1\nfree 0\noccupied 281474976710656\ncanonical yes\n",
        Status::Done,
    ),
    (
        100,
        b"# Octomap OcTree binary file\nid OcTree\nsize 12\nres 0.25\ndata\n\x06\xC0\x55\x55",
        b"# Octomap OcTree binary file\n\
            # (feel free to add / change comments, but leave the first line as it is!)\n#\n\
            id OcTree\nsize 4\nres 0.25\ndata\n\x06\x40",
        b"res 0.25\nsize 12\nrecords 2\nfree 70368744177664\noccupied 35184372088832\n\
            canonical no\n",
        Status::Done,
    ),
    (
        100,
        b"# Octomap OcTree binary file\nid OcTree\nsize 1\nres 0.1\ndata\n\0\0",
        b"# Octomap OcTree binary file\n\
            # (feel free to add / change comments, but leave the first line as it is!)\n#\n\
            id OcTree\nsize 0\nres 0.1\ndata\n",
        b"res 0.1\nsize 1\nrecords 1\nfree 0\noccupied 0\ncanonical no\n",
        Status::Done,
    ),
    (
        100,
        b"# Octomap OcTree binary file\n",
        b"refused 13 MissingField data\n",
        b"refused 13 MissingField data\n",
        Status::BadFile,
    ),
    (60, FILE, b"", b"", Status::TooLong),
];

/// A source of these bytes in reads of seven.
fn source_of(alloc: Global, bytes: &[u8]) -> Result<MemorySource, Memory> {
    Ok(MemorySource::new(FileBytes::from_slice(alloc, bytes)?, 7))
}

/// The most bytes of a file that may be asked for.
const MOST: u64 = 1 << 32;

/// Expects what a task over a file writes, by writes of three bytes, and how it ends.
fn expect(
    rt: &impl Abort,
    alloc: Global,
    task: FileTask,
    max_bytes: u64,
    bytes: &[u8],
    want: (&[u8], Status),
) -> Result<(), Memory> {
    assert!(rt; max_bytes <= MOST);
    let mut source = source_of(alloc, bytes)?;
    let mut sink = MemorySink::new(alloc, 3);
    let ending = answer_over_file(alloc, task, max_bytes, &mut source, &mut sink);
    assert_eq!(rt; (sink.written(), ending), want, "{task:?} of {bytes:?}");
    Ok(())
}

#[test]
fn converts_and_inspects_files(rt: HostRuntime) -> Result<(), Fail> {
    for (max_bytes, bytes, converted, inspected, ends) in TASKS {
        let alloc = rt.alloc();
        expect(
            &rt,
            alloc,
            FileTask::Convert,
            *max_bytes,
            bytes,
            (converted, *ends),
        )?;
        expect(
            &rt,
            alloc,
            FileTask::Inspect,
            *max_bytes,
            bytes,
            (inspected, *ends),
        )?;
    }
    Ok(())
}

/// Expects a read fault of a file that comes a byte at a time, where this read fails.
fn expect_read_fault(
    rt: &impl Abort,
    alloc: Global,
    bytes: &[u8],
    number: u64,
) -> Result<(), Fail> {
    let mut fails = KeptList::new(alloc);
    fails.push(number)?;
    let mut source = FailingSource::new(FileBytes::from_slice(alloc, bytes)?, 1, fails);
    let got = read_file(alloc, 1, &mut source).err();
    assert_eq!(rt; got, Some(NoFile::ReadFault));
    Ok(())
}

#[test]
fn a_failed_read_comes_before_a_bad_file(rt: HostRuntime) -> Result<(), Fail> {
    expect_read_fault(&rt, rt.alloc(), b"", 1)?;
    expect_read_fault(&rt, rt.alloc(), b"x", 2)
}
