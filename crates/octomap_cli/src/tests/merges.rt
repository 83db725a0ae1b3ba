//! Two files of a store of which one call fails, or a sink that does.
use super::{expect_answered, only, owned, status_of};
use oct_io::{FailingSink, FailingSource, FailingStore, FileBytes, Status, Store, StoreFault};
use std::alloc::Global;
use std::process::Abort;
use std::test::Fail;

/// The eight voxels from that of key 32768 on each axis are occupied.
const EIGHT: &[u8] = b"# Octomap OcTree binary file\n\
      # (feel free to add / change comments, but leave the first line as it is!)\n#\nid OcTree\n\
      size 16\nres 0.1\ndata\n\
      \x00\xC0\x03\x00\x03\x00\x03\x00\x03\x00\x03\x00\x03\x00\x03\x00\x03\x00\x03\x00\x03\x00\x03\
      \x00\x03\x00\x03\x00\x02\x00";

/// The voxel of key 32768 on each axis is free.
const ONE: &[u8] = b"# Octomap OcTree binary file\n\
      # (feel free to add / change comments, but leave the first line as it is!)\n#\nid OcTree\n\
      size 17\nres 0.1\ndata\n\
      \x00\xC0\x03\x00\x03\x00\x03\x00\x03\x00\x03\x00\x03\x00\x03\x00\x03\x00\x03\x00\x03\x00\x03\
      \x00\x03\x00\x03\x00\x03\x00\x01\x00";

/// That voxel is free, and the other seven are occupied.
const BOTH: &[u8] = b"# Octomap OcTree binary file\n\
      # (feel free to add / change comments, but leave the first line as it is!)\n#\nid OcTree\n\
      size 24\nres 0.1\ndata\n\
      \x00\xC0\x03\x00\x03\x00\x03\x00\x03\x00\x03\x00\x03\x00\x03\x00\x03\x00\x03\x00\x03\x00\x03\
      \x00\x03\x00\x03\x00\x03\x00\xA9\xAA";

/// The files of the store: `A` and `B`. There is no file `c`.
const FILES: &[(&str, &[u8])] = &[("A", EIGHT), ("B", ONE)];

/// Puts the files into a store.
fn fill<F: Store>(store: &mut F) -> Result<(), StoreFault> {
    for &(name, bytes) in FILES {
        store.save(name, bytes)?;
    }
    Ok(())
}

/// The number of the first load of a store, after the saves that fill it.
const FIRST_LOAD: u8 = 3;

/// The status of the program on its words, and what it wrote, where the write of one number fails,
/// from 1 on, and the call of the store of another; with 0 none does. Each write takes one byte,
/// and the first read of the input would fail.
fn torn(alloc: Global, words: &[&str], write: u8, call: u8) -> Result<(Status, Vec<u8>), Fail> {
    let texts = owned(alloc, words)?;
    let mut source = FailingSource::new(FileBytes::new(alloc), 1, only(alloc, 1)?);
    let mut sink = FailingSink::new(alloc, 1, only(alloc, u64::from(write))?);
    let mut store = FailingStore::new(alloc, only(alloc, u64::from(call))?);
    fill(&mut store)?;
    let status = status_of(alloc, &texts, &mut source, &mut sink, &mut store);
    Ok((status, Vec::from_slice(alloc, sink.written())?))
}

/// Expects that the program ends and writes so then.
fn expect_torn(
    rt: &impl Abort,
    alloc: Global,
    words: &[&str],
    (write, call): (u8, u8),
    want: (Status, &[u8]),
) {
    expect_answered(rt, words, b"", torn(alloc, words, write, call), want);
}

const MERGE: [&str; 4] = ["merge", "least", "A", "B"];

const TABLE: [&str; 9] = ["table", "A", "A", "0", "0", "0", "0", "0", "0"];

#[test]
fn a_load_that_fails_leaves_nothing_written(rt: HostRuntime) {
    let fault = (Status::StoreFault, b"".as_slice());
    for call in FIRST_LOAD..=4 {
        expect_torn(&rt, rt.alloc(), &MERGE, (0, call), fault);
        expect_torn(&rt, rt.alloc(), &TABLE, (0, call), fault);
    }
    expect_torn(&rt, rt.alloc(), &MERGE, (0, 5), (Status::Done, BOTH));
}

#[test]
fn behind_a_first_refusal_nothing_is_loaded(rt: HostRuntime) {
    let words = ["merge", "least", "c", "B"];
    let want = (Status::Refused, b"first refused 33 NoFile\n".as_slice());
    expect_torn(&rt, rt.alloc(), &words, (0, 4), want);
}

#[test]
fn a_write_that_fails_leaves_a_beginning(rt: HostRuntime) {
    for count in 0..=169u8 {
        let ends = if count == 169 {
            Status::Done
        } else {
            Status::WriteFault
        };
        let front = BOTH.get(..usize::from(count)).unwrap_or(&[]);
        expect_torn(&rt, rt.alloc(), &MERGE, (count + 1, 0), (ends, front));
    }
}
