//! Sources, sinks and stores of which one call fails: the first, the second, and so on, until none
//! does.
ghost use Rattle.std.specs.Prelude.{◌<◌};

use super::{expect_end, only, owned, status_of};
use oct_io::{FailingSink, FailingSource, FailingStore, FileBytes, Status};
use oct_num::Memory;
use std::alloc::Global;
use std::process::Abort;
use std::test::Fail;

/// The number of the read, of the write and of the call of the store that fails, from 1 on; with 0
/// none does.
#[derive(Clone, Copy)]
struct Failing {
    read: u64,
    write: u64,
    file: u64,
}

/// Nothing fails.
const WHOLE: Failing = Failing {
    read: 0,
    write: 0,
    file: 0,
};

/// The source of these bytes, by this many at most, whose read of that number fails.
fn source_of(alloc: Global, input: &[u8], most: usize, read: u64) -> Result<FailingSource, Memory>
    requires { 0 < most }
{
    let bytes = FileBytes::from_slice(alloc, input)?;
    Ok(FailingSource::new(bytes, most, only(alloc, read)?))
}

/// The status of the program on its words and this source, and what it leaves in sink and store.
/// Each write takes one byte.
fn torn_over(
    alloc: Global,
    words: &[String],
    source: &mut FailingSource,
    failing: Failing,
) -> Result<(Status, FailingSink, FailingStore), Memory> {
    let mut sink = FailingSink::new(alloc, 1, only(alloc, failing.write)?);
    let mut store = FailingStore::new(alloc, only(alloc, failing.file)?);
    let status = status_of(alloc, words, source, &mut sink, &mut store);
    Ok((status, sink, store))
}

/// The same on an input that is read by this many bytes.
fn torn(
    alloc: Global,
    words: &[&str],
    input: &[u8],
    most: usize,
    failing: Failing,
) -> Result<(Status, FailingSink, FailingStore), Fail>
    requires { 0 < most }
{
    let words = owned(alloc, words)?;
    let mut source = source_of(alloc, input, most, failing.read)?;
    Ok(torn_over(alloc, &words, &mut source, failing)?)
}

/// Expects that the program ends so on an input that is read by this many bytes, and that it has
/// written this then. Returns its store.
fn check_torn(
    rt: &impl Abort,
    alloc: Global,
    words: &[&str],
    input: (&[u8], usize),
    failing: Failing,
    want: (Status, &[u8]),
) -> Result<FailingStore, Fail> {
    let (bytes, most) = input;
    assert!(rt; most > 0);
    let (status, sink, store) = torn(alloc, words, bytes, most, failing)?;
    expect_end(rt, words, bytes, (status, sink.written()), want);
    Ok(store)
}

/// The first n bytes, or all where there are no more.
fn front(bytes: &[u8], length: usize) -> &[u8] {
    bytes.get(..length).unwrap_or(bytes)
}

/// The words of a session and of a build.
const SESSION: &[&str] = &["session", "0.1"];

const BUILD: &[&str] = &["build", "0.1"];

/// A script with each kind of command that changes the map or names a file.
const SCRIPT: &[u8] =
    b"hit 0 0 0\nscan 0 0 0 1 0 0 0 all\np 0 0 0\nend\nsave m\nload m\nsnapshot s\nrestore s\n";

/// Its replies.
const REPLIES: &[u8] =
    b"ok\nok hits 1 frees 0\nsaved 169\nloaded 17\nsaved 170\nrestored groups 16\n";

/// How many bytes of the script each reply takes, and how many bytes of replies there are then.
const REPLIED: &[(usize, usize)] = &[(10, 3), (45, 21), (52, 31), (59, 41), (70, 51), (80, 70)];

/// The file `m` that it saves: the one voxel is occupied.
const SAVED: &[u8] = b"# Octomap OcTree binary file\n\
      # (feel free to add / change comments, but leave the first line as it is!)\n#\nid OcTree\n\
      size 17\nres 0.1\ndata\n\
      \x00\xC0\x03\x00\x03\x00\x03\x00\x03\x00\x03\x00\x03\x00\x03\x00\x03\x00\x03\x00\x03\x00\x03\
      \x00\x03\x00\x03\x00\x03\x00\x02\x00";

/// What `inspect` says of it.
const INSPECTED: &[u8] = b"res 0.1\nsize 17\nrecords 16\nfree 0\noccupied 1\ncanonical yes\n";

/// How many bytes of replies there are once this many bytes of the script were read.
fn replied(taken: usize) -> usize {
    let mut length = 0;
    for &(script, replies) in REPLIED {
        if script <= taken {
            length = replies;
        }
    }
    length
}

/// The file `s` of the snapshot after the load: the one voxel has the largest value.
fn kept(alloc: Global) -> Result<FileBytes, Fail> {
    let mut bytes = FileBytes::from_slice(alloc, b"OCTSNAP2\0\0\0\0\x05\xf5\xe1\0")?;
    bytes.extend_from_slice(b"\0\0\x03\x52\xff\xff\xfe\x70\xff\xff\xf8\x30\0\0\x0d\xac\0\0\0\0\0")?;
    bytes.extend_from_slice(&[2, 0, 0, 0, 0, 0, 0, 0])?;
    bytes.extend_from_slice(&[2; 15])?;
    bytes.extend_from_slice(&[1, 0, 0, 0x0d, 0xac])?;
    bytes.extend_from_slice(&[0; 105])?;
    Ok(bytes)
}

/// Expects the bytes of a file, or that it isn't there.
fn expect_file(rt: &impl Abort, store: &FailingStore, name: &str, want: Option<&[u8]>) {
    assert_eq!(rt; store.file(name), want);
}

/// Of two files the first one is there or not, and so is the second.
fn check_files(
    rt: &impl Abort,
    alloc: Global,
    store: &FailingStore,
    has_saved: bool,
    has_kept: bool,
) -> Result<(), Fail> {
    let kept = kept(alloc)?;
    expect_file(rt, store, "m", has_saved.then_some(SAVED));
    expect_file(rt, store, "s", has_kept.then_some(kept.as_slice()));
    Ok(())
}

#[test]
fn a_read_that_fails_leaves_what_was_read_done(rt: HostRuntime) -> Result<(), Fail> {
    for taken in 0..=81u8 {
        let fault = Failing {
            read: u64::from(taken) + 1,
            ..WHOLE
        };
        let taken = usize::from(taken);
        let ends = if taken > 80 {
            Status::Done
        } else {
            Status::ReadFault
        };
        let want = (ends, front(REPLIES, replied(taken)));
        let store = check_torn(&rt, rt.alloc(), SESSION, (SCRIPT, 1), fault, want)?;
        check_files(&rt, rt.alloc(), &store, taken >= 52, taken >= 70)?;
    }
    Ok(())
}

#[test]
fn a_write_that_fails_ends_the_session(rt: HostRuntime) -> Result<(), Fail> {
    for written in 0..=70u8 {
        let fault = Failing {
            write: u64::from(written) + 1,
            ..WHOLE
        };
        let written = usize::from(written);
        let ends = if written == 70 {
            Status::Done
        } else {
            Status::WriteFault
        };
        let want = (ends, front(REPLIES, written));
        let store = check_torn(&rt, rt.alloc(), SESSION, (SCRIPT, 7), fault, want)?;
        check_files(&rt, rt.alloc(), &store, written >= 21, written >= 41)?;
    }
    Ok(())
}

#[test]
fn a_file_that_fails_ends_the_session(rt: HostRuntime) -> Result<(), Fail> {
    for (number, ends, length, has_saved, has_kept) in [
        (1, Status::StoreFault, 21, false, false),
        (2, Status::StoreFault, 31, true, false),
        (3, Status::StoreFault, 41, true, false),
        (4, Status::StoreFault, 51, true, true),
        (5, Status::Done, 70, true, true),
    ] {
        let fault = Failing {
            file: number,
            ..WHOLE
        };
        let want = (ends, front(REPLIES, length));
        let store = check_torn(&rt, rt.alloc(), SESSION, (SCRIPT, 7), fault, want)?;
        check_files(&rt, rt.alloc(), &store, has_saved, has_kept)?;
        let built = if number == 5 { SAVED } else { b"" };
        let store = check_torn(&rt, rt.alloc(), BUILD, (SCRIPT, 7), fault, (ends, built))?;
        check_files(&rt, rt.alloc(), &store, has_saved, has_kept)?;
    }
    Ok(())
}

/// The picture of its voxel's column, and one beside it.
const GRID: &[u8] = b"P5\n2 1\n255\n\xCD\0";

/// The scene of its voxel.
const SCENE: &[u8] = b"#VRML V2.0 utf8\nTransform { translation 0.05 0.05 0.05 children \
    [ Shape { geometry Box { size 0.1 0.1 0.1 } } ] }\n";

/// Words, an input, what is written once all of it was read, and whether files are saved meanwhile.
const TASKS: &[(&[&str], &[u8], &[u8], bool)] = &[
    (
        &["project", "-0.1", "0", "0", "0", "0", "0"],
        SAVED,
        GRID,
        false,
    ),
    (&["vrml"], SAVED, SCENE, false),
    (
        &["frontier", "0", "0", "0", "0", "0", "0"],
        SAVED,
        b"end 0\n",
        false,
    ),
    (&["convert"], SAVED, SAVED, false),
    (&["inspect"], SAVED, INSPECTED, false),
    (&["build", "0.1"], SCRIPT, SAVED, true),
];

#[test]
fn a_read_that_fails_leaves_nothing_written(rt: HostRuntime) -> Result<(), Fail> {
    for &(words, input, whole, saves) in TASKS {
        for taken in 0..=170u8 {
            let fault = Failing {
                read: u64::from(taken) + 1,
                ..WHOLE
            };
            let want = if usize::from(taken) > input.len() {
                (Status::Done, whole)
            } else {
                (Status::ReadFault, b"".as_slice())
            };
            let store = check_torn(&rt, rt.alloc(), words, (input, 1), fault, want)?;
            let has_saved = saves && taken >= 52;
            let has_kept = saves && taken >= 70;
            check_files(&rt, rt.alloc(), &store, has_saved, has_kept)?;
        }
    }
    Ok(())
}

#[test]
fn a_write_that_fails_leaves_a_front(rt: HostRuntime) -> Result<(), Fail> {
    for &(words, input, whole, saves) in TASKS {
        for written in 0..=169u8 {
            let fault = Failing {
                write: u64::from(written) + 1,
                ..WHOLE
            };
            let written = usize::from(written);
            let ends = if written < whole.len() {
                Status::WriteFault
            } else {
                Status::Done
            };
            let want = (ends, front(whole, written));
            let store = check_torn(&rt, rt.alloc(), words, (input, 100), fault, want)?;
            check_files(&rt, rt.alloc(), &store, saves, saves)?;
        }
    }
    Ok(())
}

#[test]
fn a_write_that_fails_ends_a_task_without_input(rt: HostRuntime) -> Result<(), Fail> {
    let tasks: [(&[&str], u8); 2] = [
        (&["gen", "1", "2", "3"], b'#'),
        (&["drill", "1", "1", "2"], b's'),
    ];
    let fault = Failing { write: 2, ..WHOLE };
    for (words, first) in tasks {
        let text = [first];
        let want = (Status::WriteFault, text.as_slice());
        check_torn(&rt, rt.alloc(), words, (b"", 1), fault, want)?;
    }
    Ok(())
}

/// A session of at most 100 bytes over an input that is read by this many bytes: its status and its
/// replies.
fn check_session(
    rt: &impl Abort,
    alloc: Global,
    input: (&[u8], usize),
    fault: Failing,
    ends: Status,
    replies: &[u8],
) -> Result<(), Fail> {
    let words = ["session", "0.1", "--max-bytes", "100"];
    check_torn(rt, alloc, &words, input, fault, (ends, replies))?;
    Ok(())
}

#[test]
fn nothing_is_read_or_done_that_need_not_be(rt: HostRuntime) -> Result<(), Fail> {
    let second = Failing { read: 2, ..WHOLE };
    let alloc = rt.alloc();
    let hit = b"hit 0 0 0\nget 0 0 0 16\n";
    check_session(&rt, alloc, (hit, 12), second, Status::ReadFault, b"ok\n")?;
    let shut = Failing { write: 1, ..WHOLE };
    check_session(&rt, alloc, (hit, 100), shut, Status::WriteFault, b"")?;
    let saved = b"hit 0 0 0\nsave m\nclear\nload m\nget 0 0 0 16\nload n\nchanges\n";
    let first = Failing { file: 1, ..WHOLE };
    check_session(&rt, alloc, (saved, 100), first, Status::StoreFault, b"ok\n")?;
    check_session(&rt, alloc, (b"quit\n", 5), second, Status::Done, b"")?;
    check_session(
        &rt,
        alloc,
        (b"hit 0 0 0\nquit\n", 100),
        second,
        Status::Done,
        b"ok\n",
    )?;
    let scan = b"scan 0 0 0 1 0 0 0 all\n";
    check_session(&rt, alloc, (scan, 100), second, Status::ReadFault, b"")?;
    let wrong = b"hit 0 0 0\nhit 0 0 0 x\nquit";
    let refused = b"ok\nrefused 29 Syntax line 2 column 11\n";
    check_session(&rt, alloc, (wrong, 100), second, Status::ReadFault, refused)?;
    let full = b"hit 0 0 0\nhit 0 0 0\nhit 0 0 0\nhit 0 0 0\nhit 0 0 0\n\
        hit 0 0 0\nhit 0 0 0\nhit 0 0 0\nhit 0 0 0\nhit 0 0 0\n";
    let tens = b"ok\nok\nok\nok\nok\nok\nok\nok\nok\nok\n";
    check_session(&rt, alloc, (full, 100), second, Status::ReadFault, tens)
}
