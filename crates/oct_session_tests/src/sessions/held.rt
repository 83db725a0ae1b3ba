//! Replies that are held until they are written, and what is done until then.
use super::*;

/// A script that one read gives, with the replies to seven of its lines.
const CHANGES: &str = "hit 0 0 0 lazy\nget 0 0 0 16\nhit 0.1 0 0\n# aside\nhit 0 x\nrefresh\n\
    miss 0.1 0 0\nscan 0 0 0 1 0 0 0 all\np 0.1 0 0\nend\n";

/// Its replies, of 83 bytes.
const REPLIES: &str = "ok\nknown 850 occupied\nok\nrefused 29 Syntax line 5 column 7\nok\nok\n\
    ok hits 1 frees 1\n";

/// The values of the two voxels after each line that is replied to, and whether the map is stale.
const AFTER: &[(Option<i32>, Option<i32>, bool)] = &[
    (Some(850), None, true),
    (Some(850), None, true),
    (Some(850), Some(850), true),
    (Some(850), Some(850), true),
    (Some(850), Some(850), false),
    (Some(850), Some(450), false),
    (Some(450), Some(1300), false),
];

/// How many lines end in these bytes.
fn lines_in(bytes: &[u8]) -> usize {
    let mut count = 0usize;
    for byte in bytes {
        if *byte == b'\n' {
            count = count.saturating_add(1);
        }
    }
    count
}

/// Expects that a session whose write of this number fails leaves the map as it is after the first
/// line whose reply wasn't written whole.
fn expect_cut(rt: &impl Abort, alloc: Global, number: u64) -> Result<(), Fail> {
    let mut source = script(alloc, CHANGES, 200)?;
    let mut sink = FailingSink::new(alloc, 7, only(alloc, number)?);
    let (status, map) = ended_alone(alloc, 1000, &mut source, &mut sink)?;
    expect_status(rt, status, Status::WriteFault);
    let whole = lines_in(sink.written());
    let after = AFTER.get(whole);
    assert!(rt; after.is_some(), "write {number}");
    if let Some((origin, beside, is_stale)) = after {
        expect_map(rt, &map, *origin, *beside, *is_stale);
    }
    Ok(())
}

// In pieces of 7 bytes, 22 bytes of replies are written before the second edit, then its own 3, 34
// before the refresh, 3 before the third edit, then its own 3, and 18 at the end of the read: 15
// writes.
#[test]
fn a_change_waits_for_the_reply_before_it(rt: HostRuntime) -> Result<(), Fail> {
    for number in 1u64..=15 {
        expect_cut(&rt, rt.alloc(), number)?;
    }
    Ok(())
}

#[test]
fn replies_that_are_held_are_written_whole(rt: HostRuntime) -> Result<(), Fail> {
    let mut source = script(rt.alloc(), CHANGES, 200)?;
    let mut sink = FailingSink::new(rt.alloc(), 7, only(rt.alloc(), 16)?);
    let (status, map) = ended_alone(rt.alloc(), 1000, &mut source, &mut sink)?;
    let refused = (Status::Refused, REPLIES);
    expect_answer(&rt, CHANGES, (status, sink.written()), refused);
    expect_map(&rt, &map, Some(450), Some(1300), false);
    Ok(())
}

/// Lines that change nothing: a question of each kind, a faulty line, two without a reply, the end.
const QUESTIONS: &str = "get 0 0 0 16\nlist 0 0 0 0 0 0 16\ncast 0 0 0 1 0 0\nchanges\nhit 0 x\n\
    # aside\n\nget 0 0 0 16\nquit\n";

/// Their replies.
const ANSWERS: &str = "unknown\nend 0\ncast unknown 32768 32768 32768\nrefused 28 NotTracked\n\
    refused 29 Syntax line 5 column 7\nunknown\n";

#[test]
fn lines_that_change_nothing_share_a_write(rt: HostRuntime) -> Result<(), Fail> {
    let mut source = script(rt.alloc(), QUESTIONS, 200)?;
    let mut sink = FailingSink::new(rt.alloc(), 200, only(rt.alloc(), 2)?);
    let (status, _) = ended_alone(rt.alloc(), 1000, &mut source, &mut sink)?;
    let refused = (Status::Refused, ANSWERS);
    expect_answer(&rt, QUESTIONS, (status, sink.written()), refused);
    Ok(())
}

/// A query of 13 bytes, 1,300 times.
fn queries(alloc: Global) -> Result<FileBytes, Memory> {
    let mut bytes = FileBytes::new(alloc);
    for _ in 0u64..1300 {
        bytes.extend_from_slice(b"get 0 0 0 16\n")?;
    }
    Ok(bytes)
}

/// Expects how many bytes a session on these queries has written when its write of this number
/// fails.
fn expect_held(
    rt: &impl Abort,
    alloc: Global,
    number: u64,
    want: (Status, usize),
) -> Result<(), Fail> {
    let mut source = MemorySource::new(queries(alloc)?, 100_000);
    let mut sink = FailingSink::new(alloc, 100_000, only(alloc, number)?);
    let (status, _) = ended_alone(alloc, 20_000, &mut source, &mut sink)?;
    assert_eq!(rt; (status, sink.written().len()), want, "write {number}");
    Ok(())
}

/// The number of the write that fails, how the session ends, and how many bytes it has written.
type Held = (u64, (Status, usize));

/// What is written of the replies to the queries.
const ANSWERED: &[Held] = &[
    (1, (Status::WriteFault, 0)),
    (2, (Status::WriteFault, 4096)),
    (3, (Status::WriteFault, 8192)),
    (4, (Status::WriteFault, 10_080)),
    (5, (Status::Done, 10_400)),
];

/// Expects what each row of a table says of the queries.
fn expect_all_held(rt: &impl Abort, alloc: Global, rows: &[Held]) -> Result<(), Fail> {
    for (number, want) in rows {
        expect_held(rt, alloc, *number, *want)?;
    }
    Ok(())
}

// A read gives 16,384 bytes, in which 1,260 queries end, and each reply has 8 bytes: 512 replies
// are 4,096 bytes, and are written at once.
#[test]
fn replies_are_held_up_to_their_limit_and_within_one_read(rt: HostRuntime) -> Result<(), Fail> {
    expect_all_held(&rt, rt.alloc(), ANSWERED)?;
    Ok(())
}

/// An edit of 10 bytes, 300 times.
fn edits(alloc: Global) -> Result<FileBytes, Memory> {
    let mut bytes = FileBytes::new(alloc);
    for _ in 0u64..300 {
        bytes.extend_from_slice(b"hit 0 0 0\n")?;
    }
    Ok(bytes)
}

/// Expects how many bytes a session on these edits has written when its write of this number fails.
fn expect_together(
    rt: &impl Abort,
    alloc: Global,
    number: u64,
    want: (Status, usize),
) -> Result<(), Fail> {
    let mut source = MemorySource::new(edits(alloc)?, 100_000);
    let mut sink = FailingSink::new(alloc, 100_000, only(alloc, number)?);
    let (status, _) = ended_alone(alloc, 20_000, &mut source, &mut sink)?;
    assert_eq!(rt; (status, sink.written().len()), want, "write {number}");
    Ok(())
}

/// What is written of the replies to the edits.
const EDITED: &[Held] = &[
    (1, (Status::WriteFault, 0)),
    (2, (Status::WriteFault, 3)),
    (3, (Status::WriteFault, 51)),
    (20, (Status::WriteFault, 867)),
    (21, (Status::Done, 900)),
];

/// Expects what each row of a table says of the edits.
fn expect_all_together(rt: &impl Abort, alloc: Global, rows: &[Held]) -> Result<(), Fail> {
    for (number, want) in rows {
        expect_together(rt, alloc, *number, *want)?;
    }
    Ok(())
}

// The first edit takes memory, so it stands alone. Of the 299 others 16 share a write, and the last
// 11: with the first reply these are 20 writes.
#[test]
fn edits_that_take_no_memory_share_a_write(rt: HostRuntime) -> Result<(), Fail> {
    expect_all_together(&rt, rt.alloc(), EDITED)?;
    Ok(())
}

/// An edit that takes memory, and five that are answered together, each of which changes voxel 0.
const RUN: &str = "hit 0.1 0 0\nmiss 0 0 0\nmiss 0 0 0\nmiss 0 0 0\nmiss 0 0 0\nmiss 0 0 0\n";

/// The value of voxel 0 after each of the six lines.
const VALUES: &[Option<i32>] = &[
    None,
    Some(-400),
    Some(-800),
    Some(-1200),
    Some(-1600),
    Some(-2000),
];

/// Expects that a session that writes byte by byte, and whose write of this number fails, leaves
/// the map as it is after the line whose reply was cut off.
fn expect_run_cut(rt: &impl Abort, alloc: Global, number: u64) -> Result<(), Fail> {
    let mut source = script(alloc, RUN, 100)?;
    let mut sink = FailingSink::new(alloc, 1, only(alloc, number)?);
    let (status, map) = ended_alone(alloc, 1000, &mut source, &mut sink)?;
    expect_status(rt, status, Status::WriteFault);
    let after = VALUES.get(lines_in(sink.written()));
    assert!(rt; after.is_some(), "write {number}");
    if let Some(origin) = after {
        expect_map(rt, &map, *origin, Some(850), false);
    }
    Ok(())
}

#[test]
fn each_edit_whose_reply_was_begun_is_done(rt: HostRuntime) -> Result<(), Fail> {
    for number in 1u64..=18 {
        expect_run_cut(&rt, rt.alloc(), number)?;
    }
    Ok(())
}
