//! Sessions whose files or writes fail.
use super::*;

/// Expects that a script ends so on the unknown world, and what it writes.
fn expect_session<F: Store>(
    rt: &impl Abort,
    alloc: Global,
    options: &Options,
    store: &mut F,
    text: &str,
    want: (Status, &str),
) -> Result<(), Memory> {
    let mut source = script(alloc, text, 100)?;
    let mut sink = MemorySink::new(alloc, 100);
    let (status, _) = ended(alloc, options, &mut source, &mut sink, store);
    expect_answer(rt, text, (status, sink.written()), want);
    Ok(())
}

/// Expects that a session whose store fails at the call of this number ends so, and which of its
/// two files the store has then.
fn expect_store_fault(
    rt: &impl Abort,
    alloc: Global,
    number: u64,
    want: (Status, &str),
    has: (bool, bool),
) -> Result<(), Fail> {
    let options = options(1000)?;
    let mut store = FailingStore::new(alloc, only(alloc, number)?);
    let text = "save m\nload n\nsave n\nclear\n";
    expect_session(rt, alloc, &options, &mut store, text, want)?;
    let found = (store.file("m").is_some(), store.file("n").is_some());
    assert_eq!(rt; found, has, "call {number}");
    Ok(())
}

#[test]
fn a_store_that_fails_ends_the_session(rt: HostRuntime) -> Result<(), Fail> {
    let fault = Status::StoreFault;
    for (number, want, has) in [
        (1, (fault, ""), (false, false)),
        (2, (fault, "saved 136\n"), (true, false)),
        (3, (fault, "saved 136\nrefused 33 NoFile\n"), (true, false)),
        (
            4,
            (
                Status::Refused,
                "saved 136\nrefused 33 NoFile\nsaved 136\nok\n",
            ),
            (true, true),
        ),
    ] {
        expect_store_fault(&rt, rt.alloc(), number, want, has)?;
    }
    Ok(())
}

/// Expects that a session whose write of this number fails ends so, what it wrote, whether it saved
/// its file, and the value that its last line left.
fn expect_write_fault(
    rt: &impl Abort,
    alloc: Global,
    number: u64,
    want: (Status, &str),
    (has_file, beside): (bool, Option<i32>),
) -> Result<(), Fail> {
    let text = "hit 0 0 0\nsave m\nhit 0.1 0 0\n";
    let options = options(1000)?;
    let mut source = script(alloc, text, 100)?;
    let mut sink = FailingSink::new(alloc, 100, only(alloc, number)?);
    let mut store = MemoryStore::new(alloc);
    let (status, map) = ended(alloc, &options, &mut source, &mut sink, &mut store);
    expect_answer(rt, text, (status, sink.written()), want);
    assert_eq!(rt; store.file("m").is_some(), has_file, "write {number}");
    expect_map(rt, &map, Some(850), beside, false);
    Ok(())
}

#[test]
fn no_file_is_ahead_of_a_reply(rt: HostRuntime) -> Result<(), Fail> {
    let fault = Status::WriteFault;
    for (number, want, left) in [
        (1, (fault, ""), (false, None)),
        (2, (fault, "ok\n"), (true, None)),
        (3, (fault, "ok\nsaved 169\n"), (true, Some(850))),
        (4, (Status::Done, "ok\nsaved 169\nok\n"), (true, Some(850))),
    ] {
        expect_write_fault(&rt, rt.alloc(), number, want, left)?;
    }
    Ok(())
}
