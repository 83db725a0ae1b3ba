//! The words of the command line.
use super::owned;
use oct_tasks::{Task, read_words};
use std::alloc::Global;
use std::process::Abort;
use std::test::Fail;

/// Expects that the words ask for a session over scripts of at most this many bytes.
fn expect_session(
    rt: &impl Abort,
    alloc: Global,
    words: &[&str],
    max_bytes: u64,
) -> Result<(), Fail> {
    let words = owned(alloc, words)?;
    let task = read_words(&words);
    assert!(rt; matches!(&task, Ok(Task::Session(options)) if options.max_bytes() == max_bytes));
    Ok(())
}

#[test]
fn words_ask_for_a_session(rt: HostRuntime) -> Result<(), Fail> {
    expect_session(&rt, rt.alloc(), &["session", "0.1"], 1 << 40)?;
    expect_session(
        &rt,
        rt.alloc(),
        &["session", "0.1", "--max-bytes", "10"],
        10,
    )
}
