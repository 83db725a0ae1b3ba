//! The program's top call over inputs in pieces, and where the world fails.
ghost use Rattle.std.specs.Prelude.{◌<◌};

mod faults;
mod merges;
mod options;
mod pieces;

use oct_io::{
    FileBytes, KeptList, MemorySink, MemorySource, MemoryStore, Sink, Source, Status, Store,
};
use oct_num::Memory;
use oct_tasks::run;
use std::alloc::Global;
use std::process::Abort;
use std::test::Fail;

/// The words of a command line.
fn owned(alloc: Global, words: &[&str]) -> Result<Vec<String>, Fail> {
    let mut texts = Vec::new(alloc);
    for word in words {
        texts.push(String::from_str(alloc, word)?)?;
    }
    Ok(texts)
}

/// The list of this number alone.
fn only(alloc: Global, number: u64) -> Result<KeptList, Memory> {
    let mut list = KeptList::new(alloc);
    list.push(number)?;
    Ok(list)
}

/// The status of the program. Without clauses, so that what a test does after it is proved at once.
fn status_of<S: Source, K: Sink, F: Store>(
    alloc: Global,
    words: &[String],
    source: &mut S,
    sink: &mut K,
    store: &mut F,
) -> Status {
    run(alloc, words, source, sink, store)
}

/// The status of the program on its words and an input that is read by this many bytes.
fn status_over<K: Sink>(
    alloc: Global,
    words: &[&str],
    input: (&[u8], usize),
    sink: &mut K,
    store: &mut MemoryStore,
) -> Result<Status, Fail>
    requires { 0 < input.1 }
{
    let (input, most_read) = input;
    let texts = owned(alloc, words)?;
    let mut source = MemorySource::new(FileBytes::from_slice(alloc, input)?, most_read);
    Ok(status_of(alloc, &texts, &mut source, sink, store))
}

/// The status of the program on its words, an input and files, and what it writes, from memory to
/// memory.
fn answer_over(
    alloc: Global,
    words: &[&str],
    input: (&[u8], usize),
    most_written: usize,
    store: &mut MemoryStore,
) -> Result<(Status, Vec<u8>), Fail>
    requires read { 0 < input.1 }
    requires written { 0 < most_written }
{
    let mut sink = MemorySink::new(alloc, most_written);
    let status = status_over(alloc, words, input, &mut sink, store)?;
    Ok((status, Vec::from_slice(alloc, sink.written())?))
}

/// The same without files.
fn answer(
    alloc: Global,
    words: &[&str],
    script: &[u8],
    most_read: usize,
    most_written: usize,
) -> Result<(Status, Vec<u8>), Fail>
    requires read { 0 < most_read }
    requires written { 0 < most_written }
{
    let mut store = MemoryStore::new(alloc);
    answer_over(alloc, words, (script, most_read), most_written, &mut store)
}

/// Expects that the program on these words and this input has ended and written so.
fn expect_end(
    rt: &impl Abort,
    words: &[&str],
    input: &[u8],
    end: (Status, &[u8]),
    want: (Status, &[u8]),
) {
    assert_eq!(rt; end, want, "at {words:?} {input:?}");
}

/// Expects that a run on these words and this input ended and wrote so, with memory enough.
fn expect_answered(
    rt: &impl Abort,
    words: &[&str],
    input: &[u8],
    answered: Result<(Status, Vec<u8>), Fail>,
    want: (Status, &[u8]),
) {
    match answered {
        Ok((status, written)) => expect_end(rt, words, input, (status, &written), want),
        Err(_) => panic!(rt; "out of memory"),
    }
}

/// Expects that the program, by reads and writes of these lengths, ends and writes so.
fn expect_answer_by(
    rt: &impl Abort,
    alloc: Global,
    words: &[&str],
    input: &[u8],
    lengths: (usize, usize),
    want: (Status, &[u8]),
)
    requires read { 0 < lengths.0 }
    requires written { 0 < lengths.1 }
{
    let (most_read, most_written) = lengths;
    let answered = answer(alloc, words, input, most_read, most_written);
    expect_answered(rt, words, input, answered, want);
}
