//! What a gather hands to a sink, piece by piece, and calls that fail by their numbers.
ghost use Rattle.std.specs.Prelude.{◌<◌, ◌≤◌, None};

mod file_bytes;
mod folder_store;
mod memory_sink;
mod memory_source;
mod piece;
mod std_sink;
mod std_source;
mod store;

use arrayvec::ArrayVec;
use oct_io::{
    Failed, FailingSink, FailingSource, FailingStore, FileBytes, Gather, KeptList, Loaded,
    MemorySink, Sink, SinkFault, Source, Store, StoreFault, write_all,
};
use oct_num::Memory;
use std::alloc::Global;
use std::process::Abort;
use std::test::Fail;

/// Takes whole pieces, and notes how long each of the first four was.
#[derive(Drop)]
struct Noting {
    lengths: ArrayVec<usize, 4>,
}

impl Sink for Noting {
    ghost written = { λ _. None };

    ghost faults = { λ _. 0 };

    ghost shortages = { λ _. 0 };

    fn write(&mut self, piece: &[u8]) -> Result<usize, SinkFault> {
        let _ = self.lengths.try_push(piece.len());
        Ok(piece.len())
    }
}

/// Expects these bytes.
fn expect_bytes(rt: &impl Abort, bytes: &[u8], want: &[u8]) {
    expect_found(rt, Some(bytes), Some(want));
}

/// Expects that these bytes are there, or none.
fn expect_found(rt: &impl Abort, found: Option<&[u8]>, want: Option<&[u8]>) {
    assert_eq!(rt; found, want);
}

/// Expects that a read has moved these bytes to the front of the buffer.
fn expect_moved(rt: &impl Abort, buffer: &[u8], count: Result<usize, Failed>, want: &[u8]) {
    let moved = match count {
        Ok(count) => buffer.get(..count),
        Err(Failed) => None,
    };
    expect_found(rt, moved, Some(want));
}

/// Expects that so many were counted.
fn expect_count(rt: &impl Abort, count: u64, want: u64) {
    assert_eq!(rt; count, want);
}

/// Expects that a call to a sink is answered so.
fn expect_answer(rt: &impl Abort, answer: Result<(), SinkFault>, want: Result<(), SinkFault>) {
    assert_eq!(rt; answer, want);
}

/// These numbers as a list.
fn list_of(alloc: Global, numbers: &[u64]) -> Result<KeptList, Memory> {
    let mut list = KeptList::new(alloc);
    for number in numbers {
        list.push(*number)?;
    }
    Ok(list)
}

/// Expects that one write of the piece is answered so.
fn expect_write<K: Sink>(
    rt: &impl Abort,
    sink: &mut K,
    piece: &[u8],
    want: Result<usize, SinkFault>,
) {
    assert_eq!(rt; sink.write(piece), want);
}

/// Expects that writing all of the piece is answered so.
fn expect_write_all<K: Sink>(
    rt: &impl Abort,
    sink: &mut K,
    piece: &[u8],
    want: Result<(), SinkFault>,
) {
    expect_answer(rt, write_all(sink, piece), want);
}

/// Expects that a push of the piece is answered so.
fn expect_push<K: Sink>(
    rt: &impl Abort,
    gather: &mut Gather,
    sink: &mut K,
    piece: &[u8],
    want: Result<(), SinkFault>,
) {
    expect_answer(rt, gather.push(sink, piece), want);
}

/// Expects that a flush is answered so.
fn expect_flush<K: Sink>(
    rt: &impl Abort,
    gather: &mut Gather,
    sink: &mut K,
    want: Result<(), SinkFault>,
) {
    expect_answer(rt, gather.flush(sink), want);
}

/// Pushes the bytes in pieces of this length.
fn push_by<K: Sink>(rt: &impl Abort, gather: &mut Gather, sink: &mut K, bytes: &[u8], length: usize)
    requires { 0 < length }
{
    for piece in bytes.chunks(length) {
        expect_push(rt, gather, sink, piece, Ok(()));
    }
}

/// Expects that the sink got pieces of these lengths.
fn expect_lengths(rt: &impl Abort, sink: &Noting, want: &[usize]) {
    assert_eq!(rt; sink.lengths.as_slice(), want);
}

/// Expects that of this many bytes, pushed in pieces of this length, the sink gets pieces of these
/// lengths before a flush, and of these by then.
fn expect_pieces(rt: &impl Abort, total: usize, length: usize, before: &[usize], after: &[usize])
    requires within { total ≤ 10000 }
    requires some { 0 < length }
{
    let bytes = [7u8; 10_000];
    let mut sink = Noting {
        lengths: ArrayVec::new(),
    };
    let mut gather = Gather::new();
    push_by(rt, &mut gather, &mut sink, &bytes[..total], length);
    expect_lengths(rt, &sink, before);
    expect_flush(rt, &mut gather, &mut sink, Ok(()));
    expect_flush(rt, &mut gather, &mut sink, Ok(()));
    expect_lengths(rt, &sink, after);
}

/// How many bytes are pushed, in pieces of which length, and the lengths of the pieces that a sink
/// gets before a flush and by then.
type Pushed = (usize, usize, &'static [usize], &'static [usize]);

const PUSHED: [Pushed; 6] = [
    (0, 1, &[], &[]),
    (1, 1, &[], &[1]),
    (4096, 999, &[], &[4096]),
    (4097, 4097, &[4096], &[4096, 1]),
    (5000, 999, &[4096], &[4096, 904]),
    (10_000, 10_000, &[4096, 4096], &[4096, 4096, 1808]),
];

#[test]
fn a_sink_gets_pieces_of_4096_bytes(rt: HostRuntime) {
    for (total, length, before, after) in PUSHED {
        expect_pieces(&rt, total, length, before, after);
    }
}

/// Makes each byte another than the 250 before it.
fn number(bytes: &mut [u8]) {
    let mut next = 0u8;
    for byte in bytes {
        *byte = next;
        next = if next < 250 { next + 1 } else { 0 };
    }
}

#[test]
fn all_bytes_come_to_a_sink_that_takes_three_at_a_time(rt: HostRuntime) {
    let mut bytes = [0u8; 5000];
    number(&mut bytes);
    let mut sink = MemorySink::new(rt.alloc(), 3);
    let mut gather = Gather::default();
    push_by(&rt, &mut gather, &mut sink, &bytes, 999);
    expect_flush(&rt, &mut gather, &mut sink, Ok(()));
    expect_bytes(&rt, sink.written(), &bytes);
}

/// Pushes bytes to a sink whose first two writes fail, and expects that none of them is held.
fn lose_bytes(rt: &impl Abort, mut sink: FailingSink) {
    let mut gather = Gather::new();
    let failed = Err(SinkFault::Failed);
    expect_push(rt, &mut gather, &mut sink, b"lost", Ok(()));
    expect_flush(rt, &mut gather, &mut sink, failed);
    expect_flush(rt, &mut gather, &mut sink, Ok(()));
    expect_push(rt, &mut gather, &mut sink, &[7; 4097], failed);
    expect_flush(rt, &mut gather, &mut sink, Ok(()));
    expect_write_all(rt, &mut sink, b"kept", Ok(()));
    expect_bytes(rt, sink.written(), b"kept");
}

#[test]
fn no_byte_is_held_after_an_error(rt: HostRuntime) -> Result<(), Fail> {
    let fails = list_of(rt.alloc(), &[1, 2])?;
    lose_bytes(&rt, FailingSink::new(rt.alloc(), 9, fails));
    Ok(())
}

/// Expects that a read into a buffer of eight bytes is answered so.
fn expect_read(rt: &impl Abort, source: &mut FailingSource, want: Result<usize, Failed>) {
    let mut buffer = [0u8; 8];
    assert_eq!(rt; source.read(&mut buffer), want);
}

/// Reads six bytes, at most four a read, from a source whose first and third reads fail.
fn read_six(rt: &impl Abort, mut source: FailingSource) {
    expect_read(rt, &mut source, Err(Failed));
    expect_read(rt, &mut source, Ok(4));
    expect_read(rt, &mut source, Err(Failed));
    expect_read(rt, &mut source, Ok(2));
    expect_read(rt, &mut source, Ok(0));
}

#[test]
fn reads_fail_by_their_numbers(rt: HostRuntime) -> Result<(), Fail> {
    let fails = list_of(rt.alloc(), &[3, 1])?;
    let bytes = FileBytes::from_slice(rt.alloc(), b"abcdef")?;
    read_six(&rt, FailingSource::new(bytes, 4, fails));
    Ok(())
}

/// Expects that a save is answered so.
fn expect_save<F: Store>(
    rt: &impl Abort,
    store: &mut F,
    name: &str,
    bytes: &[u8],
    want: Result<(), StoreFault>,
) {
    assert_eq!(rt; store.save(name, bytes), want);
}

/// Expects that a load gives these bytes.
fn expect_load<F: Store>(rt: &impl Abort, alloc: Global, store: &mut F, name: &str, want: &[u8]) {
    match store.load(alloc, name) {
        Ok(Loaded::Bytes(bytes)) => expect_bytes(rt, bytes.as_slice(), want),
        _ => panic!(rt; "no bytes"),
    }
}

/// Expects that a load finds no such file.
fn expect_missing<F: Store>(rt: &impl Abort, alloc: Global, store: &mut F, name: &str) {
    assert!(rt; matches!(store.load(alloc, name), Ok(Loaded::Missing)));
}

/// Expects that a load fails.
fn expect_no_load<F: Store>(rt: &impl Abort, alloc: Global, store: &mut F, name: &str) {
    assert!(rt; matches!(store.load(alloc, name), Err(StoreFault::Failed)));
}

/// Expects that the store has these bytes under the name.
fn expect_file(rt: &impl Abort, store: &FailingStore, name: &str, want: Option<&[u8]>) {
    expect_found(rt, store.file(name), want);
}

/// Saves and loads in a store whose second and third calls fail.
fn keep_first(rt: &impl Abort, alloc: Global, mut store: FailingStore) {
    expect_save(rt, &mut store, "one.bt", b"first", Ok(()));
    expect_save(rt, &mut store, "one.bt", b"then", Err(StoreFault::Failed));
    expect_no_load(rt, alloc, &mut store, "one.bt");
    expect_load(rt, alloc, &mut store, "one.bt", b"first");
    expect_file(rt, &store, "one.bt", Some(b"first".as_slice()));
    expect_file(rt, &store, "two.bt", None);
}

#[test]
fn loads_and_saves_fail_by_their_numbers(rt: HostRuntime) -> Result<(), Fail> {
    let fails = list_of(rt.alloc(), &[2, 3])?;
    keep_first(&rt, rt.alloc(), FailingStore::new(rt.alloc(), fails));
    Ok(())
}

/// Expects the texts of what a sink and a store answer.
fn expect_texts(
    rt: &impl Abort,
    alloc: Global,
    (sink, store): (SinkFault, StoreFault),
    want: &[u8],
) {
    let text = format!(in alloc; "{sink}; {store}").unwrap_or(String::new(alloc));
    expect_bytes(rt, text.as_bytes(), want);
}

#[test]
fn faults_say_what_they_are(rt: HostRuntime) -> Result<(), Fail> {
    let text = format!(in rt.alloc(); "{Failed}")?;
    expect_bytes(&rt, text.as_bytes(), b"the source could not be read");
    let failed = (SinkFault::Failed, StoreFault::Failed);
    let want = b"the sink could not be written to; the file could not be read or written";
    expect_texts(&rt, rt.alloc(), failed, want);
    let memory = (SinkFault::Memory, StoreFault::Memory);
    expect_texts(&rt, rt.alloc(), memory, b"out of memory; out of memory");
    Ok(())
}
