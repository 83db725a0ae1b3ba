//! Bytes in, bytes out, files by name, and how a run over them ends.
//!
//! A program that turns bytes into bytes is written against three traits: a [`Source`] is read, a
//! [`Sink`] is written, and a [`Store`] keeps files by name. Each may tell in its contracts what it
//! holds, as those in memory do, and counts its faults in any case, so that a caller can be held to
//! blame a fault only where there was one.
//!
//! ```text
//! let mut source = MemorySource::new(FileBytes::from_slice(alloc, b"hit 0 0 0\n")?, 4096);
//! let mut sink = MemorySink::new(alloc, 4096);
//! let mut buffer = [0; 64];
//! let count = source.read(&mut buffer)?;                             // 10
//! write_all(&mut sink, &buffer[..count])?;                           // b"hit 0 0 0\n" is written
//! ```
//!
//! What the contracts promise:
//!
//! - [`Source::read`] moves the next bytes to the front of a buffer. It answers 0 for a buffer that
//!   isn't empty exactly at the end of the input.
//! - [`Sink::write`] takes bytes from the front of a piece, at least one where there is one.
//!   [`write_all`] writes the whole piece, and after an error a prefix of it was written.
//! - [`Gather`] holds up to 4,096 bytes on their way to a sink, and hands it whole pieces.
//! - [`read_piece`] reads once, and asks for at most one byte more than the input may still have.
//! - [`Store::save`] sets the bytes of one name and touches no other. [`Store::load`] gives them
//!   back, or says that there is no such file, or that it has more than `2^30` bytes.
//! - `Failed` raises the count of faults by one, or leaves it at `2^64 - 1`, where it stays; no
//!   other answer changes it. So who calls again after a fault is found out by the count. A write
//!   that runs out of memory raises the sink's count of shortages in the same way.
//! - A source may count how often its end was met, and a store how often it was asked, so that a
//!   caller can be held to meeting the end once, and to asking for a file once. The counts of a
//!   caller are stated as records of `specs/Counts.antt`.
//! - A save that runs out of memory leaves all files as they were.
//! - What a store tells of its files are bytes, each below 256 (`tells_bytes`).
//!
//! [`StdSource`], [`StdSink`] and [`FolderStore`] are the edge to the system: a few lines each over
//! a reader, a writer and the files of the current folder. What the system does is told by no
//! contract, so of these it is proved that they are safe, count their faults, pass on what a reader
//! or writer of std tells, and that an error of opening counts as a missing file exactly where it
//! says so (`unopened`). That a load opens the file and gives its bytes is tested.
//! [`MemorySource`], [`MemorySink`] and [`MemoryStore`] live in memory, tell all that they hold and
//! never fault; the proofs about whole programs run on them.
//!
//! Everything that the program does ends with a [`Status`]: all was done, something was
//! refused, or a fault came first. [`status_written`] answers that of a task whose text goes to
//! a sink, and a [`Stop`] is why a session stops before its script has ended. The definitions
//! say what holds beside a status, whatever was to be done: what a task writes, and what a run
//! leaves, files among it (`Answer`); a count of faults rises by one exactly where the status
//! names the fault (`FaultCounts`); which statuses come with the whole answer (`Whole`); the
//! status of a stop (`Stops`); a store, as a run uses it (`Shelf`).
//!
//! [`FileBytes`] is a list of bytes. The definitions that contracts cite are in `specs/`: `Told`
//! for the bytes and the counts, `Files` for files by name, `Loaded` for the answers of a load.
//! Laws of appending are in `proofs/Appending.antt`.
//!
//! The files of maps (`oct_bt`, `oct_snap`, `oct_export`), the generator of scripts,
//! sessions and the program stand on this crate.
//!
//! # For tests
//!
//! [`FailingSource`], [`FailingSink`] and [`FailingStore`] are forms in memory whose calls of some
//! numbers, counted from 1 on ([`KeptList`]), fail: a test that lets call 1, 2, 3 and so on fail
//! sees what each fault leaves. `specs/Failing.antt` says which calls these are.

#![tactic(auto)]

mod calls;
mod failing_sink;
mod failing_source;
mod failing_store;
mod file_bytes;
mod folder_store;
mod gather;
mod memory_sink;
mod memory_source;
mod memory_store;
mod piece;
mod sink;
mod source;
mod status;
mod std_sink;
mod std_source;
mod stop;
mod store;

pub use calls::KeptList;
pub use failing_sink::FailingSink;
pub use failing_source::FailingSource;
pub use failing_store::FailingStore;
pub use file_bytes::FileBytes;
pub use folder_store::FolderStore;
pub use gather::Gather;
pub use memory_sink::MemorySink;
pub use memory_source::MemorySource;
pub use memory_store::MemoryStore;
pub use piece::read_piece;
pub use sink::{Sink, SinkFault, write_all};
pub use source::{Failed, Source};
pub use status::{Status, status_written};
pub use std_sink::StdSink;
pub use std_source::StdSource;
pub use stop::Stop;
pub use store::{LARGEST_FILE, Loaded, Store, StoreFault};
