//! The tasks that read a file of classes and write what is asked of it.
ghost use Rattle.std.specs.Prelude.{◌≡◌, ◌≢◌, ◌≤◌, ◌^◌, ◌⊎◌, length, IfSome, false};
ghost use Rattle.oct_bt.specs.DataClasses.{is_canonical};
ghost use Rattle.oct_bt.specs.File.{reading};
ghost use Rattle.oct_bt.specs.NodeData.{IsAccepted};
ghost use Rattle.oct_io.specs.Answer.{EndsUnread};
ghost use Rattle.oct_io.specs.FaultCounts.{IsSourceCounted, IsSinkCounted};
ghost use Rattle.oct_io.specs.Told.{Rose};
ghost use Rattle.oct_file_tasks.specs.Answers.{is_canonical_file};
ghost use Rattle.oct_file_tasks.specs.Ending.{EndsOverFile};
ghost use Rattle.oct_file_tasks.specs.FileTasks.{MayRefuse, file_reply, over_file_answer};
ghost use Rattle.oct_file_tasks.specs.OverFile.{IsOfReply};

use crate::canonical::write_canonical;
use crate::frontiers::list_frontier;
use crate::grids::{draw_boxes, project};
use crate::input::read_file;
use crate::no_file::refuse;
use crate::report::report;
use crate::sending::send;
use oct_bt::BtFile;
use oct_io::{Sink, Source, Status, status_written};
use oct_key::Point;
use std::alloc::Global;

/// What is asked of a file of classes.
#[derive(Clone, Copy, Debug)]
pub enum FileTask {
    /// The canonical file of its resolution and its classes.
    Convert,
    /// Six lines about it.
    Inspect,
    /// Its frontier between two points.
    Frontier { lo: Point, hi: Point },
    /// The height band between two points, as a picture.
    Project { lo: Point, hi: Point },
    /// Its occupied space, as a scene of boxes.
    Vrml,
}

/// Reads a file of at most `max_bytes` bytes from the source, and writes what is asked of it.
///
/// What is no file of this form is refused, and the line of the refusal written; then the first
/// point that lies outside the map of the file's resolution, then corners of which one is beyond
/// the other, then what would be too much: a frontier of more than 1,000,000 voxels, a grid of more
/// than 2^26 columns, or more than 1,000,000 boxes. Nothing is written before the input has ended,
/// and nothing is read or written after a fault.
pub fn answer_over_file<S: Source, K: Sink>(
    alloc: Global,
    task: FileTask,
    max_bytes: u64,
    source: &mut S,
    sink: &mut K,
) -> Status
    requires few { max_bytes ≤ 2 ^ 32 }
    ensures answer { IfSome (S.left source.old) (λ bytes.
        EndsOverFile (over_file_answer task max_bytes bytes) max_bytes bytes (S.left source.new)
        (K.written sink.old) (K.written sink.new) result) }

    // A fault is met once and ends the task: its count rises by one exactly where the status names
    // it, and no other count changes. The end of the input is met once at most.
    ensures source_counts { IsSourceCounted result (S.faults source.old) (S.faults source.new)
        (S.ends source.old) (S.ends source.new) }
    ensures sink_counts { IsSinkCounted result (K.faults sink.old) (K.faults sink.new)
        (K.shortages sink.old) (K.shortages sink.new) }

    // A conversion wants memory of its own before the input has ended, where the sink isn't
    // touched, and for what isn't a canonical file.
    ensures memory { task ≡ FileTask.Convert → result ≡ Status.Memory
        → ((S.ends source.new ≡ S.ends source.old) × (sink.new ≡ sink.old))
        ⊎ Rose (K.shortages sink.old) (K.shortages sink.new)
        ⊎ IfSome (S.left source.old) (λ bytes. is_canonical_file (reading bytes) ≡ false) }

    // The sink isn't touched where the input hasn't ended.
    ensures too_long { result ≡ Status.TooLong → sink.new ≡ sink.old }
    ensures unread { result ≡ Status.ReadFault → sink.new ≡ sink.old }
    ensures refused { result ≡ Status.Refused → MayRefuse task }
    ensures named { (result ≢ Status.Usage) × (result ≢ Status.StoreFault) }
{
    match read_file(alloc, max_bytes, source) {
        Ok(file) => answer_file(alloc, task, &file, sink),
        Err(reason) => refuse(alloc, reason, sink),
    }
}

/// Writes the reply to a file, and answers its status, or that of the fault that ended it.
fn answer_file<K: Sink>(alloc: Global, task: FileTask, file: &BtFile, sink: &mut K) -> Status
    requires accepted { IsAccepted file.now.nodes file.now.codes }
    requires few { length file.now.codes ≤ 2 ^ 32 }
    ensures ends { EndsUnread (file_reply task file.now) (K.written sink.old) (K.written sink.new)
        result }
    ensures sink_counts { IsSinkCounted result (K.faults sink.old) (K.faults sink.new)
        (K.shortages sink.old) (K.shortages sink.new) }
    ensures memory { task ≡ FileTask.Convert → result ≡ Status.Memory
        → (is_canonical file.now.codes ≡ false) ⊎ Rose (K.shortages sink.old)
        (K.shortages sink.new) }
    ensures refused { result ≡ Status.Refused → MayRefuse task }
    ensures ended { IsOfReply result }
{
    match task {
        FileTask::Convert => status_written(Status::Done, write_canonical(alloc, file, sink)),
        FileTask::Inspect => send(report(alloc, file), Status::Done, sink),
        FileTask::Frontier { lo, hi } => list_frontier(alloc, file, lo, hi, sink),
        FileTask::Project { lo, hi } => project(alloc, file, lo, hi, sink),
        FileTask::Vrml => draw_boxes(alloc, file, sink),
    }
}
