//! The end of a task over a file for which there is no file.
ghost use Rattle.std.specs.Prelude.{◌≡◌, ◌≢◌, ◌⊎◌, ◌↔◌, ◌++◌, ℕ, List, Option, Err, IfOk};
ghost use Rattle.std.specs.Prelude.{OnOk};
ghost use Rattle.oct_bt.specs.File.{FileRead};
ghost use Rattle.oct_io.specs.Answer.{Answer};
ghost use Rattle.oct_io.specs.FaultCounts.{IsSinkCounted};
ghost use Rattle.oct_io.specs.Counts.{IsMakingCounted};
ghost use Rattle.oct_file_tasks.specs.Answers.{refusal_line, task_answer};
ghost use Rattle.oct_file_tasks.specs.Ending.{EndsOverFile, Sends};
ghost use Rattle.oct_file_tasks.specs.Input.{MayRead, IsBadFile};

use crate::input::NoFile;
use oct_bt::{BtFault, push_fault};
use oct_io::{Sink, SinkFault, Status, status_written, write_all};
use oct_num::Memory;
use std::alloc::Global;

/// Appends the line of a file's fault.
pub(crate) fn push_bad(text: &mut Vec<u8>, fault: BtFault) -> Result<(), Memory>
    ensures { OnOk result (text.new.items ≡ text.old.items ++ refusal_line fault) }
{
    text.extend_from_slice(b"refused ")?;
    push_fault(text, fault)?;
    text.extend_from_slice(b"\n")?;
    Ok(())
}

/// The line of a file's fault.
fn bad_line(alloc: Global, fault: BtFault) -> Result<Vec<u8>, Memory>
    ensures { IfOk result (λ line. line.items ≡ refusal_line fault) }
{
    let mut line = Vec::new(alloc);
    push_bad(&mut line, fault)?;
    Ok(line)
}

/// Writes the line of a file's fault. After an error a part of it was written.
fn write_refusal<K: Sink>(alloc: Global, fault: BtFault, sink: &mut K) -> Result<(), SinkFault>
    ensures sends { Sends (refusal_line fault) (K.written sink.old) (K.written sink.new) result }
    ensures counts { IsMakingCounted result (K.faults sink.old) (K.faults sink.new)
        (K.shortages sink.old) (K.shortages sink.new) }
{
    let line = bad_line(alloc, fault)?;
    write_all(sink, &line)
}

/// Ends a task for which there is no file: where the input isn't one, its refusal is written.
pub(crate) fn refuse<K: Sink>(alloc: Global, reason: NoFile, sink: &mut K) -> Status
    ensures ends { (of_file : FileRead → Answer) (most : ℕ) (bytes : List ℕ)
        (left : Option (List ℕ)) → MayRead most bytes left (Err reason)
        → EndsOverFile (task_answer of_file most bytes) most bytes left
        (K.written sink.old) (K.written sink.new) result }
    ensures undone { result ≢ Status.Done }
    ensures named { (result ≢ Status.Usage) × (result ≢ Status.Refused)
        × (result ≢ Status.StoreFault) }
    ensures read_fault { result ≡ Status.ReadFault ↔ reason ≡ NoFile.ReadFault }
    ensures memory { result ≡ Status.Memory
        → IsBadFile reason ⊎ ((reason ≡ NoFile.Memory) × (sink.new ≡ sink.old)) }
    ensures sink_counts { IsSinkCounted result (K.faults sink.old) (K.faults sink.new)
        (K.shortages sink.old) (K.shortages sink.new) }
    ensures too_long { result ≡ Status.TooLong → sink.new ≡ sink.old }
    ensures unread { result ≡ Status.ReadFault → sink.new ≡ sink.old }
{
    match reason {
        NoFile::BadFile(fault) => status_written(
            Status::BadFile,
            write_refusal(alloc, fault, sink),
        ),
        NoFile::TooLong => Status::TooLong,
        NoFile::ReadFault => Status::ReadFault,
        NoFile::Memory => Status::Memory,
    }
}
