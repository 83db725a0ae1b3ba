//! Replies on their way to a sink.
ghost use Rattle.std.specs.Prelude.{◌≡◌, ◌<◌, IfOk, length};
ghost use Rattle.oct_io.specs.FaultCounts.{IsSinkCounted};
ghost use Rattle.oct_io.specs.Answer.{Answer, EndsUnread};
ghost use Rattle.oct_file_tasks.specs.OverFile.{IsSettled, IsOfReply};
ghost use Rattle.oct_file_tasks.specs.Refusals.{refused};

use crate::refusal::{Refusal, line_of};
use oct_io::{Sink, Status, status_written, write_all};
use oct_num::Memory;
use std::alloc::Global;

/// Writes the text of a reply, where there was memory for it, and answers its status, or that of
/// the fault that ended it. The text isn't empty, so that without memory less of it is written.
pub fn send<K: Sink>(text: Result<Vec<u8>, Memory>, status: Status, sink: &mut K) -> Status
    requires settled { IsSettled status }
    ensures ends { (whole : Answer) → IfOk text (λ text. text.items ≡ whole.text)
        → 0 < length whole.text → status ≡ whole.status
        → EndsUnread whole (K.written sink.old) (K.written sink.new) result }
    ensures sink_counts { IsSinkCounted result (K.faults sink.old) (K.faults sink.new)
        (K.shortages sink.old) (K.shortages sink.new) }
    ensures refused { result ≡ Status.Refused → status ≡ Status.Refused }
    ensures ended { IsOfReply result }
{
    match text {
        Ok(text) => status_written(status, write_all(sink, &text)),
        Err(Memory) => Status::Memory,
    }
}

/// Writes the line of a refusal, and answers its status, or that of the fault that ended it.
pub fn send_refusal<K: Sink>(alloc: Global, refusal: Refusal, sink: &mut K) -> Status
    ensures ends { EndsUnread (refused refusal) (K.written sink.old) (K.written sink.new) result }
    ensures sink_counts { IsSinkCounted result (K.faults sink.old) (K.faults sink.new)
        (K.shortages sink.old) (K.shortages sink.new) }
    ensures ended { IsOfReply result }
{
    send(line_of(alloc, refusal), Status::Refused, sink)
}
