//! The top call of the program.
ghost use Rattle.std.specs.Prelude.{◌≡◌, ◌≢◌, IfSome, Some, None};
ghost use Rattle.oct_io.specs.Told.{Rose};
ghost use Rattle.oct_io.specs.Shelf.{shelf};
ghost use Rattle.oct_tasks.specs.Words.{bytes_of};
ghost use Rattle.oct_tasks.specs.Meant.{meant_task};
ghost use Rattle.oct_tasks.specs.Task.{IsInRange, task_of};
ghost use Rattle.oct_tasks.specs.Needs.{reads, ReadsTold};
ghost use Rattle.oct_tasks.specs.Ending.{MayEnd, EndsAlone, LeavesStore};
ghost use Rattle.oct_tasks.specs.Ending.{KeepsUnneeded, IsRunCounted};

use crate::task::{Task, Usage, read_words};
use oct_file_tasks::{answer_over_file, do_over_store};
use oct_gen::generate;
use oct_io::{Sink, Source, Status, Store, status_written};
use oct_session::{build, drill, serve};
use std::alloc::Global;

/// Does what the words of the command line ask for; the program's own name isn't among them.
///
/// The replies to a script are those of the plain fold over each single voxel: the clause `answer`
/// says, status by status, what is written, what is left of the input, and that both are those of
/// the answer to the task on these bytes and the files of the store; the clause `leaves` says which
/// files then stand there, and that the store is asked once at most for each line that names a
/// file, and for each file that a word names, for the second only where the first is a map. They
/// speak wherever source and sink tell their bytes, as those in memory do, and the store its files,
/// or no line names one. Of one that reads no input `made` says what is written, whatever the
/// source tells. A status names a fault of source, sink or store only where that one's count of
/// faults rose in this call.
pub fn run<S: Source, K: Sink, F: Store>(
    alloc: Global,
    words: &[String],
    source: &mut S,
    sink: &mut K,
    store: &mut F,
) -> Status
    ensures answer { IfSome (S.left source.old) (λ bytes.
        ReadsTold (reads (task_of (bytes_of words.now))) (F.files store.old) bytes
        → MayEnd (task_of (bytes_of words.now)) (F.files store.old) bytes (S.left source.new)
        (K.written sink.old) (K.written sink.new) result) }
    ensures leaves { IfSome (S.left source.old) (λ bytes.
        ReadsTold (reads (task_of (bytes_of words.now))) (F.files store.old) bytes
        → LeavesStore (task_of (bytes_of words.now)) (F.files store.old) bytes (S.left source.new)
        (K.written sink.old) (K.written sink.new) (shelf F.files F.calls store.old store.new)
        (Rose (K.shortages sink.old) (K.shortages sink.new)) result) }
    ensures usage { task_of (bytes_of words.now) ≡ None → result ≡ Status.Usage }
    ensures only { result ≡ Status.Usage → task_of (bytes_of words.now) ≡ None }
    ensures untouched { KeepsUnneeded (task_of (bytes_of words.now)) result
        (source.new ≡ source.old) (sink.new ≡ sink.old) (store.new ≡ store.old) }
    ensures made { EndsAlone (task_of (bytes_of words.now)) (F.files store.old)
        (K.written sink.old) (K.written sink.new) result }
    ensures counts { IsRunCounted (task_of (bytes_of words.now)) result (S.faults source.old)
        (S.faults source.new) (S.ends source.old) (S.ends source.new) (K.faults sink.old)
        (K.faults sink.new) (K.shortages sink.old) (K.shortages sink.new) (F.faults store.old)
        (F.faults store.new) }
{
    match read_words(words) {
        Ok(task) => perform(alloc, &task, source, sink, store),
        Err(Usage) => Status::Usage,
    }
}

/// Does a task.
fn perform<S: Source, K: Sink, F: Store>(
    alloc: Global,
    task: &Task,
    source: &mut S,
    sink: &mut K,
    store: &mut F,
) -> Status
    requires few { IsInRange (meant_task task.now) }
    ensures answer { IfSome (S.left source.old) (λ bytes.
        ReadsTold (reads (Some (meant_task task.now))) (F.files store.old) bytes
        → MayEnd (Some (meant_task task.now)) (F.files store.old) bytes (S.left source.new)
        (K.written sink.old) (K.written sink.new) result) }
    ensures leaves { IfSome (S.left source.old) (λ bytes.
        ReadsTold (reads (Some (meant_task task.now))) (F.files store.old) bytes
        → LeavesStore (Some (meant_task task.now)) (F.files store.old) bytes (S.left source.new)
        (K.written sink.old) (K.written sink.new) (shelf F.files F.calls store.old store.new)
        (Rose (K.shortages sink.old) (K.shortages sink.new)) result) }
    ensures usage { result ≢ Status.Usage }
    ensures untouched { KeepsUnneeded (Some (meant_task task.now)) result
        (source.new ≡ source.old) (sink.new ≡ sink.old) (store.new ≡ store.old) }
    ensures made { EndsAlone (Some (meant_task task.now)) (F.files store.old)
        (K.written sink.old) (K.written sink.new) result }
    ensures counts { IsRunCounted (Some (meant_task task.now)) result (S.faults source.old)
        (S.faults source.new) (S.ends source.old) (S.ends source.new) (K.faults sink.old)
        (K.faults sink.new) (K.shortages sink.old) (K.shortages sink.new) (F.faults store.old)
        (F.faults store.new) }
{
    match task {
        Task::Session(options) => {
            let mut map = options.new_map(alloc);
            serve(alloc, options, &mut map, source, sink, store)
        }
        Task::Build(options) => {
            let mut map = options.new_map(alloc);
            build(alloc, options, &mut map, source, sink, store)
        }
        Task::OverFile { task, max_bytes } => {
            answer_over_file(alloc, *task, *max_bytes, source, sink)
        }
        Task::OverStore(task) => do_over_store(alloc, task, sink, store),
        Task::Gen {
            seed,
            scans,
            points,
        } => {
            let written = generate(*seed, *scans, *points, sink);
            status_written(Status::Done, written)
        }
        Task::Drill {
            seed,
            scans,
            points,
        } => drill(alloc, *seed, *scans, *points, sink),
    }
}
