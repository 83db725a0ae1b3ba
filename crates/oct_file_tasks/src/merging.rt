//! The tasks `merge` and `table`: two files of the store in, and one map, or a table, out.
ghost use Rattle.std.specs.Prelude.{◌≡◌, ◌≢◌, ◌≤◌, ◌+◌, IfOk};
ghost use Rattle.oct_io.specs.Counts.{IsMakingCounted};
ghost use Rattle.oct_io.specs.Answer.{EndsUnread};
ghost use Rattle.oct_io.specs.FaultCounts.{IsSinkCounted, IsStoreCounted};
ghost use Rattle.oct_file_tasks.specs.Ending.{Sends};
ghost use Rattle.oct_file_tasks.specs.OverFile.{IsOfReply};
ghost use Rattle.oct_file_tasks.specs.OverStore.{merged_text, table_text};
ghost use Rattle.oct_file_tasks.specs.OverStore.{table_reply, pair_reply, found_reply};
ghost use Rattle.oct_file_tasks.specs.OverStore.{EndsOverStore};
ghost use Rattle.oct_file_tasks.specs.Refusals.{box_between};
ghost use Rattle.oct_file_tasks.specs.TwoFiles.{loads_of, AreFit};

use crate::pair_text::{no_pair_text, table_text};
use crate::refusal::box_between;
use crate::sending::{send, send_refusal};
use crate::store_task::{PairTask, StoreTask};
use crate::two_files::{NoPair, Pair, load_pair};
use oct_bt::rewrite;
use oct_io::{Sink, SinkFault, Status, Store, StoreFault, status_written};
use oct_join::{join, tabulate};
use oct_key::{Point, Window};
use oct_merge::Rule;
use oct_num::Memory;
use std::alloc::Global;

/// Loads two files of the store, and writes what is asked of them: the canonical file of the merged
/// map, or a table of nine lines that says how many voxels between two points have which classes.
///
/// The first file is judged before the second is loaded, then their resolutions, and then the
/// points of a table. What is refused is written as a line, after the word `first` or `second`
/// where one file is at fault. Nothing is written where the store fails.
pub fn do_over_store<K: Sink, F: Store>(
    alloc: Global,
    task: &StoreTask,
    sink: &mut K,
    store: &mut F,
) -> Status
    ensures ends { EndsOverStore task.now (F.files store.old) (K.written sink.old)
        (K.written sink.new) result }
    ensures files { F.files store.new ≡ F.files store.old }
    ensures called { F.calls store.new
        ≤ F.calls store.old + loads_of (F.files store.old) task.now.first }
    ensures unwritten { result ≡ Status.StoreFault → sink.new ≡ sink.old }
    ensures store_counts { IsStoreCounted result (F.faults store.old) (F.faults store.new) }
    ensures sink_counts { IsSinkCounted result (K.faults sink.old) (K.faults sink.new)
        (K.shortages sink.old) (K.shortages sink.new) }
    ensures named { (result ≢ Status.Usage) × (result ≢ Status.BadFile)
        × (result ≢ Status.TooLong) × (result ≢ Status.ReadFault) }
{
    match load_pair(alloc, &task.first, &task.second, store) {
        Ok(found) => answer(alloc, task.asks, &found, sink),
        Err(StoreFault::Failed) => Status::StoreFault,
        Err(StoreFault::Memory) => Status::Memory,
    }
}

/// Writes what is asked of the files that were loaded, or why there is none.
fn answer<K: Sink>(
    alloc: Global,
    asks: PairTask,
    found: &Result<Pair, NoPair>,
    sink: &mut K,
) -> Status
    requires fit { IfOk found.now AreFit }
    ensures ends { EndsUnread (found_reply asks found.now) (K.written sink.old)
        (K.written sink.new) result }
    ensures sink_counts { IsSinkCounted result (K.faults sink.old) (K.faults sink.new)
        (K.shortages sink.old) (K.shortages sink.new) }
    ensures ended { IsOfReply result }
{
    match found {
        Ok(pair) => answer_pair(alloc, asks, pair, sink),
        Err(reason) => send(no_pair_text(alloc, *reason), Status::Refused, sink),
    }
}

/// Writes what is asked of two maps.
fn answer_pair<K: Sink>(alloc: Global, asks: PairTask, pair: &Pair, sink: &mut K) -> Status
    requires fit { AreFit pair.now }
    ensures ends { EndsUnread (pair_reply asks pair.now) (K.written sink.old)
        (K.written sink.new) result }
    ensures sink_counts { IsSinkCounted result (K.faults sink.old) (K.faults sink.new)
        (K.shortages sink.old) (K.shortages sink.new) }
    ensures ended { IsOfReply result }
{
    match asks {
        PairTask::Merge(rule) => {
            status_written(Status::Done, write_merged(alloc, rule, pair, sink))
        }
        PairTask::Table { lo, hi } => answer_table(alloc, pair, lo, hi, sink),
    }
}

/// Writes the table of the voxels between two points, or the refusal of the points.
fn answer_table<K: Sink>(alloc: Global, pair: &Pair, lo: Point, hi: Point, sink: &mut K) -> Status
    requires fit { AreFit pair.now }
    ensures ends { EndsUnread (table_reply pair.now (box_between pair.now.first.res lo hi))
        (K.written sink.old) (K.written sink.new) result }
    ensures sink_counts { IsSinkCounted result (K.faults sink.old) (K.faults sink.new)
        (K.shortages sink.old) (K.shortages sink.new) }
    ensures ended { IsOfReply result }
{
    match box_between(pair.first.res(), lo, hi) {
        Ok(window) => send(table_of(alloc, pair, window), Status::Done, sink),
        Err(why) => send_refusal(alloc, why, sink),
    }
}

/// Writes the file of the merged map. After an error a part of it was written.
fn write_merged<K: Sink>(
    alloc: Global,
    rule: Rule,
    pair: &Pair,
    sink: &mut K,
) -> Result<(), SinkFault>
    requires fit { AreFit pair.now }
    ensures sends { Sends (merged_text rule pair.now) (K.written sink.old) (K.written sink.new)
        result }
    ensures sink_counts { IsMakingCounted result (K.faults sink.old) (K.faults sink.new)
        (K.shortages sink.old) (K.shortages sink.new) }
{
    let file = join(alloc, rule, &pair.first, &pair.second)?;
    rewrite(&file, sink)?;
    Ok(())
}

/// The table of the voxels of a box in two maps.
fn table_of(alloc: Global, pair: &Pair, window: Window) -> Result<Vec<u8>, Memory>
    requires fit { AreFit pair.now }
    ensures { IfOk result (λ text. text.items ≡ table_text pair.now window) }
{
    let table = tabulate(&pair.first, &pair.second, window.lo(), window.hi());
    table_text(alloc, &table)
}
