//! Drills: a session over a script that a number makes, and four lines about it.
ghost use Rattle.std.specs.Prelude.{◌≡◌, ◌<◌, ◌≤◌, ◌+◌, ◌++◌, decimal, length, OnOk, OnErr, IfOk};
ghost use Rattle.std.specs.Prelude.{IfErr, vec_capacity, vec_len};
ghost use Rattle.oct_io.specs.Counts.{IsMakingCounted};
ghost use Rattle.oct_io.specs.Taken.{IsCutOff};
ghost use Rattle.oct_io.specs.Told.{appended};
ghost use Rattle.oct_io.specs.FaultCounts.{IsSinkCounted};
ghost use Rattle.oct_session.specs.Drill.{drill as whole_drill, drill_setup};
ghost use Rattle.oct_session.specs.Drill.{lines_about, HasLeft};
ghost use Rattle.oct_io.specs.Answer.{EndsUnread};

use crate::building::Discard;
use crate::context::Context;
use crate::options::{MOST_BYTES, Options};
use crate::service::{done_or_refused, read_all};
use crate::session::Session;
use crate::tally::Tally;
use itoa::Buffer;
use oct_gen::Generator;
use oct_io::{MemoryStore, Sink, SinkFault, Status, Stop, status_written, write_all};
use oct_key::Res;
use oct_map::{Limits, OccMap};
use oct_num::Memory;
use oct_odds::OddsModel;
use std::alloc::Global;

/// What a drill is set up with: voxels of 0.05 m, and the default of each option.
fn drill_options() -> Options
    ensures { result ≡ drill_setup }
{
    let Ok(res) = Res::new(50_000_000) else {
        unreachable!();
    };
    Options {
        res,
        odds: OddsModel::default(),
        limits: Limits {
            max_groups: 1 << 24,
            max_cells: 1 << 26,
        },
        max_bytes: MOST_BYTES,
    }
}

/// Appends a word and its number. Memory runs out only where the text has no room for them.
fn push_count(out: &mut Vec<u8>, word: &[u8], n: u64) -> Result<(), Memory>
    ensures ok { OnOk result (out.new.items ≡ out.old.items ++ word.now ++ decimal n) }
    ensures memory { OnErr result
        (vec_capacity out.old < vec_len out.old + (length word.now + length (decimal n))) }
    ensures len { OnOk result
        (vec_len out.new ≡ vec_len out.old + (length word.now + length (decimal n))) }
    ensures capacity { vec_capacity out.old ≤ vec_capacity out.new }
{
    out.extend_from_slice(word)?;
    out.extend_from_slice(Buffer::new().format(n).as_bytes())?;
    Ok(())
}

/// What the script of a drill leaves: its map, and what the replies to it come to.
#[derive(Drop)]
struct Leavings {
    map: OccMap,
    tally: Tally,
}

/// The four lines about what a script of this many scans has left.
fn summary(alloc: Global, scans: u32, left: &mut Leavings) -> Result<Vec<u8>, Memory>
    ensures { IfOk result (λ text. text.items ≡ lines_about scans left.old) }
{
    let bytes = left.map.bt_len();
    let counts = left.map.counts();
    let mut text = Vec::new(alloc);
    push_count(&mut text, b"scans ", u64::from(scans))?;
    push_count(&mut text, b" refused ", left.tally.refused)?;
    push_count(&mut text, b"\nhits ", left.tally.hits)?;
    push_count(&mut text, b" frees ", left.tally.frees)?;
    push_count(&mut text, b"\ngroups ", u64::from(counts.groups))?;
    push_count(&mut text, b" nodes ", counts.nodes)?;
    push_count(&mut text, b"\nbt ", bytes)?;
    text.extend_from_slice(b"\n")?;
    Ok(text)
}

/// Writes these four lines.
fn write_summary<K: Sink>(
    alloc: Global,
    scans: u32,
    left: &mut Leavings,
    sink: &mut K,
) -> Result<(), SinkFault>
    ensures ok { OnOk result
        (K.written sink.new ≡ appended (K.written sink.old) (lines_about scans left.old)) }
    ensures err { OnErr result
        (IsCutOff (K.written sink.old) (K.written sink.new) (lines_about scans left.old)) }
    ensures sink_counts { IsMakingCounted result (K.faults sink.old) (K.faults sink.new)
        (K.shortages sink.old) (K.shortages sink.new) }
{
    let text = summary(alloc, scans, left)?;
    write_all(sink, &text)
}

/// Does the script of these numbers on a new map.
fn work_through(alloc: Global, seed: u64, scans: u32, points: u32) -> Result<Leavings, Stop>
    requires few_scans { scans ≤ 1000 }
    requires few_points { points ≤ 100000 }
    ensures done { IfOk result (λ left. HasLeft seed scans points left) }
    ensures memory { IfErr result (λ stop. stop ≡ Stop.Memory) }
{
    let options = drill_options();
    let mut map = options.new_map(alloc);
    let mut session = Session::new(alloc);
    let mut store = MemoryStore::new(alloc);
    let mut script = Generator::new(seed, scans, points);
    let mut context = Context {
        alloc,
        map: &mut map,
        store: &mut store,
        sink: &mut Discard {},
    };
    read_all(&options, &mut context, &mut session, &mut script)?;
    Ok(Leavings {
        map,
        tally: session.tally,
    })
}

/// Does the script of this seed, of this many scans of this many points each, as a session at 0.05
/// m with the default of each option, and writes four lines about it in place of the replies.
///
/// The script is made as it is read. After an error a part of the lines was written.
pub fn drill<K: Sink>(alloc: Global, seed: u64, scans: u32, points: u32, sink: &mut K) -> Status
    requires few_scans { scans ≤ 1000 }
    requires few_points { points ≤ 100000 }
    ensures answer { EndsUnread (whole_drill seed scans points)
        (K.written sink.old) (K.written sink.new) result }
    ensures sink_counts { IsSinkCounted result (K.faults sink.old) (K.faults sink.new)
        (K.shortages sink.old) (K.shortages sink.new) }
{
    match work_through(alloc, seed, scans, points) {
        Ok(mut left) => {
            let ended = done_or_refused(left.tally.refused > 0);
            let written = write_summary(alloc, scans, &mut left, sink);
            status_written(ended, written)
        }
        Err(stop) => Status::from(stop),
    }
}
