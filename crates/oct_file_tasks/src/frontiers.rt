//! The frontier of a file.
ghost use Rattle.std.specs.Prelude.{◌≤◌, ◌^◌, length};
ghost use Rattle.oct_bt.specs.DataClasses.{data_classes};
ghost use Rattle.oct_bt.specs.NodeData.{IsAccepted};
ghost use Rattle.oct_frontier.specs.Frontier.{frontier_between};
ghost use Rattle.oct_io.specs.FaultCounts.{IsSinkCounted};
ghost use Rattle.oct_file_tasks.specs.Frontiers.{list_reply, frontier_reply};
ghost use Rattle.oct_io.specs.Answer.{EndsUnread};
ghost use Rattle.oct_file_tasks.specs.OverFile.{IsOfReply};

use crate::file_tree::tree_of;
use crate::frontier_text::listing_text;
use crate::refusal::{Refusal, box_between};
use crate::sending::{send, send_refusal};
use oct_bt::BtFile;
use oct_frontier::{FrontierFault, frontier};
use oct_io::{Sink, Status};
use oct_key::{Point, Window};
use std::alloc::Global;

/// The most voxels that are listed.
const MOST_VOXELS: u64 = 1_000_000;

/// Writes the frontier between the voxels of two points, one line for each voxel of it, and their
/// number.
pub fn list_frontier<K: Sink>(
    alloc: Global,
    file: &BtFile,
    lo: Point,
    hi: Point,
    sink: &mut K,
) -> Status
    requires accepted { IsAccepted file.now.nodes file.now.codes }
    requires few { length file.now.codes ≤ 2 ^ 32 }
    ensures ends { EndsUnread (frontier_reply lo hi file.now) (K.written sink.old)
        (K.written sink.new) result }
    ensures sink_counts { IsSinkCounted result (K.faults sink.old) (K.faults sink.new)
        (K.shortages sink.old) (K.shortages sink.new) }
    ensures ended { IsOfReply result }
{
    match box_between(file.res(), lo, hi) {
        Ok(window) => list_between(alloc, file, window, sink),
        Err(refusal) => send_refusal(alloc, refusal, sink),
    }
}

/// Writes the frontier of a file in a box.
fn list_between<K: Sink>(alloc: Global, file: &BtFile, window: Window, sink: &mut K) -> Status
    requires accepted { IsAccepted file.now.nodes file.now.codes }
    requires few { length file.now.codes ≤ 2 ^ 32 }
    ensures ends { EndsUnread
        (list_reply (frontier_between (data_classes file.now.codes) window.lo window.hi))
        (K.written sink.old) (K.written sink.new) result }
    ensures sink_counts { IsSinkCounted result (K.faults sink.old) (K.faults sink.new)
        (K.shortages sink.old) (K.shortages sink.new) }
    ensures ended { IsOfReply result }
{
    let Ok(tree) = tree_of(alloc, file) else {
        return Status::Memory;
    };
    match frontier(alloc, &tree, window.lo(), window.hi(), MOST_VOXELS) {
        Ok(keys) => send(listing_text(alloc, keys.as_slice()), Status::Done, sink),
        Err(FrontierFault::TooManyFrontiers) => {
            send_refusal(alloc, Refusal::TooManyFrontiers, sink)
        }
        Err(FrontierFault::Memory) => Status::Memory,
    }
}
