//! The map of a file as other programs read it: a height band as a grid, and occupied space as
//! boxes.
ghost use Rattle.std.specs.Prelude.{◌≤◌, ◌^◌, length};
ghost use Rattle.oct_bt.specs.DataClasses.{data_classes};
ghost use Rattle.oct_bt.specs.NodeData.{IsAccepted};
ghost use Rattle.oct_io.specs.FaultCounts.{IsSinkCounted};
ghost use Rattle.oct_file_tasks.specs.Grids.{grid_reply, project_reply, scene_reply};
ghost use Rattle.oct_io.specs.Answer.{EndsUnread};
ghost use Rattle.oct_file_tasks.specs.OverFile.{IsOfReply};

use crate::file_tree::tree_of;
use crate::refusal::{Refusal, box_between};
use crate::sending::send_refusal;
use oct_bt::BtFile;
use oct_export::{box_count, column_count, pgm, vrml};
use oct_io::{Sink, Status, status_written};
use oct_key::{Point, Window};
use std::alloc::Global;

/// The most columns of a grid.
const MOST_COLUMNS: u64 = 1 << 26;

/// The most boxes of a scene.
const MOST_BOXES: u64 = 1_000_000;

/// Writes the columns between the voxels of two points as a picture: each shows what stands in it
/// between the heights of the two.
pub fn project<K: Sink>(alloc: Global, file: &BtFile, lo: Point, hi: Point, sink: &mut K) -> Status
    requires accepted { IsAccepted file.now.nodes file.now.codes }
    requires few { length file.now.codes ≤ 2 ^ 32 }
    ensures ends { EndsUnread (project_reply lo hi file.now) (K.written sink.old)
        (K.written sink.new) result }
    ensures sink_counts { IsSinkCounted result (K.faults sink.old) (K.faults sink.new)
        (K.shortages sink.old) (K.shortages sink.new) }
    ensures ended { IsOfReply result }
{
    match box_between(file.res(), lo, hi) {
        Ok(window) => project_between(alloc, file, window, sink),
        Err(refusal) => send_refusal(alloc, refusal, sink),
    }
}

/// Writes the columns of a file in a box.
fn project_between<K: Sink>(alloc: Global, file: &BtFile, window: Window, sink: &mut K) -> Status
    requires accepted { IsAccepted file.now.nodes file.now.codes }
    requires few { length file.now.codes ≤ 2 ^ 32 }
    ensures ends { EndsUnread (grid_reply (data_classes file.now.codes) window)
        (K.written sink.old) (K.written sink.new) result }
    ensures sink_counts { IsSinkCounted result (K.faults sink.old) (K.faults sink.new)
        (K.shortages sink.old) (K.shortages sink.new) }
    ensures ended { IsOfReply result }
{
    let (low, high) = (window.lo(), window.hi());
    let count = column_count(low, high);
    if count > MOST_COLUMNS {
        return send_refusal(alloc, Refusal::WideGrid { count }, sink);
    }
    let Ok(tree) = tree_of(alloc, file) else {
        return Status::Memory;
    };
    status_written(Status::Done, pgm(&tree, low, high, sink))
}

/// Writes the occupied space of a file as a scene of boxes.
pub fn draw_boxes<K: Sink>(alloc: Global, file: &BtFile, sink: &mut K) -> Status
    requires accepted { IsAccepted file.now.nodes file.now.codes }
    requires few { length file.now.codes ≤ 2 ^ 32 }
    ensures ends { EndsUnread (scene_reply file.now) (K.written sink.old) (K.written sink.new)
        result }
    ensures sink_counts { IsSinkCounted result (K.faults sink.old) (K.faults sink.new)
        (K.shortages sink.old) (K.shortages sink.new) }
    ensures ended { IsOfReply result }
{
    let Ok(tree) = tree_of(alloc, file) else {
        return Status::Memory;
    };
    let count = box_count(&tree);
    if count > MOST_BOXES {
        return send_refusal(alloc, Refusal::TooManyBoxes { count }, sink);
    }
    status_written(Status::Done, vrml(&tree, sink))
}
