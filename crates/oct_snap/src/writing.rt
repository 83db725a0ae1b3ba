//! The writing of a tree's values, node by node.
ghost use Rattle.std.specs.Prelude.{◌*◌, ◌^◌, ◌≡◌, ◌+◌, ◌-◌, ◌<◌, ◌≤◌, Some, OnOk, OnErr};
ghost use Rattle.std.specs.Prelude.{IfOk, length};
ghost use Rattle.oct_key.specs.Block.{Cube};
ghost use Rattle.oct_io.specs.Counts.{IsWriteCounted};
ghost use Rattle.oct_io.specs.Taken.{IsCutOff, IsRefused, IsTaken};
ghost use Rattle.oct_io.specs.Told.{appended};
ghost use Rattle.oct_tree.specs.Tree.{IsLinked, IsPlace, block_in, value_at};
ghost use Rattle.oct_snap.specs.Nodes.{whole_text};
ghost use Rattle.oct_snap.specs.Texts.{node_text, snap_text};

use crate::common::{Common, common_at};
use crate::heading::head_of;
use crate::tags::{PARTED, UNKNOWN, VALUE};
use oct_arena::Node;
use oct_io::{Gather, Sink, SinkFault};
use oct_key::Window;
use oct_tree::{OccTree, Place};

/// Writes the node of a block whose voxels all have this value. Answers its length.
fn write_whole<K: Sink>(
    value: Option<i32>,
    gather: &mut Gather,
    sink: &mut K,
) -> Result<u64, SinkFault>
    ensures length { IfOk result (λ bytes. bytes ≡ length (whole_text value)) }
    ensures written { OnOk result (IsTaken (whole_text value)
        (K.written sink.old) gather.old (K.written sink.new) gather.new) }
    ensures cut { OnErr result
        (IsRefused (whole_text value) (K.written sink.old) gather.old (K.written sink.new)) }
    ensures counts { IsWriteCounted result (K.faults sink.old) (K.faults sink.new)
        (K.shortages sink.old) (K.shortages sink.new) }
{
    let Some(value) = value else {
        gather.push(sink, &[UNKNOWN])?;
        return Ok(1);
    };
    let [a, b, c, d] = value.to_be_bytes();
    gather.push(sink, &[VALUE, a, b, c, d])?;
    Ok(5)
}

/// Writes the node of a place's block, which has this depth. Answers its length.
fn write_node<K: Sink>(
    tree: &OccTree,
    p: Place,
    depth: u8,
    gather: &mut Gather,
    sink: &mut K,
) -> Result<u64, SinkFault>
    requires place { IsPlace tree.now p }
    requires block { (b : Cube) → block_in tree.now p ≡ Some b → b.depth ≡ depth }
    requires levels { depth ≤ 16 }
    ensures length { IfOk result (λ bytes. (b : Cube) → block_in tree.now p ≡ Some b
        → bytes ≡ length (node_text (16 - depth) (value_at tree.now) b)) }
    ensures short { IfOk result (λ bytes. bytes < 6 * 8 ^ (16 - depth)) }
    ensures written { OnOk result ((b : Cube) → block_in tree.now p ≡ Some b
        → IsTaken (node_text (16 - depth) (value_at tree.now) b)
        (K.written sink.old) gather.old (K.written sink.new) gather.new) }
    ensures cut { OnErr result ((b : Cube) → block_in tree.now p ≡ Some b
        → IsRefused (node_text (16 - depth) (value_at tree.now) b)
        (K.written sink.old) gather.old (K.written sink.new)) }
    ensures counts { IsWriteCounted result (K.faults sink.old) (K.faults sink.new)
        (K.shortages sink.old) (K.shortages sink.new) }
    ensures linked { IsLinked tree.now }
{
    if let Common::Value(value) = common_at(tree, p, depth) {
        return write_whole(value, gather, sink);
    }
    let Node::Inner(_, id) = tree.node(p) else {
        unreachable!();
    };
    gather.push(sink, &[PARTED])?;
    let mut bytes = 1;
    for i in 0..8 {
        bytes += write_node(tree, Place::Slot(id, i), depth + 1, gather, sink)?;
    }
    Ok(bytes)
}

/// Writes the snapshot of the tree's values, with its log-odds and the box, if there is one, and
/// answers its length. Groups that could be collapsed are written as if they were one node, so that
/// the text depends on the values of the voxels alone.
///
/// Takes no memory, and hands the sink pieces of 4,096 bytes. After an error a part of the text was
/// written, and exactly one write of the sink gave up, for that reason.
pub fn write<K: Sink>(
    tree: &OccTree,
    window: Option<Window>,
    sink: &mut K,
) -> Result<u64, SinkFault>
    ensures length { IfOk result (λ bytes.
        bytes ≡ length (snap_text tree.now.res tree.now.odds window (value_at tree.now))) }
    ensures written { OnOk result (K.written sink.new ≡ appended (K.written sink.old)
        (snap_text tree.now.res tree.now.odds window (value_at tree.now))) }
    ensures cut { OnErr result (IsCutOff (K.written sink.old) (K.written sink.new)
        (snap_text tree.now.res tree.now.odds window (value_at tree.now))) }
    ensures counts { IsWriteCounted result (K.faults sink.old) (K.faults sink.new)
        (K.shortages sink.old) (K.shortages sink.new) }
{
    let head = head_of(tree.res(), tree.odds(), window);
    let mut gather = Gather::new();
    gather.push(sink, head.as_slice())?;
    let nodes = write_node(tree, Place::Root, 0, &mut gather, sink)?;
    gather.flush(sink)?;
    Ok(head.len() as u64 + nodes)
}
