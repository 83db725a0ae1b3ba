//! Occupied space as a scene of boxes.
ghost use Rattle.std.specs.Prelude.{◌≡◌, ◌%◌, ◌^◌, ◌≤◌, ◌++◌, Some, [], OnOk, OnErr, IfOk, length};
ghost use Rattle.std.specs.Prelude.{if◌then◌else◌};
ghost use Rattle.oct_key.specs.Block.{index_in_parent};
ghost use Rattle.oct_key.specs.CubeOf.{cube_of};
ghost use Rattle.oct_io.specs.Counts.{IsWriteCounted};
ghost use Rattle.oct_io.specs.Taken.{IsCutOff};
ghost use Rattle.oct_io.specs.Told.{appended};
ghost use Rattle.oct_tree.specs.Tree.{IsLinked, IsPlace, block_in};
ghost use Rattle.oct_tree.specs.Classes.{classes_in};
ghost use Rattle.oct_export.specs.Boxes.{is_full, is_due, waited, blocks_before, boxes_found};
ghost use Rattle.oct_export.specs.BoxTexts.{box_line, box_lines, scene_text};
ghost use Rattle.oct_export.specs.Pushed.{IsPushed};

use crate::line::line_of;
use crate::strip::{are_both, class_of_node, is_occupied};
use oct_arena::Node;
use oct_io::{Gather, Sink, SinkFault};
use oct_key::{Block, Res};
use oct_tree::{OccTree, Place};

/// The first line of a scene.
const FIRST_LINE: &str = "#VRML V2.0 utf8\n";

/// What a walk through a block found: whether all its voxels are occupied, and how many bytes it
/// pushed, modulo 2^64.
#[derive(Clone, Copy)]
struct Walked {
    full: bool,
    bytes: u64,
}

/// Pushes the line of a box, and answers its length.
fn push_box<K: Sink>(
    res: Res,
    block: Block,
    gather: &mut Gather,
    sink: &mut K,
) -> Result<u64, SinkFault>
    ensures bytes { IfOk result (λ bytes. bytes ≡ length (box_line res (cube_of block))) }
    ensures pushed { OnOk result (IsPushed (box_line res (cube_of block)) gather.old gather.new
        (K.written sink.old) (K.written sink.new)) }
    ensures cut { OnErr result (IsCutOff (K.written sink.old) (K.written sink.new)
        (gather.old ++ box_line res (cube_of block))) }
    ensures counts { IsWriteCounted result (K.faults sink.old) (K.faults sink.new)
        (K.shortages sink.old) (K.shortages sink.new) }
{
    let line = line_of(res, block);
    gather.push(sink, line.as_bytes())?;
    Ok(line.len() as u64)
}

/// Which child of its parent a block is.
fn number_of(block: Block) -> u8
    ensures exact { result ≡ index_in_parent (cube_of block) }
    ensures few { result ≤ 7 }
{
    let x = block.x % 2;
    let y = block.y % 2;
    let z = block.z % 2;
    (x + 2 * y + 4 * z) as u8
}

/// Pushes the boxes before a block in the one this many levels above it, all whose voxels before it
/// are occupied. Answers how many bytes that are, modulo 2^64.
fn push_before<K: Sink>(
    res: Res,
    block: Block,
    levels: u8,
    gather: &mut Gather,
    sink: &mut K,
) -> Result<u64, SinkFault>
    requires { levels ≤ block.depth }
    ensures bytes { IfOk result (λ bytes. bytes
        ≡ length (box_lines res (blocks_before levels (cube_of block))) % 2 ^ 64) }
    ensures pushed { OnOk result (IsPushed (box_lines res (blocks_before levels (cube_of block)))
        gather.old gather.new (K.written sink.old) (K.written sink.new)) }
    ensures cut { OnErr result (IsCutOff (K.written sink.old) (K.written sink.new)
        (gather.old ++ box_lines res (blocks_before levels (cube_of block)))) }
    ensures counts { IsWriteCounted result (K.faults sink.old) (K.faults sink.new)
        (K.shortages sink.old) (K.shortages sink.new) }
{
    if levels == 0 {
        return Ok(0);
    }
    let parent = block.parent();
    let mut bytes = push_before(res, parent, levels - 1, gather, sink)?;
    for i in 0..number_of(block) {
        let line = push_box(res, parent.child(i), gather, sink)?;
        bytes = bytes.wrapping_add(line);
    }
    Ok(bytes)
}

/// Handles a block of one class before which all voxels of the block this many levels above it are
/// occupied. If it is occupied too, nothing is written yet; else the blocks before it are boxes,
/// and are written.
fn push_leaf<K: Sink>(
    res: Res,
    block: Block,
    full: bool,
    levels: u8,
    gather: &mut Gather,
    sink: &mut K,
) -> Result<Walked, SinkFault>
    requires { levels ≤ block.depth }
    ensures full { IfOk result (λ walked. walked.full ≡ full) }
    ensures bytes { IfOk result (λ walked. walked.bytes ≡ length (box_lines res
        (if full then [] else blocks_before levels (cube_of block))) % 2 ^ 64) }
    ensures pushed { OnOk result
        (IsPushed (box_lines res (if full then [] else blocks_before levels (cube_of block)))
        gather.old gather.new (K.written sink.old) (K.written sink.new)) }
    ensures cut { OnErr result (IsCutOff (K.written sink.old) (K.written sink.new)
        (gather.old
        ++ box_lines res (if full then [] else blocks_before levels (cube_of block)))) }
    ensures counts { IsWriteCounted result (K.faults sink.old) (K.faults sink.new)
        (K.shortages sink.old) (K.shortages sink.new) }
{
    if full {
        return Ok(Walked { full, bytes: 0 });
    }
    let bytes = push_before(res, block, levels, gather, sink)?;
    Ok(Walked { full, bytes })
}

/// Pushes the line of a block that is a box, if it is one. Answers how many bytes that are.
fn push_due<K: Sink>(
    res: Res,
    block: Block,
    is_box: bool,
    gather: &mut Gather,
    sink: &mut K,
) -> Result<u64, SinkFault>
    ensures bytes { IfOk result
        (λ bytes. bytes ≡ length (if is_box then box_line res (cube_of block) else [])) }
    ensures pushed { OnOk result
        (IsPushed (if is_box then box_line res (cube_of block) else [])
        gather.old gather.new (K.written sink.old) (K.written sink.new)) }
    ensures cut { OnErr result (IsCutOff (K.written sink.old) (K.written sink.new)
        (gather.old ++ (if is_box then box_line res (cube_of block) else []))) }
    ensures counts { IsWriteCounted result (K.faults sink.old) (K.faults sink.new)
        (K.shortages sink.old) (K.shortages sink.new) }
{
    if is_box {
        push_box(res, block, gather, sink)
    } else {
        Ok(0)
    }
}

/// How many levels above its own a walk waits for in a child.
fn waited(all_before: bool, levels: u8) -> u8
    requires { levels ≤ 15 }
    ensures { result ≡ waited all_before levels }
{
    if all_before { levels + 1 } else { 0 }
}

/// Whether a child is a box by itself.
fn is_due(full: bool, all_before: bool) -> bool
    ensures { result ≡ is_due full all_before }
{
    full && !all_before
}

/// Walks through the place's block, where all voxels before it in the block this many levels above
/// it are occupied, and pushes the boxes that are known by then.
fn push_boxes<K: Sink>(
    tree: &OccTree,
    p: Place,
    block: Block,
    levels: u8,
    gather: &mut Gather,
    sink: &mut K,
) -> Result<Walked, SinkFault>
    requires place { IsPlace tree.now p }
    requires block { block_in tree.now p ≡ Some (cube_of block) }
    requires levels { levels ≤ block.depth }
    ensures full { IfOk result
        (λ walked. walked.full ≡ is_full (classes_in tree.now) (cube_of block)) }
    ensures bytes { IfOk result (λ walked. walked.bytes ≡ length (box_lines tree.now.res
        (boxes_found (classes_in tree.now) levels (cube_of block))) % 2 ^ 64) }
    ensures pushed { OnOk result (IsPushed
        (box_lines tree.now.res (boxes_found (classes_in tree.now) levels (cube_of block)))
        gather.old gather.new (K.written sink.old) (K.written sink.new)) }
    ensures cut { OnErr result (IsCutOff (K.written sink.old) (K.written sink.new)
        (gather.old
        ++ box_lines tree.now.res (boxes_found (classes_in tree.now) levels (cube_of block)))) }
    ensures counts { IsWriteCounted result (K.faults sink.old) (K.faults sink.new)
        (K.shortages sink.old) (K.shortages sink.new) }
    ensures linked { IsLinked tree.now }
{
    let node = tree.node(p);
    let Node::Inner(_, id) = node else {
        let full = is_occupied(class_of_node(tree, node));
        return push_leaf(tree.res(), block, full, levels, gather, sink);
    };
    let mut full = true;
    let mut bytes = 0u64;
    for i in 0..8 {
        let child = block.child(i);
        let above = waited(full, levels);
        let found = push_boxes(tree, Place::Slot(id, i), child, above, gather, sink)?;
        let line = push_due(tree.res(), child, is_due(found.full, full), gather, sink)?;
        bytes = bytes.wrapping_add(found.bytes).wrapping_add(line);
        full = are_both(full, found.full);
    }
    Ok(Walked { full, bytes })
}

/// Writes the occupied space of the tree as a scene of VRML97, and answers its length: a line for
/// each of the greatest blocks all of whose voxels are occupied, by the Morton code of its lowest
/// voxel, with its middle and its edge in metres. How the tree is split into leaves makes no
/// difference.
///
/// Goes through the tree once, takes no memory, and hands the sink pieces of 4,096 bytes. After an
/// error a part of the text was written, and exactly one write of the sink gave up, for that
/// reason.
pub fn vrml<K: Sink>(tree: &OccTree, sink: &mut K) -> Result<u64, SinkFault>
    ensures length { IfOk result
        (λ bytes. bytes ≡ length (scene_text tree.now.res (classes_in tree.now))) }
    ensures written { OnOk result (K.written sink.new
        ≡ appended (K.written sink.old) (scene_text tree.now.res (classes_in tree.now))) }
    ensures cut { OnErr result (IsCutOff (K.written sink.old) (K.written sink.new)
        (scene_text tree.now.res (classes_in tree.now))) }
    ensures counts { IsWriteCounted result (K.faults sink.old) (K.faults sink.new)
        (K.shortages sink.old) (K.shortages sink.new) }
{
    let head = FIRST_LINE.as_bytes();
    let mut gather = Gather::new();
    gather.push(sink, head)?;
    let found = push_boxes(tree, Place::Root, Block::whole_map(), 0, &mut gather, sink)?;
    let line = push_due(
        tree.res(),
        Block::whole_map(),
        found.full,
        &mut gather,
        sink,
    )?;
    gather.flush(sink)?;
    let length = (head.len() as u64)
        .wrapping_add(found.bytes)
        .wrapping_add(line);
    Ok(length)
}
