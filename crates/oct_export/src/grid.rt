//! A height band as a grey picture.
ghost use Rattle.std.specs.Prelude.{◌≡◌, ◌+◌, ◌-◌, ◌≤◌, ◌++◌, OnOk, OnErr, IfOk, length, replicate};
ghost use Rattle.oct_key.specs.Boxes.{IsBox};
ghost use Rattle.oct_io.specs.Counts.{IsWriteCounted};
ghost use Rattle.oct_io.specs.Taken.{IsCutOff};
ghost use Rattle.oct_io.specs.Told.{appended};
ghost use Rattle.oct_tree.specs.Classes.{classes_in};
ghost use Rattle.oct_export.specs.Grids.{grey_of, grid_head, row_of, rows_of, pgm_text};
ghost use Rattle.oct_export.specs.Pushed.{IsPushed};

use crate::strip::strip_at;
use arrayvec::ArrayString;
use itoa::Buffer;
use oct_io::{Gather, Sink, SinkFault};
use oct_key::Key;
use oct_odds::Class;
use oct_tree::OccTree;

/// The most bytes of a run that are pushed at once.
const PIECE: u32 = 256;

/// The grey of a class: black, nearly white, and a light grey between.
fn grey_of(class: Class) -> u8
    ensures { result ≡ grey_of class }
{
    match class {
        Class::Occupied => 0x00,
        Class::Free => 0xfe,
        Class::Unknown => 0xcd,
    }
}

/// Pushes this many bytes of one value.
fn push_run<K: Sink>(
    byte: u8,
    count: u32,
    gather: &mut Gather,
    sink: &mut K,
) -> Result<(), SinkFault>
    ensures pushed { OnOk result (IsPushed (replicate count byte) gather.old gather.new
        (K.written sink.old) (K.written sink.new)) }
    ensures cut { OnErr result (IsCutOff (K.written sink.old) (K.written sink.new)
        (gather.old ++ replicate count byte)) }
    ensures counts { IsWriteCounted result (K.faults sink.old) (K.faults sink.new)
        (K.shortages sink.old) (K.shortages sink.new) }
{
    let bytes = [byte; PIECE as usize];
    let mut left = count;
    while left > 0 {
        let size = left.min(PIECE);
        let (piece, _) = bytes.split_at(size as usize);
        gather.push(sink, piece)?;
        left -= size;
    }
    Ok(())
}

/// Pushes the row of the columns with this number on y, strip by strip.
fn push_row<K: Sink>(
    tree: &OccTree,
    lo: Key,
    hi: Key,
    y: u16,
    gather: &mut Gather,
    sink: &mut K,
) -> Result<(), SinkFault>
    requires order { IsBox lo hi }
    ensures pushed { OnOk result (IsPushed (row_of (classes_in tree.now) lo hi y)
        gather.old gather.new (K.written sink.old) (K.written sink.new)) }
    ensures cut { OnErr result (IsCutOff (K.written sink.old) (K.written sink.new)
        (gather.old ++ row_of (classes_in tree.now) lo hi y)) }
    ensures counts { IsWriteCounted result (K.faults sink.old) (K.faults sink.new)
        (K.shortages sink.old) (K.shortages sink.new) }
{
    let mut x = u32::from(lo.x);
    while x <= u32::from(hi.x) {
        let strip = strip_at(tree, x as u16, y, lo.z, hi.z);
        let next = u32::from(strip.last.min(hi.x)) + 1;
        push_run(grey_of(strip.class), next - x, gather, sink)?;
        x = next;
    }
    Ok(())
}

/// Pushes the rows, from the highest number on y down.
fn push_rows<K: Sink>(
    tree: &OccTree,
    lo: Key,
    hi: Key,
    gather: &mut Gather,
    sink: &mut K,
) -> Result<(), SinkFault>
    requires order { IsBox lo hi }
    ensures pushed { OnOk result
        (IsPushed (rows_of (classes_in tree.now) lo hi (hi.y + 1 - lo.y))
        gather.old gather.new (K.written sink.old) (K.written sink.new)) }
    ensures cut { OnErr result (IsCutOff (K.written sink.old) (K.written sink.new)
        (gather.old ++ rows_of (classes_in tree.now) lo hi (hi.y + 1 - lo.y))) }
    ensures counts { IsWriteCounted result (K.faults sink.old) (K.faults sink.new)
        (K.shortages sink.old) (K.shortages sink.new) }
{
    let height = u32::from(hi.y - lo.y) + 1;
    for n in 0..height {
        push_row(tree, lo, hi, hi.y - n as u16, gather, sink)?;
    }
    Ok(())
}

/// The lines before the rows.
fn head_of(width: u32, height: u32) -> ArrayString<32>
    requires { (width ≤ 65536) × (height ≤ 65536) }
    ensures { result.bytes ≡ grid_head width height }
{
    let mut text = ArrayString::new();
    text.push_str("P5\n");
    text.push_str(Buffer::new().format(width));
    text.push_str(" ");
    text.push_str(Buffer::new().format(height));
    text.push_str("\n255\n");
    text
}

/// Writes the columns of the box of two corners, both included, as a PGM file, and answers its
/// length. A column shows its voxels between the corners' numbers on z as [`band`](crate::band)
/// does: black where it is occupied, 254 where it is free, 205 where it is unknown. Rows go from
/// the highest number on y to the lowest, and in a row the number on x ascends.
///
/// Takes no memory, and hands the sink pieces of 4,096 bytes. Blocks of one class are looked at
/// once for all columns of a row over them. After an error a part of the text was written, and
/// exactly one write of the sink gave up, for that reason.
pub fn pgm<K: Sink>(tree: &OccTree, lo: Key, hi: Key, sink: &mut K) -> Result<u64, SinkFault>
    requires order { IsBox lo hi }
    ensures length { IfOk result
        (λ bytes. bytes ≡ length (pgm_text (classes_in tree.now) lo hi)) }
    ensures written { OnOk result (K.written sink.new
        ≡ appended (K.written sink.old) (pgm_text (classes_in tree.now) lo hi)) }
    ensures cut { OnErr result (IsCutOff (K.written sink.old) (K.written sink.new)
        (pgm_text (classes_in tree.now) lo hi)) }
    ensures counts { IsWriteCounted result (K.faults sink.old) (K.faults sink.new)
        (K.shortages sink.old) (K.shortages sink.new) }
{
    let width = u32::from(hi.x - lo.x) + 1;
    let height = u32::from(hi.y - lo.y) + 1;
    let head = head_of(width, height);
    let mut gather = Gather::new();
    gather.push(sink, head.as_bytes())?;
    push_rows(tree, lo, hi, &mut gather, sink)?;
    gather.flush(sink)?;
    Ok(head.len() as u64 + u64::from(width) * u64::from(height))
}
