//! The writing of a tree's classes, record by record.
ghost use Rattle.std.specs.Prelude.{◌≡◌, ◌+◌, ◌-◌, ◌<◌, ◌≤◌, [], Some, OnOk, OnErr};
ghost use Rattle.oct_key.specs.Block.{Cube, child_of};
ghost use Rattle.oct_odds.specs.declared.event.Class.{Class};
ghost use Rattle.oct_io.specs.Counts.{IsWriteCounted};
ghost use Rattle.oct_io.specs.Taken.{IsRefused, IsTaken};
ghost use Rattle.oct_arena.specs.Nodes.{link_of};
ghost use Rattle.oct_tree.specs.Tree.{IsLinked, IsPlace, block_in, node_in};
ghost use Rattle.oct_bt.specs.Records.{code_bytes};
ghost use Rattle.oct_bt.specs.Canonical.{block_code, data_below};
ghost use Rattle.oct_bt.specs.Mixtures.{class_of_mixture, IsMixtureOf, IsFirstOther};
ghost use Rattle.oct_tree.specs.Classes.{classes_in};
ghost use Rattle.oct_bt.specs.Parts.{IsRecordOf};

use crate::mixture::{Mixture, leaf_class, mixture_at};
use arrayvec::ArrayVec;
use oct_arena::{GroupId, Node};
use oct_io::{Gather, Sink, SinkFault};
use oct_odds::Class;
use oct_tree::{OccTree, Place};

/// A child whose voxels are of several classes.
#[derive(Clone, Copy)]
pub(crate) struct Part {
    /// Its child index.
    pub(crate) i: u8,
    /// The class of its first voxels.
    pub(crate) class: Class,
    /// The way from it to its first voxel of another class.
    pub(crate) way: u64,
}

impl Default for Part {
    fn default() -> Self {
        Part {
            i: 0,
            class: Class::Unknown,
            way: 0,
        }
    }
}

/// The code of a block of this mixture.
#[inline(always)]
fn code_of(mixture: Mixture) -> u8
    ensures code { result ≡ block_code (class_of_mixture mixture) }
    ensures small { result < 4 }
{
    match mixture {
        Mixture::Pure(Class::Unknown) => 0,
        Mixture::Pure(Class::Free) => 1,
        Mixture::Pure(Class::Occupied) => 2,
        Mixture::Mixed(..) => 3,
    }
}

/// The mixture of a child of an Inner place's block, which has this depth, and of which this way
/// leads to the first voxel that isn't of the class. Only a child that begins there or after it is
/// looked at.
#[inline(always)]
fn child_mixture(
    tree: &OccTree,
    p: Place,
    id: GroupId,
    depth: u8,
    class: Class,
    way: u64,
    i: u8,
) -> Mixture
    requires place { IsPlace tree.now p }
    requires block { (b : Cube) → block_in tree.now p ≡ Some b → b.depth ≡ depth }
    requires link { link_of (node_in tree.now p) ≡ Some id.number }
    requires linked { IsLinked tree.now }
    requires levels { depth ≤ 15 }
    requires few { i < 8 }
    requires mixed { (b : Cube) → block_in tree.now p ≡ Some b
        → IsFirstOther (classes_in tree.now) class (16 - depth) b way }
    ensures { (b : Cube) → block_in tree.now p ≡ Some b
        → IsMixtureOf (classes_in tree.now) (16 - (depth + 1)) (child_of b i) result }
{
    let slot = Place::Slot(id, i);
    let node = tree.node(slot);
    let Node::Inner(..) = node else {
        return Mixture::Pure(leaf_class(tree, node));
    };
    let at = (way % 8) as u8;
    if i < at {
        return Mixture::Pure(class);
    }
    if i == at && way / 8 > 0 {
        return Mixture::Mixed(class, way / 8);
    }
    mixture_at(tree, slot, depth + 1)
}

/// The codes of an Inner place's block, which has this depth, and of which this way leads to the
/// first voxel that isn't of the class: two bits for each child, the first one in the lowest. Notes
/// the children of several classes, the last one first.
#[inline(always)]
fn read_record(
    tree: &OccTree,
    p: Place,
    id: GroupId,
    depth: u8,
    class: Class,
    way: u64,
    parts: &mut ArrayVec<Part, 8>,
) -> u16
    requires place { IsPlace tree.now p }
    requires block { (b : Cube) → block_in tree.now p ≡ Some b → b.depth ≡ depth }
    requires link { link_of (node_in tree.now p) ≡ Some id.number }
    requires linked { IsLinked tree.now }
    requires levels { depth ≤ 15 }
    requires mixed { (b : Cube) → block_in tree.now p ≡ Some b
        → IsFirstOther (classes_in tree.now) class (16 - depth) b way }
    requires none { parts.old.items ≡ [] }
    ensures { (b : Cube) → block_in tree.now p ≡ Some b
        → IsRecordOf (classes_in tree.now) depth b result parts.new.items }
{
    let mut codes: u16 = 0;
    for done in 0..8 {
        let i = 7 - done;
        let mixture = child_mixture(tree, p, id, depth, class, way, i);
        codes = u16::from(code_of(mixture)) + 4 * codes;
        if let Mixture::Mixed(class, way) = mixture {
            parts.push(Part { i, class, way });
        }
    }
    codes
}

/// Writes the two bytes of a record.
pub(crate) fn write_record<K: Sink>(
    codes: u16,
    gather: &mut Gather,
    sink: &mut K,
) -> Result<(), SinkFault>
    ensures written { OnOk result (IsTaken (code_bytes codes)
        (K.written sink.old) gather.old (K.written sink.new) gather.new) }
    ensures cut { OnErr result
        (IsRefused (code_bytes codes) (K.written sink.old) gather.old (K.written sink.new)) }
    ensures counts { IsWriteCounted result (K.faults sink.old) (K.faults sink.new)
        (K.shortages sink.old) (K.shortages sink.new) }
{
    gather.push(sink, &[(codes % 256) as u8, (codes / 256) as u8])
}

/// Writes the data of a place's block, which has this depth, and of which this way leads to the
/// first voxel that isn't of the class.
pub(crate) fn write_block<K: Sink>(
    tree: &OccTree,
    p: Place,
    depth: u8,
    class: Class,
    way: u64,
    gather: &mut Gather,
    sink: &mut K,
) -> Result<(), SinkFault>
    requires place { IsPlace tree.now p }
    requires block { (b : Cube) → block_in tree.now p ≡ Some b → b.depth ≡ depth }
    requires levels { depth ≤ 16 }
    requires mixed { (b : Cube) → block_in tree.now p ≡ Some b
        → (0 < way) × IsFirstOther (classes_in tree.now) class (16 - depth) b way }
    ensures written { OnOk result ((b : Cube) → block_in tree.now p ≡ Some b
        → IsTaken (data_below (classes_in tree.now) (16 - depth) b)
        (K.written sink.old) gather.old (K.written sink.new) gather.new) }
    ensures cut { OnErr result ((b : Cube) → block_in tree.now p ≡ Some b
        → IsRefused (data_below (classes_in tree.now) (16 - depth) b)
        (K.written sink.old) gather.old (K.written sink.new)) }
    ensures counts { IsWriteCounted result (K.faults sink.old) (K.faults sink.new)
        (K.shortages sink.old) (K.shortages sink.new) }
    ensures linked { IsLinked tree.now }
{
    let Node::Inner(_, id) = tree.node(p) else {
        unreachable!();
    };
    let mut parts = ArrayVec::new();
    let codes = read_record(tree, p, id, depth, class, way, &mut parts);
    write_record(codes, gather, sink)?;
    while let Some(part) = parts.pop() {
        let slot = Place::Slot(id, part.i);
        write_block(tree, slot, depth + 1, part.class, part.way, gather, sink)?;
    }
    Ok(())
}
