//! The file of a tree's classes.
ghost use Rattle.std.specs.Prelude.{◌≡◌, ◌⊎◌, ◌+◌, ◌*◌, ◌<◌, ◌↔◌, ◌^◌, IsTrue, OnOk, OnErr};
ghost use Rattle.std.specs.Prelude.{IfOk, length};
ghost use Rattle.oct_key.specs.Block.{root_block};
ghost use Rattle.oct_key.specs.Voxel.{Voxel, IsInMap};
ghost use Rattle.oct_io.specs.Counts.{IsWriteCounted};
ghost use Rattle.oct_io.specs.Taken.{IsCutOff, IsRefused, IsTaken};
ghost use Rattle.oct_io.specs.Told.{appended};
ghost use Rattle.oct_bt.specs.Canonical.{canonical_data, canonical_size};
ghost use Rattle.oct_bt.specs.File.{header_text, bt_text};
ghost use Rattle.oct_bt.specs.Mixtures.{leaves_text, IsMixtureOf, IsCounted};
ghost use Rattle.oct_tree.specs.Classes.{classes_in};
ghost use Rattle.oct_values.specs.Classes.{Classes};

use crate::counting::{BlockCount, Kind, count_at};
use crate::mixture::{Mixture, mixture_at};
use crate::path::{FREE_LEAVES, OCCUPIED_LEAVES};
use crate::writing::{write_block, write_record};
use arrayvec::ArrayString;
use itoa::Buffer;
use oct_io::{Gather, Sink, SinkFault};
use oct_key::Res;
use oct_num::metres_text;
use oct_odds::Class;
use oct_tree::{OccTree, Place};

/// The lines of a header before the number of nodes.
const FIRST_LINES: &str = "# Octomap OcTree binary file\n\
    # (feel free to add / change comments, but leave the first line as it is!)\n\
    #\n\
    id OcTree\n\
    size ";

/// The header of a file of this many nodes.
pub(crate) fn header_of(nodes: u64, res: Res) -> ArrayString<256>
    ensures { result.bytes ≡ header_text nodes res }
{
    let mut text = ArrayString::new();
    text.push_str(FIRST_LINES);
    text.push_str(Buffer::new().format(nodes));
    text.push_str("\nres ");
    text.push_str(metres_text(res.nm()).as_str());
    text.push_str("\ndata\n");
    text
}

/// Whether this is the kind of a block that is all of a known class.
fn is_known(kind: Kind) -> bool
    ensures { IsTrue result ↔ ((kind ≡ Kind.Free) ⊎ (kind ≡ Kind.Occupied)) }
{
    matches!(kind, Kind::Free | Kind::Occupied)
}

/// What the node data of the whole map has. A map of one known class has eight leaves.
fn count_data(tree: &OccTree) -> BlockCount
    ensures counted { IsCounted (canonical_data (classes_in tree.now)) result.known result.records }
    ensures small { result.known < 2 ^ 50 }
    ensures few { result.records < 2 ^ 51 }
{
    let count = count_at(tree, Place::Root, 0);
    if is_known(count.kind) {
        return BlockCount {
            kind: count.kind,
            known: 8,
            records: 1,
        };
    }
    count
}

/// Writes the node data of a map that is all of this class.
fn write_leaves<K: Sink>(class: Class, gather: &mut Gather, sink: &mut K) -> Result<(), SinkFault>
    ensures written { OnOk result (IsTaken (leaves_text class)
        (K.written sink.old) gather.old (K.written sink.new) gather.new) }
    ensures cut { OnErr result
        (IsRefused (leaves_text class) (K.written sink.old) gather.old (K.written sink.new)) }
    ensures counts { IsWriteCounted result (K.faults sink.old) (K.faults sink.new)
        (K.shortages sink.old) (K.shortages sink.new) }
{
    match class {
        Class::Unknown => Ok(()),
        Class::Free => write_record(FREE_LEAVES, gather, sink),
        Class::Occupied => write_record(OCCUPIED_LEAVES, gather, sink),
    }
}

/// Writes the node data of the whole map, which is of this mixture.
fn write_data<K: Sink>(
    tree: &OccTree,
    mixture: Mixture,
    gather: &mut Gather,
    sink: &mut K,
) -> Result<(), SinkFault>
    requires { IsMixtureOf (classes_in tree.now) 16 root_block mixture }
    ensures written { OnOk result (IsTaken (canonical_data (classes_in tree.now))
        (K.written sink.old) gather.old (K.written sink.new) gather.new) }
    ensures cut { OnErr result (IsRefused (canonical_data (classes_in tree.now))
        (K.written sink.old) gather.old (K.written sink.new)) }
    ensures counts { IsWriteCounted result (K.faults sink.old) (K.faults sink.new)
        (K.shortages sink.old) (K.shortages sink.new) }
{
    match mixture {
        Mixture::Pure(class) => write_leaves(class, gather, sink),
        Mixture::Mixed(class, way) => write_block(tree, Place::Root, 0, class, way, gather, sink),
    }
}

/// What is known of a file before it is written.
#[derive(Drop)]
struct FilePlan {
    mixture: Mixture,
    header: ArrayString<256>,
    length: u64,
}

/// Goes through the tree as far as to the first voxel of another class, and then through all of it
/// for the length of its file: so twice through a tree of one class.
fn plan_file(tree: &OccTree) -> FilePlan
    ensures mixture { IsMixtureOf (classes_in tree.now) 16 root_block result.mixture }
    ensures header { result.header.bytes
        ≡ header_text (canonical_size (classes_in tree.now)) tree.now.res }
    ensures length { result.length ≡ length (bt_text tree.now.res (classes_in tree.now)) }
{
    let mixture = mixture_at(tree, Place::Root, 0);
    let count = count_data(tree);
    let nodes = if count.records == 0 {
        0
    } else {
        1 + count.known
    };
    let header = header_of(nodes, tree.res());
    let length = header.len() as u64 + 2 * count.records;
    FilePlan {
        mixture,
        header,
        length,
    }
}

/// The length of the file that [`write`] makes of the tree.
pub fn encoded_len(tree: &OccTree) -> u64
    ensures { result ≡ length (bt_text tree.now.res (classes_in tree.now)) }
{
    plan_file(tree).length
}

/// Writes the canonical file of the tree's classes, and answers its length. Groups that could be
/// collapsed and blocks of several values but one class are written as if they were one node, so
/// that the file depends on the classes of the voxels alone, and tells them.
///
/// Takes no memory, looks at each node a few times, however deep the tree is, and hands the sink
/// pieces of 4,096 bytes. After an error a part of the file was written, and exactly one write of
/// the sink gave up, for that reason.
pub fn write<K: Sink>(tree: &OccTree, sink: &mut K) -> Result<u64, SinkFault>
    ensures length { IfOk result
        (λ bytes. bytes ≡ length (bt_text tree.now.res (classes_in tree.now))) }
    ensures written { OnOk result (K.written sink.new
        ≡ appended (K.written sink.old) (bt_text tree.now.res (classes_in tree.now))) }
    ensures cut { OnErr result (IsCutOff (K.written sink.old) (K.written sink.new)
        (bt_text tree.now.res (classes_in tree.now))) }
    ensures tells { (classes : Classes) → canonical_data classes
        ≡ canonical_data (classes_in tree.now)
        ↔ ((k : Voxel) → IsInMap k → classes k ≡ classes_in tree.now k) }
    ensures counts { IsWriteCounted result (K.faults sink.old) (K.faults sink.new)
        (K.shortages sink.old) (K.shortages sink.new) }
{
    let plan = plan_file(tree);
    let mut gather = Gather::new();
    gather.push(sink, plan.header.as_bytes())?;
    write_data(tree, plan.mixture, &mut gather, sink)?;
    gather.flush(sink)?;
    Ok(plan.length)
}
