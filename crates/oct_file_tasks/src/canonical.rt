//! The canonical file of the classes of a file.
ghost use Rattle.std.specs.Prelude.{◌≡◌, ◌≤◌, ◌^◌, ◌⊎◌, IsErrOf, length, false};
ghost use Rattle.oct_bt.specs.DataClasses.{is_canonical};
ghost use Rattle.oct_bt.specs.NodeData.{IsAccepted};
ghost use Rattle.oct_io.specs.Counts.{IsMakingCounted};
ghost use Rattle.oct_io.specs.Told.{Rose};
ghost use Rattle.oct_file_tasks.specs.Answers.{canonical_text};
ghost use Rattle.oct_file_tasks.specs.Ending.{Sends};

use crate::file_tree::tree_of;
use oct_bt::{BtFile, rewrite, write};
use oct_io::{Sink, SinkFault};
use std::alloc::Global;

/// Writes the canonical file of the classes of a file: its own records where they are canonical,
/// and else through a tree. After an error a part of it was written.
pub(crate) fn write_canonical<K: Sink>(
    alloc: Global,
    file: &BtFile,
    sink: &mut K,
) -> Result<(), SinkFault>
    requires accepted { IsAccepted file.now.nodes file.now.codes }
    requires few { length file.now.codes ≤ 2 ^ 32 }
    ensures sends { Sends (canonical_text file.now)
        (K.written sink.old) (K.written sink.new) result }
    ensures counts { IsMakingCounted result (K.faults sink.old) (K.faults sink.new)
        (K.shortages sink.old) (K.shortages sink.new) }
    ensures memory { IsErrOf result SinkFault.Memory → (is_canonical file.now.codes ≡ false)
        ⊎ Rose (K.shortages sink.old) (K.shortages sink.new) }
{
    if file.is_canonical() {
        rewrite(file, sink)
    } else {
        write_merged(alloc, file, sink)
    }
}

/// Writes the canonical file of the classes of a file through a tree that is filled with them.
/// After an error a part of it was written.
fn write_merged<K: Sink>(alloc: Global, file: &BtFile, sink: &mut K) -> Result<(), SinkFault>
    requires accepted { IsAccepted file.now.nodes file.now.codes }
    requires few { length file.now.codes ≤ 2 ^ 32 }
    ensures sends { Sends (canonical_text file.now)
        (K.written sink.old) (K.written sink.new) result }
    ensures counts { IsMakingCounted result (K.faults sink.old) (K.faults sink.new)
        (K.shortages sink.old) (K.shortages sink.new) }
{
    let tree = tree_of(alloc, file)?;
    write(&tree, sink)?;
    Ok(())
}
