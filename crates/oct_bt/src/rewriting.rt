//! A file that was read, written again.
ghost use Rattle.std.specs.Prelude.{◌≡◌, OnOk, OnErr};
ghost use Rattle.oct_io.specs.Counts.{IsWriteCounted};
ghost use Rattle.oct_io.specs.Taken.{IsCutOff};
ghost use Rattle.oct_io.specs.Told.{appended};
ghost use Rattle.oct_bt.specs.File.{file_text};

use crate::bt_file::BtFile;
use crate::encoding::header_of;
use oct_io::{Gather, Sink, SinkFault};

/// Writes a file that was read: a header in the form of [`write`](crate::write), and the records as
/// they are. Where its node data is canonical, that is the canonical file of its classes.
///
/// Takes no memory, and hands the sink pieces of 4,096 bytes. After an error a part of the text
/// was written, and exactly one write of the sink gave up, for that reason.
pub fn rewrite<K: Sink>(file: &BtFile, sink: &mut K) -> Result<(), SinkFault>
    ensures written { OnOk result
        (K.written sink.new ≡ appended (K.written sink.old) (file_text file.now)) }
    ensures cut { OnErr result
        (IsCutOff (K.written sink.old) (K.written sink.new) (file_text file.now)) }
    ensures counts { IsWriteCounted result (K.faults sink.old) (K.faults sink.new)
        (K.shortages sink.old) (K.shortages sink.new) }
{
    let header = header_of(file.nodes(), file.res());
    let mut gather = Gather::new();
    gather.push(sink, header.as_bytes())?;
    gather.push(sink, file.codes().as_slice())?;
    gather.flush(sink)
}
