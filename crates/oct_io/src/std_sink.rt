//! A writer of std that replies or a file go to.
ghost use Rattle.std.specs.Prelude.{◌≡◌, ◌<◌, ◌≤◌, ◌↔◌, None, length, IfOk};
ghost use Rattle.std.specs.IoError.{error_kind};
ghost use Rattle.std.specs.Io.KnownBytes.{WriteAppends};
ghost use Rattle.oct_io.specs.Counts.{IsWriteCounted};

use crate::sink::{Sink, SinkFault};
use std::io;
use std::io::{ErrorKind, Write};
use std::marker::Model;

/// A writer of std, which tells nothing of its bytes.
#[derive(Drop)]
pub struct StdSink<W: Write + Drop> {
    writer: W,
    faults: u64,
    shortages: u64,
}

impl<W: Write + Drop> Model for StdSink<W> {
    ghost use Rattle.oct_io.specs.Held.{Writing};

    ghost Value = { Writing };

    ghost view = { λ s. record {
      told = W.contents s.writer;
      faults = s.faults;
      shortages = s.shortages;
    } };
}

impl<W: Write + Drop> StdSink<W> {
    /// A sink over this writer, of which no write has failed or run out of memory yet.
    pub fn new(writer: W) -> Self
        ensures told { result.told ≡ W.contents writer }
        ensures faults { result.faults ≡ 0 }
        ensures shortages { result.shortages ≡ 0 }
    {
        StdSink {
            writer,
            faults: 0,
            shortages: 0,
        }
    }
}

/// What the error of a writer is to a sink: out of memory stays that, and all else is a failure.
fn fault_of(error: &io::Error) -> SinkFault
    ensures { (result ≡ SinkFault.Memory) ↔ (error_kind error.now ≡ ErrorKind.OutOfMemory) }
{
    match error.kind() {
        ErrorKind::OutOfMemory => SinkFault::Memory,
        _ => SinkFault::Failed,
    }
}

impl<W: Write + Drop> Sink for StdSink<W> {
    ghost written = { λ _. None };

    ghost faults = { λ s. s.faults };

    ghost shortages = { λ s. s.shortages };

    /// A writer that takes nothing of a piece that isn't empty has failed.
    fn write(&mut self, piece: &[u8]) -> Result<usize, SinkFault>
        ensures passes { WriteAppends self.old.told self.new.told result piece.now }
        ensures within { IfOk result (λ n. n ≤ length piece.now) }
        ensures some { IfOk result (λ n. 0 < length piece.now → 0 < n) }
        ensures counts { IsWriteCounted result self.old.faults self.new.faults
            self.old.shortages self.new.shortages }
    {
        let fault = match self.writer.write(piece) {
            Ok(count) if count > 0 || piece.is_empty() => return Ok(count),
            Ok(_) => SinkFault::Failed,
            Err(error) => fault_of(&error),
        };
        match fault {
            SinkFault::Failed => self.faults = self.faults.saturating_add(1),
            SinkFault::Memory => self.shortages = self.shortages.saturating_add(1),
        }
        Err(fault)
    }
}
