//! Bytes written to memory in short pieces without a failure.
ghost use Rattle.std.specs.Prelude.{◌≡◌, ◌<◌, ◌≤◌, ◌++◌, [], Some, length, min, take, IfOk};
ghost use Rattle.std.specs.Prelude.{IsOkUnless, OnErr};
ghost use Rattle.oct_io.specs.Counts.{IsWriteCounted};

use crate::file_bytes::FileBytes;
use crate::sink::{Sink, SinkFault};
use std::alloc::Global;
use std::marker::Model;

/// Bytes that are written to memory in pieces of a greatest length. A write gives up only where
/// memory runs out, which is counted.
#[derive(Drop)]
pub struct MemorySink {
    bytes: FileBytes,
    most: usize,
    shortages: u64,
}

impl Model for MemorySink {
    ghost use Rattle.std.specs.Prelude.{◌<◌};
    ghost use Rattle.oct_io.specs.Held.{Receipt};

    ghost Value = { Receipt };

    ghost view = { λ s. record { written = s.bytes; most = s.most; shortages = s.shortages } };

    ghost invariant = { λ s. 0 < s.most };
}

impl MemorySink {
    /// A sink with nothing written to it, of which a write takes `most` bytes at most.
    pub fn new(alloc: Global, most: usize) -> Self
        requires { 0 < most }
        ensures written { result.written ≡ [] }
        ensures most { result.most ≡ most }
        ensures shortages { result.shortages ≡ 0 }
    {
        MemorySink {
            bytes: FileBytes::new(alloc),
            most,
            shortages: 0,
        }
    }

    /// The bytes that were written so far.
    pub fn written(&self) -> &[u8]
        ensures { result.now ≡ self.now.written }
    {
        self.bytes.as_slice()
    }
}

impl Sink for MemorySink {
    ghost written = { λ s. Some s.written };

    ghost faults = { λ _. 0 };

    ghost shortages = { λ s. s.shortages };

    fn write(&mut self, piece: &[u8]) -> Result<usize, SinkFault>
        ensures full { IfOk result (λ n. n ≡ min self.old.most (length piece.now)) }
        ensures most { self.new.most ≡ self.old.most }
        ensures within { IfOk result (λ n. n ≤ length piece.now) }
        ensures some { IfOk result (λ n. 0 < length piece.now → 0 < n) }
        ensures appended { IfOk result
            (λ n. self.new.written ≡ self.old.written ++ take n piece.now) }
        ensures err { OnErr result (self.new.written ≡ self.old.written) }
        ensures calm { IsOkUnless result SinkFault.Memory }
        ensures memory { OnErr result (0 < length piece.now) }
        ensures counts { IsWriteCounted result 0 0 self.old.shortages self.new.shortages }
    {
        let count = self.most.min(piece.len());
        let (taken, _) = piece.split_at(count);
        if self.bytes.extend_from_slice(taken).is_err() {
            self.shortages = self.shortages.saturating_add(1);
            return Err(SinkFault::Memory);
        }
        Ok(count)
    }
}
