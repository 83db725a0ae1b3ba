//! A vector that bytes are written to.
ghost use Rattle.std.specs.Prelude.{◌≡◌, ◌<◌, ◌≤◌, ◌++◌, [], length, take, Some, IfOk, OnErr};
ghost use Rattle.std.specs.Prelude.{IsOkUnless};
ghost use Rattle.oct_io.specs.Counts.{IsWriteCounted};

use oct_io::{Sink, SinkFault};
use std::alloc::Global;

/// A vector that bytes are written to. A write takes the whole piece, and gives up only where
/// memory runs out.
#[derive(Drop)]
pub(crate) struct VecSink {
    bytes: Vec<u8>,
    shortages: u64,
}

impl VecSink {
    /// A vector with nothing written to it.
    pub(crate) fn new(alloc: Global) -> VecSink
        ensures { result.bytes.items ≡ [] }
    {
        VecSink {
            bytes: Vec::new(alloc),
            shortages: 0,
        }
    }

    /// The bytes that were written.
    pub(crate) fn into_vec(self) -> Vec<u8>
        ensures { result.items ≡ self.bytes.items }
    {
        self.bytes
    }
}

impl Sink for VecSink {
    ghost written = { λ s. Some s.bytes.items };

    ghost faults = { λ _. 0 };

    ghost shortages = { λ s. s.shortages };

    fn write(&mut self, piece: &[u8]) -> Result<usize, SinkFault>
        ensures within { IfOk result (λ n. n ≤ length piece.now) }
        ensures some { IfOk result (λ n. 0 < length piece.now → 0 < n) }
        ensures appended { IfOk result
            (λ n. self.new.bytes.items ≡ self.old.bytes.items ++ take n piece.now) }
        ensures err { OnErr result (self.new.bytes.items ≡ self.old.bytes.items) }
        ensures calm { IsOkUnless result SinkFault.Memory }
        ensures memory { OnErr result (0 < length piece.now) }
        ensures counts { IsWriteCounted result 0 0 self.old.shortages self.new.shortages }
    {
        if self.bytes.extend_from_slice(piece).is_err() {
            self.shortages = self.shortages.saturating_add(1);
            return Err(SinkFault::Memory);
        }
        Ok(piece.len())
    }
}
