//! Bytes written to memory, where chosen writes fail.
ghost use Rattle.std.specs.Prelude.{◌≡◌, ◌<◌, ◌≤◌, ◌++◌, [], Some, Err, length, min, take};
ghost use Rattle.std.specs.Prelude.{IfOk, OnErr, IsErrOf, true};
ghost use Rattle.oct_io.specs.Counts.{IsWriteCounted};
ghost use Rattle.oct_io.specs.Failing.{fails_next, with_call, failed_of};

use crate::calls::{Calls, KeptList};
use crate::memory_sink::MemorySink;
use crate::sink::{Sink, SinkFault};
use std::alloc::Global;

/// Bytes that are written to memory in pieces of a greatest length, where the writes of some
/// numbers fail.
#[derive(Drop)]
pub struct FailingSink {
    receipt: MemorySink,
    calls: Calls,
}

impl FailingSink {
    /// A sink with nothing written to it, of which a write takes `most` bytes at most. The writes
    /// that fail are those whose numbers, from 1 on, are in `fails`.
    pub fn new(alloc: Global, most: usize, fails: KeptList) -> Self
        requires { 0 < most }
        ensures written { result.receipt.written ≡ [] }
        ensures most { result.receipt.most ≡ most }
        ensures shortages { result.receipt.shortages ≡ 0 }
        ensures calls { result.calls ≡ record { fails = fails; count = 0 } }
    {
        FailingSink {
            receipt: MemorySink::new(alloc, most),
            calls: Calls::new(fails),
        }
    }

    /// The bytes that were written so far.
    pub fn written(&self) -> &[u8]
        ensures { result.now ≡ self.now.receipt.written }
    {
        self.receipt.written()
    }
}

impl Sink for FailingSink {
    ghost written = { λ s. Some s.receipt.written };

    ghost faults = { λ s. failed_of s.calls };

    ghost shortages = { λ s. s.receipt.shortages };

    fn write(&mut self, piece: &[u8]) -> Result<usize, SinkFault>
        ensures fails { IsErrOf result SinkFault.Failed → fails_next self.old.calls ≡ true }
        ensures fails_so { fails_next self.old.calls ≡ true → result ≡ Err SinkFault.Failed }
        ensures counted { self.new.calls ≡ with_call self.old.calls }
        ensures full { IfOk result (λ n. n ≡ min self.old.receipt.most (length piece.now)) }
        ensures most { self.new.receipt.most ≡ self.old.receipt.most }
        ensures within { IfOk result (λ n. n ≤ length piece.now) }
        ensures some { IfOk result (λ n. 0 < length piece.now → 0 < n) }
        ensures appended { IfOk result
            (λ n. self.new.receipt.written ≡ self.old.receipt.written ++ take n piece.now) }
        ensures err { OnErr result (self.new.receipt.written ≡ self.old.receipt.written) }
        ensures memory { IsErrOf result SinkFault.Memory → 0 < length piece.now }
        ensures counts { IsWriteCounted result
            (failed_of self.old.calls) (failed_of self.new.calls)
            self.old.receipt.shortages self.new.receipt.shortages }
    {
        if self.calls.next_fails() {
            return Err(SinkFault::Failed);
        }
        self.receipt.write(piece)
    }
}
