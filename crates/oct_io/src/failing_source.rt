//! Bytes in memory, of which chosen reads fail.
ghost use Rattle.std.specs.Prelude.{◌≡◌, ◌<◌, ◌≤◌, [], Some, drop, length, min, take};
ghost use Rattle.std.specs.Prelude.{IfOk, OnErr, is_err};
ghost use Rattle.oct_io.specs.Counts.{IsReadCounted};
ghost use Rattle.oct_io.specs.Failing.{fails_next, with_call, failed_of};

use crate::calls::{Calls, KeptList};
use crate::file_bytes::FileBytes;
use crate::memory_source::MemorySource;
use crate::source::{Failed, Source};

/// Bytes in memory that are read in pieces of a greatest length, where the reads of some numbers
/// fail.
#[derive(Drop)]
pub struct FailingSource {
    supply: MemorySource,
    calls: Calls,
}

impl FailingSource {
    /// A source of these bytes, of which a read moves `most` at most. The reads that fail are those
    /// whose numbers, from 1 on, are in `fails`.
    pub fn new(bytes: FileBytes, most: usize, fails: KeptList) -> Self
        requires { 0 < most }
        ensures left { result.supply.left ≡ bytes }
        ensures most { result.supply.most ≡ most }
        ensures calls { result.calls ≡ record { fails = fails; count = 0 } }
    {
        FailingSource {
            supply: MemorySource::new(bytes, most),
            calls: Calls::new(fails),
        }
    }
}

impl Source for FailingSource {
    ghost left = { λ s. Some s.supply.left };

    ghost faults = { λ s. failed_of s.calls };

    // It counts none.
    ghost ends = { λ _. 0 };

    /// A read that doesn't fail moves as many as it may: `most`, the length of the buffer, or what
    /// is left, whichever is least. The rest of the buffer stays as it was, and after an error all
    /// of it.
    fn read(&mut self, buffer: &mut [u8]) -> Result<usize, Failed>
        ensures fails { is_err result ≡ fails_next self.old.calls }
        ensures counted { self.new.calls ≡ with_call self.old.calls }
        ensures full { IfOk result (λ n. n
            ≡ min self.old.supply.most (min (length buffer.old) (length self.old.supply.left))) }
        ensures most { self.new.supply.most ≡ self.old.supply.most }
        ensures within { IfOk result (λ n. n ≤ length buffer.old) }
        ensures moved { IfOk result (λ n. self.new.supply.left ≡ drop n self.old.supply.left) }
        ensures bytes { IfOk result (λ n. take n buffer.new ≡ take n self.old.supply.left) }
        ensures rest { IfOk result (λ n. drop n buffer.new ≡ drop n buffer.old) }
        ensures some { IfOk result (λ n. n ≤ length self.old.supply.left) }
        ensures end { IfOk result
            (λ n. n ≡ 0 → 0 < length buffer.old → self.old.supply.left ≡ []) }
        ensures err { OnErr result (self.new.supply.left ≡ self.old.supply.left) }
        ensures unmoved { OnErr result (buffer.new ≡ buffer.old) }
        ensures counts { IsReadCounted result
            (failed_of self.old.calls) (failed_of self.new.calls) }
    {
        if self.calls.next_fails() {
            return Err(Failed);
        }
        self.supply.read(buffer)
    }
}
