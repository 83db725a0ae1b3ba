//! Bytes in memory, read in short pieces without a failure.
ghost use Rattle.std.specs.Prelude.{◌≡◌, ◌<◌, ◌≤◌, [], Some, drop, length, min, take, IfOk};

use crate::file_bytes::FileBytes;
use crate::source::{Failed, Source};
use std::marker::Model;

/// Bytes in memory that are read in pieces of a greatest length. No read fails.
#[derive(Drop)]
pub struct MemorySource {
    bytes: FileBytes,
    at: usize,
    most: usize,
}

impl Model for MemorySource {
    ghost use Rattle.std.specs.Prelude.{◌<◌, ◌≤◌, drop, length};
    ghost use Rattle.oct_io.specs.Held.{Supply};

    ghost Value = { Supply };

    ghost view = { λ s. record { left = drop s.at s.bytes; most = s.most } };

    ghost invariant = { λ s. (s.at ≤ length s.bytes) × (0 < s.most) };
}

impl MemorySource {
    /// A source of these bytes, of which a read moves `most` at most.
    pub fn new(bytes: FileBytes, most: usize) -> Self
        requires { 0 < most }
        ensures left { result.left ≡ bytes }
        ensures most { result.most ≡ most }
    {
        MemorySource { bytes, at: 0, most }
    }
}

impl Source for MemorySource {
    ghost left = { λ s. Some s.left };

    ghost faults = { λ _. 0 };

    // It counts none.
    ghost ends = { λ _. 0 };

    /// A read that finds bytes moves as many as it may: `most`, the length of the buffer, or what
    /// is left, whichever is least. The rest of the buffer stays as it was.
    fn read(&mut self, buffer: &mut [u8]) -> Result<usize, Failed>
        ensures full { result
            ≡ Ok (min self.old.most (min (length buffer.old) (length self.old.left))) }
        ensures most { self.new.most ≡ self.old.most }
        ensures within { IfOk result (λ n. n ≤ length buffer.old) }
        ensures moved { IfOk result (λ n. self.new.left ≡ drop n self.old.left) }
        ensures bytes { IfOk result (λ n. take n buffer.new ≡ take n self.old.left) }
        ensures rest { IfOk result (λ n. drop n buffer.new ≡ drop n buffer.old) }
        ensures some { IfOk result (λ n. n ≤ length self.old.left) }
        ensures end { IfOk result (λ n. n ≡ 0 → 0 < length buffer.old → self.old.left ≡ []) }
    {
        let (_, left) = self.bytes.as_slice().split_at(self.at);
        let count = self.most.min(buffer.len()).min(left.len());
        let (piece, _) = left.split_at(count);
        buffer[..count].copy_from_slice(piece);
        self.at += count;
        Ok(count)
    }
}
