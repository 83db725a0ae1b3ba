//! Where bytes go, and what a write promises.
ghost use Rattle.std.specs.Prelude.{◌≡◌, ◌<◌, ◌≤◌, List, ℕ, Option, length, take, IfOk, OnErr};
ghost use Rattle.std.specs.Prelude.{OnOk};
ghost use Rattle.oct_io.specs.declared.sink.SinkFault.TheVariants.{Memory};
ghost use Rattle.oct_io.specs.Counts.{IsWriteCounted};
ghost use Rattle.oct_io.specs.Taken.{IsCutOff};
ghost use Rattle.oct_io.specs.Told.{appended};

use oct_num::Memory;
use thiserror::Error;

/// Why a sink took no bytes.
#[derive(Clone, Copy, Debug, PartialEq, Eq, Error)]
pub enum SinkFault {
    /// The sink could not be written to.
    #[error("the sink could not be written to")]
    Failed,

    /// Memory ran out.
    #[error("out of memory")]
    Memory,
}

impl From<Memory> for SinkFault {
    ghost from_gives = { λ _ e. e ≡ Memory };

    fn from(_: Memory) -> Self {
        SinkFault::Memory
    }
}

/// Where bytes go.
pub trait Sink {
    /// The bytes that were written so far, where the sink tells them.
    ghost written: { Self → Option (List ℕ) };

    /// How many writes have failed so far. The count stays at `2^64 - 1`.
    ghost faults: { Self → ℕ };

    /// How many writes have run out of memory so far. The count stays at `2^64 - 1`.
    ghost shortages: { Self → ℕ };

    /// Takes bytes from the front of the piece, and answers how many, at least one of a piece
    /// that isn't empty. After an error nothing was taken.
    fn write(&mut self, piece: &[u8]) -> Result<usize, SinkFault>
        ensures within { IfOk result (λ n. n ≤ length piece.now) }
        ensures some { IfOk result (λ n. 0 < length piece.now → 0 < n) }
        ensures appended { IfOk result
            (λ n. written self.new ≡ appended (written self.old) (take n piece.now)) }
        ensures err { OnErr result (written self.new ≡ written self.old) }

        // Each error is counted once, and nothing else is counted.
        ensures counts { IsWriteCounted result (faults self.old) (faults self.new)
            (shortages self.old) (shortages self.new) };
}

/// Writes the whole piece. After an error a prefix of it was written.
pub fn write_all<K: Sink>(sink: &mut K, piece: &[u8]) -> Result<(), SinkFault>
    ensures ok { OnOk result (K.written sink.new ≡ appended (K.written sink.old) piece.now) }
    ensures err { OnErr result (IsCutOff (K.written sink.old) (K.written sink.new) piece.now) }

    // Where it gives up, exactly one write of the sink did, for the same reason.
    ensures counts { IsWriteCounted result (K.faults sink.old) (K.faults sink.new)
        (K.shortages sink.old) (K.shortages sink.new) }
{
    let mut done = 0usize;
    while done < piece.len() {
        let (_, rest) = piece.split_at(done);
        done += sink.write(rest)?;
    }
    Ok(())
}
