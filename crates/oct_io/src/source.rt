//! Where bytes come from, and what a read promises.
ghost use Rattle.std.specs.Prelude.{◌≡◌, ◌<◌, ◌≤◌, List, [], ℕ, Option, length, take, IfOk, IfSome};
ghost use Rattle.std.specs.Prelude.{OnErr};
ghost use Rattle.oct_io.specs.Counts.{IsEndCounted, IsReadCounted};
ghost use Rattle.oct_io.specs.Told.{dropped};

use thiserror::Error;

/// A source could not be read.
#[derive(Clone, Copy, Debug, PartialEq, Eq, Error)]
#[error("the source could not be read")]
pub struct Failed;

/// Where bytes come from.
pub trait Source {
    /// The bytes that are still to come, where the source tells them.
    ghost left: { Self → Option (List ℕ) };

    /// How many reads have failed so far. The count stays at `2^64 - 1`.
    ghost faults: { Self → ℕ };

    /// How many reads have met the end of the input so far, where the source counts them.
    ghost ends: { Self → ℕ };

    /// Moves the next bytes to the front of the buffer, and answers how many they are.
    ///
    /// For a buffer that isn't empty, 0 comes exactly at the end of the input, and the source
    /// stays there. After `Failed` nothing was moved.
    fn read(&mut self, buffer: &mut [u8]) -> Result<usize, Failed>
        ensures within { IfOk result (λ n. n ≤ length buffer.old) }
        ensures moved { IfOk result (λ n. left self.new ≡ dropped n (left self.old)) }
        ensures bytes { IfOk result (λ n. IfSome (left self.old)
            (λ left. take n buffer.new ≡ take n left)) }
        ensures some { IfOk result (λ n. IfSome (left self.old) (λ left. n ≤ length left)) }
        ensures end { IfOk result (λ n. n ≡ 0 → 0 < length buffer.old
            → IfSome (left self.old) (λ left. left ≡ [])) }
        ensures err { OnErr result (left self.new ≡ left self.old) }
        ensures counts { IsReadCounted result (faults self.old) (faults self.new) }
        ensures ends { IsEndCounted result (ends self.old) (ends self.new) };
}
