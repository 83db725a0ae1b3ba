//! Files by name: how they are loaded and saved, and what may go wrong.
ghost use Rattle.std.specs.Prelude.{◌≡◌, ◌≤◌, ◌+◌, ℕ, Option, IfOk, IfSome, IsErrOf, OnErr, OnOk};
ghost use Rattle.oct_io.specs.declared.store.StoreFault.TheVariants.{Memory};
ghost use Rattle.oct_io.specs.Counts.{IsAskCounted};

use crate::file_bytes::FileBytes;
use oct_num::Memory;
use std::alloc::{AllocError, AllocFailed, Global};
use thiserror::Error;

/// The most bytes of a file that a store loads: `2^30`.
pub const LARGEST_FILE: usize = 1 << 30;

/// Why a store did not load or save a file.
#[derive(Clone, Copy, Debug, PartialEq, Eq, Error)]
pub enum StoreFault {
    /// The file could not be read or written.
    #[error("the file could not be read or written")]
    Failed,

    /// Memory ran out.
    #[error("out of memory")]
    Memory,
}

impl From<Memory> for StoreFault {
    ghost from_gives = { λ _ e. e ≡ Memory };

    fn from(_: Memory) -> Self {
        StoreFault::Memory
    }
}

impl From<AllocError> for StoreFault {
    ghost from_gives = { λ _ e. e ≡ Memory };

    fn from(_: AllocError) -> Self {
        StoreFault::Memory
    }
}

impl<T: Drop> From<AllocFailed<T>> for StoreFault {
    ghost from_gives = { λ _ e. e ≡ Memory };

    fn from(_: AllocFailed<T>) -> Self {
        StoreFault::Memory
    }
}

/// What a store has under a name.
#[derive(Debug, Drop)]
pub enum Loaded {
    /// The bytes of the file, at most `2^30`.
    Bytes(FileBytes),

    /// There is no such file.
    Missing,

    /// The file has more than `2^30` bytes.
    TooLarge,
}

/// Files by name.
pub trait Store {
    ghost use Rattle.oct_io.specs.Files.{Files, AreBytes, saved, KeepsOthers};
    ghost use Rattle.oct_io.specs.Loaded.{loaded_of, IsWithinLimit};

    /// The bytes of each name, where the store tells them.
    ghost files: { Self → Option Files };

    /// How many loads and saves have failed so far. The count stays at `2^64 - 1`.
    ghost faults: { Self → ℕ };

    /// How many loads and saves there were so far, where the store counts them.
    ghost calls: { Self → ℕ };

    /// The bytes of the file of this name. A load changes no file.
    fn load(&mut self, alloc: Global, name: &str) -> Result<Loaded, StoreFault>
        ensures same { files self.new ≡ files self.old }
        ensures found { IfOk result (λ loaded. IfSome (files self.old)
            (λ files. loaded ≡ loaded_of (files name.now))) }
        ensures limit { IfOk result IsWithinLimit }
        ensures counts { IsAskCounted result (faults self.old) (faults self.new) }
        ensures called { calls self.new ≤ calls self.old + 1 };

    /// Puts these bytes under the name, in place of a file that stands there. After a failure the
    /// file of this name may be any, and all others are as before. Where memory runs out, every
    /// file is as before.
    fn save(&mut self, name: &str, bytes: &[u8]) -> Result<(), StoreFault>
        ensures saved { OnOk result (files self.new ≡ saved (files self.old) name.now bytes.now) }
        ensures others { OnErr result (KeepsOthers (files self.old) (files self.new) name.now) }
        ensures unsaved { IsErrOf result StoreFault.Memory → files self.new ≡ files self.old }
        ensures counts { IsAskCounted result (faults self.old) (faults self.new) }
        ensures called { calls self.new ≤ calls self.old + 1 };

    /// What a store tells of its files are bytes.
    ghost tells_bytes: { (store : Self) → IfSome (files store) AreBytes };
}
