//! Files in memory, of which chosen loads and saves fail.
ghost use Rattle.std.specs.Prelude.{◌≡◌, Some, Err, IfOk, IsErrOf, OnErr, OnOk, option_copied};
ghost use Rattle.std.specs.Prelude.{true};
ghost use Rattle.oct_io.specs.Counts.{IsAskCounted};
ghost use Rattle.oct_io.specs.Failing.{fails_next, with_call, failed_of};

use crate::calls::{Calls, KeptList};
use crate::memory_store::MemoryStore;
use crate::store::{Loaded, Store, StoreFault};
use std::alloc::Global;

/// Files in memory, where the loads and saves of some numbers fail. They are counted together.
#[derive(Drop)]
pub struct FailingStore {
    shelf: MemoryStore,
    calls: Calls,
}

impl FailingStore {
    ghost use Rattle.oct_io.specs.MemoryFiles.{files_of};
    ghost use Rattle.oct_io.specs.Files.{no_files};

    /// A store with no files. The calls that fail are those whose numbers, from 1 on, are in
    /// `fails`.
    pub fn new(alloc: Global, fails: KeptList) -> Self
        ensures files { files_of result.shelf ≡ no_files }
        ensures calls { result.calls ≡ record { fails = fails; count = 0 } }
    {
        FailingStore {
            shelf: MemoryStore::new(alloc),
            calls: Calls::new(fails),
        }
    }

    /// The bytes of the file of this name, or `None` where there is no such file.
    pub fn file(&self, name: &str) -> Option<&[u8]>
        ensures { option_copied result ≡ files_of self.now.shelf name.now }
    {
        self.shelf.file(name)
    }
}

impl Store for FailingStore {
    ghost use Rattle.oct_io.specs.MemoryFiles.{files_of};
    ghost use Rattle.oct_io.specs.Files.{KeepsOthers, with_file};
    ghost use Rattle.oct_io.specs.Loaded.{loaded_of, IsWithinLimit, TakesMemory};

    ghost files = { λ s. Some (files_of s.shelf) };

    ghost faults = { λ s. failed_of s.calls };

    ghost calls = { λ s. s.calls.count };

    ghost tells_bytes = { λ s. s.shelf.bytes };

    fn load(&mut self, alloc: Global, name: &str) -> Result<Loaded, StoreFault>
        ensures fails { IsErrOf result StoreFault.Failed → fails_next self.old.calls ≡ true }
        ensures fails_so { fails_next self.old.calls ≡ true → result ≡ Err StoreFault.Failed }
        ensures counted { self.new.calls ≡ with_call self.old.calls }
        ensures same { files_of self.new.shelf ≡ files_of self.old.shelf }
        ensures found { IfOk result
            (λ loaded. loaded ≡ loaded_of (files_of self.old.shelf name.now)) }
        ensures limit { IfOk result IsWithinLimit }

        // Memory runs out only over the bytes that it answers.
        ensures memory { IsErrOf result StoreFault.Memory
            → TakesMemory (files_of self.old.shelf name.now) }
        ensures counts { IsAskCounted result
            (failed_of self.old.calls) (failed_of self.new.calls) }
    {
        if self.calls.next_fails() {
            return Err(StoreFault::Failed);
        }
        self.shelf.load(alloc, name)
    }

    /// After an error all files are as they were.
    fn save(&mut self, name: &str, bytes: &[u8]) -> Result<(), StoreFault>
        ensures fails { IsErrOf result StoreFault.Failed → fails_next self.old.calls ≡ true }
        ensures fails_so { fails_next self.old.calls ≡ true → result ≡ Err StoreFault.Failed }
        ensures counted { self.new.calls ≡ with_call self.old.calls }
        ensures left { OnErr result (files_of self.new.shelf ≡ files_of self.old.shelf) }
        ensures saved { OnOk result
            (files_of self.new.shelf ≡ with_file (files_of self.old.shelf) name.now bytes.now) }
        ensures others { OnErr result (KeepsOthers (Some (files_of self.old.shelf))
            (Some (files_of self.new.shelf)) name.now) }
        ensures counts { IsAskCounted result
            (failed_of self.old.calls) (failed_of self.new.calls) }
    {
        if self.calls.next_fails() {
            return Err(StoreFault::Failed);
        }
        self.shelf.save(name, bytes)
    }
}
