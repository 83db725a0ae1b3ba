//! Files in memory that load and save without a failure.
ghost use Rattle.std.specs.Prelude.{◌≡◌, Some, IfOk, IsOkUnless, OnErr, OnOk};
ghost use Rattle.std.specs.Prelude.{option_copied, ◌<◌, All};
ghost use Rattle.std.specs.BTreeMap.{get_by_text};
ghost use Rattle.std.proofs.Props.{props};
ghost use Rattle.oct_io.specs.Files.{AreBytes};

use crate::file_bytes::FileBytes;
use crate::store::{LARGEST_FILE, Loaded, Store, StoreFault};
use std::alloc::Global;
use std::collections::BTreeMap;

/// Files in memory. A load or save gives up only where memory runs out.
#[derive(Drop)]
pub struct MemoryStore {
    alloc: Global,
    files: BTreeMap<String, FileBytes>,
    ghost bytes: { AreBytes (λ name. get_by_text files name) } by { Prim.hlevel props },
}

impl MemoryStore {
    ghost use Rattle.oct_io.specs.MemoryFiles.{files_of};
    ghost use Rattle.oct_io.specs.Files.{no_files};

    /// A store with no files.
    pub fn new(alloc: Global) -> Self
        ensures { files_of result ≡ no_files }
    {
        MemoryStore {
            alloc,
            files: BTreeMap::new(alloc),
        }
    }

    /// The bytes of the file of this name, or `None` where there is no such file.
    pub fn file(&self, name: &str) -> Option<&[u8]>
        ensures { option_copied result ≡ files_of self.now name.now }
    {
        match self.files.get(name) {
            Some(bytes) => Some(bytes.as_slice()),
            None => None,
        }
    }
}

/// Each byte is one, which no clause says of a slice: this walk reads them, and is compiled away.
fn each_fits(bytes: &[u8])
    ensures { All (λ byte. byte < 256) bytes.now }
{
    for byte in bytes {
        let _ = *byte;
    }
}

impl Store for MemoryStore {
    ghost use Rattle.oct_io.specs.MemoryFiles.{files_of};
    ghost use Rattle.oct_io.specs.Files.{KeepsOthers, with_file};
    ghost use Rattle.oct_io.specs.Loaded.{loaded_of, IsWithinLimit, TakesMemory};

    ghost files = { λ s. Some (files_of s) };

    ghost faults = { λ _. 0 };

    // It counts none.
    ghost calls = { λ _. 0 };

    ghost tells_bytes = { λ s. s.bytes };

    fn load(&mut self, alloc: Global, name: &str) -> Result<Loaded, StoreFault>
        ensures same { files_of self.new ≡ files_of self.old }
        ensures found { IfOk result (λ loaded. loaded ≡ loaded_of (files_of self.old name.now)) }
        ensures limit { IfOk result IsWithinLimit }
        ensures calm { IsOkUnless result StoreFault.Memory }

        // Memory runs out only over the bytes that it answers.
        ensures memory { OnErr result (TakesMemory (files_of self.old name.now)) }
    {
        let Some(bytes) = self.file(name) else {
            return Ok(Loaded::Missing);
        };
        if bytes.len() > LARGEST_FILE {
            return Ok(Loaded::TooLarge);
        }
        Ok(Loaded::Bytes(FileBytes::from_slice(alloc, bytes)?))
    }

    fn save(&mut self, name: &str, bytes: &[u8]) -> Result<(), StoreFault>
        ensures saved { OnOk result
            (files_of self.new ≡ with_file (files_of self.old) name.now bytes.now) }
        ensures others { OnErr result
            (KeepsOthers (Some (files_of self.old)) (Some (files_of self.new)) name.now) }
        ensures err { OnErr result (files_of self.new ≡ files_of self.old) }
        ensures calm { IsOkUnless result StoreFault.Memory }
    {
        each_fits(bytes);
        let key = String::from_str(self.alloc, name)?;
        let value = FileBytes::from_slice(self.alloc, bytes)?;
        self.files.insert(key, value)?;
        Ok(())
    }
}
