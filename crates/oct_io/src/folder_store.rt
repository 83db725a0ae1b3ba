//! The files of the current folder, where a save is whole or leaves the old bytes.
ghost use Rattle.std.specs.Prelude.{◌≡◌, ◌↔◌, Some, None, Ok, Err, IfOk};
ghost use Rattle.std.specs.IoError.{error_kind};
ghost use Rattle.oct_io.specs.Counts.{IsAskCounted};
ghost use Rattle.oct_io.specs.Loaded.{loaded_of, IsWithinLimit};
ghost use Rattle.oct_io.specs.Told.{Rose};

use crate::file_bytes::FileBytes;
use crate::store::{LARGEST_FILE, Loaded, Store, StoreFault};
use std::alloc::Global;
use std::fs::OpenFile;
use std::io::{ErrorKind, Read};
use std::marker::Model;
use std::rt::Files;
use std::{fs, io};

/// The name of the file that a save writes before it takes the place of another one. No script can
/// give a name that begins with a point.
const PART: &str = ".octomap.part";

/// The files of the current folder, which tells nothing of them.
///
/// A save writes the bytes whole to a file of their own and then renames it, so that after a fault,
/// a full disk or a kill the name has its old bytes or the new ones, and never a part of them.
#[derive(Drop)]
pub struct FolderStore<R: Files + Drop> {
    rt: R,
    faults: u64,
}

impl<R: Files + Drop> Model for FolderStore<R> {
    ghost use Rattle.oct_io.specs.Held.{Tally};

    ghost Value = { Tally };

    ghost view = { λ s. record { faults = s.faults } };
}

impl<R: Files + Drop> FolderStore<R> {
    /// The files that this runtime reaches, of which no load or save has failed yet.
    pub fn new(rt: R) -> Self
        ensures { result.faults ≡ 0 }
    {
        FolderStore { rt, faults: 0 }
    }

    /// Counts a fault of the runtime, unless memory ran out.
    fn fault_of(&mut self, error: &io::Error) -> StoreFault
        ensures memory { (result ≡ StoreFault.Memory)
            ↔ (error_kind error.now ≡ ErrorKind.OutOfMemory) }
        ensures stays { result ≡ StoreFault.Memory → self.new.faults ≡ self.old.faults }
        ensures cause { result ≡ StoreFault.Failed → Rose self.old.faults self.new.faults }
    {
        if error.kind() == ErrorKind::OutOfMemory {
            return StoreFault::Memory;
        }
        self.faults = self.faults.saturating_add(1);
        StoreFault::Failed
    }

    /// What a load answers where a file can't be opened: that there is none exactly where the
    /// runtime says so, and else a fault.
    fn unopened(&mut self, error: &io::Error) -> Result<Loaded, StoreFault>
        ensures missing { (result ≡ Ok Loaded.Missing)
            ↔ (error_kind error.now ≡ ErrorKind.NotFound) }
        ensures memory { (result ≡ Err StoreFault.Memory)
            ↔ (error_kind error.now ≡ ErrorKind.OutOfMemory) }
        ensures only { IfOk result (λ loaded. loaded ≡ Loaded.Missing) }
        ensures counts { IsAskCounted result self.old.faults self.new.faults }
    {
        if error.kind() == ErrorKind::NotFound {
            return Ok(Loaded::Missing);
        }
        Err(self.fault_of(error))
    }
}

/// The bytes that were read of a file, unless they are more than the limit.
fn within_limit(bytes: Vec<u8>) -> Loaded
    ensures { result ≡ loaded_of (Some bytes.items) }
{
    if bytes.len() > LARGEST_FILE {
        return Loaded::TooLarge;
    }
    Loaded::Bytes(FileBytes::from(bytes))
}

/// The bytes of a file, of which at most one more than the limit is read.
fn read_file<R: Files>(file: R::File, alloc: Global) -> io::Result<Loaded>
    ensures { IfOk result IsWithinLimit }
{
    let limit = LARGEST_FILE as u64;
    if file.metadata()?.len() > limit {
        return Ok(Loaded::TooLarge);
    }
    let mut bytes = Vec::new(alloc);
    file.take(limit + 1).read_to_end(&mut bytes)?;
    Ok(within_limit(bytes))
}

/// Puts the bytes whole under the name, or leaves what stands there.
fn replace<R: Files>(rt: &R, name: &str, bytes: &[u8]) -> io::Result<()> {
    fs::write(rt, PART, bytes)?;
    fs::rename(rt, PART, name)
}

impl<R: Files + Drop> Store for FolderStore<R> {
    ghost files = { λ _. None };

    ghost faults = { λ s. s.faults };

    // It counts none.
    ghost calls = { λ _. 0 };

    ghost tells_bytes = { λ _. tt };

    fn load(&mut self, alloc: Global, name: &str) -> Result<Loaded, StoreFault>
        ensures limit { IfOk result IsWithinLimit }
        ensures counts { IsAskCounted result self.old.faults self.new.faults }
    {
        match fs::open(&self.rt, name) {
            Ok(file) => match read_file::<R>(file, alloc) {
                Ok(loaded) => Ok(loaded),
                Err(error) => Err(self.fault_of(&error)),
            },
            Err(error) => self.unopened(&error),
        }
    }

    fn save(&mut self, name: &str, bytes: &[u8]) -> Result<(), StoreFault>
        ensures counts { IsAskCounted result self.old.faults self.new.faults }
    {
        match replace(&self.rt, name, bytes) {
            Ok(()) => Ok(()),
            Err(error) => {
                let _ = fs::remove_file(&self.rt, PART);
                Err(self.fault_of(&error))
            }
        }
    }
}
