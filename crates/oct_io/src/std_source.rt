//! A reader of std that a script or a file comes from.
ghost use Rattle.std.specs.Prelude.{◌≡◌, ◌≤◌, None, length, IfOk};
ghost use Rattle.std.specs.Io.KnownBytes.{ReadConsumes};
ghost use Rattle.oct_io.specs.Counts.{IsReadCounted};

use crate::source::{Failed, Source};
use std::io::Read;
use std::marker::Model;

/// A reader of std, which tells nothing of its bytes.
#[derive(Drop)]
pub struct StdSource<R: Read + Drop> {
    reader: R,
    faults: u64,
}

impl<R: Read + Drop> Model for StdSource<R> {
    ghost use Rattle.oct_io.specs.Held.{Reading};

    ghost Value = { Reading };

    ghost view = { λ s. record { told = R.remaining s.reader; faults = s.faults } };
}

impl<R: Read + Drop> StdSource<R> {
    /// A source over this reader, of which no read has failed yet.
    pub fn new(reader: R) -> Self
        ensures told { result.told ≡ R.remaining reader }
        ensures faults { result.faults ≡ 0 }
    {
        StdSource { reader, faults: 0 }
    }
}

impl<R: Read + Drop> Source for StdSource<R> {
    ghost left = { λ _. None };

    ghost faults = { λ s. s.faults };

    // It counts none.
    ghost ends = { λ _. 0 };

    fn read(&mut self, buffer: &mut [u8]) -> Result<usize, Failed>
        ensures passes { ReadConsumes self.old.told self.new.told result buffer.new }
        ensures within { IfOk result (λ n. n ≤ length buffer.old) }
        ensures counts { IsReadCounted result self.old.faults self.new.faults }
    {
        match self.reader.read(buffer) {
            Ok(count) => Ok(count),
            Err(_) => {
                self.faults = self.faults.saturating_add(1);
                Err(Failed)
            }
        }
    }
}
