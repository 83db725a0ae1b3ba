//! The records of a file as the bytes that they stand in.
ghost use Rattle.std.specs.Prelude.{◌≡◌, ◌<◌, ◌^◌, ◌++◌, [], ◌∷◌, length, OnErr, OnOk};

use oct_num::Memory;
use std::alloc::Global;
use std::marker::Model;

/// The codes of records, two bytes for each. Contracts see them as a list of bytes.
#[derive(Debug, Drop)]
pub struct CodeList {
    bytes: Vec<u8>,
}

impl Model for CodeList {
    ghost use Rattle.std.specs.Prelude.{ℕ, List};

    ghost Value = { List ℕ };

    ghost view = { λ codes. codes.bytes.items };
}

impl CodeList {
    /// No records.
    pub fn new(alloc: Global) -> Self
        ensures { result ≡ [] }
    {
        CodeList {
            bytes: Vec::new(alloc),
        }
    }

    /// The records of these bytes.
    pub(crate) fn of(bytes: Vec<u8>) -> Self
        ensures { result ≡ bytes.items }
    {
        CodeList { bytes }
    }

    /// The bytes in order.
    pub fn as_slice(&self) -> &[u8]
        ensures { result.now ≡ self.now }
    {
        self.bytes.as_slice()
    }

    /// How many bytes there are.
    pub(crate) fn len(&self) -> usize
        ensures exact { result ≡ length self.now }
        ensures few { result < 2 ^ 63 }
    {
        self.bytes.len()
    }

    /// Adds the two bytes of a record at the end. After `Memory` the list is as it was.
    pub fn push(&mut self, first: u8, second: u8) -> Result<(), Memory>
        ensures ok { OnOk result (self.new ≡ self.old ++ first ∷ second ∷ []) }
        ensures err { OnErr result (self.new ≡ self.old) }
    {
        self.bytes.extend_from_slice(&[first, second])?;
        Ok(())
    }
}
