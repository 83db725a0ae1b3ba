//! The bytes of a whole file.
ghost use Rattle.std.specs.Prelude.{◌≡◌, ◌<◌, ◌↔◌, ◌++◌, ◌∷◌, [], length, IfOk, IsTrue};
ghost use Rattle.std.specs.Prelude.{OnErr, OnOk};

use oct_num::Memory;
use std::alloc::Global;
use std::marker::Model;

/// The bytes of a file. Contracts see them as a list.
#[derive(Debug, Drop)]
pub struct FileBytes {
    bytes: Vec<u8>,
}

impl Model for FileBytes {
    ghost use Rattle.std.specs.Prelude.{ℕ, List};

    ghost Value = { List ℕ };

    ghost view = { λ b. b.bytes.items };
}

impl FileBytes {
    /// No bytes.
    pub fn new(alloc: Global) -> Self
        ensures { result ≡ [] }
    {
        FileBytes {
            bytes: Vec::new(alloc),
        }
    }

    /// A copy of these bytes. None need no memory.
    pub fn from_slice(alloc: Global, bytes: &[u8]) -> Result<Self, Memory>
        ensures copied { IfOk result (λ copy. copy ≡ bytes.now) }
        ensures memory { OnErr result (0 < length bytes.now) }
    {
        let mut copy = FileBytes::new(alloc);
        copy.extend_from_slice(bytes)?;
        Ok(copy)
    }

    /// How many bytes there are.
    pub fn len(&self) -> usize
        ensures { result ≡ length self.now }
    {
        self.bytes.len()
    }

    /// Whether there are none.
    pub fn is_empty(&self) -> bool
        ensures { IsTrue result ↔ (self.now ≡ []) }
    {
        self.bytes.is_empty()
    }

    /// The bytes in order.
    pub fn as_slice(&self) -> &[u8]
        ensures { result.now ≡ self.now }
    {
        self.bytes.as_slice()
    }

    /// Adds a byte at the end.
    pub fn push(&mut self, byte: u8) -> Result<(), Memory>
        ensures ok { OnOk result (self.new ≡ self.old ++ byte ∷ []) }
        ensures err { OnErr result (self.new ≡ self.old) }
    {
        self.bytes.push(byte)?;
        Ok(())
    }

    /// Adds the bytes of a slice at the end. None need no memory.
    pub fn extend_from_slice(&mut self, bytes: &[u8]) -> Result<(), Memory>
        ensures ok { OnOk result (self.new ≡ self.old ++ bytes.now) }
        ensures err { OnErr result (self.new ≡ self.old) }
        ensures memory { OnErr result (0 < length bytes.now) }
    {
        self.bytes.extend_from_slice(bytes)?;
        Ok(())
    }
}

impl From<Vec<u8>> for FileBytes {
    ghost from_gives = { λ v b. b ≡ v.items };

    fn from(bytes: Vec<u8>) -> Self {
        FileBytes { bytes }
    }
}
