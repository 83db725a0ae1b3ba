//! The reading of a file in pieces.
ghost use Rattle.std.specs.Prelude.{◌≡◌, ◌++◌, [], List, ℕ, OnOk, OnErr, IsErr, Err, IfOk, ◌≤◌};
ghost use Rattle.std.specs.Prelude.{◌↔◌, ◌⊎◌, IsTrue, length};
ghost use Rattle.oct_values.specs.Classes.{Classes};
ghost use Rattle.oct_bt.specs.Canonical.{canonical_data};
ghost use Rattle.oct_bt.specs.File.{reading, file_with};
ghost use Rattle.oct_bt.specs.NodeData.{HasRead, IsDataOf, read_nodes};
ghost use Rattle.oct_bt.specs.Reading.{FileProgress, IsKept, KeepsSome, Spent, StandsFor, opened};
ghost use Rattle.oct_bt.specs.Reading.{after_file_byte, file_progress};
ghost use Rattle.oct_bt.specs.Holding.{progress_of};

use crate::bt_file::BtFile;
use crate::fault::BtFault;
use crate::head::{Head, Header};
use crate::node_reader::NodeReader;
use oct_num::Memory;
use std::alloc::Global;
use std::marker::Model;

/// What a reader holds.
#[derive(Drop)]
enum State {
    /// The first bytes, while no data line has ended.
    InHead(Head),
    /// What is wrong with the header.
    AtFault(BtFault),
    /// The header was accepted, and the node data is being read.
    InBody(Header, NodeReader),
    /// Nothing, after memory has run out.
    OutOfMemory,
}

/// A reader of a file, which is fed the file in pieces of any size.
///
/// It keeps the last line of a header alone, and the records of node data that are whole.
#[derive(Drop)]
pub struct Reader {
    alloc: Global,
    state: State,
}

impl Model for Reader {
    ghost use Rattle.oct_bt.specs.Reading.{FileProgress};
    ghost use Rattle.oct_bt.specs.Holding.{progress_of};

    ghost Value = { FileProgress };

    ghost view = { λ r. progress_of r.state };
}

impl Reader {
    /// A reader that was fed nothing.
    pub fn new(alloc: Global) -> Self
        ensures { StandsFor result [] }
    {
        Reader {
            alloc,
            state: State::InHead(Head::new(alloc)),
        }
    }

    /// Takes one more byte.
    fn take(&mut self, byte: u8) -> Result<(), Memory>
        ensures taken { OnOk result (self.new ≡ after_file_byte self.old byte) }
        ensures memory { OnErr result ((self.old ≡ Spent) ⊎ IsKept self.old byte) }
    {
        match &mut self.state {
            State::InHead(head) => {
                if let Some(header) = head.take(byte)? {
                    self.state = open(self.alloc, header);
                }
            }
            State::AtFault(_) => {}
            State::InBody(_, nodes) => nodes.take(byte)?,
            State::OutOfMemory => return Err(Memory),
        }
        Ok(())
    }

    /// Whether memory has run out.
    fn is_spent(&self) -> bool
        ensures { IsTrue result ↔ (self.now ≡ Spent) }
    {
        match &self.state {
            State::OutOfMemory => true,
            State::InHead(_) | State::AtFault(_) | State::InBody(..) => false,
        }
    }

    /// Takes a piece more, however the file is cut. Memory runs out only where a byte of it is
    /// kept: one of a header's line, or the second one of a record, and none after a fault that no
    /// further byte changes. After `Memory` every later call answers it.
    pub fn feed(&mut self, piece: &[u8]) -> Result<(), Memory>
        ensures reads { OnOk result ((text : List ℕ) → StandsFor self.old text
            → StandsFor self.new (text ++ piece.now)) }
        ensures spent { OnErr result (self.new ≡ Spent) }
        ensures stays { self.old ≡ Spent → IsErr result }
        ensures memory { OnErr result ((self.old ≡ Spent) ⊎ KeepsSome self.old piece.now) }
    {
        if self.is_spent() {
            return Err(Memory);
        }
        for byte in piece {
            if self.take(*byte).is_err() {
                self.state = State::OutOfMemory;
                return Err(Memory);
            }
        }
        Ok(())
    }

    /// The file that was fed, or the first fault in it, in the order of the cases of its form. No
    /// data of its classes is shorter than the canonical one, and none as short is another.
    pub fn finish(self) -> Result<BtFile, BtFault>
        ensures answer { (text : List ℕ) → StandsFor self text → result ≡ reading text }
        ensures spent { self ≡ Spent → result ≡ Err BtFault.Memory }
        ensures least { IfOk result (λ file. (classes : Classes) → IsDataOf classes file.codes
            → (length (canonical_data classes) ≤ length file.codes)
            × (length file.codes ≡ length (canonical_data classes)
            → file.codes ≡ canonical_data classes)) }
    {
        match self.state {
            State::InHead(head) => Err(head.fault()),
            State::AtFault(fault) => Err(fault),
            State::InBody(header, nodes) => end_body(&header, nodes),
            State::OutOfMemory => Err(BtFault::Memory),
        }
    }
}

/// What a reader holds after a header, or its fault.
fn open(alloc: Global, header: Result<Header, BtFault>) -> State
    requires near { IfOk header (λ said. said.start ≤ 65536) }
    ensures { progress_of result ≡ opened header }
{
    match header {
        Ok(header) => {
            let nodes = NodeReader::new(alloc, header.start(), header.size());
            State::InBody(header, nodes)
        }
        Err(fault) => State::AtFault(fault),
    }
}

/// The file of this header, whose node data ends here.
fn end_body(header: &Header, nodes: NodeReader) -> Result<BtFile, BtFault>
    ensures { (bytes : List ℕ) → HasRead nodes bytes → result ≡ file_with
        (record { res = header.now.res; size = nodes.size; start = nodes.start })
        (read_nodes nodes.start nodes.size bytes) }
{
    let size = nodes.size();
    let codes = nodes.finish()?;
    Ok(BtFile::new(header.res(), codes, size))
}

/// The file of classes that these bytes are, or what is wrong with them. Memory runs out only where
/// a byte of them is kept.
pub fn read_classes(alloc: Global, bytes: &[u8]) -> Result<BtFile, BtFault>
    ensures answer { (result ≡ reading bytes.now) ⊎ (result ≡ Err BtFault.Memory) }
    ensures memory { result ≡ Err BtFault.Memory → KeepsSome (file_progress []) bytes.now }
{
    let mut reader = Reader::new(alloc);
    reader.feed(bytes)?;
    reader.finish()
}
