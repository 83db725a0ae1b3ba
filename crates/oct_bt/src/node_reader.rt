//! The reading of node data in pieces.
ghost use Rattle.std.specs.Prelude.{◌≡◌, ◌≤◌, ◌<◌, ◌^◌, List, ℕ, OnOk, OnErr, IfOk};
ghost use Rattle.std.specs.Prelude.{Result, Ok, Err, []};
ghost use Rattle.oct_bt.specs.NodeData.{HasRead, after_byte, read_nodes};
ghost use Rattle.oct_bt.specs.NodeData.{IsAccepted, data_kept};
ghost use Rattle.oct_bt.specs.Canonical.{node_total};

use crate::code_list::CodeList;
use crate::fault::BtFault;
use crate::path::{descend, known_codes, records_in};
use arrayvec::ArrayVec;
use oct_num::Memory;
use std::alloc::Global;
use std::marker::Model;

/// How many nodes the records stand for.
pub(crate) fn nodes_in(records: &[u8]) -> u128
    ensures { result ≡ node_total records.now }
{
    if records.is_empty() {
        return 0;
    }
    let mut known: u128 = 0;
    for byte in records {
        known += u128::from(known_codes(*byte));
    }
    1 + known
}

/// A reader of node data, which keeps no more of it than its whole records.
#[derive(Drop)]
pub(crate) struct NodeReader {
    /// Where the data starts in its file.
    start: u64,
    /// The number of nodes that it is to have.
    size: u64,
    /// How many records of each depth are still to come, up to the deepest one that has some.
    path: ArrayVec<u8, 16>,
    /// The first byte of the next record, where it has come.
    half: Option<u8>,
    records: CodeList,
    stop: Option<BtFault>,
}

impl Model for NodeReader {
    ghost use Rattle.std.specs.Prelude.{◌≤◌, ◌^◌};
    ghost use Rattle.oct_bt.specs.NodeData.{Reading, Reads, IsReached, progress_by};
    ghost use Rattle.oct_bt.specs.Path.{pending_at, IsTopped};

    ghost Value = { Reading };

    ghost view = { λ r. record {
      start = r.start;
      size = r.size;
      progress = progress_by r.stop (Reads (pending_at 0 r.path.items) r.half r.records);
    } };

    ghost invariant = { λ r. IsTopped r.path.items × (r.start ≤ 2 ^ 32)
        × IsReached r.start r.size
        (progress_by r.stop (Reads (pending_at 0 r.path.items) r.half r.records)) };
}

impl NodeReader {
    /// A reader that has read nothing.
    pub(crate) fn new(alloc: Global, start: u64, size: u64) -> Self
        requires { start ≤ 2 ^ 32 }
        ensures start { result.start ≡ start }
        ensures size { result.size ≡ size }
        ensures fresh { HasRead result [] }
    {
        let mut path = ArrayVec::new();
        if size > 0 {
            path.push(1);
        }
        NodeReader {
            start,
            size,
            path,
            half: None,
            records: CodeList::new(alloc),
            stop: None,
        }
    }

    /// The number of nodes that the data is to have.
    pub(crate) fn size(&self) -> u64
        ensures { result ≡ self.now.size }
    {
        self.size
    }

    /// Takes one more byte. Memory runs out only where it ends a record that is kept.
    pub(crate) fn take(&mut self, byte: u8) -> Result<(), Memory>
        ensures start { self.new.start ≡ self.old.start }
        ensures size { self.new.size ≡ self.old.size }
        ensures taken { OnOk result
            (self.new.progress ≡ after_byte self.old.start self.old.progress byte) }
        ensures memory { OnErr result (data_kept self.old.progress
            < data_kept (after_byte self.old.start self.old.progress byte)) }
    {
        if self.stop.is_some() {
            return Ok(());
        }
        if self.path.is_empty() {
            self.stop = Some(BtFault::TrailingBytes {
                at: self.start + self.records.len() as u64,
            });
            return Ok(());
        }
        let Some(first) = self.half else {
            self.half = Some(byte);
            return Ok(());
        };
        let deeper = records_in(first, byte);
        if self.path.len() == 16 && deeper > 0 {
            self.stop = Some(BtFault::TooDeep {
                at: self.start + self.records.len() as u64,
            });
            return Ok(());
        }
        self.records.push(first, byte)?;
        self.half = None;
        descend(&mut self.path, deeper);
        Ok(())
    }

    /// What the bytes that were read are: the records, or the first fault.
    pub(crate) fn finish(self) -> Result<CodeList, BtFault>
        ensures answer { (bytes : List ℕ) → HasRead self bytes
            → result ≡ read_nodes self.start self.size bytes }
        ensures accepted { IfOk result (λ codes. IsAccepted self.size codes) }
    {
        if let Some(fault) = self.stop {
            return Err(fault);
        }
        let read = self.start + self.records.len() as u64;
        if !self.path.is_empty() {
            return Err(BtFault::Truncated {
                at: read + u64::from(self.half.is_some()),
            });
        }
        let found = nodes_in(self.records.as_slice()) as u64;
        if found != self.size {
            return Err(BtFault::SizeMismatch {
                said: self.size,
                found,
            });
        }
        Ok(self.records)
    }
}
