//! What a file says once it was read: its resolution, its records and its number of nodes.
ghost use Rattle.std.specs.Prelude.{◌≡◌, ◌↔◌, IsTrue, count_by};
ghost use Rattle.oct_key.specs.Block.{root_block};
ghost use Rattle.oct_odds.specs.declared.event.Class.TheVariants.{Free, Occupied};
ghost use Rattle.oct_values.specs.Blocks.{voxels_of};
ghost use Rattle.oct_values.specs.Classes.{Classes, is_same_class};
ghost use Rattle.oct_bt.specs.Canonical.{canonical_data, node_total};
ghost use Rattle.oct_bt.specs.DataClasses.{is_canonical};
ghost use Rattle.oct_bt.specs.Plain.{is_canonical_data};
ghost use Rattle.oct_bt.specs.NodeData.{IsAccepted, IsDataOf};
ghost use Rattle.oct_bt.specs.Records.{record_total};

use crate::code_list::CodeList;
use crate::node_reader::nodes_in;
use crate::path::{has_plain, record_codes};
use crate::voxels::{Voxels, count_record};
use oct_key::Res;
use std::marker::Model;

/// A file that was read. Contracts see it as a `FileRead`: the resolution, the bytes of its
/// records, and the number of its nodes.
///
/// Its type keeps that it has no records and no nodes, or that its codes are the text of a record
/// of the whole map, with all that is below it, and the nodes are one more than the number of its
/// codes that aren't 0.
#[derive(Drop)]
pub struct BtFile {
    res: Res,
    codes: CodeList,
    nodes: u64,
}

impl Model for BtFile {
    ghost use Rattle.oct_bt.specs.File.{FileRead};
    ghost use Rattle.oct_bt.specs.NodeData.{IsAccepted};

    ghost Value = { FileRead };

    ghost view = { λ f. record { res = f.res; codes = f.codes; nodes = f.nodes } };

    ghost invariant = { λ f. IsAccepted f.nodes f.codes };
}

impl BtFile {
    /// A file of these parts.
    pub(crate) fn new(res: Res, codes: CodeList, nodes: u64) -> Self
        requires { IsAccepted nodes codes }
        ensures { result ≡ record { res = res; codes = codes; nodes = nodes } }
    {
        BtFile { res, codes, nodes }
    }

    /// A file of this resolution, whose records are these. Reads each byte once.
    pub fn of_records(res: Res, records: Vec<u8>) -> Self
        requires { IsAccepted (node_total records.items) records.items }
        ensures { result ≡ record {
          res = res;
          codes = records.items;
          nodes = node_total records.items;
        } }
    {
        let nodes = nodes_in(&records) as u64;
        BtFile::new(res, CodeList::of(records), nodes)
    }

    /// The resolution.
    pub fn res(&self) -> Res
        ensures { result ≡ self.now.res }
    {
        self.res
    }

    /// The codes of the records, two bytes for each, a record before those of its children.
    pub fn codes(&self) -> &CodeList
        ensures codes { result.now ≡ self.now.codes }
        ensures accepted { IsAccepted self.now.nodes self.now.codes }
    {
        &self.codes
    }

    /// The number of nodes, the root included.
    pub fn nodes(&self) -> u64
        ensures { result ≡ self.now.nodes }
    {
        self.nodes
    }

    /// The number of records.
    pub fn records(&self) -> u64
        ensures { result ≡ record_total self.now.codes }
    {
        (self.codes.as_slice().len() / 2) as u64
    }

    /// Whether the node data is the canonical one of the classes that it stands for.
    pub fn is_canonical(&self) -> bool
        ensures test { result ≡ is_canonical self.now.codes }
        ensures exact { (classes : Classes) → IsDataOf classes self.now.codes
            → IsTrue result ↔ (self.now.codes ≡ canonical_data classes) }
    {
        passes(self.codes().as_slice())
    }

    /// How many voxels of the map are free, and how many are occupied. Each record is read once.
    pub fn voxels(&self) -> Voxels
        ensures free { (classes : Classes) → IsDataOf classes self.now.codes → result.free
            ≡ count_by (λ k. is_same_class (classes k) Free) (voxels_of root_block) }
        ensures occupied { (classes : Classes) → IsDataOf classes self.now.codes → result.occupied
            ≡ count_by (λ k. is_same_class (classes k) Occupied) (voxels_of root_block) }
    {
        let codes = self.codes().as_slice();
        if codes.is_empty() {
            return Voxels {
                free: 0,
                occupied: 0,
            };
        }
        count_record(0, codes).voxels
    }
}

/// Whether this text passes the test for canonical node data.
fn passes(codes: &[u8]) -> bool
    ensures { result ≡ is_canonical_data codes.now }
{
    if codes.len() < 2 {
        return codes.is_empty();
    }
    let (_, rest) = codes.split_at(2);
    let root = record_codes(codes[0], codes[1]);
    root != 0 && !has_plain(rest)
}
