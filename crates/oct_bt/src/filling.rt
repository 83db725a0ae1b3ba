//! A tree from the records of a file.
ghost use Rattle.std.specs.Prelude.{◌≡◌, ◌+◌, ◌*◌, ◌<◌, ◌≤◌, ◌++◌, ℕ, List, Some, length};
ghost use Rattle.oct_key.specs.Voxel.{Voxel, IsInMap};
ghost use Rattle.oct_key.specs.Block.{Cube};
ghost use Rattle.oct_odds.specs.declared.event.Class.{Class};
ghost use Rattle.oct_arena.specs.Entries.{live, spare};
ghost use Rattle.oct_tree.specs.Tree.{IsLinked, IsPlace, block_in, node_in, value_at};
ghost use Rattle.oct_tree.specs.Shape.{IsFresh, IsPruned};
ghost use Rattle.oct_values.specs.Classes.{Classes};
ghost use Rattle.oct_bt.specs.Classes.{value_for};
ghost use Rattle.oct_bt.specs.NodeData.{IsDataOf};
ghost use Rattle.oct_bt.specs.Records.{Entries, IsRecord, class_code, class_by, flat, record_count};
ghost use Rattle.oct_bt.specs.Records.{record_total};
ghost use Rattle.oct_bt.specs.Filled.{IsFilled};

use crate::bt_file::BtFile;
use crate::path::{is_plain, record_codes};
use oct_arena::Node;
use oct_tree::{OccTree, Place, Tidiness};

/// Fills the tree of the unknown world with the classes of a file: free voxels get the lower bound,
/// occupied ones the upper bound.
///
/// The tree has room for a group for each record. It comes out fresh and pruned, and keeps that it
/// is; what it doesn't need of the room stays.
pub fn fill(file: &BtFile, tree: &mut OccTree)
    requires unknown { tree.old.root ≡ Node.Absent }
    requires room { record_total file.now.codes ≤ spare tree.old.groups }
    ensures values { (classes : Classes) → IsDataOf classes file.now.codes → (k : Voxel)
        → IsInMap k → value_at tree.new k ≡ value_for tree.old.odds (classes k) }
    ensures fresh { IsFresh tree.new }
    ensures pruned { IsPruned tree.new }
    ensures groups { live tree.new.groups ≤ record_total file.now.codes }
    ensures spare { live tree.new.groups + spare tree.new.groups ≡ spare tree.old.groups }
    ensures length { length tree.new.groups ≡ length tree.old.groups }
    ensures res { tree.new.res ≡ tree.old.res }
    ensures odds { tree.new.odds ≡ tree.old.odds }
{
    // Called for its clauses alone: it computes nothing.
    tree.shape();
    let codes = file.codes().as_slice();
    if !codes.is_empty() {
        fill_block(tree, Place::Root, 0, codes);
    }
    tree.note(Tidiness {
        fresh: true,
        pruned: true,
    });
}

/// Fills the block of an absent place from the record that the codes begin with, and closes its
/// group. Answers how many bytes the record has with all below it.
fn fill_block(tree: &mut OccTree, p: Place, depth: u8, codes: &[u8]) -> usize
    requires place { IsPlace tree.old p }
    requires block { (b : Cube) → block_in tree.old p ≡ Some b → b.depth ≡ depth }
    requires levels { depth ≤ 15 }
    requires absent { node_in tree.old p ≡ Node.Absent }
    requires linked { IsLinked tree.old }
    requires record_there { (r : Entries) × (tail : List ℕ) × IsRecord depth r
        × (codes.now ≡ flat r ++ tail) × (1 + record_count r ≤ spare tree.old.groups) }
    ensures filled { (r : Entries) (tail : List ℕ) (b : Cube) → IsRecord depth r
        → codes.now ≡ flat r ++ tail → block_in tree.old p ≡ Some b
        → IsFilled tree.old tree.new b (class_by depth r) (1 + record_count r)
        × (result ≡ length (flat r)) }
    ensures linked { IsLinked tree.new }
{
    let record = record_codes(codes[0], codes[1]);
    if is_plain(record) {
        fill_leaf(tree, p, record % 4);
        return 2;
    }
    let id = tree.split(p);
    let mut rest = record;
    let mut next = 2;
    for i in 0..8 {
        let slot = Place::Slot(id, i);
        if rest % 4 == 3 {
            let (_, later) = codes.split_at(next);
            next += fill_block(tree, slot, depth + 1, later);
        } else {
            fill_leaf(tree, slot, rest % 4);
        }
        rest /= 4;
    }
    tree.settle(p);
    next
}

/// Makes an absent place the leaf of the class of a code, and leaves it absent where that is
/// unknown.
fn fill_leaf(tree: &mut OccTree, p: Place, code: u16)
    requires place { IsPlace tree.old p }
    requires absent { node_in tree.old p ≡ Node.Absent }
    requires linked { IsLinked tree.old }
    requires small { code < 3 }
    ensures filled { (b : Cube) (c : Class) → block_in tree.old p ≡ Some b → class_code c ≡ code
        → IsFilled tree.old tree.new b (λ k. c) 0 }
    ensures linked { IsLinked tree.new }
{
    if code == 1 {
        let low = tree.odds().min;
        tree.set_place(p, Node::Leaf(low));
    } else if code == 2 {
        let high = tree.odds().max;
        tree.set_place(p, Node::Leaf(high));
    }
}
