//! The scene of a tree whose leaves are of one class.

use crate::leaves::leaf;
use oct_export::{box_count, vrml};
use oct_io::{FailingSink, KeptList};
use oct_key::Res;
use oct_odds::OddsModel;
use oct_tree::{OccTree, Place};
use std::alloc::Global;
use std::process::Abort;
use std::test::Fail;

/// A tree whose eight leaves are occupied, one of them with a value of its own.
fn eight_leaves(alloc: Global) -> Result<OccTree, Fail> {
    let res = Res::new(100_000_000)?;
    let odds = OddsModel::default();
    let mut tree = OccTree::new(alloc, res, odds);
    tree.set_place(Place::Root, leaf(odds, 850));
    tree.reserve(1)?;
    let id = tree.split(Place::Root);
    tree.set_place(Place::Slot(id, 3), leaf(odds, 0));
    Ok(tree)
}

/// The scene of a tree, written in pieces of 100 bytes, is this text of this many boxes.
fn has_scene(alloc: Global, tree: &OccTree, boxes: u64, text: &str) -> bool {
    let mut sink = FailingSink::new(alloc, 100, KeptList::new(alloc));
    let length = vrml(tree, &mut sink);
    length == Ok(text.len() as u64) && sink.written() == text.as_bytes() && box_count(tree) == boxes
}

/// The scene with a box of the whole map.
const WHOLE: &str = "#VRML V2.0 utf8\n\
    Transform { translation 0 0 0 children [ \
    Shape { geometry Box { size 6553.6 6553.6 6553.6 } } ] }\n";

#[test]
fn a_box_is_the_greatest_block_of_a_class(rt: HostRuntime) -> Result<(), Fail> {
    let tree = eight_leaves(rt.alloc())?;
    assert!(rt; has_scene(rt.alloc(), &tree, 1, WHOLE));
    Ok(())
}
