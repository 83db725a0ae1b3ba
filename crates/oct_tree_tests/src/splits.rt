//! Splits, writes and collapses in trees of one and two groups.
ghost use Rattle.oct_tree.specs.Tree.{IsPlace};

use oct_arena::{GroupId, Node};
use oct_key::{Key, Res};
use oct_odds::OddsModel;
use oct_tree::{OccTree, Place};
use std::alloc::Global;
use std::process::Abort;
use std::test::Fail;

/// A voxel of the map.
fn voxel(x: u16, y: u16, z: u16) -> Key {
    Key { x, y, z }
}

/// Expects this value of a voxel.
fn expect_at(rt: &impl Abort, tree: &OccTree, k: Key, want: Option<i32>) {
    assert_eq!(rt; tree.at(k), want);
}

/// Expects this node of the whole map.
fn expect_root(rt: &impl Abort, tree: &OccTree, want: Node) {
    assert_eq!(rt; tree.root(), want);
}

/// Expects this node at a place.
fn expect_node(rt: &impl Abort, tree: &OccTree, p: Place, want: Node)
    requires { IsPlace tree.now p }
{
    assert_eq!(rt; tree.node(p), want);
}

/// How many groups can still be taken.
fn room(tree: &OccTree) -> u32 {
    tree.arena().spare()
}

/// Expects that this many groups were taken of what there was room for.
fn expect_taken(rt: &impl Abort, tree: &OccTree, room: u32, taken: u32) {
    assert_eq!(rt; tree.arena().spare().checked_add(taken), Some(room));
}

/// Expects this edge of a voxel, in nanometres, and this upper bound.
fn expect_setup(rt: &impl Abort, tree: &OccTree, nm: i64, max: i32) {
    assert_eq!(rt; (tree.res().nm(), tree.odds().max), (nm, max));
}

#[test]
#[tactic(auto, using(crate::proofs::Callers::tree_callers))]
fn splits_and_sets_one_eighth(rt: HostRuntime) -> Result<(), Fail> {
    let mut tree = OccTree::new(rt.alloc(), Res::new(100_000_000)?, OddsModel::default());
    expect_at(&rt, &tree, voxel(0, 0, 0), None);
    tree.reserve(1)?;
    let room = room(&tree);
    tree.set_place(Place::Root, Node::Leaf(850));
    expect_at(&rt, &tree, voxel(65_535, 0, 40_000), Some(850));
    let id = tree.split(Place::Root);
    expect_root(&rt, &tree, Node::Inner(850, id));
    expect_node(&rt, &tree, Place::Slot(id, 7), Node::Leaf(850));
    expect_taken(&rt, &tree, room, 1);
    tree.set_place(Place::Slot(id, 2), Node::Leaf(-400));
    expect_at(&rt, &tree, voxel(0, 32_768, 0), Some(-400));
    expect_at(&rt, &tree, voxel(0, 32_767, 0), Some(850));
    expect_at(&rt, &tree, voxel(0, 0, 32_768), Some(850));
    assert!(rt; !tree.collapse(Place::Root));
    expect_root(&rt, &tree, Node::Inner(850, id));
    Ok(())
}

#[test]
fn drops_eight_absent_children(rt: HostRuntime) -> Result<(), Fail> {
    let mut tree = OccTree::new(rt.alloc(), Res::new(100_000_000)?, OddsModel::default());
    tree.reserve(1)?;
    let room = room(&tree);
    tree.split(Place::Root);
    expect_at(&rt, &tree, voxel(7, 8, 9), None);
    assert!(rt; tree.drop_absent(Place::Root));
    expect_root(&rt, &tree, Node::Absent);
    expect_taken(&rt, &tree, room, 0);
    Ok(())
}

#[test]
#[tactic(auto, using(crate::proofs::Callers::tree_callers))]
fn collapses_what_one_leaf_says(rt: HostRuntime) -> Result<(), Fail> {
    let mut tree = OccTree::new(rt.alloc(), Res::new(100_000_000)?, OddsModel::default());
    tree.reserve(1)?;
    let room = room(&tree);
    tree.set_place(Place::Root, Node::Leaf(-2000));
    let id = tree.split(Place::Root);
    tree.renew(Place::Root);
    expect_root(&rt, &tree, Node::Inner(-2000, id));
    assert!(rt; !tree.drop_absent(Place::Root));
    assert!(rt; tree.settle(Place::Root));
    expect_root(&rt, &tree, Node::Leaf(-2000));
    expect_taken(&rt, &tree, room, 0);
    expect_setup(&rt, &tree, 100_000_000, 3500);
    Ok(())
}

/// Expects this node over the block of that depth around a voxel.
fn expect_over(rt: &impl Abort, tree: &OccTree, depth: u8, voxel: (u16, u16, u16), want: Node) {
    assert!(rt; depth <= 16);
    let (x, y, z) = voxel;
    assert_eq!(rt; tree.node_over(Key { x, y, z }, depth), want);
}

/// A tree that knows child 2 of the map alone, which is split, and the groups of both.
fn two_groups(alloc: Global) -> Result<(OccTree, GroupId, GroupId), Fail> {
    let mut tree = OccTree::new(alloc, Res::new(100_000_000)?, OddsModel::default());
    tree.reserve(2)?;
    let id = tree.split(Place::Root);
    tree.set_place(Place::Slot(id, 2), Node::Leaf(-400));
    let under = tree.split(Place::Slot(id, 2));
    Ok((tree, id, under))
}

#[test]
fn splits_a_slot_and_keeps_those_beside_it(rt: HostRuntime) -> Result<(), Fail> {
    let (tree, id, under) = two_groups(rt.alloc())?;
    expect_over(&rt, &tree, 0, (0, 0, 0), Node::Inner(0, id));
    expect_over(&rt, &tree, 1, (0, 32_768, 0), Node::Inner(-400, under));
    // The children beside it are absent, and its own have the leaf's value.
    expect_over(&rt, &tree, 1, (32_768, 0, 0), Node::Absent);
    expect_over(&rt, &tree, 1, (32_768, 32_768, 0), Node::Absent);
    expect_over(&rt, &tree, 2, (0, 32_768, 0), Node::Leaf(-400));
    expect_over(&rt, &tree, 2, (16_384, 65_535, 32_767), Node::Leaf(-400));
    Ok(())
}
