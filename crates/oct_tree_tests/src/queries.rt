//! Leaves, bounds and least trees of trees with few groups.
ghost use Rattle.std.specs.Prelude.{◌≡◌, ◌≤◌, None};
ghost use Rattle.oct_odds.specs.Odds.{odds_of, IsSmall};
ghost use Rattle.oct_odds.specs.Update.{IsWithin};
ghost use Rattle.oct_arena.specs.Nodes.{link_of, value_of};

use crate::leaves::{leaf, one_leaf, two_children, unknown_world};
use oct_key::{Key, Res, Window};
use oct_odds::OddsModel;
use oct_query::{Found, Sought, bounds, least_tree, leaves, leaves_in, leaves_of};
use oct_tree::{OccTree, Place};
use std::alloc::Global;
use std::process::Abort;
use std::test::Fail;

/// A tree in which child 3 of the map has the value 900 and child 5 the value -400, and all else is
/// unknown.
fn two_halves(alloc: Global) -> Result<OccTree, Fail> {
    two_children(alloc, 3, 900, 5, -400)
}

/// A tree whose root is a leaf of 850.
fn known_world(alloc: Global) -> Result<OccTree, Fail> {
    one_leaf(alloc, 850)
}

/// The numbers of a voxel on the axes.
type Voxel = (u16, u16, u16);

/// A tree whose root is split into eight leaves of 850.
fn unpruned_world(alloc: Global) -> Result<OccTree, Fail> {
    let res = Res::new(100_000_000)?;
    let odds = OddsModel::default();
    let mut tree = OccTree::new(alloc, res, odds);
    tree.reserve(1)?;
    tree.set_place(Place::Root, leaf(odds, 850));
    tree.split(Place::Root);
    Ok(tree)
}

/// A leaf's depth, the numbers of its block on the axes, and its value.
type Leaf = (u8, u16, u16, u16, i32);

/// The leaves of the tree of two children, and the one of the known world.
const UPPER: Leaf = (1, 1, 1, 0, 900);

const LOWER: Leaf = (1, 1, 0, 1, -400);

const ALL: Leaf = (0, 0, 0, 0, 850);

/// Expects that a leaf was found.
fn expect_leaf(rt: &impl Abort, found: Option<&Found>, want: Leaf) {
    match found {
        Some(Found { block, value }) => assert_eq!(rt;
            (block.depth, block.x, block.y, block.z, *value),
            want
        ),
        None => panic!(rt; "a leaf is missing"),
    }
}

/// Expects that these leaves were found, in this order.
fn expect_found(rt: &impl Abort, found: &[Found], want: &[Leaf]) {
    assert_eq!(rt; found.len(), want.len());
    for (index, leaf) in want.iter().enumerate() {
        expect_leaf(rt, found.get(index), *leaf);
    }
}

/// Expects these leaves of a tree, in this order.
fn expect_leaves(rt: &impl Abort, alloc: Global, tree: OccTree, want: &[Leaf]) {
    match leaves(alloc, &tree) {
        Ok(list) => expect_found(rt, list.as_slice(), want),
        Err(_) => panic!(rt; "out of memory"),
    }
}

#[test]
fn lists_the_greatest_blocks_of_one_value(rt: HostRuntime) -> Result<(), Fail> {
    expect_leaves(&rt, rt.alloc(), unknown_world(rt.alloc())?, &[]);
    expect_leaves(&rt, rt.alloc(), known_world(rt.alloc())?, &[ALL]);
    // It isn't pruned, and has eight leaf nodes.
    expect_leaves(&rt, rt.alloc(), unpruned_world(rt.alloc())?, &[ALL]);
    expect_leaves(&rt, rt.alloc(), two_halves(rt.alloc())?, &[UPPER, LOWER]);
    Ok(())
}

/// The corners of a box, and the leaves that meet it.
type Met = ((Voxel, Voxel), &'static [Leaf]);

/// Boxes of the tree of two children.
const MET: &[Met] = &[
    // One voxel within the first; a corner of the first alone; a corner of each.
    (INSIDE, &[UPPER]),
    (((32_767, 0, 0), (32_768, 32_768, 32_767)), &[UPPER]),
    (
        ((32_768, 32_767, 32_767), (32_768, 32_768, 32_768)),
        &[UPPER, LOWER],
    ),
    // The half without; the first's block alone; the whole map.
    (((0, 0, 0), (32_767, 65_535, 65_535)), &[]),
    (((32_768, 32_768, 0), (65_535, 65_535, 32_767)), &[UPPER]),
    (WHOLE, &[UPPER, LOWER]),
];

/// The box of one voxel.
const INSIDE: (Voxel, Voxel) = ((40_000, 40_000, 5), (40_000, 40_000, 5));

/// The corners of the whole map.
const WHOLE: (Voxel, Voxel) = ((0, 0, 0), (65_535, 65_535, 65_535));

/// Expects which leaves meet a box, in their order.
fn expect_met(rt: &impl Abort, alloc: Global, tree: &OccTree, (corners, want): Met) {
    let ((x, y, z), (u, v, w)) = corners;
    let Some(window) = Window::new(Key { x, y, z }, Key { x: u, y: v, z: w }) else {
        panic!(rt; "no box");
    };
    match leaves_in(alloc, tree, &window) {
        Ok(list) => expect_found(rt, list.as_slice(), want),
        Err(_) => panic!(rt; "out of memory"),
    }
}

/// Expects which leaves of a tree meet each box.
fn expect_all_met(rt: &impl Abort, alloc: Global, tree: OccTree, rows: &[Met]) {
    for row in rows {
        expect_met(rt, alloc, &tree, *row);
    }
}

#[test]
fn lists_the_leaves_that_meet_a_box(rt: HostRuntime) -> Result<(), Fail> {
    expect_all_met(&rt, rt.alloc(), two_halves(rt.alloc())?, MET);
    // A leaf of the whole map reaches beyond the box, also where it has eight leaf nodes.
    expect_all_met(
        &rt,
        rt.alloc(),
        unpruned_world(rt.alloc())?,
        &[(INSIDE, &[ALL])],
    );
    Ok(())
}

/// What is sought of the tree of two children, and the leaves that are that.
const SOUGHT: &[(Sought, &[Leaf])] = &[
    (Sought::Occupied, &[UPPER]),
    (Sought::Free, &[LOWER]),
    (Sought::Known, &[UPPER, LOWER]),
];

/// Expects these to be the leaves that are sought.
fn expect_sought(rt: &impl Abort, alloc: Global, tree: &OccTree, sought: Sought, want: &[Leaf]) {
    match leaves_of(alloc, tree, sought) {
        Ok(list) => expect_found(rt, list.as_slice(), want),
        Err(_) => panic!(rt; "out of memory"),
    }
}

/// Expects which leaves are those that each row seeks.
fn expect_all_sought(rt: &impl Abort, alloc: Global, tree: OccTree, rows: &[(Sought, &[Leaf])]) {
    for (sought, want) in rows {
        expect_sought(rt, alloc, &tree, *sought, want);
    }
}

#[test]
fn lists_the_leaves_of_a_class(rt: HostRuntime) -> Result<(), Fail> {
    expect_all_sought(&rt, rt.alloc(), two_halves(rt.alloc())?, SOUGHT);
    Ok(())
}

/// What is sought, and the corners of the least box around it.
type Bounds = (Sought, Option<(Voxel, Voxel)>);

/// Those of the tree of two children.
const BOUNDS: &[Bounds] = &[
    (
        Sought::Known,
        Some(((32_768, 0, 0), (65_535, 65_535, 65_535))),
    ),
    (
        Sought::Occupied,
        Some(((32_768, 32_768, 0), (65_535, 65_535, 32_767))),
    ),
    (
        Sought::Free,
        Some(((32_768, 0, 32_768), (65_535, 32_767, 65_535))),
    ),
];

/// The corners of a box, if there is one.
fn corners(window: Option<Window>) -> Option<(Voxel, Voxel)> {
    let window = window?;
    let (lo, hi) = (window.lo(), window.hi());
    Some(((lo.x, lo.y, lo.z), (hi.x, hi.y, hi.z)))
}

/// Expects the least box of each row.
fn expect_bounds(rt: &impl Abort, tree: OccTree, rows: &[Bounds]) {
    for (sought, want) in rows {
        assert_eq!(rt; corners(bounds(&tree, *sought)), *want);
    }
}

#[test]
fn finds_the_least_box_around_voxels(rt: HostRuntime) -> Result<(), Fail> {
    expect_bounds(&rt, unknown_world(rt.alloc())?, &[(Sought::Known, None)]);
    expect_bounds(
        &rt,
        known_world(rt.alloc())?,
        &[(Sought::Known, Some(WHOLE))],
    );
    expect_bounds(&rt, two_halves(rt.alloc())?, BOUNDS);
    Ok(())
}

/// Expects this many groups, nodes and leaves in the least tree of these values.
fn expect_least(rt: &impl Abort, tree: OccTree, groups: u64, nodes: u64, leaves: u64) {
    let least = least_tree(&tree);
    assert_eq!(rt; least.groups, groups);
    assert_eq!(rt; least.nodes, nodes);
    assert_eq!(rt; least.leaves, leaves);
}

#[test]
fn counts_the_least_tree(rt: HostRuntime) -> Result<(), Fail> {
    expect_least(&rt, unknown_world(rt.alloc())?, 0, 0, 0);
    expect_least(&rt, known_world(rt.alloc())?, 0, 1, 1);
    // It has a group and nine nodes itself.
    expect_least(&rt, unpruned_world(rt.alloc())?, 0, 1, 1);
    expect_least(&rt, two_halves(rt.alloc())?, 1, 3, 2);
    Ok(())
}
