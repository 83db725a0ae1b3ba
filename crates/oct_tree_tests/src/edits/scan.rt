//! Scans of two bricks beside edits of their voxels one by one.
ghost use Rattle.oct_odds.specs.Update.{IsSmallEvent};
ghost use Rattle.oct_odds.specs.declared.event.Event.{Event};
ghost use Rattle.oct_tree.specs.Shape.{IsWellFormed};

use crate::boxes::world;
use oct_arena::Node;
use oct_brick::Brick;
use oct_edit::{ScanUpdate, touch, touch_all};
use oct_key::Key;
use oct_odds::Event;
use oct_tree::OccTree;
use std::process::Abort;
use std::test::Fail;

/// What a hit and a miss add to a voxel.
const HIT: i32 = 850;

const MISS: i32 = -400;

/// The code of the brick at the origin: the highest bit of each axis, which are the highest three
/// of the code's 42. The next code is that of the brick beside it on the x axis.
const ORIGIN: u64 = 0x380_0000_0000;

/// Room for a scan of two bricks: sixteen groups for each of their voxels, hit or freed.
const ROOM: u32 = 4096;

/// The key of the voxel so far from the origin along the x axis.
fn voxel(x: u16) -> Key {
    Key {
        x: 32_768 | x,
        y: 32_768,
        z: 32_768,
    }
}

/// Applies a scan of two bricks, where there is room for it. A brick is given by two masks: of its
/// voxels that change, and of those among them that are hit.
fn scan(rt: &impl Abort, tree: &mut OccTree, masks: [(u64, u64); 2], lazy: bool)
    requires formed { IsWellFormed tree.old }
    ensures { IsWellFormed tree.new }
{
    let [(scanned, hits), (scanned_beside, hits_beside)] = masks;
    assert!(rt; scanned > 0);
    assert!(rt; scanned_beside > 0);
    assert!(rt; tree.arena().spare() >= ROOM);
    let bricks = [
        Brick {
            code: ORIGIN,
            scanned,
            hits: scanned & hits,
        },
        Brick {
            code: ORIGIN + 1,
            scanned: scanned_beside,
            hits: scanned_beside & hits_beside,
        },
    ];
    let update = ScanUpdate {
        bricks: &bricks,
        hit: HIT,
        miss: MISS,
    };
    touch_all(tree, update, lazy);
}

/// Adds to a voxel where there is room for it.
fn apply(rt: &impl Abort, tree: &mut OccTree, x: u16, change: i32)
    requires formed { IsWellFormed tree.old }
    requires small { IsSmallEvent (Event.Add change) }
    ensures { IsWellFormed tree.new }
{
    assert!(rt; tree.arena().spare() >= 16);
    touch(tree, voxel(x), Event::Add(change), false);
}

/// What the tree holds: the values of the first five voxels on the x axis, the value at the root,
/// and the groups.
fn state(tree: &OccTree) -> ([Option<i32>; 5], Option<i32>, u32) {
    let root = match tree.root() {
        Node::Inner(value, _) => Some(value),
        _ => None,
    };
    (
        [0, 1, 2, 3, 4].map(|x| tree.at(voxel(x))),
        root,
        tree.arena().live(),
    )
}

/// Expects these values of the first five voxels on the x axis, this one at the root, and this many
/// groups.
fn expect_state(
    rt: &impl Abort,
    tree: &OccTree,
    values: [Option<i32>; 5],
    root: Option<i32>,
    groups: u32,
) {
    assert_eq!(rt; state(tree), (values, root, groups));
}

/// Places 0, 1, 8 and 9 of the first brick, and place 0 of the one beside it, are the first five
/// voxels on the x axis. 2 and 4 are hit.
const ROW: [(u64, u64); 2] = [(0b11_0000_0011, 0b1_0000_0000), (1, 1)];

#[test]
fn applies_scans_as_voxel_by_voxel(rt: HostRuntime) -> Result<(), Fail> {
    let mut tree = world(rt.alloc(), 5000)?;
    scan(&rt, &mut tree, ROW, false);
    let (hit, free) = (Some(850), Some(-400));
    expect_state(&rt, &tree, [free, free, hit, free, hit], hit, 19);
    let mut beside = world(rt.alloc(), 100)?;
    apply(&rt, &mut beside, 0, MISS);
    apply(&rt, &mut beside, 1, MISS);
    apply(&rt, &mut beside, 2, HIT);
    apply(&rt, &mut beside, 3, MISS);
    apply(&rt, &mut beside, 4, HIT);
    expect_state(&rt, &beside, [free, free, hit, free, hit], hit, 19);
    Ok(())
}

#[test]
fn mends_the_inner_values_after_a_lazy_scan(rt: HostRuntime) -> Result<(), Fail> {
    let mut tree = world(rt.alloc(), 5000)?;
    scan(&rt, &mut tree, ROW, false);
    // A lazy scan leaves the inner values, and the next one mends them.
    scan(&rt, &mut tree, ROW, true);
    let (hit, free) = (Some(1700), Some(-800));
    expect_state(&rt, &tree, [free, free, hit, free, hit], Some(850), 19);
    scan(&rt, &mut tree, [(1, 0), (1, 1)], false);
    let (first, last) = (Some(-1200), Some(2550));
    expect_state(&rt, &tree, [first, free, hit, free, last], last, 19);
    Ok(())
}

#[test]
fn leaves_a_saturated_leaf_whole(rt: HostRuntime) -> Result<(), Fail> {
    let mut tree = world(rt.alloc(), 5000)?;
    // Five misses take all voxels of both bricks to the lower bound, and the bricks are leaves.
    for _ in 0..5 {
        scan(&rt, &mut tree, [(u64::MAX, 0), (u64::MAX, 0)], false);
    }
    let low = Some(-2000);
    expect_state(&rt, &tree, [low; 5], low, 14);
    scan(&rt, &mut tree, [(u64::MAX, 0), (3, 0)], true);
    expect_state(&rt, &tree, [low; 5], low, 14);
    // A hit expands the leaf of its brick alone.
    scan(&rt, &mut tree, [(1, 1), (1, 0)], false);
    let first = Some(-1150);
    expect_state(&rt, &tree, [first, low, low, low, low], first, 16);
    Ok(())
}
