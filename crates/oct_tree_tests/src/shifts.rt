//! Maps moved by whole voxels.
ghost use Rattle.std.specs.Prelude.{IfOk};
ghost use Rattle.oct_odds.specs.Update.{IsSmallEvent};
ghost use Rattle.oct_tree.specs.Shape.{IsWellFormed};

use crate::boxes::all;
use crate::merges::paint;
use oct_key::{Key, Res};
use oct_odds::{Event, OddsModel};
use oct_shift::{Shift, ShiftFault, shifted, stays_within};
use oct_tree::OccTree;
use std::alloc::Global;
use std::process::Abort;
use std::test::Fail;

/// A tree of voxels of a tenth of a metre in which the voxels of a box are set to 850.
fn world(rt: &impl Abort, alloc: Global, lo: Key, hi: Key) -> Result<OccTree, Fail>
    ensures { IfOk result (λ tree. IsWellFormed tree) }
{
    let mut tree = OccTree::new(alloc, Res::new(100_000_000)?, OddsModel::default());
    tree.reserve(1000)?;
    paint(rt, &mut tree, lo, hi, Event::Set(850));
    Ok(tree)
}

/// A shift by this much on each axis.
fn by(n: i32) -> Shift {
    Shift { x: n, y: n, z: n }
}

/// Expects the values of two voxels, and this many groups, of the moved tree.
fn expect_moved(
    rt: &impl Abort,
    alloc: Global,
    tree: &OccTree,
    shift: Shift,
    want: (Key, Key, u32),
) -> Result<(), Fail> {
    let moved = shifted(alloc, tree, shift, 1000)?;
    assert_eq!(rt; moved.at(want.0), Some(850));
    assert_eq!(rt; moved.at(want.1), None);
    assert_eq!(rt; moved.arena().live(), want.2);
    Ok(())
}

#[test]
fn moves_a_block_by_its_side(rt: HostRuntime) -> Result<(), Fail> {
    let tree = world(&rt, rt.alloc(), all(0), all(7))?;
    expect_moved(&rt, rt.alloc(), &tree, by(8), (all(15), all(7), 13))
}

#[test]
fn moves_a_block_by_one_voxel(rt: HostRuntime) -> Result<(), Fail> {
    // Blocks that the box from 1 to 8 cuts: one of each depth from 0 to 12, 2 * 2 * 2 of depth 13,
    // 3 * 3 * 3 without the one that lies in it of depth 14, and 5 * 5 * 5 without 3 * 3 * 3 of
    // depth 15.
    let tree = world(&rt, rt.alloc(), all(0), all(7))?;
    expect_moved(&rt, rt.alloc(), &tree, by(1), (all(8), all(0), 145))
}

#[test]
fn moves_a_block_back(rt: HostRuntime) -> Result<(), Fail> {
    let tree = world(&rt, rt.alloc(), all(1), all(8))?;
    expect_moved(&rt, rt.alloc(), &tree, by(-1), (all(7), all(8), 13))
}

#[test]
fn moves_over_the_middle(rt: HostRuntime) -> Result<(), Fail> {
    let tree = world(&rt, rt.alloc(), all(32760), all(32767))?;
    expect_moved(&rt, rt.alloc(), &tree, by(8), (all(32768), all(32767), 13))
}

#[test]
fn cuts_a_large_leaf(rt: HostRuntime) -> Result<(), Fail> {
    // Of depth 2 and 3 two blocks side by side are cut each, and above them one of each depth.
    let tree = world(&rt, rt.alloc(), all(8192), all(16383))?;
    let shift = Shift {
        x: 4096,
        y: 0,
        z: 0,
    };
    let inside = Key {
        x: 20479,
        y: 8192,
        z: 8192,
    };
    let outside = Key {
        x: 12287,
        y: 8192,
        z: 8192,
    };
    expect_moved(&rt, rt.alloc(), &tree, shift, (inside, outside, 6))
}

#[test]
fn drops_what_leaves_the_map(rt: HostRuntime) -> Result<(), Fail> {
    let tree = world(&rt, rt.alloc(), all(0), all(1))?;
    assert_eq!(rt; stays_within(by(-1), all(0)), false);
    assert_eq!(rt; stays_within(by(-1), all(1)), true);
    expect_moved(&rt, rt.alloc(), &tree, by(-1), (all(0), all(1), 16))
}

#[test]
fn refuses_too_many_groups(rt: HostRuntime) -> Result<(), Fail> {
    let tree = world(&rt, rt.alloc(), all(0), all(1))?;
    assert!(rt;
        matches!(
            shifted(rt.alloc(), &tree, by(2), 14),
            Err(ShiftFault::TooMany { groups: 15 })
        )
    );
    Ok(())
}
