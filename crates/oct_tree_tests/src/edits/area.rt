//! Boxes of equal events, and boxes that are kept, with the groups and values that they leave.
ghost use Rattle.oct_odds.specs.Update.{IsSmallEvent};
ghost use Rattle.oct_tree.specs.Shape.{IsWellFormed};

use super::checks::{expect_small, expect_tidy};
use crate::boxes::{all, apply, keep, world};
use oct_odds::Event;
use oct_tree::OccTree;
use std::process::Abort;
use std::test::Fail;

/// Expects this many groups, and these values of the voxels 32,767 and 32,766.
fn expect_state(
    rt: &impl Abort,
    tree: &OccTree,
    groups: u32,
    value: Option<i32>,
    beside: Option<i32>,
) {
    assert_eq!(rt; tree.arena().live(), groups);
    assert_eq!(rt;
        (tree.at(all(32_767)), tree.at(all(32_766))),
        (value, beside)
    );
}

/// An event, the numbers of a box's corners, the groups afterwards, and the values of a voxel in
/// all boxes but that of voxel 5, and of one beside the small ones.
type Edited = (Event, u16, u16, u32, Option<i32>, Option<i32>);

/// Events in turn.
const EDITS: &[Edited] = &[
    (Event::Set(850), 0, 65_535, 0, Some(850), Some(850)),
    (Event::Add(850), 0, 65_535, 0, Some(1700), Some(1700)),
    (Event::Likely, 0, 65_535, 0, Some(3500), Some(3500)),
    (Event::Add(-1), 0, 65_535, 0, Some(3499), Some(3499)),
    (Event::Add(-99), 32_767, 32_768, 121, Some(3400), Some(3499)),
    (Event::Set(3499), 32_767, 32_768, 0, Some(3499), Some(3499)),
    (Event::Forget, 32_767, 32_767, 16, None, Some(3499)),
    (Event::Forget, 0, 65_535, 0, None, None),
    (Event::Set(-400), 5, 5, 16, None, None),
    (Event::Likely, 0, 32_767, 16, None, None),
    (Event::Set(7), 0, 32_767, 1, Some(7), Some(7)),
    (Event::Add(-7), 0, 65_535, 1, Some(0), Some(0)),
    (Event::Forget, 0, 65_535, 0, None, None),
    (Event::Add(850), 32_767, 32_768, 121, Some(850), None),
    (Event::Set(3500), 0, 65_535, 0, Some(3500), Some(3500)),
    (Event::Add(850), 32_767, 32_768, 0, Some(3500), Some(3500)),
];

/// Applies an event to a box, and expects what a row says.
fn expect_edit(rt: &impl Abort, tree: &mut OccTree, row: Edited)
    requires { IsWellFormed tree.old }
    ensures { IsWellFormed tree.new }
{
    let (event, low, high, groups, value, beside) = row;
    expect_small(rt, event);
    apply(rt, tree, all(low), all(high), event);
    expect_state(rt, tree, groups, value, beside);
}

/// Applies each event to its box, and expects what its row says.
fn expect_edits(rt: &impl Abort, tree: &mut OccTree, cases: &[Edited])
    requires { IsWellFormed tree.old }
{
    for row in cases {
        expect_edit(rt, tree, *row);
    }
}

#[test]
fn applies_events_to_boxes(rt: HostRuntime) -> Result<(), Fail> {
    let mut tree = world(rt.alloc(), 300)?;
    expect_edits(&rt, &mut tree, EDITS);
    // A box keeps what is known, so that later edits can end early.
    expect_tidy(&rt, &tree, true);
    Ok(())
}

/// The numbers of a box's corners, the groups that it takes to keep it, and those afterwards, and
/// the values of two voxels.
type Kept = (u16, u16, u128, u32, Option<i32>, Option<i32>);

/// Of nothing.
const KEPT_OF_NOTHING: &[Kept] = &[(5, 9, 0, 0, None, None)];

/// Of one leaf, in turn: the whole map, eight voxels around its middle, one of them, and a voxel
/// beside all that is known.
const KEPT_IN_TURN: &[Kept] = &[
    (0, 65_535, 0, 0, Some(850), Some(850)),
    (32_767, 32_768, 121, 121, Some(850), None),
    (32_767, 32_767, 0, 16, Some(850), None),
    (5, 5, 0, 0, None, None),
];

/// Of one leaf: a single voxel.
const KEPT_AT_ONCE: &[Kept] = &[(32_767, 32_767, 16, 16, Some(850), None)];

/// Keeps a box, and expects what a row says.
fn expect_kept(rt: &impl Abort, tree: &mut OccTree, row: Kept)
    requires { IsWellFormed tree.old }
    ensures { IsWellFormed tree.new }
{
    let (low, high, need, groups, value, beside) = row;
    keep(rt, tree, all(low), all(high), need);
    expect_state(rt, tree, groups, value, beside);
}

/// Keeps each box, and expects what its row says.
fn expect_keeps(rt: &impl Abort, tree: &mut OccTree, cases: &[Kept])
    requires { IsWellFormed tree.old }
    ensures { IsWellFormed tree.new }
{
    for row in cases {
        expect_kept(rt, tree, *row);
    }
}

#[test]
fn keeps_boxes(rt: HostRuntime) -> Result<(), Fail> {
    let mut tree = world(rt.alloc(), 300)?;
    expect_keeps(&rt, &mut tree, KEPT_OF_NOTHING);
    apply(&rt, &mut tree, all(0), all(65_535), Event::Set(850));
    expect_keeps(&rt, &mut tree, KEPT_IN_TURN);
    apply(&rt, &mut tree, all(0), all(65_535), Event::Set(850));
    expect_keeps(&rt, &mut tree, KEPT_AT_ONCE);
    expect_tidy(&rt, &tree, true);
    Ok(())
}
