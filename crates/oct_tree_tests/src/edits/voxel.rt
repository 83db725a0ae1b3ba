//! Edits of single voxels: eager and lazy ones, at the bounds, and what is pruned after them.
ghost use Rattle.std.specs.Prelude.{◌≡◌};
ghost use Rattle.oct_odds.specs.Update.{IsSmallEvent};
ghost use Rattle.oct_tree.specs.Shape.{IsWellFormed};

use super::checks::{expect_small, expect_tidy};
use crate::boxes::world;
use oct_arena::Node;
use oct_edit::touch;
use oct_key::Key;
use oct_odds::Event;
use oct_tree::OccTree;
use std::process::Abort;
use std::test::Fail;

/// What an addition of a hit adds.
const HIT: Event = Event::Add(850);

/// The key this many voxels from the origin.
fn voxel(x: u16, y: u16, z: u16) -> Key {
    Key {
        x: 32_768 | x,
        y: 32_768 | y,
        z: 32_768 | z,
    }
}

/// The eight voxels beside the corner of the origin's voxel.
fn eight() -> [Key; 8] {
    [
        voxel(0, 0, 0),
        voxel(1, 0, 0),
        voxel(0, 1, 0),
        voxel(1, 1, 0),
        voxel(0, 0, 1),
        voxel(1, 0, 1),
        voxel(0, 1, 1),
        voxel(1, 1, 1),
    ]
}

/// Applies the event where there is room for it.
fn apply(rt: &impl Abort, tree: &mut OccTree, k: Key, event: Event, lazy: bool)
    requires formed { IsWellFormed tree.old }
    requires small { IsSmallEvent event }
    ensures { IsWellFormed tree.new }
{
    assert!(rt; tree.arena().spare() >= 16);
    touch(tree, k, event, lazy);
}

/// Adds a hit to a voxel at the upper bound, which leaves the list of the arena's groups as it was,
/// each vacant entry among them, and the root.
fn hit_in_vain(rt: &impl Abort, tree: &mut OccTree, k: Key)
    requires formed { IsWellFormed tree.old }
    ensures groups { tree.new.groups ≡ tree.old.groups }
    ensures root { tree.new.root ≡ tree.old.root }
{
    assert!(rt; tree.arena().spare() >= 16);
    match tree.at(k) {
        Some(value) => {
            assert_eq!(rt; value, tree.odds().max);
            touch(tree, k, HIT, false);
        }
        None => panic!(rt; "the voxel is unknown"),
    }
}

/// Applies the event to the eight voxels.
fn apply_to_eight(rt: &impl Abort, tree: &mut OccTree, event: Event, lazy: bool)
    requires formed { IsWellFormed tree.old }
    requires small { IsSmallEvent event }
    ensures { IsWellFormed tree.new }
{
    for k in eight() {
        apply(rt, tree, k, event, lazy);
    }
}

/// The values of the eight voxels.
fn values(tree: &OccTree) -> [Option<i32>; 8] {
    eight().map(|k| tree.at(k))
}

/// The groups of the tree, and how many more it can take.
fn counts(tree: &OccTree) -> (u32, u32) {
    (tree.arena().live(), tree.arena().spare())
}

/// The value that stands at the root for queries, where the root has a group.
fn root_value(tree: &OccTree) -> Option<i32> {
    match tree.root() {
        Node::Inner(value, _) => Some(value),
        _ => None,
    }
}

/// Expects this many groups, and these values of the eight voxels.
fn expect_eight(rt: &impl Abort, tree: &OccTree, groups: u32, want: [Option<i32>; 8]) {
    assert_eq!(rt; tree.arena().live(), groups);
    assert_eq!(rt; values(tree), want);
}

/// Expects this value at the root for queries.
fn expect_root(rt: &impl Abort, tree: &OccTree, want: Option<i32>) {
    assert_eq!(rt; root_value(tree), want);
}

/// Expects this many groups, and this many more that the tree can take.
fn expect_counts(rt: &impl Abort, tree: &OccTree, want: (u32, u32)) {
    assert_eq!(rt; counts(tree), want);
}

/// Expects these values of the voxel and of the one beside it, and the groups of one known voxel
/// or of none.
fn expect_pair(rt: &impl Abort, tree: &OccTree, k: Key, beside: Key, want: Option<i32>) {
    assert_eq!(rt; (tree.at(k), tree.at(beside)), (want, None));
    assert_eq!(rt; tree.arena().live(), if want.is_some() { 16 } else { 0 });
}

#[test]
fn prunes_equal_leaves(rt: HostRuntime) -> Result<(), Fail> {
    let mut tree = world(rt.alloc(), 100)?;
    apply_to_eight(&rt, &mut tree, HIT, false);
    expect_eight(&rt, &tree, 15, [Some(850); 8]);
    // The ninth hit expands the leaf of the eight.
    for want in [1700, 2550, 3400, 3500] {
        apply(&rt, &mut tree, voxel(0, 0, 0), HIT, false);
        let mut wanted = [Some(850); 8];
        wanted[0] = Some(want);
        expect_eight(&rt, &tree, 16, wanted);
        expect_root(&rt, &tree, Some(want));
    }
    hit_in_vain(&rt, &mut tree, voxel(0, 0, 0));
    // What is known of the tree stays known.
    expect_tidy(&rt, &tree, true);
    Ok(())
}

#[test]
fn stops_at_the_bound(rt: HostRuntime) -> Result<(), Fail> {
    let mut tree = world(rt.alloc(), 100)?;
    // Eight at the bound are one leaf, which no hit expands, lazy or not. A set to the same value
    // ends in the same map.
    apply_to_eight(&rt, &mut tree, Event::Set(4000), false);
    let full = counts(&tree);
    for (event, lazy) in [
        (HIT, false),
        (HIT, true),
        (Event::Add(0), true),
        (Event::Set(3500), false),
    ] {
        apply(&rt, &mut tree, voxel(0, 0, 0), event, lazy);
        expect_counts(&rt, &tree, full);
        expect_eight(&rt, &tree, 15, [Some(3500); 8]);
    }
    Ok(())
}

#[test]
fn leaves_inner_values_and_groups_when_lazy(rt: HostRuntime) -> Result<(), Fail> {
    let mut tree = world(rt.alloc(), 100)?;
    let empty = counts(&tree);
    let first = voxel(0, 0, 0);
    // New inner nodes over unknown space have the value 0, and an edit that isn't lazy mends its
    // path.
    apply(&rt, &mut tree, first, HIT, true);
    expect_tidy(&rt, &tree, false);
    expect_root(&rt, &tree, Some(0));
    expect_pair(&rt, &tree, first, voxel(1, 0, 0), Some(850));
    apply(&rt, &mut tree, first, HIT, false);
    expect_root(&rt, &tree, Some(1700));
    expect_pair(&rt, &tree, first, voxel(1, 0, 0), Some(1700));
    // Values change under inner ones that stay, and eight equal leaves stay eight.
    apply_to_eight(&rt, &mut tree, Event::Set(-300), true);
    expect_eight(&rt, &tree, 16, [Some(-300); 8]);
    expect_root(&rt, &tree, Some(1700));
    // What becomes unknown is given back, lazy or not.
    apply_to_eight(&rt, &mut tree, Event::Forget, true);
    expect_eight(&rt, &tree, 0, [None; 8]);
    expect_counts(&rt, &tree, empty);
    assert_eq!(rt; tree.root(), Node::Absent);
    Ok(())
}

/// Events in turn, whether each is lazy, and the value of the voxel afterwards. An unknown voxel
/// counts as 0 for an addition, and is neither occupied nor free.
const EDITS: &[(Event, bool, Option<i32>)] = &[
    (Event::Likely, false, None),
    (Event::Forget, false, None),
    (Event::Add(-400), false, Some(-400)),
    (Event::Add(-1_000_000), true, Some(-2000)),
    (Event::Add(-1), false, Some(-2000)),
    (Event::Set(1_000_000), false, Some(3500)),
    (Event::Set(-1), true, Some(-1)),
    (Event::Likely, false, Some(-2000)),
    (Event::Set(0), false, Some(0)),
    (Event::Likely, true, Some(3500)),
    (Event::Forget, true, None),
    (Event::Add(0), false, Some(0)),
    (Event::Forget, false, None),
];

/// Applies an event to a voxel, and expects this value of it afterwards.
fn expect_edit(rt: &impl Abort, tree: &mut OccTree, event: Event, lazy: bool, want: Option<i32>)
    requires { IsWellFormed tree.old }
    ensures { IsWellFormed tree.new }
{
    expect_small(rt, event);
    apply(rt, tree, voxel(5, 9, 2), event, lazy);
    expect_pair(rt, tree, voxel(5, 9, 2), voxel(4, 9, 2), want);
}

/// Applies each event to a voxel, and expects its value afterwards.
fn expect_edits(rt: &impl Abort, tree: &mut OccTree, cases: &[(Event, bool, Option<i32>)])
    requires { IsWellFormed tree.old }
{
    for (event, lazy, want) in cases {
        expect_edit(rt, tree, *event, *lazy, *want);
    }
}

#[test]
fn applies_each_event_to_one_voxel(rt: HostRuntime) -> Result<(), Fail> {
    let mut tree = world(rt.alloc(), 100)?;
    let empty = counts(&tree);
    expect_edits(&rt, &mut tree, EDITS);
    expect_counts(&rt, &tree, empty);
    Ok(())
}
