//! Stale and unpruned trees before and after each pass.
ghost use Rattle.std.specs.Prelude.{◌≡◌, ◌≤◌, Some, IfOk, IfSome};
ghost use Rattle.oct_key.specs.Block.{Cube};
ghost use Rattle.oct_odds.specs.Odds.{IsSmall};
ghost use Rattle.oct_arena.specs.Entries.{home_at};
ghost use Rattle.oct_tree.specs.Tree.{IsPlace, block_in};
ghost use Rattle.oct_tree.specs.Shape.{IsWellFormed};

use oct_arena::{GroupId, Node};
use oct_inner::{maximum_likelihood, prune, refresh};
use oct_key::Res;
use oct_odds::{Event, OddsModel};
use oct_tree::{OccTree, Place, Tidiness};
use std::alloc::Global;
use std::process::Abort;
use std::test::Fail;

/// What stands at a place, without the ids.
#[derive(Clone, Copy, Debug, PartialEq, Eq)]
enum Seen {
    Absent,
    Leaf(i32),
    Inner(i32),
}

/// What stands at the end of the path of child indices, or at the node on it that has no children.
fn at_path(tree: &OccTree, path: &[u8]) -> Seen {
    let mut p = Place::Root;
    for i in path {
        let Node::Inner(_, id) = tree.node(p) else {
            break;
        };
        if *i > 7 {
            break;
        }
        p = Place::Slot(id, *i);
    }
    match tree.node(p) {
        Node::Absent => Seen::Absent,
        Node::Leaf(value) => Seen::Leaf(value),
        Node::Inner(value, _) => Seen::Inner(value),
    }
}

/// Puts a leaf at the place, unless that is Inner.
fn put_leaf(tree: &mut OccTree, p: Place, value: i32) -> bool
    requires formed { IsWellFormed tree.old }
    requires place { IsPlace tree.old p }
    requires small { IsSmall value }
    ensures { IsWellFormed tree.new }
{
    if matches!(tree.node(p), Node::Inner(_, _)) {
        return false;
    }
    let Some(value) = tree.odds().apply(Event::Set(value), None) else {
        return false;
    };
    tree.set_place(p, Node::Leaf(value));
    true
}

/// The group under the place, which is split if it is a leaf.
fn enter(tree: &mut OccTree, p: Place) -> Option<GroupId>
    requires formed { IsWellFormed tree.old }
    requires place { IsPlace tree.old p }
    requires depth { (b : Cube) → block_in tree.old p ≡ Some b → b.depth ≤ 15 }
    ensures formed { IsWellFormed tree.new }
    ensures home { (b : Cube) → block_in tree.old p ≡ Some b
        → IfSome result (λ id. home_at tree.new.groups id.number ≡ Some b) }
{
    match tree.node(p) {
        Node::Absent => None,
        Node::Inner(_, id) => Some(id),
        Node::Leaf(_) if tree.arena().spare() == 0 => None,
        Node::Leaf(_) => Some(tree.split(p)),
    }
}

/// Puts a leaf at the end of the path below the place, and splits the leaves on the way. Answers
/// false where an absent node stands on the way or an Inner one at the end, or there is no room.
fn put(tree: &mut OccTree, p: Place, depth: u8, path: &[u8], value: i32) -> bool
    requires formed { IsWellFormed tree.old }
    requires place { IsPlace tree.old p }
    requires depth { (b : Cube) → block_in tree.old p ≡ Some b → b.depth ≡ depth }
    requires small { IsSmall value }
    ensures { IsWellFormed tree.new }
{
    let Some((i, below)) = path.split_first() else {
        return put_leaf(tree, p, value);
    };
    if depth > 15 || *i > 7 {
        return false;
    }
    match enter(tree, p) {
        Some(id) => put(tree, Place::Slot(id, *i), depth + 1, below, value),
        None => false,
    }
}

/// The tree of the unknown world, with room for n groups.
fn unknown(alloc: Global, n: u32) -> Result<OccTree, Fail>
    requires { n ≤ 100 }
    ensures { IfOk result (λ tree. IsWellFormed tree) }
{
    let mut tree = OccTree::new(alloc, Res::new(100_000_000)?, OddsModel::default());
    tree.reserve(n)?;
    Ok(tree)
}

/// Puts a leaf at the end of the path, and splits the leaves on the way.
fn expect_put(rt: &impl Abort, tree: &mut OccTree, path: &[u8], value: i32)
    requires formed { IsWellFormed tree.old }
    requires small { IsSmall value }
    ensures { IsWellFormed tree.new }
{
    assert!(rt; put(tree, Place::Root, 0, path, value));
}

/// Expects that this stands at the end of the path.
fn expect_at(rt: &impl Abort, tree: &OccTree, path: &[u8], want: Seen) {
    assert_eq!(rt; at_path(tree, path), want);
}

/// Expects this many groups.
fn expect_groups(rt: &impl Abort, tree: &OccTree, want: u32) {
    assert_eq!(rt; tree.arena().live(), want);
}

/// Expects that this is known of the inner nodes: whether they are fresh, and whether pruned.
fn expect_known(rt: &impl Abort, tree: &OccTree, fresh: bool, pruned: bool) {
    assert_eq!(rt; tree.tidiness(), Tidiness { fresh, pruned });
}

/// A tree whose children are 100 but for the fourth, which is 850, and the sixth, whose own
/// children are -400. The Inner nodes have the value 100 that they began with.
fn stale(rt: &impl Abort, alloc: Global) -> Result<OccTree, Fail>
    ensures { IfOk result (λ tree. IsWellFormed tree) }
{
    let mut tree = unknown(alloc, 2)?;
    expect_put(rt, &mut tree, &[], 100);
    expect_put(rt, &mut tree, &[3], 850);
    for i in 0..8 {
        expect_put(rt, &mut tree, &[5, i], -400);
    }
    Ok(tree)
}

/// Paths of children, and what stands at their ends.
type Rows = &'static [(&'static [u8], Seen)];

/// Those of that tree before and after each pass.
const STALE: Rows = &[(&[], Seen::Inner(100)), (&[5], Seen::Inner(100))];

const REFRESHED: Rows = &[
    (&[], Seen::Inner(850)),
    (&[0], Seen::Leaf(100)),
    (&[3], Seen::Leaf(850)),
    (&[5], Seen::Inner(-400)),
    (&[5, 7], Seen::Leaf(-400)),
];

const PRUNED: Rows = &[
    (&[], Seen::Inner(100)),
    (&[3], Seen::Leaf(850)),
    (&[5], Seen::Leaf(-400)),
];

const SURE: Rows = &[
    (&[], Seen::Inner(3500)),
    (&[0], Seen::Leaf(3500)),
    (&[3], Seen::Leaf(3500)),
    (&[5], Seen::Leaf(-2000)),
];

/// Expects this many groups, and what stands at the ends of paths.
fn expect_tree(rt: &impl Abort, tree: &OccTree, groups: u32, rows: &[(&[u8], Seen)]) {
    expect_groups(rt, tree, groups);
    for (path, want) in rows {
        expect_at(rt, tree, path, *want);
    }
}

#[test]
fn refresh_mends_inner_values(rt: HostRuntime) -> Result<(), Fail> {
    let mut tree = stale(&rt, rt.alloc())?;
    expect_tree(&rt, &tree, 2, STALE);
    refresh(&mut tree);
    expect_tree(&rt, &tree, 2, REFRESHED);
    Ok(())
}

#[test]
fn prune_collapses_up_to_where_nodes_differ(rt: HostRuntime) -> Result<(), Fail> {
    let mut tree = stale(&rt, rt.alloc())?;
    prune(&mut tree);
    expect_tree(&rt, &tree, 1, PRUNED);
    Ok(())
}

#[test]
fn prune_collapses_a_whole_map(rt: HostRuntime) -> Result<(), Fail> {
    let mut tree = unknown(rt.alloc(), 2)?;
    expect_put(&rt, &mut tree, &[], 850);
    expect_put(&rt, &mut tree, &[2, 3], 850);
    expect_tree(&rt, &tree, 2, &[(&[2, 3], Seen::Leaf(850))]);
    prune(&mut tree);
    expect_tree(&rt, &tree, 0, &[(&[], Seen::Leaf(850))]);
    Ok(())
}

#[test]
fn maximum_likelihood_makes_known_voxels_sure(rt: HostRuntime) -> Result<(), Fail> {
    let mut tree = stale(&rt, rt.alloc())?;
    maximum_likelihood(&mut tree);
    expect_tree(&rt, &tree, 1, SURE);
    Ok(())
}

#[test]
fn a_value_at_the_threshold_is_occupied(rt: HostRuntime) -> Result<(), Fail> {
    let mut tree = unknown(rt.alloc(), 0)?;
    expect_put(&rt, &mut tree, &[], 0);
    maximum_likelihood(&mut tree);
    expect_at(&rt, &tree, &[], Seen::Leaf(3500));
    Ok(())
}

#[test]
fn passes_leave_the_unknown_world(rt: HostRuntime) -> Result<(), Fail> {
    let mut tree = unknown(rt.alloc(), 0)?;
    refresh(&mut tree);
    prune(&mut tree);
    maximum_likelihood(&mut tree);
    expect_at(&rt, &tree, &[], Seen::Absent);
    Ok(())
}

#[test]
fn passes_note_what_they_have_shown(rt: HostRuntime) -> Result<(), Fail> {
    let mut tree = stale(&rt, rt.alloc())?;
    expect_known(&rt, &tree, false, false);
    refresh(&mut tree);
    expect_known(&rt, &tree, true, false);
    prune(&mut tree);
    expect_known(&rt, &tree, true, true);
    // What is known goes where a node is set.
    expect_put(&rt, &mut tree, &[3], -400);
    expect_known(&rt, &tree, false, false);
    prune(&mut tree);
    expect_known(&rt, &tree, false, true);
    maximum_likelihood(&mut tree);
    expect_known(&rt, &tree, true, true);
    Ok(())
}
