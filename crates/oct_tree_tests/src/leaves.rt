//! Trees of a few leaves.
ghost use Rattle.std.specs.Prelude.{◌≡◌, ◌<◌, ◌≤◌, None, IfOk};
ghost use Rattle.oct_odds.specs.Odds.{odds_of, IsSmall};
ghost use Rattle.oct_odds.specs.Update.{IsWithin};
ghost use Rattle.oct_arena.specs.Nodes.{link_of, value_of};

use oct_arena::Node;
use oct_key::Res;
use oct_odds::{Event, OddsModel};
use oct_tree::{OccTree, Place};
use std::alloc::Global;
use std::test::Fail;

/// A leaf of the value.
pub(crate) fn leaf(odds: OddsModel, value: i32) -> Node
    requires { IsSmall value }
    ensures node { link_of result ≡ None }
    ensures within { IsWithin (odds_of odds) (value_of result) }
{
    match odds.apply(Event::Set(value), None) {
        Some(value) => Node::Leaf(value),
        None => Node::Absent,
    }
}

/// The unknown world, in voxels of a tenth of a metre.
pub(crate) fn unknown_world(alloc: Global) -> Result<OccTree, Fail>
    ensures plain { IfOk result (λ tree. link_of tree.root ≡ None) }
{
    let res = Res::new(100_000_000)?;
    Ok(OccTree::new(alloc, res, OddsModel::default()))
}

/// A tree whose root is a leaf of this value.
pub(crate) fn one_leaf(alloc: Global, value: i32) -> Result<OccTree, Fail>
    requires { IsSmall value }
{
    let res = Res::new(100_000_000)?;
    let odds = OddsModel::default();
    let mut tree = OccTree::new(alloc, res, odds);
    tree.set_place(Place::Root, leaf(odds, value));
    Ok(tree)
}

/// A tree that knows two children of the map alone, given by their numbers, each of one value.
pub(crate) fn two_children(
    alloc: Global,
    first: u8,
    value: i32,
    second: u8,
    other: i32,
) -> Result<OccTree, Fail>
    requires order { first < second }
    requires last { second ≤ 7 }
    requires value { IsSmall value }
    requires other { IsSmall other }
{
    let res = Res::new(100_000_000)?;
    let odds = OddsModel::default();
    let mut tree = OccTree::new(alloc, res, odds);
    tree.reserve(1)?;
    let id = tree.split(Place::Root);
    tree.set_place(Place::Slot(id, first), leaf(odds, value));
    tree.set_place(Place::Slot(id, second), leaf(odds, other));
    tree.settle(Place::Root);
    Ok(tree)
}
