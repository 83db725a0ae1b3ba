//! What merges need.
ghost use Rattle.std.specs.Prelude.{◌≡◌, IfOk};
ghost use Rattle.oct_odds.specs.Update.{IsSmallEvent};
ghost use Rattle.oct_tree.specs.Shape.{IsWellFormed};

use crate::boxes::all;
use oct_edit::{box_need, touch_box};
use oct_key::{Key, Res};
use oct_merge::{Rule, merge, merge_need};
use oct_odds::{Event, OddsModel};
use oct_tree::OccTree;
use std::alloc::Global;
use std::process::Abort;
use std::test::Fail;

/// Two trees of voxels of a tenth of a metre, with room for 300 groups each.
fn worlds(alloc: Global) -> Result<(OccTree, OccTree), Fail>
    ensures { IfOk result (λ pair. IsWellFormed pair.0 × IsWellFormed pair.1
        × (pair.0.res ≡ pair.1.res) × (pair.0.odds ≡ pair.1.odds)) }
{
    let res = Res::new(100_000_000)?;
    let odds = OddsModel::default();
    let mut first = OccTree::new(alloc, res, odds);
    let mut second = OccTree::new(alloc, res, odds);
    first.reserve(300)?;
    second.reserve(300)?;
    Ok((first, second))
}

/// Sets each voxel of a box where there is room for it.
pub(crate) fn paint(rt: &impl Abort, tree: &mut OccTree, lo: Key, hi: Key, event: Event)
    requires formed { IsWellFormed tree.old }
    requires small { IsSmallEvent event }
    ensures formed { IsWellFormed tree.new }
    ensures res { tree.new.res ≡ tree.old.res }
    ensures odds { tree.new.odds ≡ tree.old.odds }
{
    assert!(rt; lo.x <= hi.x);
    assert!(rt; lo.y <= hi.y);
    assert!(rt; lo.z <= hi.z);
    let room = u128::from(tree.arena().spare());
    assert!(rt; box_need(lo, hi) <= room);
    touch_box(tree, lo, hi, event);
}

/// Merges where there is room for it.
fn join(rt: &impl Abort, into: &mut OccTree, other: &OccTree, rule: Rule)
    requires into { IsWellFormed into.old }
    requires other { IsWellFormed other.now }
    requires res { into.old.res ≡ other.now.res }
    requires odds { into.old.odds ≡ other.now.odds }
    ensures formed { IsWellFormed into.new }
    ensures res { into.new.res ≡ into.old.res }
    ensures odds { into.new.odds ≡ into.old.odds }
{
    assert!(rt; merge_need(into, other) <= into.arena().spare());
    merge(into, other, rule);
}

/// Expects that a merge of the other tree into the first needs this many groups at most.
fn expect_need(rt: &impl Abort, into: &OccTree, other: &OccTree, want: u32)
    requires into { IsWellFormed into.now }
    requires other { IsWellFormed other.now }
{
    assert_eq!(rt; merge_need(into, other), want);
}

/// Expects this many groups of two trees.
fn expect_groups(rt: &impl Abort, a: &OccTree, b: &OccTree, want: (u32, u32)) {
    assert_eq!(rt; (a.arena().live(), b.arena().live()), want);
}

#[test]
fn needs_the_groups_that_are_missing(rt: HostRuntime) -> Result<(), Fail> {
    // A has groups of depth 0 to 14 around voxel 0, whose block of depth 15 is one leaf; B has
    // them down to depth 15.
    let (mut a, mut b) = worlds(rt.alloc())?;
    paint(&rt, &mut a, all(0), all(1), Event::Set(850));
    paint(&rt, &mut b, all(0), all(0), Event::Set(850));
    expect_groups(&rt, &a, &b, (15, 16));
    expect_need(&rt, &b, &a, 0);
    expect_need(&rt, &a, &b, 1);
    // The one that is missing is taken, and given back, since its voxels are of one value.
    join(&rt, &mut a, &b, Rule::Greatest);
    expect_groups(&rt, &a, &b, (15, 16));
    Ok(())
}
