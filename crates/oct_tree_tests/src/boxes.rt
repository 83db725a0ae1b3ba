//! Trees to begin with, and events on boxes of them.
ghost use Rattle.std.specs.Prelude.{◌≡◌, ◌≤◌, IfOk};
ghost use Rattle.oct_odds.specs.Update.{IsSmallEvent};
ghost use Rattle.oct_values.specs.Boxes as boxes;
ghost use Rattle.oct_key.specs.Boxes.{IsBox};
ghost use Rattle.oct_edit.specs.Keep as groups;
ghost use Rattle.oct_tree.specs.Shape.{IsWellFormed};

use oct_edit::{box_need, keep_box, keep_need, touch_box};
use oct_key::{Key, Res};
use oct_odds::{Event, OddsModel};
use oct_tree::OccTree;
use std::alloc::Global;
use std::process::Abort;
use std::test::Fail;

/// The voxel with this number on each axis.
pub(crate) const fn all(n: u16) -> Key {
    Key { x: n, y: n, z: n }
}

/// A tree of voxels of a tenth of a metre, with room for this many groups.
pub(crate) fn world(alloc: Global, room: u32) -> Result<OccTree, Fail>
    requires { room ≤ 5000 }
    ensures { IfOk result (λ tree. IsWellFormed tree) }
{
    let mut tree = OccTree::new(alloc, Res::new(100_000_000)?, OddsModel::default());
    tree.reserve(room)?;
    Ok(tree)
}

/// The need of a box, once it is seen that its corners are in order.
fn need(rt: &impl Abort, lo: Key, hi: Key) -> u128
    ensures order { IsBox lo hi }
    ensures exact { result ≡ boxes.box_need lo hi }
{
    assert!(rt; lo.x <= hi.x);
    assert!(rt; lo.y <= hi.y);
    assert!(rt; lo.z <= hi.z);
    box_need(lo, hi)
}

/// Applies the event to a box where there is room for it.
pub(crate) fn apply(rt: &impl Abort, tree: &mut OccTree, lo: Key, hi: Key, event: Event)
    requires formed { IsWellFormed tree.old }
    requires small { IsSmallEvent event }
    ensures { IsWellFormed tree.new }
{
    let room = u128::from(tree.arena().spare());
    assert!(rt; need(rt, lo, hi) <= room);
    touch_box(tree, lo, hi, event);
}

/// What it takes to keep a box, once it is seen that its corners are in order.
fn need_to_keep(rt: &impl Abort, tree: &OccTree, lo: Key, hi: Key) -> u128
    ensures order { IsBox lo hi }
    ensures exact { result ≡ groups.keep_need tree.now lo hi }
{
    assert!(rt; lo.x <= hi.x);
    assert!(rt; lo.y <= hi.y);
    assert!(rt; lo.z <= hi.z);
    keep_need(tree, lo, hi)
}

/// Keeps a box, which takes this many groups.
pub(crate) fn keep(rt: &impl Abort, tree: &mut OccTree, lo: Key, hi: Key, want: u128)
    requires { IsWellFormed tree.old }
    ensures { IsWellFormed tree.new }
{
    let need = need_to_keep(rt, tree, lo, hi);
    assert_eq!(rt; need, want);
    assert!(rt; need <= u128::from(tree.arena().spare()));
    keep_box(tree, lo, hi);
}
