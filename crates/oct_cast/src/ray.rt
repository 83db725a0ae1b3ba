//! The voxels of a segment, asked one after another until one stops it.
ghost use Rattle.std.specs.Prelude.{◌≡◌, IsSome, IfNone, Some};
ghost use Rattle.oct_key.specs.Voxel.{Voxel, key_at};
ghost use Rattle.oct_odds.specs.Update.{class_of};
ghost use Rattle.oct_values.specs.Classes.{classes_of};
ghost use Rattle.oct_arena.specs.Nodes.{link_of};
ghost use Rattle.oct_tree.specs.Classes.{classes_in};
ghost use Rattle.oct_tree.specs.Tree.{value_at};
ghost use Rattle.oct_cast.specs.Cast.{IsRight, cast_along, cast_through};
ghost use Rattle.oct_cast.specs.Way.{IsCodeOf, IsFloor, HasPassed, stop_at};

use crate::outcome::Cast;
use crate::way::Way;
use oct_arena::{GroupId, Node};
use oct_key::{Point, from_morton};
use oct_odds::Class;
use oct_ray::{BeamWalk, Walk};
use oct_tree::OccTree;

/// The first voxel that the segment from `o` to `e` meets and that is occupied, or unknown where
/// unknown voxels aren't ignored. Both ends are points of the map, and their voxels count.
pub fn cast(tree: &OccTree, o: Point, e: Point, ignore_unknown: bool) -> Cast
    requires origin { IsSome (key_at tree.now.res o) }
    requires end { IsSome (key_at tree.now.res e) }
    ensures exact { result ≡ cast_along tree.now.res o e ignore_unknown
        (classes_of tree.now.odds (value_at tree.now)) }
    ensures right { IsRight tree.now.res o e ignore_unknown
        (classes_of tree.now.odds (value_at tree.now)) result }
{
    let walk = Walk::new(tree.res(), o, e);
    match tree.root() {
        Node::Inner(_, id) => cast_below(tree, id, walk, ignore_unknown),
        root => cast_alike(tree, root, walk, ignore_unknown),
    }
}

/// What a cast answers where one node covers the map: its first voxel stops it, or none does.
fn cast_alike(tree: &OccTree, root: Node, walk: Walk, ignore_unknown: bool) -> Cast
    requires root { tree.now.root ≡ root }
    requires leaf { link_of root ≡ None }
    ensures { result ≡ cast_through ignore_unknown
        (classes_of tree.now.odds (value_at tree.now)) walk }
{
    let mut walk = walk;
    let Some(code) = walk.next_code() else {
        return Cast::Clear;
    };
    stop_at(tree, root.value(), code, ignore_unknown).unwrap_or(Cast::Clear)
}

/// What a cast answers in a tree whose root links this group.
fn cast_below(tree: &OccTree, id: GroupId, walk: Walk, ignore_unknown: bool) -> Cast
    requires root { link_of tree.now.root ≡ Some id.number }
    ensures { result ≡ cast_through ignore_unknown
        (classes_of tree.now.odds (value_at tree.now)) walk }
{
    let mut walk = walk;
    let Some(code) = walk.next_code() else {
        return Cast::Clear;
    };
    let (way, node) = Way::new(tree, id, code, floor_of(tree, ignore_unknown));
    match stop_at(tree, node.value(), code, ignore_unknown) {
        Some(found) => found,
        None => go_on(tree, way, walk, ignore_unknown),
    }
}

/// What a cast answers that was not stopped at the voxel that the way leads to.
fn go_on(tree: &OccTree, way: Way, walk: Walk, ignore_unknown: bool) -> Cast
    requires { HasPassed tree.now ignore_unknown way }
    ensures { result ≡ cast_through ignore_unknown
        (classes_of tree.now.odds (value_at tree.now)) walk }
{
    let mut way = way;
    let mut walk = walk;
    while let Some(code) = walk.next_but_last() {
        if let Some(found) = look_at(tree, &mut way, code, ignore_unknown) {
            return found;
        }
    }
    let Some(code) = walk.next_code() else {
        return Cast::Clear;
    };
    look_at(tree, &mut way, code, ignore_unknown).unwrap_or(Cast::Clear)
}

/// What a cast answers at the voxel of a code, if that one stops it. Else the way leads to it, or
/// to one that lies in the same block.
#[inline(always)]
fn look_at(tree: &OccTree, way: &mut Way, code: u64, ignore_unknown: bool) -> Option<Cast>
    requires passed { HasPassed tree.now ignore_unknown way.old }
    requires code { (k : Voxel) × IsCodeOf code k }
    ensures asked { (k : Voxel) → IsCodeOf code k
        → result ≡ stop_at ignore_unknown (classes_in tree.now k) k }
    ensures passed { IfNone result (HasPassed tree.now ignore_unknown way.new) }
{
    if way.is_over(code) {
        return None;
    }
    let node = way.turn_to(tree, code);
    stop_at(tree, node.value(), code, ignore_unknown)
}

/// The floor of a cast's ways. Below the threshold a fresh tree has nothing that stops a cast which
/// ignores unknown voxels; no node is below the least number.
fn floor_of(tree: &OccTree, ignore_unknown: bool) -> i32
    ensures { IsFloor tree.now ignore_unknown result }
{
    if ignore_unknown && tree.tidiness().fresh {
        tree.odds().thr
    } else {
        i32::MIN
    }
}

/// What a cast answers at the voxel of a code that has this value, if that one stops it.
fn stop_at(tree: &OccTree, value: Option<i32>, code: u64, ignore_unknown: bool) -> Option<Cast>
    requires { (k : Voxel) × IsCodeOf code k }
    ensures { (k : Voxel) → IsCodeOf code k
        → result ≡ stop_at ignore_unknown (class_of tree.now.odds value) k }
{
    match tree.odds().class(value) {
        Class::Occupied => Some(Cast::Hit(from_morton(code))),
        Class::Unknown if !ignore_unknown => Some(Cast::Unknown(from_morton(code))),
        _ => None,
    }
}
