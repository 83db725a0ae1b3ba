//! Reading and writing the node of a place, in the arena or at the root.

ghost use Rattle.std.specs.Prelude.{◌≡◌, ◌+◌, ◌<◌, ◌≤◌, Some, None, length, replicate, slice_set};
ghost use Rattle.oct_key.specs.Block.{Cube};
ghost use Rattle.oct_arena.specs.declared.node.Node.TheVariants.{Inner};
ghost use Rattle.oct_arena.specs.Entries.{IsLive, entry, spare};
ghost use Rattle.oct_tree.specs.Places.{IsPlaceOf, IsAboveVoxels, node_at_place, block_at_place};
ghost use Rattle.oct_tree.specs.Places.{groups_with, root_with};

use crate::place::Place;
use oct_arena::{GroupId, Node, NodeArena};
use oct_key::Block;

/// The node at the place.
pub(crate) fn read(arena: &NodeArena, root: Node, p: Place) -> Node
    requires { IsPlaceOf arena.now p }
    ensures { result ≡ node_at_place arena.now root p }
{
    match p {
        Place::Root => root,
        Place::Slot(id, i) => arena.node(id, i),
    }
}

/// Puts a group of eight copies of the place's node under it, and makes the place Inner, with this
/// value.
#[inline(always)]
pub(crate) fn split(arena: &mut NodeArena, root: &mut Node, p: Place, value: i32) -> GroupId
    requires place { IsPlaceOf arena.old p }
    requires home { IsAboveVoxels arena.old p }
    requires room { 1 ≤ spare arena.old }
    ensures within { result.number < length arena.old }
    ensures vacant { entry arena.old result.number ≡ None }
    ensures groups { (b : Cube) → block_at_place arena.old p ≡ Some b → arena.new
        ≡ groups_with (slice_set arena.old result.number
        (Some (record { home = b; nodes = replicate 8 (node_at_place arena.old root.old p) }))) p
        (Inner value result) }
    ensures root { root.new ≡ root_with root.old p (Inner value result) }
{
    match p {
        Place::Root => {
            let id = arena.take(Block::whole_map(), [*root; 8]);
            *root = Node::Inner(value, id);
            id
        }
        Place::Slot(id, i) => arena.split_to(id, i, value),
    }
}

/// Puts the node at the place.
pub(crate) fn write(arena: &mut NodeArena, root: &mut Node, p: Place, n: Node)
    requires { IsPlaceOf arena.old p }
    ensures groups { arena.new ≡ groups_with arena.old p n }
    ensures root { root.new ≡ root_with root.old p n }
    ensures spare { spare arena.new ≡ spare arena.old }
{
    match p {
        Place::Root => *root = n,
        Place::Slot(id, i) => arena.set_node(id, i, n),
    }
}

/// Gives back the group, and puts the node at the place.
pub(crate) fn give_back(arena: &mut NodeArena, root: &mut Node, p: Place, id: GroupId, n: Node)
    requires live { IsLive arena.old id.number }
    requires place { IsPlaceOf (slice_set arena.old id.number None) p }
    ensures groups { arena.new ≡ groups_with (slice_set arena.old id.number None) p n }
    ensures root { root.new ≡ root_with root.old p n }
    ensures spare { spare arena.new ≡ spare arena.old + 1 }
{
    arena.give(id);
    write(arena, root, p, n);
}
