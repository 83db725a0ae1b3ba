//! Walks over the blocks of a tree that count a frontier, and list it.
ghost use Rattle.std.specs.Prelude.{◌≡◌, ◌+◌, ◌<◌, ◌≤◌, ◌++◌, length, IfSome, IsNone, vec_len};
ghost use Rattle.std.specs.Prelude.{vec_capacity};
ghost use Rattle.oct_key.specs.Boxes.{IsBox};
ghost use Rattle.oct_key.specs.CubeOf.{cube_of};
ghost use Rattle.oct_frontier.specs.Found.{found_in};
ghost use Rattle.oct_frontier.specs.Patches.{IsPatchOf};

use crate::look::{Look, look_at};
use crate::patch::Patch;
use oct_key::Key;
use oct_tree::OccTree;

/// How much of the room is left after the voxels of the block that are asked for, or `None` where
/// there are more. Goes no further than up to the first one too many.
pub(crate) fn count_under(tree: &OccTree, patch: &Patch, lo: Key, hi: Key, room: u64) -> Option<u64>
    requires patch { IsPatchOf tree.now patch.now }
    requires depth { patch.now.block.depth ≤ 15 }
    requires order { IsBox lo hi }
    ensures counted { IfSome result
        (λ left. length (found_in tree.now lo hi (cube_of patch.now.block)) + left ≡ room) }
    ensures more { IsNone result
        → room < length (found_in tree.now lo hi (cube_of patch.now.block)) }
{
    let mut left = room;
    for i in 0u8..8 {
        left = match look_at(tree, patch, i, lo, hi) {
            Look::Pass => left,
            Look::Take(_) => left.checked_sub(1)?,
            Look::Enter => count_under(tree, &patch.child(tree, i), lo, hi, left)?,
        };
    }
    Some(left)
}

/// Adds the voxels of the block that are asked for, for which there is room.
pub(crate) fn list_under(tree: &OccTree, patch: &Patch, lo: Key, hi: Key, keys: &mut Vec<Key>)
    requires patch { IsPatchOf tree.now patch.now }
    requires depth { patch.now.block.depth ≤ 15 }
    requires order { IsBox lo hi }
    requires room { vec_len keys.old + length (found_in tree.now lo hi (cube_of patch.now.block))
        ≤ vec_capacity keys.old }
    ensures listed { keys.new.items
        ≡ keys.old.items ++ found_in tree.now lo hi (cube_of patch.now.block) }
    ensures capacity { vec_capacity keys.new ≡ vec_capacity keys.old }
{
    for i in 0u8..8 {
        match look_at(tree, patch, i, lo, hi) {
            Look::Pass => {}
            Look::Take(key) => keys.push_reserved(key),
            Look::Enter => list_under(tree, &patch.child(tree, i), lo, hi, keys),
        }
    }
}
