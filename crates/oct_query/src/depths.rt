//! What one block answers, from its own node or from the leaf that covers it.
ghost use Rattle.std.specs.Prelude.{◌≡◌};
ghost use Rattle.oct_key.specs.Voxel.{Voxel, IsInMap};
ghost use Rattle.oct_key.specs.Block.{HoldsVoxel, lowest_voxel};
ghost use Rattle.oct_key.specs.CubeOf.{cube_of};
ghost use Rattle.oct_values.specs.Depths.{IsLargestIn};
ghost use Rattle.oct_arena.specs.Nodes.{stored_in};
ghost use Rattle.oct_tree.specs.Tree.{IsLinked, reach, value_at};
ghost use Rattle.oct_tree.specs.Shape.{IsFresh};

use oct_key::{Block, Key};
use oct_tree::OccTree;

/// What the tree holds for the block: the value that stands in its node, or in the leaf that covers
/// it, or `None` where its node, or one that covers it, is absent. Reads at most sixteen nodes of
/// the arena and takes no memory.
///
/// In a fresh tree, and for a voxel in every tree, this is the largest known value among the
/// block's voxels, or `None` where all of them are unknown.
pub fn query(tree: &OccTree, b: Block) -> Option<i32>
    ensures node { (k : Voxel) → HoldsVoxel (cube_of b) k
        → result ≡ stored_in (reach tree.now b.depth k) }
    ensures fresh { IsFresh tree.now → IsLargestIn (value_at tree.now) (cube_of b) result }
    ensures voxel { b.depth ≡ 16 → IsLargestIn (value_at tree.now) (cube_of b) result }
    ensures linked { IsLinked tree.now }
{
    tree.node_over(lowest_voxel(b), b.depth).stored()
}

/// The voxel of the block with the lowest number on each axis.
pub(crate) fn lowest_voxel(b: Block) -> Key
    ensures exact { result ≡ lowest_voxel (cube_of b) }
    ensures voxel { IsInMap result }
{
    let height = 16 - b.depth;
    Key {
        x: (u32::from(b.x) << height) as u16,
        y: (u32::from(b.y) << height) as u16,
        z: (u32::from(b.z) << height) as u16,
    }
}
