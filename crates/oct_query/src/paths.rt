//! Paths that are kept, for many questions.
ghost use Rattle.std.specs.Prelude.{◌≡◌, ◌<◌};
ghost use Rattle.oct_key.specs.Voxel.{Voxel};
ghost use Rattle.oct_key.specs.Block.{HoldsVoxel};
ghost use Rattle.oct_key.specs.CubeOf.{cube_of};
ghost use Rattle.oct_values.specs.Depths.{IsLargestIn};
ghost use Rattle.oct_arena.specs.Nodes.{stored_in};
ghost use Rattle.oct_tree.specs.Tree.{IsLinked, reach, value_at};
ghost use Rattle.oct_tree.specs.Shape.{IsFresh};
ghost use Rattle.oct_query.specs.Paths.{ArePathsOf};

use crate::depths::lowest_voxel;
use crate::path::Path;
use oct_key::{Block, Key, child_index};
use oct_tree::OccTree;

/// The depth of the blocks of which two beside one another have different paths.
const PARTED: u8 = 8;

/// The paths to the voxels that a tree was asked for last. They serve for that tree alone, as long
/// as it doesn't change.
///
/// There are eight, by whether a voxel lies in a block of depth 8 of an even or an odd number on
/// each axis, so that questions on both sides of a border of great blocks don't go up to the root.
#[derive(Drop)]
pub struct Paths {
    paths: [Path; 8],
}

impl Paths {
    /// Paths that end at the root.
    pub fn new(tree: &OccTree) -> Paths
        ensures { ArePathsOf tree.now result }
    {
        Paths {
            paths: [Path::new(tree); 8],
        }
    }

    /// What the tree holds for the block, as [`query`](crate::query) answers it. Goes down from
    /// where the ways part to this block and to the last one that had the same of the eight paths.
    pub fn query(&mut self, tree: &OccTree, b: Block) -> Option<i32>
        requires paths { ArePathsOf tree.now self.old }
        ensures node { (k : Voxel) → HoldsVoxel (cube_of b) k
            → result ≡ stored_in (reach tree.now b.depth k) }
        ensures fresh { IsFresh tree.now → IsLargestIn (value_at tree.now) (cube_of b) result }
        ensures voxel { b.depth ≡ 16 → IsLargestIn (value_at tree.now) (cube_of b) result }
        ensures linked { IsLinked tree.now }
        ensures paths { ArePathsOf tree.now self.new }
    {
        let k = lowest_voxel(b);
        let place = place_of(k);
        self.paths[place].go(tree, k, b.depth).stored()
    }
}

/// Which of the paths a voxel has.
fn place_of(k: Key) -> usize
    ensures { result < 8 }
{
    child_index(k, PARTED - 1) as usize
}
