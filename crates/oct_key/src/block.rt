//! The cubes into which halving divides the map, and the way from one to its children.
ghost use Rattle.std.specs.Prelude.{◌≡◌, ◌+◌, ◌^◌, ◌<◌, ◌≤◌, ◌↔◌};
ghost use Rattle.oct_key.specs.Voxel.{Voxel, IsInMap};
ghost use Rattle.oct_key.specs.Block.{block_of, child_of, child_index_of};

use crate::point::Key;

/// A cube of 2^(16 - depth) voxels on each axis, by its place among the blocks of its depth. The
/// block of depth 0 is the whole map, and a block of depth 16 is a voxel.
#[derive(Clone, Copy, Debug, PartialEq, Eq)]
pub struct Block {
    pub depth: u8,
    pub x: u16,
    pub y: u16,
    pub z: u16,
    pub ghost levels: { depth ≤ 16 },
    pub ghost on_x: { x < 2 ^ depth },
    pub ghost on_y: { y < 2 ^ depth },
    pub ghost on_z: { z < 2 ^ depth },
}

impl Block {
    ghost use Rattle.oct_key.specs.Block.{Cube, HoldsVoxel, parent_of, index_in_parent, root_block};
    ghost use Rattle.oct_key.specs.CubeOf.{cube_of};

    /// The block of the whole map.
    pub fn whole_map() -> Block
        ensures { cube_of result ≡ root_block }
    {
        Block {
            depth: 0,
            x: 0,
            y: 0,
            z: 0,
        }
    }

    /// The block of that depth that holds the voxel.
    #[tactic(auto, unfolding(crate::specs::Block::block_of))]
    pub fn of(k: Key, depth: u8) -> Block
        requires { depth ≤ 16 }
        ensures exact { cube_of result ≡ block_of depth k }
        ensures holds { HoldsVoxel (cube_of result) k }
        ensures only { (b : Cube) → b.depth ≡ depth → HoldsVoxel b k → b ≡ cube_of result }
    {
        let height = 16 - depth;
        Block {
            depth,
            x: (u32::from(k.x) >> height) as u16,
            y: (u32::from(k.y) >> height) as u16,
            z: (u32::from(k.z) >> height) as u16,
        }
    }

    /// Child i of the block. Bit 0 of i says which half of the block it lies in on the x axis, bit
    /// 1 on the y axis, and bit 2 on the z axis.
    #[tactic(auto, unfolding(crate::specs::Block::child_of))]
    pub fn child(&self, i: u8) -> Block
        requires depth { self.now.depth ≤ 15 }
        requires index { i ≤ 7 }
        ensures exact { cube_of result ≡ child_of (cube_of self.now) i }
        ensures holds { (k : Voxel) → IsInMap k
            → HoldsVoxel (cube_of result) k
            ↔ (HoldsVoxel (cube_of self.now) k × (child_index_of self.now.depth k ≡ i)) }
    {
        Block {
            depth: self.depth + 1,
            x: 2 * self.x + u16::from(i & 1),
            y: 2 * self.y + u16::from((i >> 1) & 1),
            z: 2 * self.z + u16::from((i >> 2) & 1),
        }
    }

    /// The block that has this one as a child.
    #[tactic(auto, unfolding(crate::specs::Block::parent_of))]
    pub fn parent(&self) -> Block
        requires { 1 ≤ self.now.depth }
        ensures exact { cube_of result ≡ parent_of (cube_of self.now) }
        ensures child { child_of (cube_of result) (index_in_parent (cube_of self.now))
            ≡ cube_of self.now }
    {
        Block {
            depth: self.depth - 1,
            x: self.x >> 1,
            y: self.y >> 1,
            z: self.z >> 1,
        }
    }
}

/// Which child of the block of that depth holds the voxel.
#[tactic(auto, unfolding(crate::specs::Block::child_index_of))]
pub fn child_index(k: Key, depth: u8) -> u8
    requires { depth ≤ 15 }
    ensures exact { result ≡ child_index_of depth k }
    ensures few { result ≤ 7 }
    ensures step { block_of (depth + 1) k ≡ child_of (block_of depth k) result }
{
    let bit = 15 - depth;
    let x = (k.x >> bit) & 1;
    let y = (k.y >> bit) & 1;
    let z = (k.z >> bit) & 1;
    (x + 2 * y + 4 * z) as u8
}
