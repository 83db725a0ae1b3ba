//! The lists of all voxels and of all blocks of a depth are whole and in order.
ghost use Rattle.std.specs.Prelude.{◌≡◌, ℕ, ◌≤◌, ◌↔◌};
ghost use Rattle.std.specs.List.{Contains};
ghost use Rattle.std.specs.List.Sorted.{IsStrictlySortedBy};
ghost use Rattle.oct_key.specs.Voxel.{Voxel, IsInMap};
ghost use Rattle.oct_key.specs.Block.{Cube, IsBlock};
ghost use Rattle.oct_key.specs.Order.{key_cmp, block_cmp, voxels_in_order, blocks_in_order};

/// The list of the map's voxels has each voxel once and no other, by ascending x, y and z, and
/// likewise the list of the blocks of a depth has each block of that depth once and no other. A
/// law, with nothing to compute.
pub fn orders_are_whole()
    ensures voxels { (k : Voxel) → IsInMap k ↔ Contains voxels_in_order k }
    ensures voxels_rise { IsStrictlySortedBy key_cmp voxels_in_order }
    ensures blocks { (depth : ℕ) (b : Cube) → depth ≤ 16
        → (IsBlock b × (b.depth ≡ depth)) ↔ Contains (blocks_in_order depth) b }
    ensures blocks_rise { (depth : ℕ) → IsStrictlySortedBy block_cmp (blocks_in_order depth) }
{}
