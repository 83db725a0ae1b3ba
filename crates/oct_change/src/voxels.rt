//! Notes of the voxels that an edit or a scan may change, taken before it.
ghost use Rattle.std.specs.Prelude.{◌≡◌, ◌+◌, ◌-◌, ◌*◌, ◌^◌, ◌<◌, ◌≤◌, ◌⊎◌, length, map, All};
ghost use Rattle.std.specs.Prelude.{Contains};
ghost use Rattle.oct_brick.specs.Bricks.{IsBrick};
ghost use Rattle.oct_brick.specs.Masks.{codes_of};
ghost use Rattle.oct_brick.specs.Voxels.{coded_voxel, hit_voxels, freed_voxels};
ghost use Rattle.oct_key.specs.Boxes.{IsBox, IsInBox, box_volume};
ghost use Rattle.oct_values.specs.Classes.{classes_of};
ghost use Rattle.oct_tree.specs.Tree.{value_at};
ghost use Rattle.oct_change.specs.Notes.{HasNoted};
ghost use Rattle.oct_change.specs.Rows.{IsInRow, IsInPlane};

use crate::changes::Changes;
use oct_brick::Brick;
use oct_key::{Key, from_morton};
use oct_tree::OccTree;

impl Changes {
    ghost use Rattle.oct_change.specs.Held.{room_of};

    /// Notes the class that the voxel has in the tree.
    pub fn note_class(&mut self, tree: &OccTree, key: Key)
        requires { 1 ≤ self.old.spare }
        ensures noted { HasNoted (classes_of tree.now.odds (value_at tree.now)) (λ k. k ≡ key)
            self.old.notes self.new.notes }
        ensures spare { self.old.spare ≡ self.new.spare + 1 }
        ensures room { room_of self.new ≡ room_of self.old }
    {
        self.note(key, tree.odds().class(tree.at(key)));
    }

    /// Notes the classes that the voxels of the bricks have in the tree, those that are hit and
    /// those that are freed.
    pub fn note_bricks(&mut self, tree: &OccTree, bricks: &[Brick])
        requires bricks { All IsBrick bricks.now }
        requires room { length (hit_voxels bricks.now) + length (freed_voxels bricks.now)
            ≤ self.old.spare }
        ensures noted { HasNoted (classes_of tree.now.odds (value_at tree.now))
            (λ k. Contains (hit_voxels bricks.now) k ⊎ Contains (freed_voxels bricks.now) k)
            self.old.notes self.new.notes }
        ensures spare { self.old.spare ≡ self.new.spare
            + (length (hit_voxels bricks.now) + length (freed_voxels bricks.now)) }
        ensures room { room_of self.new ≡ room_of self.old }
    {
        for &brick in bricks {
            self.note_mask(tree, brick.code, brick.hits);
            self.note_mask(tree, brick.code, brick.frees());
        }
    }

    /// Notes those voxels of a brick whose bits are set in a mask.
    fn note_mask(&mut self, tree: &OccTree, code: u64, mask: u64)
        requires code { code < 2 ^ 42 }
        requires room { length (map coded_voxel (codes_of code mask)) ≤ self.old.spare }
        ensures noted { HasNoted (classes_of tree.now.odds (value_at tree.now))
            (Contains (map coded_voxel (codes_of code mask))) self.old.notes self.new.notes }
        ensures spare { self.old.spare ≡ self.new.spare
            + length (map coded_voxel (codes_of code mask)) }
        ensures room { room_of self.new ≡ room_of self.old }
    {
        let mut left = mask;
        while left != 0 {
            let place = left.trailing_zeros();
            self.note_class(tree, from_morton((code << 6) + u64::from(place)));
            left &= left - 1;
        }
    }

    /// Notes the classes that the voxels of the box of two corners have in the tree, both corners
    /// included.
    pub fn note_box(&mut self, tree: &OccTree, lo: Key, hi: Key)
        requires order { IsBox lo hi }
        requires room { box_volume lo hi ≤ self.old.spare }
        ensures noted { HasNoted (classes_of tree.now.odds (value_at tree.now)) (IsInBox lo hi)
            self.old.notes self.new.notes }
        ensures spare { self.old.spare ≡ self.new.spare + box_volume lo hi }
        ensures room { room_of self.new ≡ room_of self.old }
    {
        for x in u32::from(lo.x)..u32::from(hi.x) + 1 {
            self.note_plane(tree, x as u16, lo, hi);
        }
    }

    /// Notes those voxels of a box that have this number on the x axis.
    fn note_plane(&mut self, tree: &OccTree, x: u16, lo: Key, hi: Key)
        requires order { IsBox lo hi }
        requires room { (hi.y + 1 - lo.y) * (hi.z + 1 - lo.z) ≤ self.old.spare }
        ensures noted { HasNoted (classes_of tree.now.odds (value_at tree.now)) (IsInPlane x lo hi)
            self.old.notes self.new.notes }
        ensures spare { self.old.spare
            ≡ self.new.spare + (hi.y + 1 - lo.y) * (hi.z + 1 - lo.z) }
        ensures room { room_of self.new ≡ room_of self.old }
    {
        for y in u32::from(lo.y)..u32::from(hi.y) + 1 {
            self.note_row(tree, x, y as u16, lo.z, hi.z);
        }
    }

    /// Notes the voxels of a row of the z axis from a number to another, both included.
    fn note_row(&mut self, tree: &OccTree, x: u16, y: u16, low: u16, high: u16)
        requires order { low ≤ high }
        requires room { high + 1 - low ≤ self.old.spare }
        ensures noted { HasNoted (classes_of tree.now.odds (value_at tree.now))
            (IsInRow x y low high) self.old.notes self.new.notes }
        ensures spare { self.old.spare ≡ self.new.spare + (high + 1 - low) }
        ensures room { room_of self.new ≡ room_of self.old }
    {
        for z in u32::from(low)..u32::from(high) + 1 {
            self.note_class(tree, Key { x, y, z: z as u16 });
        }
    }
}
