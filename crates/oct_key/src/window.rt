//! A box of voxels, by its two corners.
ghost use Rattle.std.specs.Prelude.{◌≡◌, ◌≤◌, ◌&&◌, ◌↔◌, Some, IsTrue, IsSome, IfSome};
ghost use Rattle.oct_key.specs.Boxes.{IsBox, IsInBox, Window, is_in_box, box_volume};
ghost use Rattle.oct_key.specs.Boxes.{MeetsBox, LiesInBox, MeetsSpan, LiesInSpan};
ghost use Rattle.oct_key.specs.CubeOf.{cube_of};

use crate::block::Block;
use crate::point::Key;
use std::marker::Model;

/// A box of voxels: those that lie between two corners on each axis, both included. On no axis the
/// first corner is beyond the second.
#[derive(Clone, Copy, Debug, PartialEq, Eq)]
pub struct Window {
    lo: Key,
    hi: Key,
}

impl Model for Window {
    ghost use Rattle.oct_key.specs.Boxes.{Window as Corners, IsBox};

    ghost Value = { Corners };

    ghost view = { λ window. record { lo = window.lo; hi = window.hi } };

    ghost invariant = { λ window. IsBox window.lo window.hi };

    ghost inverse = { λ corners. record { lo = corners.lo; hi = corners.hi } };
}

impl Window {
    /// The box of two corners, or `None` where on some axis the first is beyond the second.
    pub fn new(lo: Key, hi: Key) -> Option<Window>
        ensures accepted { IsSome result ↔ IsBox lo hi }
        ensures corners { IfSome result (λ window. window ≡ (record { lo = lo; hi = hi })) }
    {
        if lo.x <= hi.x && lo.y <= hi.y && lo.z <= hi.z {
            Some(Window { lo, hi })
        } else {
            None
        }
    }

    /// The box of two corners of which it is known that on no axis the first is beyond the second.
    pub fn of(lo: Key, hi: Key) -> Window
        requires { IsBox lo hi }
        ensures { result ≡ (record { lo = lo; hi = hi }) }
    {
        Window { lo, hi }
    }

    /// The corner with the lowest number on each axis.
    pub fn lo(&self) -> Key
        ensures { result ≡ self.now.lo }
    {
        self.lo
    }

    /// The corner with the highest number on each axis.
    pub fn hi(&self) -> Key
        ensures { result ≡ self.now.hi }
    {
        self.hi
    }

    /// Whether a voxel lies in the box.
    pub fn holds(&self, k: Key) -> bool
        ensures exact { result ≡ is_in_box self.now.lo self.now.hi k }
        ensures means { IsTrue result ↔ IsInBox self.now.lo self.now.hi k }
    {
        let on_x = (self.lo.x..=self.hi.x).contains(&k.x);
        let on_y = (self.lo.y..=self.hi.y).contains(&k.y);
        let on_z = (self.lo.z..=self.hi.z).contains(&k.z);
        on_x && on_y && on_z
    }

    /// Whether some voxel of the block lies in the box.
    #[inline(always)]
    pub fn meets(&self, block: Block) -> bool
        ensures { IsTrue result ↔ MeetsBox self.now.lo self.now.hi (cube_of block) }
    {
        let x = meets_across(self.lo.x, self.hi.x, block.depth, block.x);
        let y = meets_across(self.lo.y, self.hi.y, block.depth, block.y);
        let z = meets_across(self.lo.z, self.hi.z, block.depth, block.z);
        on_each(x, y, z)
    }

    /// Whether each voxel of the block lies in the box.
    #[inline(always)]
    pub fn covers(&self, block: Block) -> bool
        ensures { IsTrue result ↔ LiesInBox self.now.lo self.now.hi (cube_of block) }
    {
        let x = covers_across(self.lo.x, self.hi.x, block.depth, block.x);
        let y = covers_across(self.lo.y, self.hi.y, block.depth, block.y);
        let z = covers_across(self.lo.z, self.hi.z, block.depth, block.z);
        on_each(x, y, z)
    }

    /// How many voxels there are in the box.
    pub fn volume(&self) -> u64
        ensures { result ≡ box_volume self.now.lo self.now.hi }
    {
        let along = |lo: u16, hi: u16| u64::from(hi) + 1 - u64::from(lo);
        let layer = along(self.lo.y, self.hi.y) * along(self.lo.z, self.hi.z);
        along(self.lo.x, self.hi.x) * layer
    }
}

/// Whether something holds on each axis.
#[inline(always)]
fn on_each(x: bool, y: bool, z: bool) -> bool
    ensures { result ≡ (x && y && z) }
{
    x && y && z
}

/// Whether a block of this depth and number on an axis has voxels of these numbers there.
#[inline(always)]
fn meets_across(lo: u16, hi: u16, depth: u8, n: u16) -> bool
    requires { depth ≤ 16 }
    ensures { IsTrue result ↔ MeetsSpan lo hi depth n }
{
    let height = 16 - depth;
    let first = u32::from(lo) >> height;
    let last = u32::from(hi) >> height;
    first <= u32::from(n) && u32::from(n) <= last
}

/// Whether a block of this depth and number on an axis has voxels of these numbers alone there.
#[inline(always)]
fn covers_across(lo: u16, hi: u16, depth: u8, n: u16) -> bool
    requires { depth ≤ 16 }
    ensures { IsTrue result ↔ LiesInSpan lo hi depth n }
{
    let height = 16 - depth;
    let first = (u32::from(lo) + ((1u32 << height) - 1)) >> height;
    let end = (u32::from(hi) + 1) >> height;
    first <= u32::from(n) && u32::from(n) < end
}
