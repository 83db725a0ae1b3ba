//! Where the blocks of a moved map begin among those of the map that it comes from.

ghost use Rattle.std.specs.Prelude.{◌≡◌, ◌+◌, ◌≤◌, ◌<◌, ℕ, pos, ◌-ℤ◌};
ghost use Rattle.oct_key.specs.Voxel.{Voxel, IsInMap, in_range};
ghost use Rattle.oct_shift.specs.Shifted.{source};
ghost use Rattle.oct_shift.specs.Moving.{IsAxisStep, IsStep, before, lifted, place_of};
ghost use Rattle.oct_shift.specs.Moving.{from_node, from_child};

use crate::shift::Shift;

/// What is to be added to a voxel's numbers in the moved map for those of the voxel that it comes
/// from, on axes that begin 65,536 voxels before the map.
#[derive(Clone, Copy)]
pub(crate) struct Offset {
    pub(crate) x: u32,
    pub(crate) y: u32,
    pub(crate) z: u32,
}

impl Offset {
    /// The offset of a shift.
    pub(crate) fn of(shift: Shift) -> Offset
        ensures { (k : Voxel) → IsInMap k → source shift k ≡ before result k }
    {
        Offset {
            x: offset_on(shift.x),
            y: offset_on(shift.y),
            z: offset_on(shift.z),
        }
    }
}

/// The offset on an axis. A shift by more than the whole map is as good as one by the whole map.
fn offset_on(by: i32) -> u32
    ensures { (n : ℕ) → n < 65536 → in_range (pos n -ℤ by) ≡ lifted (n + result) }
{
    (65_536 - by.clamp(-65_536, 65_536)) as u32
}

/// What an offset says, on an axis, of the way from a block to its children.
#[derive(Clone, Copy)]
pub(crate) struct AxisStep {
    /// The bit of the offset that stands for a child.
    pub(crate) bit: u8,
    /// Whether a child comes from two blocks: the offset doesn't go by whole children.
    pub(crate) is_cut: bool,
}

impl AxisStep {
    /// What the offset says of the step to this depth.
    fn new(offset: u32, depth: u8) -> AxisStep
        requires { depth ≤ 16 }
        ensures exact { IsAxisStep depth offset result }
    {
        let height = 16 - depth;
        AxisStep {
            bit: ((offset >> height) & 1) as u8,
            is_cut: offset % (1u32 << height) != 0,
        }
    }

    /// In halves of the first of the two blocks that a block comes from, where child `half` of it
    /// comes from: the first of its own two blocks, or the second one.
    fn place(self, half: u8, second: u8) -> u8
        requires bit { self.bit ≤ 1 }
        requires half { half ≤ 1 }
        requires second { second ≤ 1 }
        ensures exact { result ≡ place_of self half second }
        ensures few { result ≤ 3 }
    {
        if self.is_cut {
            half + self.bit + second
        } else {
            half + self.bit
        }
    }
}

/// What an offset says of the way from a block to its children.
#[derive(Clone, Copy)]
pub(crate) struct Step {
    pub(crate) x: AxisStep,
    pub(crate) y: AxisStep,
    pub(crate) z: AxisStep,
}

impl Step {
    /// The step to this depth.
    pub(crate) fn new(offset: Offset, depth: u8) -> Step
        requires { depth ≤ 16 }
        ensures { IsStep depth offset result }
    {
        Step {
            x: AxisStep::new(offset.x, depth),
            y: AxisStep::new(offset.y, depth),
            z: AxisStep::new(offset.z, depth),
        }
    }

    /// Where node j of the row of child i comes from: from which node of the block's row, and from
    /// which child of that.
    pub(crate) fn source(&self, i: u8, j: u8) -> (u8, u8)
        requires x { self.now.x.bit ≤ 1 }
        requires y { self.now.y.bit ≤ 1 }
        requires z { self.now.z.bit ≤ 1 }
        requires child { i < 8 }
        requires node { j < 8 }
        ensures node { result.0 ≡ from_node self.now i j }
        ensures child { result.1 ≡ from_child self.now i j }
        ensures few { (result.0 < 8) × (result.1 < 8) }
    {
        let x = self.x.place(i & 1, j & 1);
        let y = self.y.place((i >> 1) & 1, (j >> 1) & 1);
        let z = self.z.place((i >> 2) & 1, (j >> 2) & 1);
        let node = x / 2 + 2 * (y / 2) + 4 * (z / 2);
        let child = x % 2 + 2 * (y % 2) + 4 * (z % 2);
        (node, child)
    }
}
