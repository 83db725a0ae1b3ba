//! How far a map is moved.
ghost use Rattle.std.specs.Prelude.{◌≡◌, ◌+ℤ◌, pos, is_some};
ghost use Rattle.oct_key.specs.Voxel.{in_range};
ghost use Rattle.oct_shift.specs.Shifted.{target};

use oct_key::Key;

/// How many voxels a map is moved on each axis.
#[derive(Clone, Copy, Debug, PartialEq, Eq)]
pub struct Shift {
    pub x: i32,
    pub y: i32,
    pub z: i32,
}

/// Whether the voxel lies in the map after the move.
pub fn stays_within(shift: Shift, k: Key) -> bool
    ensures { result ≡ is_some (target shift k) }
{
    lands(k.x, shift.x) && lands(k.y, shift.y) && lands(k.z, shift.z)
}

/// Whether a number moved by this much is one of a voxel.
fn lands(n: u16, by: i32) -> bool
    ensures { result ≡ is_some (in_range (pos n +ℤ by)) }
{
    let moved = i64::from(n) + i64::from(by);
    (0..65_536).contains(&moved)
}
