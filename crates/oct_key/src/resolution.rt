//! The edge of a voxel, and the voxel that holds a point.
ghost use Rattle.std.specs.Prelude.{◌≡◌, ℕ, pos, ◌≤ℤ◌, ◌↔◌, Some, IsOk, IfOk, IfSome, IfNone};
ghost use Rattle.oct_key.specs.Voxel.{Voxel, IsInMap, Holds, IsResolution, axis_key, key_at};

use crate::point::{Key, Point};
use std::marker::Model;
use thiserror::Error;

/// The smallest and the largest edge of a voxel, in nanometres.
const SMALLEST: i64 = 100_000;

const LARGEST: i64 = 100_000_000_000;

/// The key of the voxels just above the origin.
const MIDDLE: i64 = 32_768;

/// A resolution: the edge of a voxel, from 0.1 mm to 100 m. Contracts see it as its number of
/// nanometres.
#[derive(Clone, Copy, Debug, PartialEq, Eq)]
pub struct Res {
    nm: u64,
}

impl Model for Res {
    ghost Value = { ℕ };

    ghost view = { λ res. res.nm };

    ghost invariant = { λ res. IsResolution res.nm };

    ghost inverse = { λ edge. record { nm = edge } };
}

/// A resolution below 0.1 mm or above 100 m.
#[derive(Clone, Copy, Debug, PartialEq, Eq, Error)]
#[error("a resolution must be from 0.0001 to 100 metres")]
pub struct BadResolution;

impl Res {
    /// A resolution of that many nanometres. Refuses exactly the numbers outside 100,000 to
    /// 100,000,000,000.
    pub fn new(nm: i64) -> Result<Res, BadResolution>
        ensures accepted { IsOk result ↔ ((pos 100000 ≤ℤ nm) × (nm ≤ℤ pos 100000000000)) }
        ensures ok { IfOk result (λ res. pos res ≡ nm) }
    {
        if !(SMALLEST..=LARGEST).contains(&nm) {
            return Err(BadResolution);
        }
        Ok(Res { nm: nm as u64 })
    }

    /// The edge of a voxel, in nanometres.
    pub fn nm(&self) -> i64
        ensures value { result ≡ pos self.now }
        ensures range { IsResolution self.now }
    {
        self.nm as i64
    }

    /// The voxel that holds a point, or `None` where no voxel of the map does: some coordinate is
    /// too small or too large.
    pub fn key_of(&self, p: Point) -> Option<Key>
        ensures exact { result ≡ key_at self.now p }
        ensures holds { IfSome result (λ k. Holds self.now k p) }
        ensures only { (k : Voxel) → IsInMap k → Holds self.now k p → result ≡ Some k }
        ensures outside { IfNone result ((k : Voxel) → IsInMap k → Holds self.now k p → ⊥) }
    {
        key_at(self.nm, p)
    }
}

/// The voxel that holds a point, at an edge in nanometres.
fn key_at(edge: u64, p: Point) -> Option<Key>
    requires { IsResolution edge }
    ensures { result ≡ key_at edge p }
{
    let x = key_on_axis(edge, p.x)?;
    let y = key_on_axis(edge, p.y)?;
    let z = key_on_axis(edge, p.z)?;
    Some(Key { x, y, z })
}

/// The key of a coordinate on one axis, both in nanometres.
fn key_on_axis(edge: u64, c: i64) -> Option<u16>
    requires { IsResolution edge }
    ensures { result ≡ axis_key edge c }
{
    let key = c.div_euclid(edge as i64) + MIDDLE;
    u16::try_from(key).ok()
}
