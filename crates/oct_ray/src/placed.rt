//! A voxel's number on an axis, counted where a code has its bits.
ghost use Rattle.std.specs.Prelude.{◌≡◌, ◌+◌, ◌*◌, ◌^◌, ◌<◌, ◌≤◌, true, false};
ghost use Rattle.std.specs.Prelude.{◌-◌, if◌then◌else◌};
ghost use Rattle.oct_key.specs.Voxel.{IsInMap};
ghost use Rattle.oct_ray.specs.Placed.{IsUnit, after_steps, part_of_code};

use oct_key::{Dilated, morton_of_axes};
use std::marker::Model;

/// The places of the bits of x in a code.
const THIRD_BITS: u64 = 0x2492_4924_9249;

/// One, with ones in all places between, so that a carry goes through them.
const ONE_FILLED: u64 = 0xdb6d_b6db_6db7;

/// A number of 16 bits in the places that a code has for those of x, y or z. Contracts see it as
/// the number with the place of its lowest bit, 1, 2 or 4. It is counted as it stands, up or down,
/// with no bit moved.
#[derive(Debug, Drop)]
pub struct PlacedNumber {
    bits: u64,
    /// The places of its bits.
    mask: u64,
    /// What is added to count one on; modulo 2^64, to take one away.
    by: u64,
    /// The place of its lowest bit.
    unit: u64,
    /// Whether it is counted up.
    rises: bool,
}

impl Model for PlacedNumber {
    ghost use Rattle.oct_ray.specs.Placed.{IsPlaced, Placed, placed_of};

    ghost Value = { Placed };

    ghost view = { placed_of };

    ghost invariant = { IsPlaced };
}

impl PlacedNumber {
    /// The number with its lowest bit there.
    #[inline(always)]
    pub fn new(number: &Dilated, unit: u64, rises: bool) -> PlacedNumber
        requires { IsUnit unit }
        ensures { result ≡ record { number = number.now; unit = unit; rises = rises } }
    {
        let none = Dilated::new(0);
        PlacedNumber {
            bits: unit * morton_of_axes(number, &none, &none),
            mask: unit * THIRD_BITS,
            by: step_of(unit, rises),
            unit,
            rises,
        }
    }

    /// Counts one on where `now` is 1, and stays where it is 0. No branch is taken.
    #[inline(always)]
    pub fn step(&mut self, now: u64)
        requires now { now ≤ 1 }
        requires up { self.old.rises ≡ true → self.old.number + now < 65536 }
        requires down { self.old.rises ≡ false → now ≤ self.old.number }
        ensures { self.new ≡ after_steps now self.old }
    {
        self.bits = self.bits.wrapping_add(now * self.by) & self.mask;
    }
}

/// What is added to count one on, or modulo 2^64 to take one away.
#[inline(always)]
fn step_of(unit: u64, rises: bool) -> u64
    requires { IsUnit unit }
    ensures { result ≡ (if rises then unit * 241264265751991 else 2 ^ 64 - unit) }
{
    if rises {
        unit * ONE_FILLED
    } else {
        u64::MAX - (unit - 1)
    }
}

/// What three numbers make together.
#[inline(always)]
pub fn sum_of_parts(x: &PlacedNumber, y: &PlacedNumber, z: &PlacedNumber) -> u64
    ensures exact { result ≡ part_of_code x.now + part_of_code y.now + part_of_code z.now }
    ensures in_map { IsInMap (record { x = x.now.number; y = y.now.number; z = z.now.number }) }
{
    x.bits + y.bits + z.bits
}
