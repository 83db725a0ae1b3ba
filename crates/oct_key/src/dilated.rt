//! A voxel's number on an axis, counted where its bits stand in a Morton code.
ghost use Rattle.std.specs.Prelude.{◌≡◌, ◌+◌, ◌-◌, ◌^◌, ◌<◌, ◌≤◌};
ghost use Rattle.std.specs.Prelude.{true, false, if◌then◌else◌};
ghost use Rattle.oct_key.specs.Voxel.{IsInMap};
ghost use Rattle.oct_key.specs.Morton.{gathered, morton_of};
ghost use Rattle.oct_key.specs.Dilated.{dilated, IsDilated};

use crate::morton_code::{THIRD_BITS, spread_bits};
use std::marker::Model;

/// One, with ones in all places between, so that a carry goes through them.
const ONE_FILLED: u64 = 0xdb6d_b6db_6db7;

/// A number of 16 bits with each bit at three times its place, as the code of a voxel has those of
/// one axis. Contracts see it as the number. It is counted up and down as it stands.
#[derive(Debug, Drop)]
pub struct Dilated {
    bits: u64,
}

impl Model for Dilated {
    ghost use Rattle.std.specs.Prelude.{ℕ};
    ghost use Rattle.oct_key.specs.Morton.{gathered};
    ghost use Rattle.oct_key.specs.Dilated.{IsDilated};

    ghost Value = { ℕ };

    ghost view = { λ d. gathered 16 d.bits };

    ghost invariant = { λ d. IsDilated d.bits };
}

impl Dilated {
    /// The number with its bits at these places.
    pub fn new(n: u16) -> Dilated
        ensures { result ≡ n }
    {
        Dilated {
            bits: spread_bits(n),
        }
    }

    /// Adds one.
    pub fn increment(&mut self)
        requires { self.old + 1 < 65536 }
        ensures { self.new ≡ self.old + 1 }
    {
        self.bits = bits_after(self.bits);
    }

    /// Takes one away.
    pub fn decrement(&mut self)
        requires { 0 < self.old }
        ensures { self.new ≡ self.old - 1 }
    {
        self.bits = bits_before(self.bits);
    }

    /// Counts one on, up or down, where `now` is 1, and stays where it is 0. No branch is taken.
    #[inline(always)]
    pub fn step(&mut self, rises: bool, now: u64)
        requires now { now ≤ 1 }
        requires up { rises ≡ true → self.old + now < 65536 }
        requires down { rises ≡ false → now ≤ self.old }
        ensures { self.new ≡ (if rises then self.old + now else self.old - now) }
    {
        self.bits = bits_stepped(self.bits, rises, now);
    }
}

/// The Morton code of the voxel of these three numbers, as [`morton`](crate::morton) makes it.
pub fn morton_of_axes(x: &Dilated, y: &Dilated, z: &Dilated) -> u64
    ensures exact { result ≡ morton_of (record { x = x.now; y = y.now; z = z.now }) }
    ensures in_map { IsInMap (record { x = x.now; y = y.now; z = z.now }) }
    ensures below { result < 2 ^ 48 }
{
    x.bits + (y.bits << 1) + (z.bits << 2)
}

/// The bits of the next number; after the last one those of 0.
fn bits_after(bits: u64) -> u64
    requires { IsDilated bits }
    ensures { result ≡ dilated (gathered 16 bits + 1) }
{
    (bits + ONE_FILLED) & THIRD_BITS
}

/// The bits of the number before.
fn bits_before(bits: u64) -> u64
    requires bits { IsDilated bits }
    requires some { 0 < gathered 16 bits }
    ensures { result ≡ dilated (gathered 16 bits - 1) }
{
    (bits - 1) & THIRD_BITS
}

/// The bits of the next number or of the one before where `now` is 1, else the same ones. Modulo
/// 2^64, to take one away is to add all ones.
#[inline(always)]
fn bits_stepped(bits: u64, rises: bool, now: u64) -> u64
    requires bits { IsDilated bits }
    requires now { now ≤ 1 }
    requires down { rises ≡ false → now ≤ gathered 16 bits }
    ensures { result ≡ dilated (if rises then gathered 16 bits + now else gathered 16 bits - now) }
{
    let by = if rises { ONE_FILLED } else { u64::MAX };
    bits.wrapping_add(now * by) & THIRD_BITS
}
