//! A Morton code, read three bits at a time from the root down.
ghost use Rattle.std.specs.Prelude.{◌≡◌, ℕ, ◌+◌, ◌*◌, ◌-◌, ◌/◌, ◌%◌, ◌^◌, ◌≤◌};
ghost use Rattle.oct_tree.specs.Descents.{digits_from};

use std::marker::Model;

/// The way from the root to the voxel of a Morton code: which child to take, depth by depth.
#[derive(Clone, Copy)]
pub struct Descent {
    /// The digits that are still to come, from the highest bits on.
    digits: u64,
}

impl Model for Descent {
    ghost use Rattle.std.specs.Prelude.{ℕ};

    ghost Value = { ℕ };

    ghost view = { λ way. way.digits };

    ghost inverse = { λ n. record { digits = n } };
}

impl Descent {
    /// The way to the voxel of a code, from a depth on.
    #[inline(always)]
    pub fn new(code: u64, depth: u8) -> Descent
        requires { depth ≤ 15 }
        ensures { result ≡ digits_from depth code }
    {
        Descent {
            digits: code << (16 + 3 * depth),
        }
    }

    /// Which child holds the voxel; after it the way goes on below that child.
    #[inline(always)]
    pub fn step(&mut self) -> u8
        ensures child { (depth code : ℕ) → depth ≤ 15 → self.old ≡ digits_from depth code
            → result ≡ code / 2 ^ (3 * (15 - depth)) % 8 }
        ensures few { result ≤ 7 }
        ensures onward { (depth code : ℕ) → self.old ≡ digits_from depth code
            → self.new ≡ digits_from (depth + 1) code }
    {
        let child = (self.digits >> 61) as u8;
        self.digits <<= 3;
        child
    }
}
