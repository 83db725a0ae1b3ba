//! The codes of a record at once, by masks.
ghost use Rattle.std.specs.Prelude.{◌≡◌, ◌≤◌};
ghost use Rattle.oct_bt.specs.Masks.{nonzero, threes};

/// A 1 in the place of each of eight codes.
const ONES: u16 = 0x5555;

/// A 1 in the place of each of eight codes that is 3.
#[inline(always)]
pub fn threes(codes: u16) -> u16
    ensures exact { result ≡ threes 8 codes }
    ensures few { result ≤ 21845 }
{
    codes & (codes / 2) & ONES
}

/// A 1 in the place of each of eight codes that isn't 0.
#[inline(always)]
pub(crate) fn nonzero(codes: u16) -> u16
    ensures { result ≡ nonzero 8 codes }
{
    (codes | (codes / 2)) & ONES
}
