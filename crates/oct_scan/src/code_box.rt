//! A box of voxels whose codes are tested as they stand.
ghost use Rattle.std.specs.Prelude.{◌≡◌};
ghost use Rattle.oct_key.specs.Boxes.{is_between, is_in_box};
ghost use Rattle.oct_key.specs.Dilated.{dilated};
ghost use Rattle.oct_key.specs.Morton.{gathered};
ghost use Rattle.oct_brick.specs.Voxels.{coded_voxel};

use oct_key::{Window, morton};

/// Every third bit of 48, from bit 0 on: where a code has the bits of one axis.
const THIRD_BITS: u64 = 0x2492_4924_9249;

/// The corners of a box of voxels, as Morton codes.
#[derive(Clone, Copy, Debug)]
pub struct CodeBox {
    pub lo: u64,
    pub hi: u64,
}

impl CodeBox {
    /// The corners of a box.
    pub fn of(window: &Window) -> CodeBox
        ensures lo { coded_voxel result.lo ≡ window.now.lo }
        ensures hi { coded_voxel result.hi ≡ window.now.hi }
    {
        CodeBox {
            lo: morton(window.lo()),
            hi: morton(window.hi()),
        }
    }

    /// Whether the voxel of a code lies in the box. No bit is moved to its place on an axis, since
    /// numbers compare as they do with their bits at every third place.
    #[inline(always)]
    pub fn holds(self, code: u64) -> bool
        ensures { result ≡ is_in_box (coded_voxel self.lo) (coded_voxel self.hi)
            (coded_voxel code) }
    {
        let on_x = is_between(self.lo, self.hi, code);
        let on_y = is_between(self.lo >> 1, self.hi >> 1, code >> 1);
        let on_z = is_between(self.lo >> 2, self.hi >> 2, code >> 2);
        on_x && on_y && on_z
    }
}

/// Whether the number that every third bit of a code makes lies between those of two others.
#[inline(always)]
fn is_between(low: u64, high: u64, code: u64) -> bool
    ensures { result ≡ is_between (gathered 16 low) (gathered 16 high) (gathered 16 code) }
{
    let bits = third_bits(code);
    third_bits(low) <= bits && bits <= third_bits(high)
}

/// Every third bit of a code, where it stands.
#[inline(always)]
fn third_bits(code: u64) -> u64
    ensures { result ≡ dilated (gathered 16 code) }
{
    code & THIRD_BITS
}
