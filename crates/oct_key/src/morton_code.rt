//! A voxel as one number, in whose order the voxels of each block stand together.
ghost use Rattle.std.specs.Prelude.{◌≡◌, ℕ, ◌-◌, ◌*◌, ◌/◌, ◌%◌, ◌^◌, ◌<◌, ◌≤◌, ◌↔◌};
ghost use Rattle.oct_key.specs.Voxel.{Voxel, IsInMap};
ghost use Rattle.oct_key.specs.Block.{block_of, child_index_of};
ghost use Rattle.oct_key.specs.Morton.{morton_of, code_prefix, interleaved, gathered};

use crate::point::Key;

/// Every third bit of 48, from bit 0 on: where a code has the bits of one axis.
pub(crate) const THIRD_BITS: u64 = 0x2492_4924_9249;

/// The first two bits of every six of 48.
const PAIRS: u64 = 0xc30_c30c_30c3;

/// The first four bits of every twelve of 48.
const NIBBLES: u64 = 0xf0_0f00_f00f;

/// The first eight bits of every 24 of 48.
const BYTES: u64 = 0xff00_00ff;

/// The Morton code of a voxel: bit 3j is bit j of its number on x, bit 3j + 1 that of the number on
/// y, and bit 3j + 2 that on z.
///
/// In the order of these codes, which is that of the Z-order curve, the voxels of each block stand
/// together.
pub fn morton(k: Key) -> u64
    ensures exact { result ≡ morton_of k }
    ensures below { result < 2 ^ 48 }
    ensures child { (depth : ℕ) → depth ≤ 15
        → result / 2 ^ (3 * (15 - depth)) % 8 ≡ child_index_of depth k }
    ensures block { (l : Voxel) → IsInMap l → (depth : ℕ) → depth ≤ 16
        → (code_prefix depth result ≡ code_prefix depth (morton_of l))
        ↔ (block_of depth k ≡ block_of depth l) }
{
    spread_bits(k.x) + (spread_bits(k.y) << 1) + (spread_bits(k.z) << 2)
}

/// Which child of the block of that depth holds the voxel of a code.
#[inline(always)]
pub fn child_of_code(code: u64, depth: u8) -> u8
    requires { depth ≤ 15 }
    ensures exact { result ≡ code / 2 ^ (3 * (15 - depth)) % 8 }
    ensures few { result ≤ 7 }
{
    ((code >> (3 * (15 - depth))) & 7) as u8
}

/// The voxel of a Morton code.
pub fn from_morton(m: u64) -> Key
    requires { m < 2 ^ 48 }
    ensures exact { morton_of result ≡ m }
    ensures only { (k : Voxel) → IsInMap k → morton_of k ≡ m → k ≡ result }
{
    Key {
        x: gather_bits(m),
        y: gather_bits(m >> 1),
        z: gather_bits(m >> 2),
    }
}

/// The number with each bit moved to three times its place.
pub(crate) fn spread_bits(n: u16) -> u64
    ensures exact { result ≡ interleaved 16 n 0 0 }
    ensures below { result < 2 ^ 46 }
{
    let n = u64::from(n);
    let bytes = (n | (n << 16)) & BYTES;
    let nibbles = (bytes | (bytes << 8)) & NIBBLES;
    let pairs = (nibbles | (nibbles << 4)) & PAIRS;
    (pairs | (pairs << 2)) & THIRD_BITS
}

/// The bits of every third place, side by side.
fn gather_bits(m: u64) -> u16
    requires { m < 2 ^ 48 }
    ensures { result ≡ gathered 16 m }
{
    let bits = m & THIRD_BITS;
    let pairs = (bits | (bits >> 2)) & PAIRS;
    let nibbles = (pairs | (pairs >> 4)) & NIBBLES;
    let bytes = (nibbles | (nibbles >> 8)) & BYTES;
    ((bytes | (bytes >> 16)) & 0xffff) as u16
}
