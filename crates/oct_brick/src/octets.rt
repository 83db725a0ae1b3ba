//! How many blocks of eight voxels a mask reaches.
ghost use Rattle.std.specs.Prelude.{◌≡◌, ◌≤◌};
ghost use Rattle.oct_brick.specs.Masks.{octet_count};

/// The lowest bit of each octet.
const LOWEST_BITS: u64 = 0x0101_0101_0101_0101;

/// How many of the eight octets of a mask aren't 0: the blocks of depth 15 that hold one of its
/// voxels. Each octet is gathered in its lowest bit.
pub fn count_octets(mask: u64) -> u64
    ensures exact { result ≡ octet_count 8 mask }
    ensures few { result ≤ 8 }
{
    let fours = mask | (mask >> 4);
    let pairs = fours | (fours >> 2);
    let bits = pairs | (pairs >> 1);
    u64::from((bits & LOWEST_BITS).count_ones())
}
