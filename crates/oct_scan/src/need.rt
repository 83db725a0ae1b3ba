//! How many groups the voxels of bricks may need.
ghost use Rattle.std.specs.Prelude.{◌≡◌, ◌^◌, ◌<◌, ◌≤◌, All, IfSome};
ghost use Rattle.oct_brick.specs.Bricks.{IsBrick, AreAscending};
ghost use Rattle.oct_scan.specs.Codes.{brick_count, bricks_added, new_bricks};

use oct_brick::{Brick, count_octets};

/// How many blocks of depth 0 to 15 hold a voxel of these bricks: each brick adds those of depth 0
/// to 14 that don't hold the brick before it, and its own octets.
pub fn count_blocks(bricks: &[Brick]) -> u64
    requires bricks { All IsBrick bricks.now }
    requires ascend { AreAscending bricks.now }
    ensures { result ≡ brick_count bricks.now }
{
    let mut count = 0;
    let mut last = None;
    for &brick in bricks {
        count += bricks_added(last, brick.code) + count_octets(brick.scanned);
        last = Some(brick.code);
    }
    count
}

/// How many blocks of depth 0 to 14 hold the brick of a code and not that of the last one, where
/// there is one.
fn bricks_added(last: Option<u64>, code: u64) -> u64
    requires apart { IfSome last (λ before. before < code) }
    requires code { code < 2 ^ 42 }
    ensures exact { result ≡ bricks_added last code }
    ensures few { result ≤ 15 }
{
    match last {
        None => 15,
        Some(before) => new_bricks(before, code),
    }
}

/// How many blocks of depth 0 to 14 hold the brick of a code and not that of the code before it:
/// these are the levels up to the highest bit in which the codes differ, three bits each.
fn new_bricks(before: u64, code: u64) -> u64
    requires apart { before < code }
    requires code { code < 2 ^ 42 }
    ensures exact { result ≡ new_bricks before code }
    ensures few { result ≤ 14 }
{
    u64::from((before ^ code).ilog2() / 3 + 1)
}
