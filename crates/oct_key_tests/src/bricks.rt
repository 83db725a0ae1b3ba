//! Bricks of few voxels, joined, masked and counted.
ghost use Rattle.std.specs.Prelude.{◌<◌, ◌≤◌, All, IfOk};
ghost use Rattle.oct_brick.specs.Bricks.{IsBrick};

use oct_brick::{Brick, count_octets, merge_bricks};
use oct_num::Memory;
use std::alloc::Global;
use std::process::Abort;
use std::test::Fail;

/// The brick of one voxel that a scan changes, by its Morton code, and whether the scan hits it.
fn brick_of(code: u64, is_hit: bool) -> Brick
    ensures { IsBrick result }
{
    let code = code & 0xffff_ffff_ffff;
    let around = Brick::around(code);
    if is_hit {
        around.with_hit(code)
    } else {
        around.with_scanned(code)
    }
}

/// A brick for each voxel.
fn bricks_of(alloc: Global, changes: &[(u64, bool)]) -> Result<Vec<Brick>, Memory>
    ensures { IfOk result (λ bricks. All IsBrick bricks.items) }
{
    let mut bricks = Vec::new(alloc);
    for change in changes {
        bricks.push(brick_of(change.0, change.1))?;
    }
    Ok(bricks)
}

/// The codes of voxels that a scan changes, and whether it hits them.
const CHANGES: &[(u64, bool)] = &[
    (0xffff_ffff_ffff, false),
    (130, true),
    (0, false),
    (63, false),
    (0, true),
    (64, false),
    (130, false),
    (191, false),
];

/// The bricks of these voxels.
const MERGED: &[Brick] = &[
    Brick {
        code: 0,
        scanned: 0x8000_0000_0000_0001,
        hits: 1,
    },
    Brick {
        code: 1,
        scanned: 1,
        hits: 0,
    },
    Brick {
        code: 2,
        scanned: 0x8000_0000_0000_0004,
        hits: 4,
    },
    Brick {
        code: 0x3ff_ffff_ffff,
        scanned: 0x8000_0000_0000_0000,
        hits: 0,
    },
];

/// Expects the bricks into which those of some voxels are merged.
fn expect_merged(
    rt: &impl Abort,
    alloc: Global,
    changes: &[(u64, bool)],
    want: &[Brick],
) -> Result<(), Memory> {
    let bricks = merge_bricks(alloc, bricks_of(alloc, changes)?)?;
    assert_eq!(rt; bricks.as_slice(), want);
    Ok(())
}

#[test]
fn puts_bricks_in_order_and_joins_those_of_one_code(rt: HostRuntime) -> Result<(), Fail> {
    expect_merged(&rt, rt.alloc(), CHANGES, MERGED)?;
    expect_merged(&rt, rt.alloc(), &[], &[])?;
    Ok(())
}

/// Masks, and in how many octets they have voxels.
const OCTETS: &[(u64, u64)] = &[
    (0, 0),
    (1, 1),
    (0xff, 1),
    (0x101, 2),
    (0x8000_0000_0000_0000, 1),
    (0x0102_0408_1020_4080, 8),
];

/// Expects in how many octets each mask of a table has voxels.
fn expect_octets(rt: &impl Abort, cases: &[(u64, u64)]) {
    for (mask, count) in cases {
        assert_eq!(rt; count_octets(*mask), *count);
    }
}

#[test]
fn counts_octets(rt: HostRuntime) {
    expect_octets(&rt, OCTETS);
}

/// The code of the voxel (32770, 32768, 32767).
const CODE: u64 = 0o3444_4444_4444_4454;

/// The brick around that voxel, which is hit.
fn hit_brick() -> Brick {
    Brick::around(CODE).with_hit(CODE)
}

/// Expects in which child of its block at a depth the brick around the voxel (0x1234, 0x5678,
/// 0x9abc) lies.
fn expect_child(rt: &impl Abort, depth: u8, want: u8)
    requires { depth ≤ 13 }
{
    assert_eq!(rt;
        Brick::around(0o4207_4270_4277_6500).child_index(depth),
        want
    );
}

#[test]
fn finds_children(rt: HostRuntime) {
    expect_child(&rt, 0, 4);
    expect_child(&rt, 1, 2);
    expect_child(&rt, 2, 0);
    expect_child(&rt, 3, 7);
    expect_child(&rt, 12, 6);
    expect_child(&rt, 13, 5);
}

/// That brick with one more voxel, which is freed.
fn mixed_brick() -> Brick {
    Brick::around(CODE)
        .with_hit(CODE)
        .with_scanned(0o3444_4444_4444_4407)
}

/// Expects which voxels a brick frees.
fn expect_frees(rt: &impl Abort, brick: &Brick, want: u64) {
    assert_eq!(rt; brick.frees(), want);
}

#[test]
fn tells_frees_from_hits(rt: HostRuntime) {
    expect_frees(&rt, &hit_brick(), 0);
    expect_frees(&rt, &mixed_brick(), 0x80);
}

/// Expects what of that brick lies in a mask.
fn expect_within(rt: &impl Abort, mask: u64, want: Brick) {
    assert_eq!(rt; mixed_brick().within(mask), want);
}

#[test]
fn keeps_what_lies_in_a_mask(rt: HostRuntime) {
    let around = Brick::around(CODE);
    expect_within(&rt, 0xff, around.with_scanned(0o3444_4444_4444_4407));
    expect_within(&rt, 1 << 0o54, hit_brick());
    expect_within(&rt, 1, around);
}
