//! Codes of voxels, and the voxels of codes.
use super::{expect_found, expect_number};
use oct_key::{Key, from_morton, morton};
use std::process::Abort;

/// The three numbers of voxels, and their codes.
const CODES: &[(u16, u16, u16, u64)] = &[
    (0, 0, 0, 0),
    (1, 0, 0, 1),
    (0, 1, 0, 2),
    (0, 0, 1, 4),
    (2, 0, 0, 8),
    (3, 5, 6, 0o653),
    (0, 65_535, 0, 0o2222_2222_2222_2222),
    (65_535, 0, 65_535, 0o5555_5555_5555_5555),
    (32_768, 32_768, 32_768, 0o7000_0000_0000_0000),
    (32_770, 32_768, 32_767, 0o3444_4444_4444_4454),
    (0x1234, 0x5678, 0x9abc, 0o4207_4270_4277_6500),
];

/// Expects that a voxel has a code.
fn expect_code(rt: &impl Abort, k: Key, code: u64) {
    expect_number(rt, morton(k), code);
}

/// Expects that a code is that of a voxel.
fn expect_voxel(rt: &impl Abort, code: u64, k: Key) {
    assert!(rt; code < 1 << 48);
    expect_found(rt, Some(from_morton(code)), Some(k));
}

/// Expects that each voxel of a table has its code, and each code its voxel.
fn expect_codes(rt: &impl Abort, cases: &[(u16, u16, u16, u64)]) {
    for (x, y, z, code) in cases {
        let k = Key {
            x: *x,
            y: *y,
            z: *z,
        };
        expect_code(rt, k, *code);
        expect_voxel(rt, *code, k);
    }
}

#[test]
fn interleaves_the_bits_of_a_voxel(rt: HostRuntime) {
    expect_codes(&rt, CODES);
}
