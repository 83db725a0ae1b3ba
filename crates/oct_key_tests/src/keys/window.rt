//! Which corners make a box, which voxels lie in it, and which blocks it meets and covers.
use super::{expect_found, expect_number};
use oct_key::{Block, Key, Window};
use std::process::Abort;

/// The voxel of these three numbers.
fn key(numbers: (u16, u16, u16)) -> Key {
    let (x, y, z) = numbers;
    Key { x, y, z }
}

/// Pairs of voxels, and whether they are the corners of a box.
const CORNERS: &[((u16, u16, u16), (u16, u16, u16), bool)] = &[
    ((1, 2, 3), (4, 5, 6), true),
    ((1, 2, 3), (1, 2, 3), true),
    ((0, 0, 0), (65_535, 65_535, 65_535), true),
    ((2, 2, 3), (1, 5, 6), false),
    ((1, 6, 3), (4, 5, 6), false),
    ((1, 2, 7), (4, 5, 6), false),
];

/// Expects whether two voxels are the corners of a box.
fn expect_corners(rt: &impl Abort, lo: Key, hi: Key, accepted: bool) {
    match Window::new(lo, hi) {
        Some(window) => {
            expect_found(rt, Some(window.lo()), accepted.then_some(lo));
            expect_found(rt, Some(window.hi()), accepted.then_some(hi));
        }
        None => expect_found(rt, None, accepted.then_some(lo)),
    }
}

/// Expects whether each pair of a table is the corners of a box.
fn expect_all_corners(rt: &impl Abort, cases: &[((u16, u16, u16), (u16, u16, u16), bool)]) {
    for (lo, hi, accepted) in cases {
        expect_corners(rt, key(*lo), key(*hi), *accepted);
    }
}

#[test]
fn a_box_has_its_lowest_corner_first(rt: HostRuntime) {
    expect_all_corners(&rt, CORNERS);
}

/// Voxels, and whether the box from (10, 20, 30) to (12, 20, 35) holds them.
const VOXELS: &[((u16, u16, u16), bool)] = &[
    ((10, 20, 30), true),
    ((12, 20, 35), true),
    ((11, 20, 33), true),
    ((9, 20, 30), false),
    ((13, 20, 35), false),
    ((11, 19, 33), false),
    ((11, 21, 33), false),
    ((11, 20, 29), false),
    ((11, 20, 36), false),
];

/// Expects whether a box holds a voxel.
fn expect_held(rt: &impl Abort, window: &Window, k: Key, held: bool) {
    expect_found(rt, window.holds(k).then_some(k), held.then_some(k));
}

/// Expects whether a box holds each voxel of a table.
fn expect_all_held(rt: &impl Abort, window: &Window, cases: &[((u16, u16, u16), bool)]) {
    for (k, held) in cases {
        expect_held(rt, window, key(*k), *held);
    }
}

#[test]
fn a_box_holds_its_corners_and_what_lies_between(rt: HostRuntime) {
    match Window::new(key((10, 20, 30)), key((12, 20, 35))) {
        Some(window) => expect_all_held(&rt, &window, VOXELS),
        None => panic!(rt; "no box"),
    }
}

/// The depths of blocks and a voxel in each, and whether the box from (8, 8, 8) to (11, 11, 12)
/// meets and covers them.
const BLOCKS: &[(u8, (u16, u16, u16), bool, bool)] = &[
    (0, (0, 0, 0), true, false),
    (13, (8, 8, 8), true, false),
    (14, (8, 8, 8), true, true),
    (14, (11, 8, 12), true, false),
    (14, (7, 8, 8), false, false),
    (14, (8, 12, 8), false, false),
    (15, (10, 10, 10), true, true),
    (15, (10, 10, 13), true, false),
    (15, (10, 10, 14), false, false),
    (16, (11, 11, 12), true, true),
    (16, (11, 11, 13), false, false),
    (16, (11, 7, 12), false, false),
];

/// Expects whether a box meets and covers a block of a depth.
fn expect_block(rt: &impl Abort, window: &Window, depth: u8, k: Key, meets: bool, covers: bool) {
    assert!(rt; depth <= 16);
    let block = Block::of(k, depth);
    assert_eq!(rt; window.meets(block), meets);
    assert_eq!(rt; window.covers(block), covers);
}

/// Expects that a box meets and covers the blocks of a table.
fn expect_blocks(rt: &impl Abort, window: &Window, cases: &[(u8, (u16, u16, u16), bool, bool)]) {
    for (depth, k, meets, covers) in cases {
        expect_block(rt, window, *depth, key(*k), *meets, *covers);
    }
}

#[test]
fn a_box_meets_blocks_and_covers_some(rt: HostRuntime) {
    match Window::new(key((8, 8, 8)), key((11, 11, 12))) {
        Some(window) => {
            expect_blocks(&rt, &window, BLOCKS);
            expect_number(&rt, window.volume(), 80);
        }
        None => panic!(rt; "no box"),
    }
}
