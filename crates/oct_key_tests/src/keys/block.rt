//! Blocks of each depth around a voxel, their children and their parents.
use super::expect_number;
use oct_key::{Block, Key, child_index};
use std::process::Abort;

/// The voxel just above the origin.
const MIDDLE: Key = Key {
    x: 32_768,
    y: 32_768,
    z: 32_768,
};

/// A voxel at an edge of the map.
const EDGE: Key = Key {
    x: 65_535,
    y: 0,
    z: 1,
};

/// A voxel near the lowest corner of the map.
const LOW: Key = Key { x: 2, y: 1, z: 3 };

/// A voxel in a corner of the map.
const CORNER: Key = Key {
    x: 65_535,
    y: 0,
    z: 0,
};

/// The depth of a block and its number on each axis.
fn numbers(b: Block) -> (u8, u16, u16, u16) {
    (b.depth, b.x, b.y, b.z)
}

/// Expects the depth of a block and its number on each axis.
fn expect_numbers(rt: &impl Abort, b: Block, want: (u8, u16, u16, u16)) {
    assert_eq!(rt; numbers(b), want);
}

#[test]
fn makes_the_block_of_the_whole_map(rt: HostRuntime) {
    expect_numbers(&rt, Block::whole_map(), (0, 0, 0, 0));
}

/// Voxels and depths, and the numbers of the blocks that hold them there.
const BLOCKS: &[(Key, u8, (u8, u16, u16, u16))] = &[
    (MIDDLE, 0, (0, 0, 0, 0)),
    (MIDDLE, 1, (1, 1, 1, 1)),
    (MIDDLE, 2, (2, 2, 2, 2)),
    (MIDDLE, 15, (15, 16_384, 16_384, 16_384)),
    (MIDDLE, 16, (16, 32_768, 32_768, 32_768)),
    (EDGE, 0, (0, 0, 0, 0)),
    (EDGE, 1, (1, 1, 0, 0)),
    (EDGE, 8, (8, 255, 0, 0)),
    (EDGE, 15, (15, 32_767, 0, 0)),
    (EDGE, 16, (16, 65_535, 0, 1)),
];

/// Expects the numbers of the block that holds a voxel at a depth.
fn expect_block(rt: &impl Abort, k: Key, depth: u8, want: (u8, u16, u16, u16)) {
    assert!(rt; depth <= 16);
    expect_numbers(rt, Block::of(k, depth), want);
}

/// Expects the block of each voxel and depth of a table.
fn expect_blocks(rt: &impl Abort, cases: &[(Key, u8, (u8, u16, u16, u16))]) {
    for (k, depth, want) in cases {
        expect_block(rt, *k, *depth, *want);
    }
}

#[test]
fn finds_the_block_of_each_depth(rt: HostRuntime) {
    expect_blocks(&rt, BLOCKS);
}

/// Voxels and depths, and which children of the blocks there hold them.
const INDICES: &[(Key, u8, u8)] = &[
    (MIDDLE, 0, 7),
    (MIDDLE, 1, 0),
    (MIDDLE, 15, 0),
    (EDGE, 0, 1),
    (EDGE, 14, 1),
    (EDGE, 15, 5),
    (LOW, 13, 0),
    (LOW, 14, 5),
    (LOW, 15, 6),
];

/// Expects which child of the block at a depth holds a voxel.
fn expect_index(rt: &impl Abort, k: Key, depth: u8, want: u8) {
    assert!(rt; depth <= 15);
    expect_number(rt, child_index(k, depth) as u64, want as u64);
}

/// Expects the child of each voxel and depth of a table.
fn expect_indices(rt: &impl Abort, cases: &[(Key, u8, u8)]) {
    for (k, depth, want) in cases {
        expect_index(rt, *k, *depth, *want);
    }
}

#[test]
fn finds_the_child_that_holds_a_voxel(rt: HostRuntime) {
    expect_indices(&rt, INDICES);
}

/// Depths of blocks in the corner and numbers of children, and the numbers of those.
const CHILDREN: &[(u8, u8, (u8, u16, u16, u16))] = &[
    (0, 0, (1, 0, 0, 0)),
    (0, 1, (1, 1, 0, 0)),
    (0, 2, (1, 0, 1, 0)),
    (0, 3, (1, 1, 1, 0)),
    (0, 4, (1, 0, 0, 1)),
    (0, 5, (1, 1, 0, 1)),
    (0, 6, (1, 0, 1, 1)),
    (0, 7, (1, 1, 1, 1)),
    (1, 0, (2, 2, 0, 0)),
    (8, 3, (9, 511, 1, 0)),
    (15, 6, (16, 65_534, 1, 1)),
];

/// Expects the numbers of a child of the corner's block at a depth, and the way back to it.
fn expect_child(rt: &impl Abort, depth: u8, i: u8, want: (u8, u16, u16, u16)) {
    assert!(rt; depth <= 15 && i <= 7);
    let block = Block::of(CORNER, depth);
    assert!(rt; block.depth <= 15);
    let child = block.child(i);
    assert!(rt; child.depth >= 1);
    expect_numbers(rt, child, want);
    expect_numbers(rt, child.parent(), numbers(block));
}

/// Expects each child of a table, and the way back from it.
fn expect_children(rt: &impl Abort, cases: &[(u8, u8, (u8, u16, u16, u16))]) {
    for (depth, i, want) in cases {
        expect_child(rt, *depth, *i, *want);
    }
}

#[test]
fn goes_to_each_child_and_back(rt: HostRuntime) {
    expect_children(&rt, CHILDREN);
}
