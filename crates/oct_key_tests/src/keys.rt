//! Voxels, blocks, codes, boxes and lists of them.

mod block;
mod dilated;
mod lists;
mod morton_code;
mod resolution;
mod window;

use oct_key::Key;
use std::process::Abort;

/// Expects this number.
fn expect_number(rt: &impl Abort, number: u64, want: u64) {
    assert_eq!(rt; number, want);
}

/// Expects that this voxel was found, or none.
fn expect_found(rt: &impl Abort, found: Option<Key>, want: Option<Key>) {
    assert_eq!(rt; found, want);
}
