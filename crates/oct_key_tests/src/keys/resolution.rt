//! The smallest and the largest edge, and the voxels at the faces of the map, in their order.
use super::expect_found;
use oct_key::{BadResolution, Key, Point, Res};
use std::process::Abort;
use std::test::Fail;

/// A tenth of a metre.
const TENTH: i64 = 100_000_000;

/// Half of the map at a tenth of a metre, in nanometres.
const HALF: i64 = 3_276_800_000_000;

/// The first and the last voxel of the map.
const FIRST: Key = Key { x: 0, y: 0, z: 0 };

const LAST: Key = Key {
    x: 65_535,
    y: 65_535,
    z: 65_535,
};

/// Numbers of nanometres, and whether they are resolutions.
const EDGES: &[(i64, bool)] = &[
    (100_000, true),
    (100_000_000, true),
    (100_000_000_000, true),
    (99_999, false),
    (100_000_000_001, false),
    (0, false),
    (-100_000, false),
    (i64::MIN, false),
    (i64::MAX, false),
];

/// Expects this number of nanometres, or none.
fn expect_nm(rt: &impl Abort, nm: Option<i64>, want: Option<i64>) {
    assert_eq!(rt; nm, want);
}

/// Expects whether a number of nanometres is a resolution.
fn expect_accepted(rt: &impl Abort, nm: i64, accepted: bool) {
    let want = accepted.then_some(nm);
    match Res::new(nm) {
        Ok(res) => expect_nm(rt, Some(res.nm()), want),
        Err(BadResolution) => expect_nm(rt, None, want),
    }
}

/// Expects whether each number of a table is a resolution.
fn expect_all_accepted(rt: &impl Abort, cases: &[(i64, bool)]) {
    for (nm, accepted) in cases {
        expect_accepted(rt, *nm, *accepted);
    }
}

#[test]
fn accepts_resolutions_from_a_tenth_of_a_millimetre_to_a_hundred_metres(rt: HostRuntime) {
    expect_all_accepted(&rt, EDGES);
}

/// Coordinates, and their keys at a tenth of a metre, if any.
const KEYS: &[(i64, Option<u16>)] = &[
    (0, Some(32_768)),
    (-1, Some(32_767)),
    (TENTH - 1, Some(32_768)),
    (TENTH, Some(32_769)),
    (-TENTH, Some(32_767)),
    (-TENTH - 1, Some(32_766)),
    (-HALF, Some(0)),
    (-HALF - 1, None),
    (HALF - 1, Some(65_535)),
    (HALF, None),
    (i64::MIN, None),
    (i64::MAX, None),
];

/// Expects the voxel that holds a point, if any.
fn expect_voxel(rt: &impl Abort, res: Res, (x, y, z): (i64, i64, i64), want: Option<Key>) {
    expect_found(rt, res.key_of(Point { x, y, z }), want);
}

/// The voxel of three numbers, where each is known.
fn voxel(x: Option<u16>, y: Option<u16>, z: Option<u16>) -> Option<Key> {
    Some(Key {
        x: x?,
        y: y?,
        z: z?,
    })
}

/// Expects the key of a coordinate on each axis.
fn expect_key(rt: &impl Abort, res: Res, c: i64, want: Option<u16>) {
    let above = Some(32_768);
    let below = Some(32_767);
    expect_voxel(rt, res, (c, 0, -1), voxel(want, above, below));
    expect_voxel(rt, res, (-1, c, 0), voxel(below, want, above));
    expect_voxel(rt, res, (0, -1, c), voxel(above, below, want));
}

/// Expects the key of each coordinate of a table.
fn expect_keys(rt: &impl Abort, res: Res, cases: &[(i64, Option<u16>)]) {
    for (c, want) in cases {
        expect_key(rt, res, *c, *want);
    }
}

#[test]
fn finds_the_key_of_each_axis(rt: HostRuntime) -> Result<(), Fail> {
    expect_keys(&rt, Res::new(TENTH)?, KEYS);
    Ok(())
}

/// Expects the first and the last voxel of the map, which reaches this far on both sides, and none
/// beyond it.
fn expect_ends(rt: &impl Abort, res: Res, half: i64) {
    assert!(rt; half > 0);
    let last = half - 1;
    expect_voxel(rt, res, (-half, -half, -half), Some(FIRST));
    expect_voxel(rt, res, (last, last, last), Some(LAST));
    expect_voxel(rt, res, (half, 0, 0), None);
    expect_voxel(rt, res, (0, -half - 1, 0), None);
    expect_voxel(rt, res, (i64::MIN, 0, 0), None);
    expect_voxel(rt, res, (0, 0, i64::MAX), None);
}

#[test]
fn holds_at_the_smallest_and_the_largest_resolution(rt: HostRuntime) -> Result<(), Fail> {
    expect_ends(&rt, Res::new(100_000)?, 3_276_800_000);
    expect_ends(&rt, Res::new(100_000_000_000)?, 3_276_800_000_000_000);
    Ok(())
}

#[test]
fn orders_voxels_by_x_then_y_then_z(rt: HostRuntime) {
    let low = Key { x: 1, y: 9, z: 9 };
    let middle = Key { x: 2, y: 0, z: 9 };
    let high = Key { x: 2, y: 1, z: 0 };
    assert!(rt; low < middle && middle < high);
}

#[test]
fn prints_the_range_of_resolutions(rt: HostRuntime) {
    let text = format!(in rt.alloc(); "{BadResolution}").unwrap_or(String::new(rt.alloc()));
    assert_eq!(rt;
        text.as_str(),
        "a resolution must be from 0.0001 to 100 metres"
    );
}
