//! Lists of points and of voxels.
use oct_key::{Key, KeyList, Point, PointList};
use std::process::Abort;
use std::test::Fail;

const LOW: Point = Point { x: -1, y: 0, z: 2 };

const HIGH: Point = Point { x: 3, y: -4, z: 5 };

const NEAR: Key = Key { x: 1, y: 2, z: 3 };

const FAR: Key = Key {
    x: 65_535,
    y: 0,
    z: 32_768,
};

/// Expects these points.
fn expect_points(rt: &impl Abort, list: &PointList, want: &[Point]) {
    assert_eq!(rt; list.as_slice(), want);
}

/// Expects these keys.
fn expect_keys(rt: &impl Abort, list: &KeyList, want: &[Key]) {
    assert_eq!(rt; list.as_slice(), want);
}

#[test]
fn points_stand_in_the_order_of_their_adding(rt: HostRuntime) -> Result<(), Fail> {
    let mut points = PointList::new(rt.alloc());
    expect_points(&rt, &points, &[]);
    points.push(HIGH)?;
    points.push(LOW)?;
    points.push(HIGH)?;
    expect_points(&rt, &points, &[HIGH, LOW, HIGH]);
    Ok(())
}

#[test]
fn a_list_of_points_is_taken_over(rt: HostRuntime) -> Result<(), Fail> {
    let points = PointList::from(vec![in rt.alloc(); LOW, HIGH]?);
    expect_points(&rt, &points, &[LOW, HIGH]);
    Ok(())
}

#[test]
fn keys_stand_in_the_order_of_their_adding(rt: HostRuntime) -> Result<(), Fail> {
    let mut keys = KeyList::new(rt.alloc());
    expect_keys(&rt, &keys, &[]);
    keys.push(FAR)?;
    keys.push(NEAR)?;
    keys.push(FAR)?;
    expect_keys(&rt, &keys, &[FAR, NEAR, FAR]);
    Ok(())
}

#[test]
fn a_list_of_keys_is_taken_over(rt: HostRuntime) -> Result<(), Fail> {
    let keys = KeyList::from(vec![in rt.alloc(); NEAR, FAR]?);
    expect_keys(&rt, &keys, &[NEAR, FAR]);
    Ok(())
}
