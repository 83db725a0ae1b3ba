//! Reports of notes, and the room that is made for them.

use crate::leaves::two_children;
use oct_change::{Change, Changes, Kind};
use oct_key::Key;
use oct_num::Memory;
use oct_odds::Class;
use oct_tree::OccTree;
use std::alloc::Global;
use std::process::Abort;
use std::test::Fail;

/// A tree in which child 0 of the map is free, child 1 occupied, and all else unknown.
fn two_classes(alloc: Global) -> Result<OccTree, Fail> {
    two_children(alloc, 0, -400, 1, 850)
}

const fn key(x: u16, y: u16, z: u16) -> Key {
    Key { x, y, z }
}

const fn change(x: u16, y: u16, z: u16, kind: Kind) -> Change {
    Change {
        key: key(x, y, z),
        kind,
    }
}

/// Notes, in room that is made for it, the class that a voxel had.
fn note(changes: &mut Changes, k: Key, before: Class) -> Result<(), Memory> {
    changes.reserve(1)?;
    changes.note(k, before);
    Ok(())
}

/// Notes what each row says.
fn note_all(changes: &mut Changes, rows: &[(u16, u16, u16, Class)]) -> Result<(), Memory> {
    for (x, y, z, before) in rows {
        note(changes, key(*x, *y, *z), *before)?;
    }
    Ok(())
}

/// Expects that a report has these changes.
fn expect_report(rt: &impl Abort, changes: &Changes, tree: &OccTree, want: &[Change]) {
    match changes.report(tree) {
        Ok(report) => assert_eq!(rt; report.as_slice(), want),
        Err(_) => panic!(rt; "out of memory"),
    }
}

/// Expects this many notes.
fn expect_len(rt: &impl Abort, changes: &Changes, want: u64) {
    assert_eq!(rt; changes.len(), want);
}

/// Expects that room is made for n notes more, and that there is room for this many then.
fn expect_room(rt: &impl Abort, changes: &mut Changes, n: u64, want: u64) {
    assert!(rt; changes.reserve(n).is_ok());
    assert_eq!(rt; changes.spare(), want);
}

/// Voxels of the tree of two children, and the classes that they are noted with.
const NOTES: &[(u16, u16, u16, Class)] = &[
    // Free now.
    (4, 9, 9, Class::Unknown),
    (5, 5, 5, Class::Free),
    (4, 8, 7, Class::Occupied),
    // Occupied now.
    (40_000, 1, 1, Class::Unknown),
    (40_000, 1, 0, Class::Free),
    (40_000, 0, 9, Class::Occupied),
    // Unknown now.
    (1, 40_000, 1, Class::Unknown),
    (3, 40_000, 1, Class::Free),
    (2, 40_000, 1, Class::Occupied),
    // Noted again: the first note counts.
    (5, 5, 5, Class::Occupied),
    (4, 9, 9, Class::Free),
];

/// And the changes that they make.
fn wanted() -> [Change; 6] {
    [
        change(2, 40_000, 1, Kind::Lost),
        change(3, 40_000, 1, Kind::Lost),
        change(4, 8, 7, Kind::Freed),
        change(4, 9, 9, Kind::New),
        change(40_000, 1, 0, Kind::Occupied),
        change(40_000, 1, 1, Kind::New),
    ]
}

#[test]
fn reports_each_pair_of_classes_in_the_order_of_voxels(rt: HostRuntime) -> Result<(), Fail> {
    let tree = two_classes(rt.alloc())?;
    let mut changes = Changes::new(rt.alloc());
    note_all(&mut changes, NOTES)?;
    expect_report(&rt, &changes, &tree, &wanted());
    changes.mark();
    expect_report(&rt, &changes, &tree, &[]);
    Ok(())
}

#[test]
fn all_notes_stay_where_room_is_made(rt: HostRuntime) -> Result<(), Fail> {
    let tree = two_classes(rt.alloc())?;
    let mut changes = Changes::new(rt.alloc());
    note_all(&mut changes, NOTES)?;
    // Room is made for as many notes as there are: 1, 2, 4, 8 and 16 in all.
    expect_len(&rt, &changes, 11);
    expect_room(&rt, &mut changes, 5, 5);
    expect_room(&rt, &mut changes, 6, 11);
    expect_len(&rt, &changes, 11);
    expect_report(&rt, &changes, &tree, &wanted());
    Ok(())
}

#[test]
fn first_notes_stay_where_they_are_compacted(rt: HostRuntime) -> Result<(), Fail> {
    let tree = two_classes(rt.alloc())?;
    let mut changes = Changes::new(rt.alloc());
    note_all(&mut changes, NOTES)?;
    // There is room for 5 more of 16.
    changes.compact(5)?;
    expect_len(&rt, &changes, 11);
    // Of 9 voxels each has one note then, in room for as many again.
    changes.compact(6)?;
    expect_len(&rt, &changes, 9);
    expect_room(&rt, &mut changes, 9, 9);
    expect_report(&rt, &changes, &tree, &wanted());
    Ok(())
}
