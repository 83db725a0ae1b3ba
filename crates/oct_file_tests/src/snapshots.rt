//! Snapshots of small maps, written, read back, cut short and spoilt.

use oct_io::{FailingSink, KeptList, MemorySink, Sink, SinkFault};
use oct_key::{Key, Res, Window};
use oct_odds::OddsModel;
use oct_snap::{SnapFault, check, encoded_len, fill, write};
use oct_tree::OccTree;
use std::alloc::{AllocError, Global};
use std::process::Abort;
use std::test::Fail;

/// The snapshot of the empty map at 0.1 m.
const EMPTY: [u8; 38] = [
    0x4F, 0x43, 0x54, 0x53, 0x4E, 0x41, 0x50, 0x32, 0x00, 0x00, 0x00, 0x00, 0x05, 0xF5, 0xE1, 0x00,
    0x00, 0x00, 0x03, 0x52, 0xFF, 0xFF, 0xFE, 0x70, 0xFF, 0xFF, 0xF8, 0x30, 0x00, 0x00, 0x0D, 0xAC,
    0x00, 0x00, 0x00, 0x00, 0x00, 0x00,
];

/// The same of version 1, with eight unknown children in place of one unknown map.
const EIGHT: [u8; 25] = [
    0x4F, 0x43, 0x54, 0x53, 0x4E, 0x41, 0x50, 0x31, 0x00, 0x00, 0x00, 0x00, 0x05, 0xF5, 0xE1, 0x00,
    0x02, 0x00, 0x00, 0x00, 0x00, 0x00, 0x00, 0x00, 0x00,
];

/// The empty map at 0.1 m.
fn unknown(alloc: Global) -> Result<OccTree, Fail> {
    Ok(OccTree::new(alloc, Res::new(100_000_000)?, OddsModel::default()))
}

/// Why these bytes are no snapshot, where they aren't.
fn fault(bytes: &[u8]) -> Option<SnapFault> {
    match check(bytes, OddsModel::default()) {
        Ok(_) => None,
        Err(fault) => Some(fault),
    }
}

/// Expects how the writing of a snapshot ends.
fn expect_write<K: Sink>(
    rt: &impl Abort,
    tree: &OccTree,
    window: Option<Window>,
    sink: &mut K,
    want: Result<u64, SinkFault>,
) {
    assert_eq!(rt; write(tree, window, sink), want);
}

/// Expects how many bytes a snapshot has, and which from a place on.
fn expect_bytes(
    rt: &impl Abort,
    alloc: Global,
    (tree, window): (&OccTree, Option<Window>),
    count: u64,
    (from, want): (usize, &[u8]),
) {
    let mut sink = MemorySink::new(alloc, 7);
    expect_write(rt, tree, window, &mut sink, Ok(count));
    assert_eq!(rt; sink.written().get(from..), Some(want));
}

/// The box from (1, 2, 3) to (256, 2, 4).
fn window() -> Option<Window> {
    let lo = Key { x: 1, y: 2, z: 3 };
    let hi = Key { x: 256, y: 2, z: 4 };
    Window::new(lo, hi)
}

/// The fields of that box in a snapshot.
const WINDOW: &[u8] = &[1, 0, 1, 0, 2, 0, 3, 1, 0, 0, 2, 0, 4, 0];

#[test]
fn writes_the_empty_map(rt: HostRuntime) -> Result<(), Fail> {
    let tree = unknown(rt.alloc())?;
    expect_bytes(&rt, rt.alloc(), (&tree, None), 38, (0, &EMPTY));
    expect_bytes(&rt, rt.alloc(), (&tree, window()), 50, (36, WINDOW));
    Ok(())
}

/// Expects what a sink has of a snapshot where its write of this number fails, and how that ends.
fn expect_pieces(
    rt: &impl Abort,
    alloc: Global,
    tree: &OccTree,
    number: u64,
    want: (Result<u64, SinkFault>, &[u8]),
) -> Result<(), Fail> {
    let mut fails = KeptList::new(alloc);
    fails.push(number)?;
    let mut sink = FailingSink::new(alloc, 4096, fails);
    expect_write(rt, tree, None, &mut sink, want.0);
    assert_eq!(rt; sink.written(), want.1);
    Ok(())
}

#[test]
fn hands_a_sink_whole_pieces(rt: HostRuntime) -> Result<(), Fail> {
    let tree = unknown(rt.alloc())?;
    // The fields and the node come in one write: the second one would fail.
    expect_pieces(&rt, rt.alloc(), &tree, 2, (Ok(38), &EMPTY))?;
    expect_pieces(&rt, rt.alloc(), &tree, 1, (Err(SinkFault::Failed), &[]))
}

#[test]
fn reads_what_it_writes(rt: HostRuntime) -> Result<(), Fail> {
    let info = check(&EMPTY, OddsModel::default())?;
    assert_eq!(rt; info.res.nm(), 100_000_000);
    assert_eq!(rt; (info.groups, info.version), (0, 2));
    assert!(rt; info.odds == OddsModel::default() && info.window.is_none());
    Ok(())
}

/// The tree of a snapshot that needs one group at most.
fn filled(rt: &impl Abort, alloc: Global, bytes: &[u8]) -> Result<OccTree, Fail> {
    let info = check(bytes, OddsModel::default())?;
    assert!(rt; info.groups <= 1);
    let mut tree = OccTree::new(alloc, info.res, info.odds);
    tree.reserve(1)?;
    fill(bytes, &mut tree);
    Ok(tree)
}

#[test]
fn fills_a_tree_that_is_known_to_be_tidy(rt: HostRuntime) -> Result<(), Fail> {
    let tree = filled(&rt, rt.alloc(), &WHOLE)?;
    assert!(rt; tree.tidiness().is_tidy());
    Ok(())
}

/// The snapshot of version 1 of the empty map.
const OLD_EMPTY: [u8; 17] = [
    0x4F, 0x43, 0x54, 0x53, 0x4E, 0x41, 0x50, 0x31, 0x00, 0x00, 0x00, 0x00, 0x05, 0xF5, 0xE1, 0x00,
    0x00,
];

/// The snapshot of version 1 of a map whose voxels all have the value 850.
const WHOLE: [u8; 21] = [
    0x4F, 0x43, 0x54, 0x53, 0x4E, 0x41, 0x50, 0x31, 0x00, 0x00, 0x00, 0x00, 0x05, 0xF5, 0xE1, 0x00,
    0x01, 0x00, 0x00, 0x03, 0x52,
];

/// The snapshot of version 1 of a map whose first eighth alone is known, with the value 850.
const EIGHTH: [u8; 29] = [
    0x4F, 0x43, 0x54, 0x53, 0x4E, 0x41, 0x50, 0x31, 0x00, 0x00, 0x00, 0x00, 0x05, 0xF5, 0xE1, 0x00,
    0x02, 0x01, 0x00, 0x00, 0x03, 0x52, 0x00, 0x00, 0x00, 0x00, 0x00, 0x00, 0x00,
];

/// Expects how long the snapshot of a tree is without a box, and with one.
fn expect_lengths(rt: &impl Abort, tree: &OccTree, plain: u64, boxed: u64) {
    assert_eq!(rt; encoded_len(tree, None), plain);
    assert_eq!(rt; encoded_len(tree, window()), boxed);
}

#[test]
fn tells_the_length_beforehand(rt: HostRuntime) -> Result<(), Fail> {
    // Magic, resolution, log-odds and the byte that tells of a box: 8 + 8 + 20 + 1, and a box 12.
    expect_lengths(&rt, &unknown(rt.alloc())?, 37 + 1, 49 + 1);
    expect_lengths(&rt, &filled(&rt, rt.alloc(), &WHOLE)?, 37 + 5, 49 + 5);
    expect_lengths(&rt, &filled(&rt, rt.alloc(), &EIGHTH)?, 37 + 13, 49 + 13);
    Ok(())
}

/// Expects why these bytes are no snapshot, where they aren't.
fn expect_fault(rt: &impl Abort, bytes: &[u8], want: Option<SnapFault>) {
    assert_eq!(rt; fault(bytes), want);
}

/// Expects the fault of each front of a snapshot but the whole of it.
fn expect_cuts(rt: &impl Abort, snapshot: &[u8]) {
    for n in 0..snapshot.len() {
        let want = if n < 8 {
            SnapFault::BadMagic
        } else {
            SnapFault::Truncated { at: n as u64 }
        };
        expect_fault(rt, &snapshot[..n], Some(want));
    }
}

#[test]
fn names_the_first_fault(rt: HostRuntime) {
    expect_fault(&rt, &OLD_EMPTY, None);
    expect_fault(&rt, &EIGHT, Some(SnapFault::BadSnapshot { at: 16 }));
    expect_cuts(&rt, &EMPTY);
}

/// The place of a byte, what it is made, and the fault that the snapshot has then.
type Change = (usize, u8, Option<SnapFault>);

/// Changes of the node of [`WHOLE`], and of the bytes before it.
const NODE_CHANGES: &[Change] = &[
    (0, 0x50, Some(SnapFault::BadMagic)),
    (7, 0x33, Some(SnapFault::BadMagic)),
    (7, 0x32, Some(SnapFault::Truncated { at: 21 })),
    (8, 0x01, Some(SnapFault::BadSnapshot { at: 8 })),
    (11, 0x18, Some(SnapFault::BadSnapshot { at: 8 })),
    (12, 0x00, None),
    (16, 0x00, Some(SnapFault::TrailingBytes { at: 17 })),
    (16, 0x02, Some(SnapFault::BadSnapshot { at: 19 })),
    (16, 0x03, Some(SnapFault::BadSnapshot { at: 16 })),
    (17, 0x80, Some(SnapFault::BadSnapshot { at: 16 })),
    (19, 0x0D, None),
    (19, 0x0E, Some(SnapFault::BadSnapshot { at: 16 })),
    (20, 0x00, None),
];

/// Changes of the fields of [`EMPTY`].
const FIELD_CHANGES: &[Change] = &[
    (16, 0x80, Some(SnapFault::BadSnapshot { at: 16 })),
    (20, 0x00, Some(SnapFault::BadSnapshot { at: 20 })),
    (24, 0x00, Some(SnapFault::BadSnapshot { at: 24 })),
    (28, 0x80, Some(SnapFault::BadSnapshot { at: 28 })),
    (34, 0x0E, Some(SnapFault::BadSnapshot { at: 32 })),
    (36, 0x02, Some(SnapFault::BadSnapshot { at: 36 })),
    (36, 0x01, Some(SnapFault::Truncated { at: 38 })),
    (37, 0x03, Some(SnapFault::BadSnapshot { at: 37 })),
];

/// Expects the fault of a snapshot after a change.
fn expect_change(
    rt: &impl Abort,
    alloc: Global,
    snapshot: &[u8],
    (place, byte, want): Change,
) -> Result<(), AllocError> {
    let mut bytes = Vec::from_slice(alloc, snapshot)?;
    if let Some(there) = bytes.get_mut(place) {
        *there = byte;
    }
    expect_fault(rt, &bytes, want);
    Ok(())
}

/// Expects the fault of a snapshot after each change of a table.
fn expect_changes(
    rt: &impl Abort,
    alloc: Global,
    snapshot: &[u8],
    cases: &[Change],
) -> Result<(), AllocError> {
    for case in cases {
        expect_change(rt, alloc, snapshot, *case)?;
    }
    Ok(())
}

#[test]
fn names_the_fault_of_a_changed_byte(rt: HostRuntime) -> Result<(), Fail> {
    expect_changes(&rt, rt.alloc(), &WHOLE, NODE_CHANGES)?;
    expect_changes(&rt, rt.alloc(), &EMPTY, FIELD_CHANGES)?;
    Ok(())
}
