//! The texts of what refuses a scan.

use oct_scan::ScanFault;
use std::alloc::Global;
use std::process::Abort;

/// The faults of scans, and their texts.
const TEXTS: &[(ScanFault, &str)] = &[
    (
        ScanFault::OriginOutside,
        "the origin of the scan lies outside the map",
    ),
    (
        ScanFault::PointOutside { index: 1 },
        "the beam to point 1 ends outside the map",
    ),
    (
        ScanFault::TooManyCells { index: 1, cells: 8 },
        "with point 1 the beams meet 8 voxels, more than are allowed",
    ),
    (ScanFault::Memory, "out of memory"),
];

/// Expects the text of a fault.
fn expect_text(rt: &impl Abort, alloc: Global, fault: ScanFault, want: &str) {
    let text = format!(in alloc; "{fault}").unwrap_or(String::new(alloc));
    assert_eq!(rt; text.as_str(), want);
}

/// Expects the text of each fault of a table.
fn expect_texts(rt: &impl Abort, alloc: Global, cases: &[(ScanFault, &str)]) {
    for (fault, want) in cases {
        expect_text(rt, alloc, *fault, want);
    }
}

#[test]
fn says_why_a_scan_is_refused(rt: HostRuntime) {
    expect_texts(&rt, rt.alloc(), TEXTS);
}
