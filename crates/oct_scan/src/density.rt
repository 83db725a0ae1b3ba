//! Whether the beams of a scan pass the same bricks again and again.
use crate::beam::PlacedBeam;
use crate::judge::most_met;
use oct_key::Key;

/// How many voxels the beams of a dense scan meet at least, where a voxel counts once for each beam
/// that meets it: a table of bricks spares what it takes to make it and to go through it.
const LEAST_MET: u64 = 1 << 20;

/// Whether the beams from a voxel meet many voxels, and at least as many as the box that they span
/// has bricks: in a larger box a beam seldom finds bricks of earlier ones in the table.
pub fn are_dense(start: Key, beams: &[PlacedBeam]) -> bool {
    let mut met = 0_u64;
    let (mut low, mut high) = (start, start);
    for beam in beams {
        met = met.saturating_add(most_met(start, beam.voxel));
        low = lower_corner(low, beam.voxel);
        high = upper_corner(high, beam.voxel);
    }
    LEAST_MET <= met && bricks_between(low, high) <= met
}

/// The lower corner of the box that two voxels span.
fn lower_corner(a: Key, b: Key) -> Key {
    Key {
        x: a.x.min(b.x),
        y: a.y.min(b.y),
        z: a.z.min(b.z),
    }
}

/// The upper corner of the box that two voxels span.
fn upper_corner(a: Key, b: Key) -> Key {
    Key {
        x: a.x.max(b.x),
        y: a.y.max(b.y),
        z: a.z.max(b.z),
    }
}

/// How many bricks the box has that goes from one corner to the other.
fn bricks_between(low: Key, high: Key) -> u64 {
    let area = side(low.x, high.x).saturating_mul(side(low.y, high.y));
    area.saturating_mul(side(low.z, high.z))
}

/// How many bricks the side of a box has that goes from one number to the other.
fn side(low: u16, high: u16) -> u64 {
    u64::from(high / 4).saturating_sub(u64::from(low / 4)) + 1
}
