//! How many voxels of each class the records of a file give the map.
ghost use Rattle.std.specs.Prelude.{◌≡◌, ◌+◌, ◌≤◌, ◌<◌, ◌++◌, List, ℕ};
ghost use Rattle.oct_odds.specs.declared.event.Class.{Class};
ghost use Rattle.oct_odds.specs.declared.event.Class.TheVariants.{Free as free};
ghost use Rattle.oct_odds.specs.declared.event.Class.TheVariants.{Occupied as occupied};
ghost use Rattle.oct_bt.specs.Records.{Entries, IsRecord, class_code, flat};
ghost use Rattle.oct_bt.specs.Voxels.{IsRecordCount, leaf_voxels};

use crate::path::record_codes;

/// How many voxels of the map are free, and how many are occupied. The others are unknown.
#[derive(Clone, Copy, Debug, PartialEq, Eq)]
pub struct Voxels {
    pub free: u64,
    pub occupied: u64,
}

/// What a record has, with all below it: voxels, and bytes of its text.
#[derive(Clone, Copy)]
pub(crate) struct RecordCount {
    pub(crate) voxels: Voxels,
    pub(crate) bytes: usize,
}

/// The voxels of a child that is a leaf of this code, in a record of this depth.
fn count_leaf(depth: u8, code: u16) -> Voxels
    requires levels { depth ≤ 15 }
    requires leaf { code < 3 }
    ensures free { (c : Class) → class_code c ≡ code → result.free ≡ leaf_voxels free depth c }
    ensures occupied { (c : Class) → class_code c ≡ code
        → result.occupied ≡ leaf_voxels occupied depth c }
{
    let all = 8u64.pow(u32::from(15 - depth));
    match code {
        1 => Voxels {
            free: all,
            occupied: 0,
        },
        2 => Voxels {
            free: 0,
            occupied: all,
        },
        _ => Voxels {
            free: 0,
            occupied: 0,
        },
    }
}

/// What the record of a block of this depth has, where the codes begin with its text.
pub(crate) fn count_record(depth: u8, codes: &[u8]) -> RecordCount
    requires levels { depth ≤ 15 }
    requires record_there { (r : Entries) × (tail : List ℕ) × IsRecord depth r
        × (codes.now ≡ flat r ++ tail) }
    ensures counted { (r : Entries) (tail : List ℕ) → IsRecord depth r → codes.now ≡ flat r ++ tail
        → IsRecordCount depth r result.voxels.free result.voxels.occupied result.bytes }
{
    let mut rest = record_codes(codes[0], codes[1]);
    let mut free = 0;
    let mut occupied = 0;
    let mut next = 2;
    for _ in 0u8..8 {
        if rest % 4 == 3 {
            let (_, later) = codes.split_at(next);
            let inner = count_record(depth + 1, later);
            free += inner.voxels.free;
            occupied += inner.voxels.occupied;
            next += inner.bytes;
        } else {
            let leaf = count_leaf(depth, rest % 4);
            free += leaf.free;
            occupied += leaf.occupied;
        }
        rest /= 4;
    }
    RecordCount {
        voxels: Voxels { free, occupied },
        bytes: next,
    }
}
