//! How many records of each depth are still to come.
ghost use Rattle.std.specs.Prelude.{◌≡◌, ◌+◌, ◌*◌, ◌<◌, ◌++◌, length, replicate};
ghost use Rattle.std.specs.Prelude.{[], ◌∷◌};
ghost use Rattle.oct_bt.specs.Canonical.{known_codes};
ghost use Rattle.oct_bt.specs.NodeData.{records_in};
ghost use Rattle.oct_bt.specs.Plain.{is_plain, has_plain};
ghost use Rattle.oct_bt.specs.Path.{pending_at, IsTopped, without_next};

use crate::masks::{nonzero, threes};
use arrayvec::ArrayVec;

/// The codes of eight leaves that are all free.
pub(crate) const FREE_LEAVES: u16 = 0x5555;

/// The codes of eight leaves that are all occupied.
pub(crate) const OCCUPIED_LEAVES: u16 = 0xaaaa;

/// The eight codes in the two bytes of a record.
pub(crate) fn record_codes(first: u8, second: u8) -> u16
    ensures { result ≡ first + 256 * second }
{
    u16::from(first) + 256 * u16::from(second)
}

/// How many of the four codes of a byte aren't 0.
pub(crate) fn known_codes(byte: u8) -> u8
    ensures count { result ≡ known_codes (byte ∷ []) }
    ensures few { result < 5 }
{
    nonzero(u16::from(byte)).count_ones() as u8
}

/// How many of the eight codes of a record are 3.
pub(crate) fn records_in(first: u8, second: u8) -> u8
    ensures count { result ≡ records_in first second }
    ensures few { result < 9 }
{
    threes(record_codes(first, second)).count_ones() as u8
}

/// Drops the depths at the end that have no record to come.
fn drop_empty(path: &mut ArrayVec<u8, 16>)
    ensures same { pending_at 0 path.new.items ≡ pending_at 0 path.old.items }
    ensures topped { IsTopped path.new.items }
{
    while !path.is_empty() && path[path.len() - 1] == 0 {
        path.pop();
    }
}

/// Takes the next record off, and puts as many of the next depth before the others.
pub(crate) fn descend(path: &mut ArrayVec<u8, 16>, deeper: u8)
    requires some { 0 < length path.old.items }
    requires topped { IsTopped path.old.items }
    requires room { 0 < deeper → length path.old.items < 16 }
    ensures pending { pending_at 0 path.new.items
        ≡ replicate deeper (length path.old.items) ++ pending_at 0 (without_next path.old.items) }
    ensures topped { IsTopped path.new.items }
{
    let top = path.len() - 1;
    path[top] -= 1;
    if deeper > 0 {
        path.push(deeper);
    } else {
        drop_empty(path);
    }
}

/// Whether these are the codes of eight equal leaves.
pub(crate) fn is_plain(codes: u16) -> bool
    ensures { result ≡ is_plain codes }
{
    codes == 0 || codes == FREE_LEAVES || codes == OCCUPIED_LEAVES
}

/// Whether some record has eight equal leaves.
pub(crate) fn has_plain(records: &[u8]) -> bool
    ensures { result ≡ has_plain records.now }
{
    let mut at = 0;
    while at + 1 < records.len() {
        if is_plain(record_codes(records[at], records[at + 1])) {
            return true;
        }
        at += 2;
    }
    false
}
