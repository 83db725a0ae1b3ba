//! The reading of the nodes of a snapshot.
ghost use Rattle.std.specs.Prelude.{◌≡◌, ◌+◌, ◌-◌, ◌<◌, ◌≤◌, ◌↔◌, None, IsTrue, length, drop};
ghost use Rattle.std.specs.Prelude.{slice_index};
ghost use Rattle.oct_odds.specs.Odds.{odds_of};
ghost use Rattle.oct_snap.specs.Reading.{value_node, next_node, read_node};
ghost use Rattle.oct_snap.specs.Reading as reading;
ghost use Rattle.oct_snap.specs.Checked.{IsNodeRead};

use crate::common::Common;
use crate::fault::SnapFault;
use crate::tags::{PARTED, VALUE};
use oct_odds::OddsModel;

/// A node that was read.
#[derive(Clone, Copy)]
pub(crate) struct NodeRead {
    /// The place after it.
    pub(crate) next: usize,
    /// How many nodes with nodes of their own it has, itself among them.
    pub(crate) groups: u64,
    /// Whether it is of one value.
    pub(crate) common: Common,
}

/// What two nodes have in common.
fn both(a: Common, b: Common) -> Common
    ensures same { a ≡ b → result ≡ a }
    ensures other { (a ≡ b → ⊥) → result ≡ Common.Several }
{
    if a == b { a } else { Common::Several }
}

/// The number in four bytes at a place.
pub(crate) fn number_at(bytes: &[u8], at: usize) -> i32
    requires { at + 4 ≤ length bytes.now }
    ensures { result ≡ reading.number_at bytes.now at }
{
    i32::from_be_bytes([bytes[at], bytes[at + 1], bytes[at + 2], bytes[at + 3]])
}

/// Whether a value lies within the bounds.
fn is_within(odds: &OddsModel, value: i32) -> bool
    ensures { result ≡ reading.is_within (odds_of odds.now) value }
{
    odds.min <= value && value <= odds.max
}

/// The node of a value that begins at this place.
fn check_value(bytes: &[u8], at: usize, odds: &OddsModel) -> Result<NodeRead, SnapFault>
    requires { at < length bytes.now }
    ensures { IsNodeRead bytes.now at
        (value_node (odds_of odds.now) at (drop (at + 1) bytes.now)) result }
{
    if bytes.len() - at < 5 {
        return Err(SnapFault::Truncated {
            at: bytes.len() as u64,
        });
    }
    let value = number_at(bytes, at + 1);
    if !is_within(odds, value) {
        return Err(SnapFault::BadSnapshot { at: at as u64 });
    }
    Ok(NodeRead {
        next: at + 5,
        groups: 0,
        common: Common::Value(Some(value)),
    })
}

/// The node that begins at this place, which has no nodes of its own.
fn check_leaf(bytes: &[u8], at: usize, odds: &OddsModel) -> Result<NodeRead, SnapFault>
    requires { at ≤ length bytes.now }
    ensures { IsNodeRead bytes.now at
        (next_node None (odds_of odds.now) at (drop at bytes.now)) result }
{
    if at == bytes.len() {
        return Err(SnapFault::Truncated { at: at as u64 });
    }
    if bytes[at] == VALUE {
        return check_value(bytes, at, odds);
    }
    if bytes[at] > VALUE {
        return Err(SnapFault::BadSnapshot { at: at as u64 });
    }
    Ok(NodeRead {
        next: at + 1,
        groups: 0,
        common: Common::Value(None),
    })
}

/// Whether a node with nodes of its own begins at this place, and may stand there.
fn is_parted(bytes: &[u8], at: usize, depth: u8) -> bool
    ensures { IsTrue result
        ↔ ((depth < 16) × (at < length bytes.now) × (slice_index bytes.now at ≡ 2)) }
{
    depth < 16 && at < bytes.len() && bytes[at] == PARTED
}

/// The node of a block of this depth that begins at this place, or the first fault. Goes
/// through the bytes once.
pub(crate) fn check_node(
    bytes: &[u8],
    at: usize,
    depth: u8,
    odds: &OddsModel,
) -> Result<NodeRead, SnapFault>
    requires inside { at ≤ length bytes.now }
    requires levels { depth ≤ 16 }
    ensures { IsNodeRead bytes.now at
        (read_node (odds_of odds.now) (16 - depth) at (drop at bytes.now)) result }
{
    if !is_parted(bytes, at, depth) {
        return check_leaf(bytes, at, odds);
    }
    let first = check_node(bytes, at + 1, depth + 1, odds)?;
    let mut read = first;
    for _ in 1u8..8 {
        let child = check_node(bytes, read.next, depth + 1, odds)?;
        read = NodeRead {
            next: child.next,
            groups: read.groups + child.groups,
            common: both(read.common, child.common),
        };
    }
    if let Common::Value(_) = read.common {
        return Err(SnapFault::BadSnapshot { at: at as u64 });
    }
    Ok(NodeRead {
        next: read.next,
        groups: 1 + read.groups,
        common: Common::Several,
    })
}
