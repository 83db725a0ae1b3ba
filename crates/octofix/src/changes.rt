//! What has changed since the mark.
ghost use Rattle.std.specs.Prelude.{◌≡◌, length, map, Some};
ghost use Rattle.octofix.specs.Asked.{asked};
ghost use Rattle.octofix.specs.Buffers.{IsListTold, filled, room_code};
ghost use Rattle.octofix.specs.Changes.{HasNotes, change_told, changes_in, kind_number};

use crate::handle::Octofix;
use crate::refusal::{DONE, Refusal, SMALL_BUFFER};
use crate::types::{ChangedVoxel, VoxelKey};
use oct_change::{Change, Kind};
use oct_map::OccMap;

/// The number of a kind of change.
fn kind_number(kind: Kind) -> u16
    ensures { result ≡ kind_number kind }
{
    match kind {
        Kind::New => 0,
        Kind::Lost => 1,
        Kind::Occupied => 2,
        Kind::Freed => 3,
    }
}

impl ChangedVoxel {
    /// The same change.
    fn of(change: &Change) -> ChangedVoxel
        ensures { result ≡ change_told change.now }
    {
        ChangedVoxel {
            key: VoxelKey::of(change.key),
            kind: kind_number(change.kind),
        }
    }
}

/// Puts changes into a buffer, and tells how many there are.
fn put_changes(found: &[Change], changes: &mut [ChangedVoxel], count: &mut usize) -> u32
    ensures code { result ≡ room_code (length changes.old) (length found.now) }
    ensures changes { changes.new ≡ filled changes.old (map change_told found.now) }
    ensures count { count.new ≡ length found.now }
{
    *count = found.len();
    if changes.len() < found.len() {
        return SMALL_BUFFER;
    }
    for (i, change) in found.iter().enumerate() {
        changes[i] = ChangedVoxel::of(change);
    }
    DONE
}

/// Tells the changes since the mark.
fn changes(map: &OccMap, changes: &mut [ChangedVoxel], count: &mut usize) -> u32
    ensures { IsListTold (changes_in map.now) (HasNotes (Some map.now)) result
        changes.old changes.new count.old count.new }
{
    match map.changes() {
        Ok(found) => put_changes(found.as_slice(), changes, count),
        Err(fault) => Refusal::Map(fault).code(),
    }
}

/// The voxels whose class isn't the one that they had at the mark, by ascending x, y and z.
#[unsafe(no_mangle)]
pub extern "C" fn octofix_changes(
    handle: &mut Octofix,
    changed: &mut [ChangedVoxel],
    count: &mut usize,
) -> u32
    ensures same { handle.new ≡ handle.old }
    ensures told { IsListTold (asked handle.old.slot.map changes_in)
        (HasNotes handle.old.slot.map) result changed.old changed.new count.old count.new }
{
    match handle.map_mut() {
        Ok(map) => changes(map, changed, count),
        Err(refusal) => refusal.code(),
    }
}
