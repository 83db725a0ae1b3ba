//! Files of maps and snapshots, as bytes.
ghost use Rattle.std.specs.Prelude.{◌≡◌, ◌≢◌, ◌≤◌, [], length, Ok};
ghost use Rattle.std.specs.Prelude.{OnOk, OnErr};
ghost use Rattle.oct_bt.specs.Reading.{KeepsSome, file_progress};
ghost use Rattle.oct_map.specs.Files.{file_of, snapshot_of};
ghost use Rattle.octofix.specs.Asked.{IsAnswered, IsReached, asked};
ghost use Rattle.octofix.specs.Buffers.{HasFit, IsListTold, filled, room_code};
ghost use Rattle.octofix.specs.Changed.{Left};
ghost use Rattle.octofix.specs.Files.{IsLoadedFrom, IsRestoredFrom, MayTakeMemory, NeedsGroups};
ghost use Rattle.octofix.specs.Files.{loading, restoring};

use crate::answers::{code_of, details_of};
use crate::handle::Octofix;
use crate::refusal::{DONE, MEMORY, Refusal, SMALL_BUFFER};
use crate::types::Details;
use oct_bt::{BtFault, read_classes};
use oct_map::{MapFault, OccMap};
use oct_num::Memory;
use std::alloc::Global;

/// Puts bytes to the front of a buffer, and tells how many there are.
fn put_bytes(text: &[u8], bytes: &mut [u8], len: &mut usize) -> u32
    ensures code { result ≡ room_code (length bytes.old) (length text.now) }
    ensures bytes { bytes.new ≡ filled bytes.old text.now }
    ensures len { len.new ≡ length text.now }
{
    *len = text.len();
    if bytes.len() < text.len() {
        return SMALL_BUFFER;
    }
    bytes[..text.len()].copy_from_slice(text);
    DONE
}

/// Puts the binary file of a map's classes to the front of a buffer.
fn save(map: &OccMap, bytes: &mut [u8], len: &mut usize) -> u32
    ensures { IsListTold (Ok (file_of map.now)) (length (file_of map.now) ≤ length bytes.old)
        result bytes.old bytes.new len.old len.new }
{
    let total = map.bt_len();
    if (bytes.len() as u64) < total {
        *len = total as usize;
        return SMALL_BUFFER;
    }
    match map.to_bt() {
        Ok(text) => put_bytes(text.as_slice(), bytes, len),
        Err(Memory) => MEMORY,
    }
}

/// Puts the snapshot of a map to the front of a buffer.
fn snapshot(map: &OccMap, bytes: &mut [u8], len: &mut usize) -> u32
    ensures { IsListTold (Ok (snapshot_of map.now))
        (length (snapshot_of map.now) ≤ length bytes.old)
        result bytes.old bytes.new len.old len.new }
{
    let total = map.snapshot_len();
    if (bytes.len() as u64) < total {
        *len = total as usize;
        return SMALL_BUFFER;
    }
    match map.to_snapshot() {
        Ok(text) => put_bytes(text.as_slice(), bytes, len),
        Err(Memory) => MEMORY,
    }
}

/// Gives each voxel the value of its class in the binary file of these bytes.
fn load(alloc: Global, map: &mut OccMap, bytes: &[u8]) -> Result<(), Refusal>
    ensures answer { IsReached (loading bytes.now map.old)
        (KeepsSome (file_progress []) bytes.now) result }
    ensures loaded { OnOk result (IsLoadedFrom bytes.now map.old map.new) }
    ensures refused { OnErr result (map.new ≡ map.old) }
{
    let file = match read_classes(alloc, bytes) {
        Ok(file) => file,
        Err(BtFault::Memory) => return Err(Refusal::Map(MapFault::Memory)),
        Err(fault) => return Err(Refusal::File(fault)),
    };
    map.load(&file)?;
    Ok(())
}

/// Makes a map that of the snapshot of these bytes.
fn restore(map: &mut OccMap, bytes: &[u8]) -> Result<u64, Refusal>
    ensures answer { IsReached (restoring bytes.now map.old)
        (NeedsGroups (restoring bytes.now map.old)) result }
    ensures restored { OnOk result (IsRestoredFrom bytes.now map.old map.new) }
    ensures refused { OnErr result (map.new ≡ map.old) }
{
    let groups = map.restore(bytes)?;
    Ok(groups)
}

/// Puts the binary file of the map's classes to the front of a buffer, and tells its length.
#[unsafe(no_mangle)]
pub extern "C" fn octofix_save(handle: &mut Octofix, bytes: &mut [u8], len: &mut usize) -> u32
    ensures same { handle.new ≡ handle.old }
    ensures told { IsListTold (asked handle.old.slot.map (λ m. Ok (file_of m)))
        (HasFit (length bytes.old) (asked handle.old.slot.map (λ m. Ok (file_of m))))
        result bytes.old bytes.new len.old len.new }
{
    match handle.map_mut() {
        Ok(map) => save(map, bytes, len),
        Err(refusal) => refusal.code(),
    }
}

/// Puts the snapshot of the map to the front of a buffer, with its log-odds and its box, and tells
/// its length.
#[unsafe(no_mangle)]
pub extern "C" fn octofix_snapshot(handle: &mut Octofix, bytes: &mut [u8], len: &mut usize) -> u32
    ensures same { handle.new ≡ handle.old }
    ensures told { IsListTold (asked handle.old.slot.map (λ m. Ok (snapshot_of m)))
        (HasFit (length bytes.old) (asked handle.old.slot.map (λ m. Ok (snapshot_of m))))
        result bytes.old bytes.new len.old len.new }
{
    match handle.map_mut() {
        Ok(map) => snapshot(map, bytes, len),
        Err(refusal) => refusal.code(),
    }
}

/// Loads into the map of a handle.
fn load_into(alloc: Global, handle: &mut Octofix, bytes: &[u8]) -> Result<(), Refusal>
    ensures answer { IsReached (asked handle.old.slot.map (loading bytes.now))
        (MayTakeMemory handle.old.slot.map bytes.now) result }
    ensures loaded { OnOk result
        (Left handle.old handle.new (IsLoadedFrom bytes.now)) }
    ensures refused { OnErr result (handle.new ≡ handle.old) }
{
    load(alloc, handle.map_mut()?, bytes)
}

/// Gives each voxel the value of its class in the binary file of these bytes. The map isn't stale
/// then, and has no mark. Where it is refused the map stays as it was.
#[unsafe(no_mangle)]
pub extern "C" fn octofix_load(
    alloc: Global,
    handle: &mut Octofix,
    bytes: &[u8],
    details: &mut Details,
) -> u32
    ensures answer { IsAnswered (asked handle.old.slot.map (loading bytes.now))
        (MayTakeMemory handle.old.slot.map bytes.now) result details.new }
    ensures loaded { result ≡ DONE
        → Left handle.old handle.new (IsLoadedFrom bytes.now) }
    ensures refused { result ≢ DONE → handle.new ≡ handle.old }
{
    let answer = load_into(alloc, handle, bytes);
    *details = details_of(&answer);
    code_of(&answer)
}

/// Restores into the map of a handle.
fn restore_into(handle: &mut Octofix, bytes: &[u8]) -> Result<u64, Refusal>
    ensures answer { IsReached (asked handle.old.slot.map (restoring bytes.now))
        (NeedsGroups (asked handle.old.slot.map (restoring bytes.now))) result }
    ensures restored { OnOk result
        (Left handle.old handle.new (IsRestoredFrom bytes.now)) }
    ensures refused { OnErr result (handle.new ≡ handle.old) }
{
    restore(handle.map_mut()?, bytes)
}

/// Makes the map that of the snapshot of these bytes. Where that is refused it stays as it was.
#[unsafe(no_mangle)]
pub extern "C" fn octofix_restore(handle: &mut Octofix, bytes: &[u8], details: &mut Details) -> u32
    ensures answer { IsAnswered (asked handle.old.slot.map (restoring bytes.now))
        (NeedsGroups (asked handle.old.slot.map (restoring bytes.now))) result details.new }
    ensures restored { result ≡ DONE
        → Left handle.old handle.new (IsRestoredFrom bytes.now) }
    ensures refused { result ≢ DONE → handle.new ≡ handle.old }
{
    let answer = restore_into(handle, bytes);
    *details = details_of(&answer);
    code_of(&answer)
}
