//! What a command does that names a file: a save or a snapshot to the store, or a load or a restore
//! from it.
ghost use Rattle.std.specs.Prelude.{◌≡◌, ℕ, List, [], Ok, IfOk, OnErr, Some};
ghost use Rattle.oct_bt.specs.File.{reading};
ghost use Rattle.oct_bt.specs.Reading.{KeepsSome, file_progress};
ghost use Rattle.oct_snap.specs.Reading.{read_snapshot};
ghost use Rattle.oct_session.specs.FileCommands.{load_action, load_reply, reading_action};
ghost use Rattle.oct_session.specs.FileCommands.{reading_reply};
ghost use Rattle.oct_session.specs.FileCommands.{restore_action, restore_reply, snapshot_action};
ghost use Rattle.oct_session.specs.FileCommands.{snapshot_reply};
ghost use Rattle.oct_session.specs.History.{State};
ghost use Rattle.oct_session.specs.MapMemory.{ReadingTakesMemory, LoadTakesMemory};
ghost use Rattle.oct_session.specs.MapMemory.{SnapshotTakesMemory, RestoreTakesMemory};
ghost use Rattle.oct_session.specs.Moments.{UsesFile, IsFileOf, SavesFile};
ghost use Rattle.oct_session.specs.Standing.{with_reply, HasDone};

use crate::commands::refuse;
use crate::context::Context;
use oct_bt::{BtFile, read_classes};
use oct_io::{Loaded, Sink, Store, StoreFault};
use oct_map::OccMap;
use oct_num::Memory;
use oct_script::{FileVerb, Name, Refusal, Reply, file_refusal};
use std::alloc::Global;

/// Puts the bytes of a file of the map under a name of the store, and answers their length, unless
/// memory ran out for them.
pub fn save<K: Sink, F: Store>(
    context: &mut Context<'_, K, F>,
    name: &Name,
    made: Result<Vec<u8>, Memory>,
    reply: &mut Option<Reply>,
) -> Result<(), StoreFault>
    ensures saves { (file : State → List ℕ)
        → IfOk made (λ bytes. IsFileOf context.old.map.now file bytes.items)
        → SavesFile F.Store file name.now context.old context.new result reply.new }
    ensures kept { context.new.map.now ≡ context.old.map.now }
{
    let file = made?;
    let bytes = file.as_slice();
    context.store.save(name.as_str(), bytes)?;
    *reply = Some(Reply::Saved(bytes.len() as u64));
    Ok(())
}

/// Puts the classes of a file in place of the map, and answers its number of nodes.
fn replace(map: &mut OccMap, file: &BtFile, reply: &mut Option<Reply>) -> Result<(), Memory>
    ensures done { HasDone (λ s. reading_reply s.base (Ok file.now))
        (λ s. reading_action (Ok file.now)) map.old map.new (with_reply result reply.new) }
    ensures memory { OnErr result (ReadingTakesMemory map.old file.now) }
{
    match map.load(file) {
        Ok(()) => {
            *reply = Some(Reply::Loaded(file.nodes()));
            Ok(())
        }
        Err(fault) => refuse(fault, reply),
    }
}

/// Loads the file of these bytes, and answers it.
fn load_bytes(
    alloc: Global,
    map: &mut OccMap,
    bytes: &[u8],
    reply: &mut Option<Reply>,
) -> Result<(), Memory>
    ensures done { HasDone (λ s. reading_reply s.base (reading bytes.now))
        (λ s. reading_action (reading bytes.now)) map.old map.new (with_reply result reply.new) }
    ensures memory { OnErr result (KeepsSome (file_progress []) bytes.now) }
{
    match read_classes(alloc, bytes) {
        Ok(file) => replace(map, &file, reply),
        Err(fault) => {
            let refusal = file_refusal(fault)?;
            *reply = Some(Reply::Refused(refusal));
            Ok(())
        }
    }
}

/// Loads what a store has under a name, and answers it.
fn take_in(
    alloc: Global,
    map: &mut OccMap,
    loaded: Loaded,
    reply: &mut Option<Reply>,
) -> Result<(), Memory>
    ensures done { HasDone (λ s. load_reply s.base (Some loaded)) (λ s. load_action (Some loaded))
        map.old map.new (with_reply result reply.new) }
    ensures memory { OnErr result (LoadTakesMemory loaded) }
{
    let refusal = match loaded {
        Loaded::Bytes(bytes) => return load_bytes(alloc, map, bytes.as_slice(), reply),
        Loaded::Missing => Refusal::NoFile,
        Loaded::TooLarge => Refusal::FileTooLarge,
    };
    *reply = Some(Reply::Refused(refusal));
    Ok(())
}

/// Loads the file of this name of the store, and answers it.
pub fn load<K: Sink, F: Store>(
    context: &mut Context<'_, K, F>,
    name: &Name,
    reply: &mut Option<Reply>,
) -> Result<(), StoreFault>
    ensures { UsesFile F.Store FileVerb.Load name.now context.old context.new result reply.new }
{
    let loaded = context.store.load(context.alloc, name.as_str())?;
    take_in(context.alloc, context.map, loaded, reply)?;
    Ok(())
}

/// Makes the map that of the snapshot of these bytes, and answers it.
fn restore_bytes(map: &mut OccMap, bytes: &[u8], reply: &mut Option<Reply>) -> Result<(), Memory>
    ensures done { HasDone (λ s. snapshot_reply s.base (read_snapshot s.base.odds bytes.now))
        (λ s. snapshot_action (read_snapshot s.base.odds bytes.now)) map.old map.new
        (with_reply result reply.new) }
    ensures memory { OnErr result (SnapshotTakesMemory map.old bytes.now) }
{
    match map.restore(bytes) {
        Ok(groups) => {
            *reply = Some(Reply::Restored(groups));
            Ok(())
        }
        Err(fault) => refuse(fault, reply),
    }
}

/// Restores what a store has under a name, and answers it.
fn take_back(map: &mut OccMap, loaded: Loaded, reply: &mut Option<Reply>) -> Result<(), Memory>
    ensures done { HasDone (λ s. restore_reply s.base (Some loaded))
        (λ s. restore_action s.base (Some loaded)) map.old map.new (with_reply result reply.new) }
    ensures memory { OnErr result (RestoreTakesMemory map.old loaded) }
{
    let refusal = match loaded {
        Loaded::Bytes(bytes) => return restore_bytes(map, bytes.as_slice(), reply),
        Loaded::Missing => Refusal::NoFile,
        Loaded::TooLarge => Refusal::FileTooLarge,
    };
    *reply = Some(Reply::Refused(refusal));
    Ok(())
}

/// Restores the snapshot of this name of the store, and answers it.
pub fn restore<K: Sink, F: Store>(
    context: &mut Context<'_, K, F>,
    name: &Name,
    reply: &mut Option<Reply>,
) -> Result<(), StoreFault>
    ensures { UsesFile F.Store FileVerb.Restore name.now context.old context.new result reply.new }
{
    let loaded = context.store.load(context.alloc, name.as_str())?;
    take_back(context.map, loaded, reply)?;
    Ok(())
}
