//! Two maps from the store.
ghost use Rattle.std.specs.Prelude.{◌≡◌, ◌≤◌, ◌+◌, ◌^◌, length, IfOk, IfSome};
ghost use Rattle.oct_io.specs.Counts.{IsAskCounted};
ghost use Rattle.oct_io.specs.Loaded.{loaded_of, IsWithinLimit};
ghost use Rattle.oct_bt.specs.File.{reading};
ghost use Rattle.oct_file_tasks.specs.TwoFiles.{judged, map_in, of_one_size, pair_in, second_in};
ghost use Rattle.oct_file_tasks.specs.TwoFiles.{loads_of, IsFit, AreFit};

use oct_bt::{BtFault, BtFile, read_classes};
use oct_io::{Loaded, Store, StoreFault};
use oct_key::Res;
use oct_num::Memory;
use oct_script::Name;
use std::alloc::Global;
use thiserror::Error;

/// Why the store has no map under a name.
#[derive(Clone, Copy, Debug, PartialEq, Eq, Error)]
pub(crate) enum NoMap {
    /// There is no such file.
    #[error("no such file")]
    Missing,
    /// The file has more bytes than are loaded.
    #[error("the file is too large")]
    TooLarge,
    /// It is no file of classes.
    #[error("{0}")]
    Bad(BtFault),
}

/// Why there are no two maps to go by.
#[derive(Clone, Copy, Debug, PartialEq, Eq, Error)]
pub(crate) enum NoPair {
    /// There is no first one.
    #[error("the first file: {0}")]
    First(NoMap),
    /// There is a first one, and no second.
    #[error("the second file: {0}")]
    Second(NoMap),
    /// Their resolutions differ.
    #[error("the files have different resolutions")]
    OtherResolution { first: Res, second: Res },
}

/// Two maps of one resolution.
#[derive(Drop)]
pub(crate) struct Pair {
    pub(crate) first: BtFile,
    pub(crate) second: BtFile,
}

/// The map that these bytes are, or why they are none.
fn judge(alloc: Global, bytes: &[u8]) -> Result<Result<BtFile, NoMap>, Memory>
    requires few { length bytes.now ≤ 2 ^ 30 }
    ensures exact { IfOk result (λ found. found ≡ judged (reading bytes.now)) }
    ensures fit { IfOk result (λ found. IfOk found IsFit) }
{
    match read_classes(alloc, bytes) {
        Ok(file) => {
            // Called for its clauses alone: it computes nothing.
            file.codes();
            Ok(Ok(file))
        }
        Err(BtFault::Memory) => Err(Memory),
        Err(fault) => Ok(Err(NoMap::Bad(fault))),
    }
}

/// The map that the store has under a name, or why there is none.
fn map_from(alloc: Global, loaded: Loaded) -> Result<Result<BtFile, NoMap>, Memory>
    requires within { IsWithinLimit loaded }
    ensures exact { IfOk result (λ found. found ≡ map_in loaded) }
    ensures fit { IfOk result (λ found. IfOk found IsFit) }
{
    match loaded {
        Loaded::Bytes(bytes) => judge(alloc, bytes.as_slice()),
        Loaded::Missing => Ok(Err(NoMap::Missing)),
        Loaded::TooLarge => Ok(Err(NoMap::TooLarge)),
    }
}

/// Loads the file of a name.
fn load<F: Store>(
    alloc: Global,
    name: &Name,
    store: &mut F,
) -> Result<Result<BtFile, NoMap>, StoreFault>
    ensures found { IfOk result (λ found. IfSome (F.files store.old)
        (λ files. found ≡ map_in (loaded_of (files name.now)))) }
    ensures fit { IfOk result (λ found. IfOk found IsFit) }
    ensures same { F.files store.new ≡ F.files store.old }
    ensures store_counts { IsAskCounted result (F.faults store.old) (F.faults store.new) }
    ensures called { F.calls store.new ≤ F.calls store.old + 1 }
{
    let loaded = store.load(alloc, name.as_str())?;
    let found = map_from(alloc, loaded)?;
    Ok(found)
}

/// The two maps, where they are of one resolution.
fn pair_up(first: BtFile, second: BtFile) -> Result<Pair, NoPair>
    requires first { IsFit first }
    requires second { IsFit second }
    ensures exact { result ≡ of_one_size first second }
    ensures fit { IfOk result AreFit }
{
    if first.res() != second.res() {
        return Err(NoPair::OtherResolution {
            first: first.res(),
            second: second.res(),
        });
    }
    Ok(Pair { first, second })
}

/// Loads the second file, after a first one that is a map.
fn load_second<F: Store>(
    alloc: Global,
    first: BtFile,
    name: &Name,
    store: &mut F,
) -> Result<Result<Pair, NoPair>, StoreFault>
    requires fit { IsFit first }
    ensures found { IfOk result (λ found. IfSome (F.files store.old)
        (λ files. found ≡ second_in files first name.now)) }
    ensures fit { IfOk result (λ found. IfOk found AreFit) }
    ensures same { F.files store.new ≡ F.files store.old }
    ensures store_counts { IsAskCounted result (F.faults store.old) (F.faults store.new) }
    ensures called { F.calls store.new ≤ F.calls store.old + 1 }
{
    match load(alloc, name, store)? {
        Ok(second) => Ok(pair_up(first, second)),
        Err(reason) => Ok(Err(NoPair::Second(reason))),
    }
}

/// Loads the files of two names, one after the other, and the second only where the first is a map.
/// Where it is one name, its file is loaded twice.
pub(crate) fn load_pair<F: Store>(
    alloc: Global,
    first: &Name,
    second: &Name,
    store: &mut F,
) -> Result<Result<Pair, NoPair>, StoreFault>
    ensures found { IfOk result (λ found. IfSome (F.files store.old)
        (λ files. found ≡ pair_in files first.now second.now)) }
    ensures fit { IfOk result (λ found. IfOk found AreFit) }
    ensures same { F.files store.new ≡ F.files store.old }
    ensures store_counts { IsAskCounted result (F.faults store.old) (F.faults store.new) }
    ensures called { F.calls store.new
        ≤ F.calls store.old + loads_of (F.files store.old) first.now }
{
    match load(alloc, first, store)? {
        Ok(file) => load_second(alloc, file, second, store),
        Err(reason) => Ok(Err(NoPair::First(reason))),
    }
}
