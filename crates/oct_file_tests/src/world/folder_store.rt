//! A folder in which files can't be read or written.
use super::{expect_load, expect_missing, expect_no_load, expect_save};
use oct_io::{FolderStore, Loaded, Store, StoreFault};
use std::alloc::Global;
use std::fs::OpenFile;
use std::process::Abort;
use std::rt::Files;
use std::test::Fail;
use std::{fs, io};

/// Expects that a load finds a file that is too large.
fn expect_too_large<F: Store>(rt: &impl Abort, alloc: Global, store: &mut F, name: &str) {
    assert!(rt; matches!(store.load(alloc, name), Ok(Loaded::TooLarge)));
}

/// Makes a file of one byte more than a store loads.
fn make_large<R: Files>(rt: &R, name: &str) -> io::Result<()> {
    fs::create(rt, name)?.set_len((1 << 30) + 1)
}

/// Looks for a file that is too large, and for one that isn't there.
fn look_for_none<F: Store>(rt: &impl Abort, alloc: Global, store: &mut F) {
    expect_too_large(rt, alloc, store, "large.bt");
    expect_missing(rt, alloc, store, "no_folder/map.bt");
}

/// A folder can be opened, and has no bytes to read. A file has no files in it, which is another
/// fault than that there is no such file.
fn fail_to_load<F: Store>(rt: &impl Abort, alloc: Global, store: &mut F) {
    expect_no_load(rt, alloc, store, ".");
    expect_save(rt, store, "map.bt", b"bytes", Ok(()));
    expect_no_load(rt, alloc, store, "map.bt/map.bt");
}

/// A save that fails leaves the old file whole, and no part of a new one.
fn fail_to_save<F: Store>(rt: &impl Abort, alloc: Global, store: &mut F) {
    let failed = Err(StoreFault::Failed);
    expect_save(rt, store, "map.bt/map.bt", b"more bytes", failed);
    expect_load(rt, alloc, store, "map.bt", b"bytes");
    expect_missing(rt, alloc, store, ".octomap.part");
    expect_save(rt, store, "no_folder/map.bt", b"bytes", failed);
}

/// Takes away the files that were made.
fn clear<R: Files>(rt: &R) -> io::Result<()> {
    fs::remove_file(rt, "large.bt")?;
    fs::remove_file(rt, "map.bt")
}

/// Loads and saves files of the folder.
fn fail_by_turns<R: Files + Drop>(rt: &impl Abort, alloc: Global, mut store: FolderStore<R>) {
    look_for_none(rt, alloc, &mut store);
    fail_to_load(rt, alloc, &mut store);
    fail_to_save(rt, alloc, &mut store);
}

#[test]
fn faults_are_told_and_absent_or_large_files_are_none(rt: HostRuntime) -> Result<(), Fail> {
    make_large(&rt, "large.bt")?;
    fail_by_turns(&rt, rt.alloc(), FolderStore::new(&rt));
    clear(&rt)?;
    Ok(())
}
