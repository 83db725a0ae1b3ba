//! Files that are kept by name, in memory and in a folder.
use super::{expect_found, expect_load, expect_missing, expect_save};
use oct_io::{FolderStore, MemoryStore, Store};
use std::alloc::Global;
use std::process::Abort;
use std::rt::Files;
use std::test::Fail;
use std::{fs, io};

/// Saves two files, one of them twice, and loads them and one that isn't there.
fn keeps_files<F: Store>(rt: &impl Abort, alloc: Global, store: &mut F) {
    expect_missing(rt, alloc, store, "one.bt");
    expect_save(rt, store, "one.bt", b"first", Ok(()));
    expect_save(rt, store, "two.bt", b"", Ok(()));
    expect_save(rt, store, "one.bt", b"then", Ok(()));
    expect_load(rt, alloc, store, "one.bt", b"then");
    expect_load(rt, alloc, store, "two.bt", b"");
    expect_missing(rt, alloc, store, "one");
}

/// Expects that the store has these bytes under the name.
fn expect_file(rt: &impl Abort, store: &MemoryStore, name: &str, want: Option<&[u8]>) {
    expect_found(rt, store.file(name), want);
}

#[test]
fn files_are_kept_by_name(rt: HostRuntime) {
    let mut store = MemoryStore::new(rt.alloc());
    keeps_files(&rt, rt.alloc(), &mut store);
    expect_file(&rt, &store, "one.bt", Some(b"then".as_slice()));
    expect_file(&rt, &store, "three.bt", None);
}

/// Takes away the files that were saved.
fn clear<R: Files>(files: &R) -> io::Result<()> {
    fs::remove_file(files, "one.bt")?;
    fs::remove_file(files, "two.bt")
}

#[test]
fn a_folder_keeps_files_by_name(rt: HostRuntime) -> Result<(), Fail> {
    keeps_files(&rt, rt.alloc(), &mut FolderStore::new(&rt));
    clear(&rt)?;
    Ok(())
}
