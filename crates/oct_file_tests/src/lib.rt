//! The tests of [`oct_io`], [`oct_gen`], [`oct_bt`], [`oct_snap`] and [`oct_file_tasks`]: sources,
//! sinks and stores, in memory, of std, and those that fail by a number; scripts that a number
//! makes; files of classes and snapshots, read in pieces of any length, written and cut short, the
//! fault of each kind of bad file, the trees that files are made into, and how each task over one
//! file of classes ends.
//!
//! They compare the definitions with examples worked out by hand, and show that calls succeed while
//! there is memory, which no clause can say. They call public functions alone. `rt test` in this
//! folder proves and runs them, and `rt try --test` runs them with nothing proved.
//!
//! They are a crate of their own, as the folder `tests/` of a Rust crate is, so that the crates
//! under test aren't proved a second time beside them. Nothing stands on this crate.
#![tactic(auto)]

#[cfg(test)]
mod class_files;
#[cfg(test)]
mod conversions;
#[cfg(test)]
mod made;
#[cfg(test)]
mod snapshots;
#[cfg(test)]
mod world;
