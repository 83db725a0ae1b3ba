//! The tests of [`oct_arena`], [`oct_tree`], [`oct_inner`], [`oct_query`], [`oct_merge`],
//! [`oct_shift`], [`oct_change`], [`oct_export`], [`oct_edit`] and [`oct_scan`]: groups that are
//! taken and given back; splits and passes; leaves, bounds and least trees; what merges need; moved
//! maps; notes of changes; the scene of one class; events on one voxel, on the voxels of a scan and
//! on those of a box, with the values and groups that they leave; what refuses a scan. What casts,
//! frontiers, pictures, scans, queries and merges answer is told by the rows of `tests/rows`.
//!
//! They compare the definitions with examples worked out by hand, and show that calls succeed while
//! there is memory, which no clause can say. They call public functions alone. `rt test` in this
//! folder proves and runs them, and `rt try --test` runs them with nothing proved.
//!
//! They are a crate of their own, as the folder `tests/` of a Rust crate is, so that the crates
//! under test aren't proved a second time beside them. Nothing stands on this crate.
#![tactic(auto)]

#[cfg(test)]
mod arenas;
#[cfg(test)]
mod boxes;
#[cfg(test)]
mod changes;
#[cfg(test)]
mod edits;
#[cfg(test)]
mod leaves;
#[cfg(test)]
mod merges;
#[cfg(test)]
mod passes;
#[cfg(test)]
mod pictures;
#[cfg(test)]
mod queries;
#[cfg(test)]
mod scans;
#[cfg(test)]
mod shifts;
#[cfg(test)]
mod splits;
