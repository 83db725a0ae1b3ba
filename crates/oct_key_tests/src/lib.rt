//! The tests of [`oct_num`], [`oct_key`], [`oct_brick`], [`oct_odds`], [`oct_pose`] and
//! [`oct_ray`]: numbers that are read, written and rounded; resolutions, voxels, blocks, codes and
//! boxes; bricks that are joined; log-odds at and beyond their bounds; points that are turned and
//! moved; beams that are cut, and the voxels that they meet.
//!
//! They compare the definitions with examples worked out by hand, and show that calls succeed while
//! there is memory, which no clause can say. They call public functions alone. `rt test` in this
//! folder proves and runs them, and `rt try --test` runs them with nothing proved.
//!
//! They are a crate of their own, as the folder `tests/` of a Rust crate is, so that the crates
//! under test aren't proved a second time beside them. Nothing stands on this crate.
#![tactic(auto)]

#[cfg(test)]
mod beams;
#[cfg(test)]
mod bricks;
#[cfg(test)]
mod keys;
#[cfg(test)]
mod numbers;
#[cfg(test)]
mod odds;
#[cfg(test)]
mod poses;
