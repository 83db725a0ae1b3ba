//! The tests of [`oct_map`]: what an [`oct_map::OccMap`] keeps and gives back of its memory, and
//! the texts of its faults. What its calls answer is told by the rows of `tests/rows` and by the
//! tests in `bindings/c/tests`.
//!
//! They compare the definitions with examples worked out by hand, and show that calls succeed while
//! there is memory, which no clause can say. They call public functions alone. `rt test` in this
//! folder proves and runs them, and `rt try --test` runs them with nothing proved.
//!
//! They are a crate of their own, as the folder `tests/` of a Rust crate is, so that `oct_map`
//! isn't proved a second time beside them. Nothing stands on this crate.
#![tactic(auto)]

#[cfg(test)]
mod tests;
