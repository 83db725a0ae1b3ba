//! The tests of [`oct_script`] and [`oct_session`]: lines, commands, names and a reply; the map
//! that is lent to a session after each way in which a script can end, and after a prune; replies
//! that are held, a fault at each call of the world, and the names of the statuses. What lines and
//! scripts are answered is told by the rows of `tests/rows`.
//!
//! They compare the definitions with examples worked out by hand, and show that calls succeed while
//! there is memory, which no clause can say. They call public functions alone. `rt test` in this
//! folder proves and runs them, and `rt try --test` runs them with nothing proved.
//!
//! They are a crate of their own, as the folder `tests/` of a Rust crate is, so that the crates
//! under test aren't proved a second time beside them. Nothing stands on this crate.
#![tactic(auto)]

#[cfg(test)]
mod lines;
#[cfg(test)]
mod sessions;
