//! The map as a library for C: a handle, and calls that answer by codes.
//!
//! The archive of this crate has one function for each call of `octofix.h`. C holds an [`Octofix`],
//! a struct of a pointer and a flag, of which all zeros are a handle without a map. A call takes a
//! pointer to it and plain numbers, and answers a code: 0 where all was done, else the number of
//! the refusal, as a session's replies have it, or one of the library's own from 40 on
//! ([`refusal`]). A slice is a pointer and a count in C. Lengths are whole nanometres, log-odds
//! whole thousandths.
//!
//! ```text
//! octofix_map map = {0};
//! octofix_details why;
//! octofix_open(&map, 100000000, &odds, &limits, &why);          // voxels of 0.1 m
//! octofix_edit(&map, &point, OCTOFIX_ADD, 850, false, &why);
//! octofix_get(&map, &point, 16, &value);                        // value is 850
//! octofix_close(&map);
//! ```
//!
//! What the contracts promise, of every call of C that keeps to the header's types:
//!
//! - **Codes.** A code is 0 exactly where the call was done, and the number of the map's refusal
//!   exactly where the map refuses so (`asked`, `IsAnswered`, `IsTold`). Memory runs out only where
//!   the map's own clause allows it. No number that is passed has to meet a condition first: each
//!   is tested, and answered by a code of its own.
//! - **Details.** What a refusal names is two numbers by its code (`answer_details`), and 0 where
//!   it names less. Each call that takes a place for them writes it, also where all was done.
//! - **Results.** What stands in each place for a result afterwards is said, also where the call is
//!   refused. A buffer that is too small isn't touched, and the count says what it takes.
//! - **The map.** A query leaves the map as it was. What a change leaves is the map's own record of
//!   it (`IsVoxelEdit`, `IsBoxEdit`, `IsMapScan` and the others), where it is done and where it is
//!   refused. [`edits::octofix_edit_all`] is a chain of single edits (`AreEdits`).
//! - **Grids.** [`grids::octofix_grid`] writes what the columns of a box show (`cells_between`).
//! - **Two maps.** What a merge leaves of both is said by their maps before (`AreMerged`), and of
//!   two handles that aren't one; so is what a merge of a moved map leaves of its own
//!   (`AreShiftMerged`), and it leaves the other one (`same`). A copy has the value of its map,
//!   whole.
//! - **The handle.** A call on a handle without a map is refused and leaves it so, a second open is
//!   refused and leaves the map, and a close leaves none. The handle owns its map alone: who holds
//!   it may change the map, and nobody else can.
//!
//! How it is made: [`slot`] keeps a `Box<OccMap>` as one pointer, and lends the map behind it, by
//! proofs by hand. All else goes by references: a call looks whether there is a map
//! ([`Octofix::map_mut`](handle::Octofix::map_mut)), asks it, and tells the answer. Every export
//! takes `&mut Octofix`, queries too, since an export may not share what it owns; `octofix.h` says
//! what follows for threads.

#![tactic(auto)]

mod answers;
mod batches;
mod bounds;
mod casts;
mod changes;
mod edits;
mod files;
mod grids;
mod handle;
mod limits;
mod lists;
mod making;
mod merging;
mod names;
mod parts;
mod places;
mod queries;
mod rays;
mod refusal;
mod scans;
mod shifting;
mod slot;
mod types;
mod whole;
