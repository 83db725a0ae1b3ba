//! Tasks over files: what is asked of the file of classes that a source gives, and what two files
//! of a store give together.
//!
//! ```text
//! match answer_over_file(alloc, FileTask::Convert, 1 << 26, &mut source, &mut sink) {
//!     Status::Done => {}       // the canonical file of the same classes was written
//!     Status::BadFile => {}    // a line was written, as `refused 13 MissingField size`
//!     _ => {}                  // too long, a fault, or memory runs out
//! }
//! ```
//!
//! What the contracts promise:
//!
//! - [`read_file`] answers the file that the whole input of a source is, or its first fault, or why
//!   there is neither: one byte more than it may have was taken, a read failed, or memory ran out.
//!   The first two come before any fault of the file. How much of the input was taken is told, and
//!   nothing is read after the answer is known.
//! - [`answer_over_file`] writes what is asked of that file: the canonical one of its classes, six
//!   lines about it, its frontier, a grid or a scene, or why that is refused. This is a function of
//!   the input's bytes (`over_file_answer` in `specs/FileTasks.antt`). Nothing is written before
//!   the input has ended; on a fault of the sink, or where memory runs out, a part of that text
//!   was, and not all of it. `EndsOverFile` in `specs/Ending.antt` says how each run may end.
//! - A conversion writes a file whose node data is canonical with the records that were read, and
//!   needs no memory for it once the input has ended. Of any other it fills a tree with the
//!   classes, so that the writer merges what is of one class.
//! - [`do_over_store`] loads two files of a store, and writes the file of the map that they give
//!   together, or how many voxels of a box have which classes in them: a function of both
//!   (`store_reply` in `specs/OverStore.antt`). The first file is judged before the second is
//!   loaded. Nothing is written where the store fails, and the files stay as they are.
//! - A count of faults rises by one exactly where the status names the fault, and the end of the
//!   input is met once at most.
//!
//! `file_task` has a file read (`input`) and hands it to what is asked of it: `canonical` writes it
//! again, `report` has the lines about it, and `frontiers` and `grids` fill a tree with its classes
//! (`file_tree`). `no_file` ends a task without one, and `sending` writes replies, a `refusal`
//! among them. `merging` goes by two files, which `two_files` loads, and `pair_text` has its texts.
//!
//! `oct_tasks` stands on this crate. It stands on `oct_bt` for the file, on `oct_tree`,
//! `oct_frontier` and `oct_export` for the frontier, the grid and the boxes of one, on `oct_join`
//! for the merge of two and their table, on `oct_merge` for the rules, on `oct_script` for names of
//! files and of classes and for the lines of refusals, on `oct_num`, `oct_key` and `oct_odds` for
//! points and models, and on `oct_io` for the world and the statuses.
#![tactic(auto)]

mod canonical;
mod file_task;
mod file_tree;
mod frontier_text;
mod frontiers;
mod grids;
mod input;
mod merging;
mod no_file;
mod pair_text;
mod refusal;
mod report;
mod sending;
mod store_task;
mod two_files;

pub use file_task::{FileTask, answer_over_file};
pub use input::{NoFile, read_file};
pub use merging::do_over_store;
pub use store_task::{PairTask, StoreTask};
