//! Sessions: scripts in, replies out, and an occupancy map in between.
//!
//! [`serve`] reads a script from a source, does its commands and scans on a map that it is lent,
//! and writes the reply to each command, faulty line and scan block to a sink: before the next
//! read, and before the next change of map or files. The map is that of `oct_map`, the class
//! `OcTree` of the OctoMap library (Hornung et al. 2013) in whole numbers.
//!
//! ```text
//! let options = Options { res, odds: OddsModel::default(), limits, max_bytes: MOST_BYTES };
//! let mut map = options.new_map(alloc);
//! let status = serve(alloc, &options, &mut map, &mut source, &mut sink, &mut store);
//! ```
//!
//! What it promises:
//!
//! - **Replies.** `specs/Session.antt` defines a session as a function of the whole byte string:
//!   its lines up to a `quit` or to the end, each line outside a scan block, and each block
//!   (`specs/ScanBlock.antt`) as a whole, answered from the plain fold over each single voxel's
//!   history (`specs/History.antt`). No tree is in that definition.
//! - **Files.** `save` puts the canonical file of the voxels' classes under a name of the store,
//!   and `load` makes the map that of such a file, or is refused for the first thing that is wrong
//!   with it (`specs/FileCommands.antt`). So do `snapshot` and `restore` with values, log-odds and
//!   update box.
//! - **Endings.** Where source and sink tell their bytes, as those in memory do, and the store its
//!   files or no line names one, `specs/Ending.antt` says for each status what is written and what
//!   is left of the input. Stopped by a fault or out of memory, what was written is a prefix of the
//!   answer; on a read fault it is exactly the replies to the lines within the bytes taken.
//! - **Counts.** A count of faults rises by one exactly where the status names its fault, so no
//!   call that failed is tried again, and nothing is read after `quit` or a fault. The end of a
//!   script is met once at most, and the store is asked once at most for each line that names a
//!   file (`specs/FaultCounts.antt` of `oct_io`).
//! - **Map and files.** Under the same premise, whatever the status, the lent map then stands for
//!   the history of the lines that count, and the files are those after the same lines
//!   (`StandsFor` and `Leaves` of `specs/Leaving.antt`). Without it the map stands for some history
//!   all the same.
//!
//! How it works: `service` reads pieces of at most 16 KiB and hands each to `session`, which has
//! `oct_script` find the lines in them. `lines` reads a line and says what it does, inside a block
//! and outside; `kinds` tells the commands apart, once, by what does them; `scan_block` keeps the
//! scan that is being read; `commands` has the map do what it's ordered and answer what it's asked;
//! `files` saves, loads and restores. `buffer` keeps the replies that aren't written yet, and
//! `ahead` reads edits that come one after another, whose replies are written together; map, store,
//! sink and the handle of memory go from call to call as one `Context`.
//! `building` writes the file of a script's map in place of the replies, and `drilling` four lines
//! about the session over a script that `oct_gen` makes. `oct_tasks` and `oct_promise` stand on
//! this crate.
#![tactic(auto)]

mod ahead;
mod buffer;
mod building;
mod commands;
mod context;
mod drilling;
mod files;
mod kinds;
mod lines;
mod options;
mod scan_block;
mod service;
mod session;
mod tally;

pub use building::build;
pub use drilling::drill;
pub use oct_gen::gen_script;
pub use options::{MOST_BYTES, Options};
pub use service::serve;
