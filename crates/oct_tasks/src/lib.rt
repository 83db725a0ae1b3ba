//! What the words of a command line ask for, done: a session over a script, and tasks over files.
//!
//! # What it is
//!
//! [`run`] is the program but for its standard input and output and its folder: it's lent the words
//! of a command line, a source, a sink and a store of files, and answers with a status.
//!
//! `session RES` reads a script of edits, scans and queries from the source, keeps one clamped
//! log-odds value for each voxel of a map whose voxels have the edge RES, and answers each line, or
//! block of a scan, before what follows is looked at. The map is an octree, and the model of
//! occupancy is that of Hornung et al. 2013 and of the OctoMap library's class `OcTree`, in whole
//! numbers.
//!
//! `convert` and `inspect` read a `.bt` file of that library from the source: the one writes the
//! canonical file of the same classes, the other six lines about the file. `frontier` lists the
//! free voxels of such a file, between two points, that have unknown ones beside them, `project`
//! writes the height band between two points as a grey picture, and `vrml` the occupied space as a
//! scene of boxes. `merge` and `table` load two such files from the store: the one writes the file
//! of the map that they give together, the other how many voxels between two points have which
//! classes in them. `build` writes the file of the map that a script leaves. `gen` writes a script
//! of scans that a number makes, and `drill` does that script and writes four lines about it.
//!
//! ```text
//! let mut source = MemorySource::new(FileBytes::from_slice(alloc, b"hit 0 0 0\n")?, 4096);
//! let mut sink = MemorySink::new(alloc, 4096);
//! let status = run(alloc, &words, &mut source, &mut sink, &mut MemoryStore::new(alloc));
//! ```
//!
//! With `session` and `0.1` as its words it has written `ok` and a line feed then, and answered
//! `Status::Done`.
//!
//! # What it promises
//!
//! The contract of [`run`], proved: for every script, where source and sink tell their bytes, what
//! is written and the status are those of the plain fold over each single voxel. Stopped by a fault
//! or out of memory, what was written is a prefix of that; on a read fault it is exactly the
//! replies to the lines that lie whole in the bytes taken. What a task over a file writes is a
//! function of the file, and what one over two files writes a function of both. `specs/Ending.antt`
//! says this over the tasks that the words of the command line ask for (`Words`, `Task`) and what
//! they read (`Needs`), over the session of `oct_session`, and over the endings of
//! `oct_file_tasks`.
//!
//! # How it works
//!
//! `words` finds the options among the words of the command line, and `task` reads the task that
//! they ask for. For a session `program` makes the map of the unknown world, which may grow as far
//! as the options say, and lends it to the loop of `oct_session`. The tasks over files are those of
//! `oct_file_tasks`.
//!
//! # Who stands on it
//!
//! `octomap_cli`, the program, whose tests go through all of it. It stands on `oct_session` for the
//! loop, on `oct_map` for the map that the loop is lent, on `oct_file_tasks` for the tasks over
//! files, on `oct_gen` for a script that a number makes, on `oct_num`, `oct_key`, `oct_odds` and
//! `oct_merge` for the numbers and the rules of the command line, on `oct_script` for what a
//! log-odds and a name are there, and on `oct_io` for the world and the statuses.
#![tactic(auto)]

mod program;
mod task;
mod words;

pub use program::run;
pub use task::{Task, Usage, read_words};
