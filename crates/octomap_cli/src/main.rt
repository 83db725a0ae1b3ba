//! The program `octomap`: scripts in, replies out, and the log-odds of each voxel in between.
//!
//! # What it is
//!
//! `octomap session RES` answers a script of edits, scans and queries from its input, and other
//! first words ask for a task over files or over a script that a number makes. The page of
//! `oct_tasks` goes through them, and docs/FORMATS.md has the words, the scripts and the replies.
//!
//! ```text
//! $ printf 'hit 0 0 0\nget 0 0 0 16\n' | octomap session 0.1
//! ok
//! known 850 occupied
//! ```
//!
//! # What it promises
//!
//! The contract of [`oct_tasks::run`], proved: for every script, where source and sink tell their
//! bytes, what is written and the status are those of the plain fold over each single voxel, and
//! whatever fails, what was written is a prefix of that. What contracts don't tell of standard
//! input and output and of a folder is tested.
//!
//! # How it works
//!
//! `main` joins `run` to the standard input and output and to the current folder. The tests call
//! `run` over sources, sinks and stores in memory: inputs in pieces of any length, and a fault at
//! each call. What scripts and files are answered stands as rows in the folder `tests/rows`, which
//! the built program is run on.
//!
//! # Who stands on it
//!
//! Nothing: this is the top. It stands on `oct_tasks` for what it does, and on `oct_io` for
//! the world and the statuses.
#![tactic(auto)]

#[cfg(test)]
mod tests;

use oct_io::{FolderStore, Status, StdSink, StdSource};
use oct_tasks::run;
use std::process::ExitCode;
use std::{env, io};

/// The words of the command line, without the program's own name.
fn words_from(rt: &HostRuntime) -> io::Result<Vec<String>> {
    let mut all = env::args(rt)?;
    all.next();
    let mut words = Vec::new(rt.alloc());
    for word in all {
        words.push(word)?;
    }
    Ok(words)
}

/// Runs these words on the standard input and output and the current folder.
fn run_here(rt: &HostRuntime, words: &[String]) -> Status {
    let mut source = StdSource::new(rt.stdin());
    let mut sink = StdSink::new(rt.stdout());
    let mut store = FolderStore::new(rt);
    run(rt.alloc(), words, &mut source, &mut sink, &mut store)
}

/// Does what the words of the command line ask for.
fn status_of(rt: &HostRuntime) -> Status {
    match words_from(rt) {
        Ok(words) => run_here(rt, &words),
        Err(error) if error.kind() == io::ErrorKind::OutOfMemory => Status::Memory,
        Err(_) => Status::Usage,
    }
}

fn main(rt: HostRuntime) -> ExitCode {
    let status = status_of(&rt);
    if status != Status::Done {
        let _ = eprintln!(rt; "octomap: {status}");
    }
    ExitCode::from(status as u8)
}
