//! Scripts: their lines, the commands that the lines ask for, and the texts of the replies.
//!
//! A script is bytes. [`Lines`] takes them in pieces, as they come, and holds the line that is
//! being read; a line that stands whole in a piece is found there ([`Lines::whole`]). [`parse`]
//! reads a line as a [`Command`], and [`parse_into`] puts it in a place; [`push_reply`] appends the
//! text of a [`Reply`]. What a command does isn't known here, nor whether a scan is open: the
//! caller says so.
//!
//! ```text
//! let command = parse(b"get 0.05 0 0 16", false)?;  // Command::Get { p, depth: 16 }
//! let fault = parse(b"get 0.05 0 O 16", false);     // Err(Syntax { column: 12 })
//! push_reply(&mut out, &Reply::Ok)?;                // appends b"ok\n"
//! ```
//!
//! What the contracts promise:
//!
//! - However a script is cut into pieces, [`Lines::feed`] ends exactly the lines that `ended_lines`
//!   of `specs/Lines.antt` has, one after another, with one carriage return dropped before each
//!   line feed. So does [`Lines::whole`] with the lines that it finds. A line of more than 4,096
//!   bytes is long, and of it nothing more is kept or known. What remains at the end is the last
//!   line, where it has any byte.
//! - [`parse`] answers what the grammar says, to the column: `grammar` in `specs/Grammar.antt` is a
//!   table of forms, word by word, and `command_of` in `specs/Commands.antt` goes through a line's
//!   words with the forms that may still stand. The first word that none of them takes is the
//!   fault; where a word is missing it is the end of the line. Inside the block of a scan
//!   `block_grammar` stands in its place, and a first word of the other table is the fault.
//!   `specs/Faults.antt` says the same of whole lines: which form a line has, and after which
//!   longest front of it no form goes on.
//! - [`opens_scan`] reports whether a line's first word is `scan`, whatever its other words are:
//!   such a line opens a block.
//! - [`push_reply`] appends exactly `reply_text` of `specs/Replies.antt`, or nothing where memory
//!   runs out.
//! - [`file_refusal`] makes a refusal of what is wrong with a file of classes; its text is that of
//!   the fault in `oct_bt`, so that a `load` is refused with the words of a task over that file.
//!
//! `lines` keeps a line in an `ArrayVec` of 4,096 bytes, and `words` goes through it once, from the
//! left; neither allocates. `numbers` says what a word spells, and `verbs` what a first word
//! begins. `parser` reads word by word, with one small function for each part of a form, and the
//! last one puts the command in its place, so that it isn't moved from call to call.
//! `specs/Reading.antt` says how, for the proofs; the grammar doesn't rest on it.
//!
//! Sessions stand on this crate.
#![tactic(auto)]

mod command;
mod lines;
mod name;
mod numbers;
mod parser;
mod reply;
mod verbs;
mod words;

pub use command::{Command, Edit, ScanHead, ScanOdds, Syntax};
pub use lines::{Fed, LONGEST_LINE, Lines, ReadLine, WholeLine};
pub use name::Name;
pub use numbers::number_of;
pub use oct_bt::HeaderWord;
pub use parser::{opens_scan, parse, parse_into};
pub use reply::{Refusal, Reply, ScanDone, file_refusal, push_reply};
pub use verbs::FileVerb;
