//! Scripts of any size, made from a number.
//!
//! A session can be tried on a large input without a data set: [`gen_script`] writes a script of a
//! given number of scans with a given number of points each; the seed chooses the numbers in it.
//!
//! ```text
//! gen_script(&mut out, 1, 1, 2)?;
//!
//! # octomap gen 1 1 2
//! scan 1.623 0.736 -0.802 1 0 0 -2 8
//! p -4.77 -2.678 3.186
//! p -2.145 2.778 -0.864
//! end
//! quit
//! ```
//!
//! What the contracts promise, for every seed and every count:
//!
//! - [`gen_script`] appends exactly `script_of` of `specs/Script.antt`, or a prefix of it where
//!   memory runs out.
//! - [`generate`] writes the same text to a sink. After an error a prefix was written, and exactly
//!   one write of the sink gave up, for the same reason.
//! - A [`Generator`] is a source of the same text. It always tells what is still to come, no read
//!   of it fails, and each read fills its buffer, but for the last one.
//! - A script has at most 62 bytes, and for each scan 59, and 41 for each of its points
//!   ([`scripts_are_short`]).
//!
//! `specs/Draws.antt` names each draw by its index, from 0 on: the state after one step more than
//! that from the seed, without its lowest 33 bits. In `specs/Script.antt` each line is a function
//! of the index of its first draw, so that the definition needs no state that goes from line to
//! line.
//!
//! The code keeps that state (`draws`), makes one line at a time in a string of 128 bytes (`line`),
//! and knows what comes next (`lines`). So a `Generator` and `generate` hold one line or one piece,
//! and take no memory.
//!
//! A session reads a generator as it reads any other source, and the program writes it out.
#![tactic(auto)]

mod draws;
mod generator;
mod laws;
mod line;
mod lines;
mod writing;

pub use generator::Generator;
pub use laws::scripts_are_short;
pub use writing::{gen_script, generate};
