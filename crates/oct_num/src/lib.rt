//! Numbers as decimal text, and division and roots that round by a rule.
//!
//! Lengths are whole nanometres in an `i64`, written as decimal metres: `-1.25` stands for
//! -1,250,000,000.
//!
//! ```text
//! let nm = read_metres(b"-1.25")?;        // -1_250_000_000
//! let text = metres_text(nm);             // "-1.25"
//! let down = floor_div(-7, 2);            // -4
//! let near = round_half_up(-3, 2);        // -1
//! let root = ceil_sqrt(5);                // 3
//! ```
//!
//! The crate promises, for every text and number:
//!
//! - `read_metres` answers the nanometres of exactly the texts of an optional minus, one to seven
//!   digits, and optionally a point and one to nine digits. To every other text it answers where
//!   the text stops being a number, or which digit is one too many.
//! - `metres_at` takes such a length that begins at an index of a text, as far as its digits go,
//!   and answers the index of what follows it.
//! - `read_whole` answers the number of exactly the texts of an optional minus and one to eighteen
//!   digits, and `read_natural` that of exactly the texts of one to eighteen digits.
//! - `metres_text` writes nanometres; below 10^16 in magnitude it is the shortest text that is read
//!   as them. `push_metres` appends it, or leaves the bytes as they were.
//! - `fraction_text` writes the fraction n / 10^places: a point and its digits without zeros at the
//!   end, or nothing for 0.
//! - `push_whole` appends the decimal text of a number, or leaves the bytes as they were.
//! - `floor_div` rounds down for negative numbers too.
//! - `round_half_up` answers the nearest whole number to a fraction, and the upper one at a tie.
//! - `ceil_sqrt` answers the least whole number whose square is at least a number.
//!
//! A reader of texts takes off the sign (`split_sign`), splits the digits at the front from what
//! follows them, and computes in unsigned numbers; the sign comes last. `read_metres` and
//! `read_whole` are stated twice: as functions from texts to answers (`metres_of`, `whole_of`),
//! which other definitions compute with, and by the form of the text alone (`IsMetres`, `BreaksAt`,
//! `HasExcess`, `IsWholeNumber`), which says nothing of how the text is read. Rounding too is
//! stated twice: as the floor of `(2n + d) / (2d)` (`half_up`), and as the number that no other one
//! is nearer than (`IsNearest`).
//!
//! [`Items`] keeps what it is given, in order: lists inside answers are of this type.
//!
//! `Memory` is the error of every call that fails only because memory ran out.
//!
//! It's the lowest crate: keys, poses, beams, the words of a command line, the script and the
//! replies stand on it.
#![tactic(auto)]

mod decimal;
mod division;
mod items;
mod memory;
mod metres;
mod metres_writing;
mod root;
mod rounding;
mod sign;
mod whole;

pub use division::floor_div;
pub use items::Items;
pub use memory::Memory;
pub use metres::{NumFault, metres_at, read_metres};
pub use metres_writing::{fraction_text, metres_text, push_metres};
pub use root::ceil_sqrt;
pub use rounding::round_half_up;
pub use sign::split_sign;
pub use whole::{push_whole, read_natural, read_whole};
