//! The texts that the library hands out: its version, and the names of codes.
ghost use Rattle.std.specs.Prelude.{◌≡◌, map, option_map, nat_eq};
ghost use Rattle.std.specs.List.{find};
ghost use Rattle.octofix.specs.Names.{name_code, name_left, name_of, names, row_seen, version};

use crate::refusal::{
    BAD_ARGUMENT, CLEAR, CLOSED, DONE, MEMORY, NONE, OPEN, OTHER_ODDS, SMALL_BUFFER, UNKNOWN,
};

/// The version of the library, with a zero at its end.
const VERSION: &[u8] = b"1.0.0\0";

/// A code, and its name with a zero at its end.
#[derive(Clone, Copy)]
struct Row {
    code: u32,
    text: &'static [u8],
}

/// The row of a code.
macro_rules! row {
    ($code:expr, $text:literal) => {
        Row { code: $code, text: $text }
    };
}

/// The codes that have names: those of refusals, as replies have them, and the library's own.
const NAMES: [Row; 45] = [
    row!(3, b"BadResolution\0"),
    row!(4, b"BadModel\0"),
    row!(5, b"ZeroQuaternion\0"),
    row!(6, b"OriginOutside\0"),
    row!(7, b"PointOutside\0"),
    row!(8, b"TooManyCells\0"),
    row!(9, b"TooManyBlocks\0"),
    row!(10, b"NotOctomap\0"),
    row!(11, b"FloatTree\0"),
    row!(12, b"WrongId\0"),
    row!(13, b"MissingField\0"),
    row!(14, b"BadField\0"),
    row!(15, b"HeaderTooLong\0"),
    row!(16, b"TooDeep\0"),
    row!(17, b"Truncated\0"),
    row!(18, b"TrailingBytes\0"),
    row!(19, b"SizeMismatch\0"),
    row!(20, b"BadMagic\0"),
    row!(21, b"BadSnapshot\0"),
    row!(22, b"Stale\0"),
    row!(23, b"Full\0"),
    row!(24, b"Outside\0"),
    row!(25, b"BadDepth\0"),
    row!(26, b"BadBox\0"),
    row!(27, b"WideWhileTracked\0"),
    row!(28, b"NotTracked\0"),
    row!(29, b"Syntax\0"),
    row!(30, b"LongLine\0"),
    row!(31, b"OpenScan\0"),
    row!(32, b"TooManyPoints\0"),
    row!(33, b"NoFile\0"),
    row!(34, b"FileTooLarge\0"),
    row!(35, b"OtherResolution\0"),
    row!(37, b"TooManyFrontiers\0"),
    row!(38, b"WideGrid\0"),
    row!(39, b"TooManyBoxes\0"),
    row!(CLOSED, b"Closed\0"),
    row!(OPEN, b"Open\0"),
    row!(UNKNOWN, b"Unknown\0"),
    row!(CLEAR, b"Clear\0"),
    row!(NONE, b"None\0"),
    row!(MEMORY, b"Memory\0"),
    row!(SMALL_BUFFER, b"SmallBuffer\0"),
    row!(BAD_ARGUMENT, b"BadArgument\0"),
    row!(OTHER_ODDS, b"OtherOdds\0"),
];

/// The table.
fn table() -> &'static [Row]
    ensures { map row_seen result.now ≡ names }
{
    &NAMES
}

/// The row of a code, if there is one.
fn find_row(rows: &'static [Row], code: u32) -> Option<&'static Row>
    ensures { option_map (λ row. row.now) result ≡ find (λ row. nat_eq row.code code) rows.now }
{
    rows.iter().find(|row| row.code == code)
}

/// The name of a code, if it has one.
fn name_of(code: u32) -> Option<&'static [u8]>
    ensures { option_map (λ name. name.now) result ≡ name_of code }
{
    let row = find_row(table(), code)?;
    Some(row.text)
}

/// Hands out the version of the library, as a text that stays.
#[unsafe(no_mangle)]
pub extern "C" fn octofix_version_text(text: &mut &'static [u8]) -> u32
    ensures code { result ≡ DONE }
    ensures text { text.new.now ≡ version }
{
    *text = VERSION;
    DONE
}

/// Hands out the name of a code, as a text that stays. Where the code has none the place stays as
/// it was.
#[unsafe(no_mangle)]
pub extern "C" fn octofix_code_text(code: u32, text: &mut &'static [u8]) -> u32
    ensures code { result ≡ name_code (name_of code) }
    ensures text { text.new.now ≡ name_left text.old.now (name_of code) }
{
    match name_of(code) {
        Some(name) => {
            *text = name;
            DONE
        }
        None => NONE,
    }
}
