//! Nanometres written as decimal metres, without zeros at the end.
ghost use Rattle.std.specs.Prelude.{◌≡◌, ℕ, List, ◌+◌, ◌^◌, ◌<◌, ◌≤◌, ◌++◌, unsigned_abs, length};
ghost use Rattle.std.specs.Prelude.{vec_len, vec_capacity, Ok, OnOk, OnErr};
ghost use Rattle.std.specs.Int.{is_negative};
ghost use Rattle.arrayvec.specs.ArrayString.{array_string_len};
ghost use Rattle.oct_num.specs.Form.{IsMetres, fraction_text};
ghost use Rattle.oct_num.specs.Metres.{metres_of};
ghost use Rattle.oct_num.specs.MetresText.{leading_digits, metres_text};
ghost use Rattle.oct_num.specs.Sign.{sign_text};

use crate::memory::Memory;
use crate::metres::NANOMETRES_PER_METRE;
use arrayvec::ArrayString;
use itoa::Buffer;

/// The text of a length in decimal metres: a minus where it's below 0, the whole metres, and,
/// where nanometres are left, a point and their digits without zeros at the end. So zero is `0`,
/// and 50,000,000 nm are `0.05`.
pub fn metres_text(nm: i64) -> ArrayString<24>
    ensures exact { result.bytes ≡ metres_text nm }

    // It's read as these nanometres, and no shorter text is.
    ensures read { unsigned_abs nm < 10 ^ 16 → metres_of result.bytes ≡ Ok nm }
    ensures shortest { (text : List ℕ) → IsMetres text nm → length result.bytes ≤ length text }
{
    let magnitude = nm.unsigned_abs();
    let mut text = sign_text(nm);
    text.push_str(Buffer::new().format(magnitude / NANOMETRES_PER_METRE));
    text.push_str(fraction_text(9, magnitude % NANOMETRES_PER_METRE).as_str());
    text
}

/// A minus for a number below 0, and nothing for every other one.
fn sign_text(nm: i64) -> ArrayString<24>
    ensures { result.bytes ≡ sign_text (is_negative nm) }
{
    let mut text = ArrayString::new();
    if nm < 0 {
        text.push('-');
    }
    text
}

/// The text of the fraction n / 10^places: a point and its digits without zeros at the end, or
/// nothing for 0. So 50,000,000 in nine places is `.05`.
pub fn fraction_text(places: u32, n: u64) -> ArrayString<20>
    requires most { places ≤ 19 }
    requires few { n < 10 ^ places }
    ensures exact { result.bytes ≡ fraction_text (leading_digits places n) }
    ensures short { length result.bytes ≤ places + 1 }
{
    let mut text = ArrayString::new();
    if n > 0 {
        text.push('.');
        push_digits(&mut text, places, n);
    }
    text
}

/// Appends the digits of a number of this many digits, up to the last one that isn't 0.
fn push_digits(text: &mut ArrayString<20>, places: u32, n: u64)
    requires most { places ≤ 19 }
    requires few { n < 10 ^ places }
    requires room { array_string_len text.old + places ≤ 20 }
    ensures appended { text.new.bytes ≡ text.old.bytes ++ leading_digits places n }
{
    if n > 0 {
        let unit = 10u64.pow(places - 1);
        text.push(char::from(b'0' + (n / unit) as u8));
        push_digits(text, places - 1, n % unit);
    }
}

/// Appends the text of a length in decimal metres, as [`metres_text`] has it. After `Memory`
/// nothing was appended.
pub fn push_metres(out: &mut Vec<u8>, nm: i64) -> Result<(), Memory>
    ensures ok { OnOk result (out.new.items ≡ out.old.items ++ metres_text nm) }
    ensures err { OnErr result (out.new.items ≡ out.old.items) }

    // Memory runs out only where there isn't room for the text.
    ensures memory { OnErr result
        (vec_capacity out.old < vec_len out.old + length (metres_text nm)) }
{
    out.extend_from_slice(metres_text(nm).as_bytes())?;
    Ok(())
}
