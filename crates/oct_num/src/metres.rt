//! Decimal metres read as nanometres, and the place of the first byte that is wrong.
ghost use Rattle.std.specs.Prelude.{◌≡◌, ◌↔◌, ℕ, ◌+◌, ◌-◌, ◌*◌, ◌^◌, ◌<◌, ◌≤◌, ℤ, unsigned_abs};
ghost use Rattle.std.specs.Prelude.{length, MatchResult, Ok, Err, IfOk, MatchOption, Some, None};
ghost use Rattle.std.specs.Prelude.{IfSome, drop};
ghost use Rattle.std.specs.List.{AllPass};
ghost use Rattle.oct_num.specs.Decimal.{is_digit, decimal_value};
ghost use Rattle.oct_num.specs.Metres.{fraction_of, limited_nanometres, magnitude_of, metres_of};
ghost use Rattle.oct_num.specs.Metres.{fraction_front, fraction_rest, metres_front};
ghost use Rattle.oct_num.specs.Form.{nanometres, IsMetres, HasExcess, BreaksAt, BeginsWith};

use crate::decimal::{add_digits, digits_value, split_digits};
use crate::sign::{has_at, skip_sign, split_sign, with_sign};
use thiserror::Error;

const MOST_WHOLE_DIGITS: usize = 7;

const MOST_FRACTION_DIGITS: usize = 9;

pub(crate) const NANOMETRES_PER_METRE: u64 = 1_000_000_000;

/// Why a text isn't a length in metres. `at` is the index of a byte of the text, from 0 on; a
/// minus sign counts too.
#[derive(Clone, Copy, Debug, PartialEq, Eq, Error)]
pub enum NumFault {
    /// Not a decimal number, of any count of digits. No such number goes on with the byte at this
    /// index, or the index is the text's length and the text ends early.
    #[error("no decimal number at byte {at}")]
    Syntax { at: u64 },
    /// A decimal number, but the digit at this index is the eighth before the point, or else the
    /// tenth after it.
    #[error("a digit too many at byte {at}")]
    Digits { at: u64 },
}

/// Reads a length in decimal metres, and answers its nanometres.
///
/// The text is an optional `-`, one to seven digits, and optionally a point and one to nine
/// digits, a form of this project's own. Leading zeros count as digits, and `-0` is 0. The form
/// is judged before the count of digits: `12345678.` is `Syntax` at 9.
#[tactic(auto, unfolding(crate::specs::Metres::metres_of))]
pub fn read_metres(text: &[u8]) -> Result<i64, NumFault>
    ensures exact { result ≡ metres_of text.now }
    ensures reach { IfOk result (λ nm. unsigned_abs nm < 10 ^ 16) }

    // The same answers by the form of the text alone.
    ensures value { (nm : ℤ) → (result ≡ Ok nm) ↔ IsMetres text.now nm }
    ensures syntax { (at : ℕ) → (result ≡ Err (NumFault.Syntax at)) ↔ BreaksAt text.now at }
    ensures digits { (at : ℕ) → (result ≡ Err (NumFault.Digits at)) ↔ HasExcess text.now at }
{
    let (minus, magnitude) = split_sign(text);
    let nanometres = read_magnitude(u64::from(minus), magnitude)?;
    Ok(with_sign(minus, nanometres))
}

/// Takes the length in decimal metres that begins at an index of a text: its nanometres, and the
/// index of what follows it. Its digits go as far as they can, and a point belongs to it where a
/// digit follows. `None` comes where no digit stands after its sign, or too many do.
#[inline(always)]
pub fn metres_at(text: &[u8], from: usize) -> Option<(i64, usize)>
    requires { from ≤ length text.now }
    ensures exact { MatchOption result (metres_front (drop from text.now) ≡ None)
        (λ found. metres_front (drop from text.now) ≡ Some (found.0, drop found.1 text.now)) }
    ensures begins { IfSome result
        (λ found. BeginsWith (drop from text.now) found.0 (drop found.1 text.now)) }
    ensures reach { IfSome result (λ found. unsigned_abs found.0 < 10 ^ 16) }
    ensures within { IfSome result (λ found. found.1 ≤ length text.now) }
{
    let (minus, start) = skip_sign(text, from);
    let (whole, point) = add_digits(0, text, start);
    let digits = point - start;
    if digits == 0 {
        return None;
    }
    if digits > MOST_WHOLE_DIGITS {
        return None;
    }
    let (nm, end) = add_fraction(whole, text, point)?;
    Some((with_sign(minus, nm), end))
}

/// The nanometres of whole metres and of the fraction that stands at an index of a text, and the
/// index behind it. Where no digit follows a point there is no fraction. `None` comes where it has
/// too many digits.
#[inline(always)]
fn add_fraction(whole: u64, text: &[u8], point: usize) -> Option<(u64, usize)>
    requires before { whole < 10 ^ 7 }
    requires within { point ≤ length text.now }
    ensures exact { let fraction = fraction_front (drop point text.now) in
        MatchOption result (9 < length fraction) (λ found. (length fraction ≤ 9)
        × (found.0 ≡ whole * 10 ^ 9 + decimal_value fraction * 10 ^ (9 - length fraction))
        × (drop found.1 text.now ≡ fraction_rest (drop point text.now))) }
    ensures reach { IfSome result (λ found. found.0 < 10 ^ 16) }
    ensures within { IfSome result (λ found. found.1 ≤ length text.now) }
{
    if !has_at(text, point, b'.') {
        return Some((whole * NANOMETRES_PER_METRE, point));
    }
    let start = point + 1;
    let (value, end) = add_digits(whole, text, start);
    let digits = end - start;
    if digits == 0 {
        return Some((whole * NANOMETRES_PER_METRE, point));
    }
    if digits > MOST_FRACTION_DIGITS {
        return None;
    }
    Some((value * nanometres_per_unit(digits), end))
}

/// Reads a length after its sign. The text stands from index `start` on.
#[tactic(auto, unfolding(crate::specs::Metres::magnitude_of))]
fn read_magnitude(start: u64, text: &[u8]) -> Result<u64, NumFault>
    requires near { start ≤ 1 }
    requires short { length text.now < 2 ^ 63 }
    ensures exact { result ≡ magnitude_of start text.now }
    ensures reach { IfOk result (λ nm. nm < 10 ^ 16) }
{
    let (whole, rest) = split_digits(text);
    if whole.is_empty() {
        return Err(NumFault::Syntax { at: start });
    }
    let fraction = read_fraction(start + whole.len() as u64, rest)?;
    read_limited(start, whole, fraction)
}

/// The digits after the point, in what follows the digits before it. The point, or what stands in
/// its place, has the index `point`.
#[tactic(auto, unfolding(crate::specs::Metres::fraction_of))]
fn read_fraction(point: u64, rest: &[u8]) -> Result<&[u8], NumFault>
    requires short { point + length rest.now < 2 ^ 64 }
    ensures exact { MatchResult result
        (λ fraction. fraction_of point rest.now ≡ Ok fraction.now)
        (λ fault. fraction_of point rest.now ≡ Err fault) }
    ensures digits { IfOk result (λ fraction. AllPass is_digit fraction.now) }
{
    match rest {
        [] => Ok(rest),
        [b'.', behind @ ..] => {
            let (fraction, other) = split_digits(behind);
            if fraction.is_empty() || !other.is_empty() {
                return Err(NumFault::Syntax {
                    at: point + 1 + fraction.len() as u64,
                });
            }
            Ok(fraction)
        }
        _ => Err(NumFault::Syntax { at: point }),
    }
}

/// The nanometres of these digits, if they are few enough.
#[tactic(auto, unfolding(crate::specs::Metres::limited_nanometres))]
fn read_limited(start: u64, whole: &[u8], fraction: &[u8]) -> Result<u64, NumFault>
    requires near { start ≤ 1 }
    requires whole { AllPass is_digit whole.now }
    requires fraction { AllPass is_digit fraction.now }
    ensures exact { result ≡ limited_nanometres start whole.now (Ok fraction.now) }
    ensures reach { IfOk result (λ nm. nm < 10 ^ 16) }
{
    if whole.len() > MOST_WHOLE_DIGITS {
        let at = start + MOST_WHOLE_DIGITS as u64;
        return Err(NumFault::Digits { at });
    }
    if fraction.len() > MOST_FRACTION_DIGITS {
        let at = start + whole.len() as u64 + 1 + MOST_FRACTION_DIGITS as u64;
        return Err(NumFault::Digits { at });
    }
    Ok(nanometres(whole, fraction))
}

/// The nanometres of these digits before the point and after it.
fn nanometres(whole: &[u8], fraction: &[u8]) -> u64
    requires whole { AllPass is_digit whole.now }
    requires fraction { AllPass is_digit fraction.now }
    requires before { length whole.now ≤ 7 }
    requires behind { length fraction.now ≤ 9 }
    ensures exact { result ≡ nanometres whole.now fraction.now }
    ensures reach { result < 10 ^ 16 }
{
    sum_of(digits_value(whole), digits_value(fraction), fraction.len())
}

/// The nanometres of whole metres and of a fraction that has this many digits.
fn sum_of(whole: u64, fraction: u64, digits: usize) -> u64
    requires before { whole < 10 ^ 7 }
    requires behind { digits ≤ 9 }
    requires small { fraction < 10 ^ digits }
    ensures exact { result ≡ whole * 10 ^ 9 + fraction * 10 ^ (9 - digits) }
    ensures reach { result < 10 ^ 16 }
{
    whole * NANOMETRES_PER_METRE + fraction * nanometres_per_unit(digits)
}

/// The nanometres of one unit in the last of these digits after the point.
fn nanometres_per_unit(digits: usize) -> u64
    requires { digits ≤ 9 }
    ensures { result ≡ 10 ^ (9 - digits) }
{
    match digits {
        0 => 1_000_000_000,
        1 => 100_000_000,
        2 => 10_000_000,
        3 => 1_000_000,
        4 => 100_000,
        5 => 10_000,
        6 => 1_000,
        7 => 100,
        8 => 10,
        _ => 1,
    }
}
