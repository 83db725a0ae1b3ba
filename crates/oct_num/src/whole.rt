//! Whole numbers read from decimal text and written as such.
ghost use Rattle.std.specs.Prelude.{◌≡◌, ◌↔◌, ◌+◌, ◌^◌, ◌<◌, ◌++◌, ℤ, unsigned_abs, length};
ghost use Rattle.std.specs.Prelude.{vec_len, vec_capacity, OnOk, OnErr, Some, IfSome};
ghost use Rattle.std.specs.Fmt.{signed_decimal};
ghost use Rattle.oct_num.specs.Whole.{natural_of, whole_of, IsWholeNumber};

use crate::decimal::add_digits;
use crate::memory::Memory;
use crate::sign::{split_sign, with_sign};
use itoa::Buffer;

const MOST_DIGITS: usize = 18;

/// Reads a whole number: an optional `-` and one to eighteen digits, a form of this project's own
/// whose numbers all fit an `i64`. Every other text is `None`. Leading zeros count as digits, and
/// `-0` is 0.
#[tactic(auto, unfolding(crate::specs::Whole::whole_of))]
pub fn read_whole(text: &[u8]) -> Option<i64>
    ensures exact { result ≡ whole_of text.now }
    ensures reach { IfSome result (λ n. unsigned_abs n < 10 ^ 18) }
    ensures number { (n : ℤ) → (result ≡ Some n) ↔ IsWholeNumber text.now n }
{
    let (minus, digits) = split_sign(text);
    let magnitude = read_natural(digits)?;
    Some(with_sign(minus, magnitude))
}

/// Reads a number of one to eighteen digits. Every other text is `None`. Leading zeros count as
/// digits.
pub fn read_natural(digits: &[u8]) -> Option<u64>
    ensures exact { result ≡ natural_of digits.now }
    ensures reach { IfSome result (λ n. n < 10 ^ 18) }
    ensures below { IfSome result (λ n. n < 10 ^ length digits.now) }
{
    let (number, end) = add_digits(0, digits, 0);
    if end == 0 || end > MOST_DIGITS || end < digits.len() {
        return None;
    }
    Some(number)
}

/// Appends the decimal text of a number, as `itoa` writes it: a `-` if it's below 0, and its
/// digits without leading zeros. After `Memory` nothing was appended.
pub fn push_whole(out: &mut Vec<u8>, n: i64) -> Result<(), Memory>
    ensures ok { OnOk result (out.new.items ≡ out.old.items ++ signed_decimal n) }
    ensures err { OnErr result (out.new.items ≡ out.old.items) }

    // Memory runs out only where there isn't room for the text.
    ensures memory { OnErr result
        (vec_capacity out.old < vec_len out.old + length (signed_decimal n)) }
{
    let mut buffer = Buffer::new();
    out.extend_from_slice(buffer.format(n).as_bytes())?;
    Ok(())
}
