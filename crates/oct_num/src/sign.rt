//! The minus before a number.
ghost use Rattle.std.specs.Prelude.{◌≡◌, ◌^◌, ◌<◌, ◌≤◌, ◌&&◌, nat_lt, nat_eq, get_or, drop, length};
ghost use Rattle.std.specs.Prelude.{unsigned_abs};
ghost use Rattle.oct_num.specs.Sign.{signed_number, has_minus, without_minus};

/// Whether a text begins with a minus, and the text without it.
pub fn split_sign(text: &[u8]) -> (bool, &[u8])
    ensures minus { result.0 ≡ has_minus text.now }
    ensures rest { result.1.now ≡ without_minus text.now }
    ensures short { length result.1.now ≤ length text.now }
{
    match text {
        [b'-', rest @ ..] => (true, rest),
        _ => (false, text),
    }
}

/// Whether a byte stands at an index of a text.
#[inline(always)]
pub(crate) fn has_at(text: &[u8], at: usize, byte: u8) -> bool
    ensures { result ≡ (nat_lt at (length text.now) && nat_eq (get_or text.now at 0) byte) }
{
    at < text.len() && text[at] == byte
}

/// Whether a minus stands at an index of a text, and the index behind it.
#[inline(always)]
pub(crate) fn skip_sign(text: &[u8], from: usize) -> (bool, usize)
    requires { from ≤ length text.now }
    ensures minus { result.0 ≡ has_minus (drop from text.now) }
    ensures rest { drop result.1 text.now ≡ without_minus (drop from text.now) }
    ensures within { result.1 ≤ length text.now }
{
    if has_at(text, from, b'-') {
        (true, from + 1)
    } else {
        (false, from)
    }
}

/// The number of this sign and magnitude.
pub(crate) fn with_sign(minus: bool, magnitude: u64) -> i64
    requires { magnitude < 10 ^ 18 }
    ensures value { result ≡ signed_number minus magnitude }
    ensures same { unsigned_abs result ≡ magnitude }
{
    if minus {
        -(magnitude as i64)
    } else {
        magnitude as i64
    }
}
