//! Runs of decimal digits, and the numbers that they stand for.
ghost use Rattle.std.specs.Prelude.{◌≡◌, ℕ, ◌+◌, ◌-◌, ◌*◌, ◌^◌, ◌<◌, ◌≤◌, nat_le, length, drop};
ghost use Rattle.std.specs.Prelude.{take_while};
ghost use Rattle.std.specs.List.{AllPass, prefix_len};
ghost use Rattle.oct_num.specs.Decimal.{is_digit, decimal_value};

/// The decimal digits that a text begins with, and what follows them.
#[tactic(auto, using(crate::proofs::DigitRuns::fronts))]
pub(crate) fn split_digits(text: &[u8]) -> (&[u8], &[u8])
    ensures digits { result.0.now ≡ take_while is_digit text.now }
    ensures count { length result.0.now ≡ prefix_len is_digit text.now }
    ensures all { AllPass is_digit result.0.now }
    ensures rest { result.1.now ≡ drop (prefix_len is_digit text.now) text.now }
    ensures together { length result.0.now + length result.1.now ≡ length text.now }
{
    text.split_at(count_digits(text))
}

/// How many decimal digits a text begins with.
fn count_digits(text: &[u8]) -> usize
    ensures count { result ≡ prefix_len is_digit text.now }
    ensures within { result ≤ length text.now }
{
    text.iter().take_while(|byte| byte.is_ascii_digit()).count()
}

/// Reads on in a number: the number of the digits read before and of those that stand in a text
/// from an index on, and the index behind these. Of more than eighteen digits in all it may be any.
#[inline(always)]
pub(crate) fn add_digits(front: u64, text: &[u8], from: usize) -> (u64, usize)
    requires { from ≤ length text.now }
    ensures end { result.1 ≡ from + prefix_len is_digit (drop from text.now) }
    ensures value { let rest = drop from text.now in let count = prefix_len is_digit rest in
        (before : ℕ) → front < 10 ^ before → before + count ≤ 18
        → result.0 ≡ front * 10 ^ count + decimal_value (take_while is_digit rest) }
    ensures small { let count = prefix_len is_digit (drop from text.now) in
        (before : ℕ) → front < 10 ^ before → before + count ≤ 18
        → result.0 < 10 ^ (before + count) }
    ensures within { result.1 ≤ length text.now }
{
    let mut value = front;
    let mut at = from;
    while at < text.len() {
        let digit = digit_value(text[at]);
        if digit > 9 {
            return (value, at);
        }
        value = value.wrapping_mul(10).wrapping_add(digit);
        at += 1;
    }
    (value, at)
}

/// The value of a decimal digit. Every other byte has one above 9.
#[inline(always)]
fn digit_value(byte: u8) -> u64
    ensures digit { nat_le result 9 ≡ is_digit byte }
    ensures value { result ≤ 9 → result ≡ byte - 48 }
{
    u64::from(byte).wrapping_sub(u64::from(b'0'))
}

/// The number that decimal digits stand for.
pub(crate) fn digits_value(digits: &[u8]) -> u64
    requires digits { AllPass is_digit digits.now }
    requires few { length digits.now ≤ 18 }
    ensures value { result ≡ decimal_value digits.now }
    ensures small { result < 10 ^ length digits.now }
{
    let mut value = 0u64;
    for digit in digits {
        value = value * 10 + u64::from(*digit - b'0');
    }
    value
}
