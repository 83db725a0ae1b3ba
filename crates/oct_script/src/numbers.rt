//! What single words spell: lengths, numbers of log-odds and of quaternions, depths and ranges.
ghost use Rattle.std.specs.Prelude.{◌≡◌, ◌^◌, ◌<◌, unsigned_abs, IfSome};
ghost use Rattle.oct_odds.specs.Odds.{IsSmall};
ghost use Rattle.oct_script.specs.Grammar.{length_of, short_whole, number_of, depth_of};
ghost use Rattle.oct_script.specs.Grammar.{component_of, range_of, hit_of, miss_of};
ghost use Rattle.oct_script.specs.Commands.{IsRange, IsHitOdds, IsMissOdds};

use oct_num::{read_metres, read_natural, read_whole, split_sign};

/// The greatest magnitude of an N, a number of log-odds in a line.
const GREATEST_NUMBER: u64 = 1_000_000;

/// The most digits of an N, a D or a Q.
const MOST_DIGITS: usize = 7;

/// The length that an X, Y or Z spells.
pub fn length_of(word: &[u8]) -> Option<i64>
    ensures exact { result ≡ length_of word.now }
    ensures reach { IfSome result (λ n. unsigned_abs n < 10 ^ 16) }
{
    read_metres(word).ok()
}

/// The whole number that a word spells: an optional `-` and one to seven digits.
fn short_whole(word: &[u8]) -> Option<i64>
    ensures exact { result ≡ short_whole word.now }
    ensures reach { IfSome result (λ n. unsigned_abs n < 10 ^ 18) }
{
    let (_, digits) = split_sign(word);
    if digits.len() > MOST_DIGITS {
        return None;
    }
    read_whole(word)
}

/// The number that a word spells: an optional `-` and one to seven digits, of a magnitude of at
/// most 1,000,000.
pub fn number_of(word: &[u8]) -> Option<i32>
    ensures exact { result ≡ number_of word.now }
    ensures small { IfSome result IsSmall }
{
    let n = short_whole(word)?;
    if n.unsigned_abs() > GREATEST_NUMBER {
        return None;
    }
    Some(n as i32)
}

/// What a HIT spells: an N above 0.
pub fn hit_of(word: &[u8]) -> Option<i32>
    ensures exact { result ≡ hit_of word.now }
    ensures within { IfSome result IsHitOdds }
{
    let n = number_of(word)?;
    if n > 0 { Some(n) } else { None }
}

/// What a MISS spells: an N below 0.
pub fn miss_of(word: &[u8]) -> Option<i32>
    ensures exact { result ≡ miss_of word.now }
    ensures within { IfSome result IsMissOdds }
{
    let n = number_of(word)?;
    if n < 0 { Some(n) } else { None }
}

/// The depth that a D spells.
pub fn depth_of(word: &[u8]) -> Option<u32>
    ensures exact { result ≡ depth_of word.now }
    ensures small { IfSome result (λ depth. depth < 10000000) }
{
    if word.len() > MOST_DIGITS {
        return None;
    }
    let depth = read_natural(word)?;
    Some(depth as u32)
}

/// The number of a quaternion that a Q spells.
pub fn component_of(word: &[u8]) -> Option<i16>
    ensures { result ≡ component_of word.now }
{
    let n = short_whole(word)?;
    i16::try_from(n).ok()
}

/// The range that a RANGE spells, which is none where it is `all`.
pub fn range_of(word: &[u8]) -> Option<Option<i64>>
    ensures exact { result ≡ range_of word.now }
    ensures within { IfSome result IsRange }
{
    if word == b"all".as_slice() {
        return Some(None);
    }
    let range = length_of(word)?;
    if range < 0 {
        return None;
    }
    Some(Some(range))
}
