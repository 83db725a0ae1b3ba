//! The names of files in lines.
ghost use Rattle.std.specs.Prelude.{◌≡◌, ◌≤◌, length};
ghost use Rattle.std.specs.List.{list_all, prefix_len};
ghost use Rattle.oct_script.specs.Names.{is_name_byte, is_name, name_of, is_kept, padded};

use std::marker::Model;
use std::str;

/// The most bytes of a name.
const LONGEST_NAME: usize = 64;

/// The name of a file: 1 to 64 ASCII letters, digits, `.`, `_` and `-`, the first of which is
/// neither `.` nor `-`. Contracts see it as the list of its bytes.
#[derive(Clone, Copy, Debug, PartialEq, Eq)]
pub struct Name {
    /// The bytes, and zeros after them.
    bytes: [u8; LONGEST_NAME],
}

impl Model for Name {
    ghost use Rattle.std.specs.Prelude.{◌≡◌, List, ℕ, true};
    ghost use Rattle.std.proofs.Common.{sym};
    ghost use Rattle.oct_script.specs.Names.{is_name, padded, without_padding};

    ghost Value = { List ℕ };

    ghost view = { λ n. without_padding n.bytes };

    ghost invariant = { λ n. (n.bytes ≡ padded (without_padding n.bytes))
        × (is_name (without_padding n.bytes) ≡ true) };

    ghost inverse = { λ name. record { bytes = padded name } };

    ghost inverse_ok = { λ n h i. record { bytes = sym h.0 i } };
}

/// Whether a byte may stand in a name.
fn is_name_byte(b: u8) -> bool
    ensures { result ≡ is_name_byte b }
{
    b.is_ascii_alphanumeric() || b == b'.' || b == b'_' || b == b'-'
}

/// Whether each of these bytes may stand in a name.
fn are_name_bytes(word: &[u8]) -> bool
    ensures { result ≡ list_all is_name_byte word.now }
{
    word.iter().all(|b| is_name_byte(*b))
}

/// Whether a word is a name.
fn is_name(word: &[u8]) -> bool
    ensures { result ≡ is_name word.now }
{
    match word.first() {
        None | Some(b'.' | b'-') => false,
        Some(_) => word.len() <= LONGEST_NAME && are_name_bytes(word),
    }
}

/// A word of at most 64 bytes, and zeros after it.
fn padded(word: &[u8]) -> [u8; LONGEST_NAME]
    requires { length word.now ≤ LONGEST_NAME }
    ensures { result ≡ padded word.now }
{
    let mut bytes = [0; LONGEST_NAME];
    bytes[..word.len()].copy_from_slice(word);
    bytes
}

/// How many bytes stand before the first zero.
fn count_kept(bytes: &[u8]) -> usize
    ensures count { result ≡ prefix_len is_kept bytes.now }
    ensures within { result ≤ length bytes.now }
{
    bytes.iter().take_while(|b| **b != 0).count()
}

impl Name {
    /// The name with these bytes, unless they are none.
    pub fn new(word: &[u8]) -> Option<Name>
        ensures { result ≡ name_of word.now }
    {
        if !is_name(word) {
            return None;
        }
        Some(Name {
            bytes: padded(word),
        })
    }

    /// The name as a text.
    pub fn as_str(&self) -> &str
        ensures { result.now ≡ self.now }
    {
        let (text, _) = self.bytes.split_at(count_kept(&self.bytes));
        match str::from_utf8(text) {
            Ok(text) => text,
            Err(_) => "",
        }
    }
}
