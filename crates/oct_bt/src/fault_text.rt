//! The text of what is wrong with a file, as a refusal names it.
ghost use Rattle.std.specs.Prelude.{◌≡◌, ◌++◌, OnOk, OnErr, IsErr, decimal, take, vec_len};
ghost use Rattle.oct_bt.specs.FaultText.{word_text, fault_text};

use crate::fault::{BtFault, HeaderWord};
use itoa::Buffer;
use oct_num::Memory;

/// The word as it stands in a header.
fn name_of(word: HeaderWord) -> &'static [u8]
    ensures { result.now ≡ word_text word }
{
    match word {
        HeaderWord::Id => b"id",
        HeaderWord::Res => b"res",
        HeaderWord::Size => b"size",
        HeaderWord::Data => b"data",
    }
}

/// Appends two texts.
fn append_pair(out: &mut Vec<u8>, first: &[u8], second: &[u8]) -> Result<(), Memory>
    ensures ok { OnOk result (out.new.items ≡ out.old.items ++ (first.now ++ second.now)) }
    ensures err { OnErr result (take (vec_len out.old) out.new.items ≡ out.old.items) }
{
    out.extend_from_slice(first)?;
    out.extend_from_slice(second)?;
    Ok(())
}

/// Appends a text and the decimal text of a number after it.
fn append_number(out: &mut Vec<u8>, before: &[u8], n: u64) -> Result<(), Memory>
    ensures ok { OnOk result (out.new.items ≡ out.old.items ++ (before.now ++ decimal n)) }
    ensures err { OnErr result (take (vec_len out.old) out.new.items ≡ out.old.items) }
{
    append_pair(out, before, Buffer::new().format(n).as_bytes())
}

/// Appends what a header says beside what was found.
fn append_mismatch(out: &mut Vec<u8>, said: u64, found: u64) -> Result<(), Memory>
    ensures ok { OnOk result (out.new.items
        ≡ out.old.items ++ fault_text (BtFault.SizeMismatch said found)) }
    ensures err { OnErr result (take (vec_len out.old) out.new.items ≡ out.old.items) }
{
    append_number(out, b"19 SizeMismatch said ", said)?;
    append_number(out, b" found ", found)
}

/// Appends a fault's number, name and fields. After an error a part of it may stand there.
fn append_fault(out: &mut Vec<u8>, fault: BtFault) -> Result<(), Memory>
    ensures ok { OnOk result (out.new.items ≡ out.old.items ++ fault_text fault) }
    ensures err { OnErr result (take (vec_len out.old) out.new.items ≡ out.old.items) }
    ensures memory { fault ≡ BtFault.Memory → IsErr result }
{
    match fault {
        BtFault::NotOctomap => out.extend_from_slice(b"10 NotOctomap")?,
        BtFault::FloatTree => out.extend_from_slice(b"11 FloatTree")?,
        BtFault::WrongId => out.extend_from_slice(b"12 WrongId")?,
        BtFault::MissingField { word } => append_pair(out, b"13 MissingField ", name_of(word))?,
        BtFault::BadField { word } => append_pair(out, b"14 BadField ", name_of(word))?,
        BtFault::HeaderTooLong => out.extend_from_slice(b"15 HeaderTooLong")?,
        BtFault::TooDeep { at } => append_number(out, b"16 TooDeep at ", at)?,
        BtFault::Truncated { at } => append_number(out, b"17 Truncated at ", at)?,
        BtFault::TrailingBytes { at } => append_number(out, b"18 TrailingBytes at ", at)?,
        BtFault::SizeMismatch { said, found } => append_mismatch(out, said, found)?,
        BtFault::Memory => return Err(Memory),
    }
    Ok(())
}

/// Appends a fault's number, name and fields, as `13 MissingField data`: what a refusal's line has
/// after its first word. After an error nothing was appended. `BtFault::Memory`, which says nothing
/// of the file, has no text and is answered as `Memory`.
pub fn push_fault(out: &mut Vec<u8>, fault: BtFault) -> Result<(), Memory>
    ensures ok { OnOk result (out.new.items ≡ out.old.items ++ fault_text fault) }
    ensures err { OnErr result (out.new.items ≡ out.old.items) }
    ensures memory { fault ≡ BtFault.Memory → IsErr result }
{
    let len = out.len();
    let appended = append_fault(out, fault);
    if appended.is_err() {
        out.truncate(len);
    }
    appended
}
