//! The records of two files, side by side.
ghost use Rattle.std.specs.Prelude.{◌≡◌, ◌⊎◌, ◌↔◌, ◌+◌, ◌*◌, ◌≤◌, ◌<◌, ◌∷◌, ◌++◌, ℕ, List, length};
ghost use Rattle.std.specs.Prelude.{IsTrue, IfOk, OnErr, Option, nat_eq, if◌then◌else◌};
ghost use Rattle.std.specs.Prelude.{vec_len, vec_capacity};
ghost use Rattle.oct_bt.specs.Canonical.{block_code, canonical_data, canonical_size, data_of_child};
ghost use Rattle.oct_bt.specs.DataClasses.{data_classes};
ghost use Rattle.oct_bt.specs.Masks.{threes};
ghost use Rattle.oct_bt.specs.NodeData.{IsAccepted};
ghost use Rattle.oct_bt.specs.Records.{Entries, code_bytes, codes_of};
ghost use Rattle.oct_odds.specs.declared.event.Class.{Class};
ghost use Rattle.oct_join.specs.Joined.{one_class};
ghost use Rattle.oct_join.specs.Merged.{merged_class, merged_classes};
ghost use Rattle.oct_join.specs.Sides.{IsSide, side_text, IsJoined, root_text};

use crate::codes::{FREE_LEAVES, OCCUPIED_LEAVES, class_code, merged_codes, one_class};
use oct_bt::{BtFile, threes};
use oct_merge::Rule;
use oct_num::Memory;
use std::alloc::Global;

/// The file of the merged map of two files, with the resolution of the first. Its node data is the
/// canonical one. Each record of both is read once. It fails only for want of memory, and only
/// where one of them has a record.
pub fn join(alloc: Global, rule: Rule, first: &BtFile, second: &BtFile) -> Result<BtFile, Memory>
    ensures res { IfOk result (λ file. file.res ≡ first.now.res) }
    ensures codes { IfOk result (λ file. file.codes ≡ canonical_data
        (merged_classes rule (data_classes first.now.codes) (data_classes second.now.codes))) }
    ensures nodes { IfOk result (λ file. file.nodes ≡ canonical_size
        (merged_classes rule (data_classes first.now.codes) (data_classes second.now.codes))) }
    ensures memory { OnErr result (0 < length first.now.codes + length second.now.codes) }
{
    let records = join_codes(alloc, rule, first, second)?;
    Ok(BtFile::of_records(first.res(), records))
}

/// The canonical node data of the merged map of two files, in room for as many bytes as both have.
pub fn join_codes(
    alloc: Global,
    rule: Rule,
    first: &BtFile,
    second: &BtFile,
) -> Result<Vec<u8>, Memory>
    ensures codes { IfOk result (λ records. records.items ≡ canonical_data
        (merged_classes rule (data_classes first.now.codes) (data_classes second.now.codes))) }
    ensures room { IfOk result (λ records. vec_capacity records
        ≤ length first.now.codes + length second.now.codes) }
    ensures memory { OnErr result (0 < length first.now.codes + length second.now.codes) }
{
    let first = first.codes().as_slice();
    let second = second.codes().as_slice();
    join_records(alloc, rule, first, second)
}

/// The canonical node data of the merged map.
fn join_records(alloc: Global, rule: Rule, first: &[u8], second: &[u8]) -> Result<Vec<u8>, Memory>
    requires first { (n : ℕ) × IsAccepted n first.now }
    requires second { (n : ℕ) × IsAccepted n second.now }
    ensures codes { IfOk result (λ records. records.items ≡ canonical_data
        (merged_classes rule (data_classes first.now) (data_classes second.now))) }
    ensures room { IfOk result (λ records. vec_capacity records
        ≤ length first.now + length second.now) }
    ensures memory { OnErr result (0 < length first.now + length second.now) }
{
    if first.is_empty() && second.is_empty() {
        return Ok(Vec::new(alloc));
    }
    let mut records = Vec::with_capacity(alloc, first.len() + second.len())?;
    let a = root_code(first);
    let b = root_code(second);
    let map = join_block(0, rule, a, first, b, second, &mut records);
    close_map(map.code, &mut records);
    Ok(records)
}

/// Writes the record of the whole map where it is of one known class: it alone keeps eight equal
/// leaves.
fn close_map(code: u16, out: &mut Vec<u8>)
    requires room { 0 < code → code < 3 → vec_len out.old + 2 ≤ vec_capacity out.old }
    ensures text { (o : Option Class) (text : List ℕ) → code ≡ block_code o
        → out.old.items ≡ data_of_child o text → out.new.items ≡ root_text o text }
    ensures room { vec_capacity out.new ≡ vec_capacity out.old }
{
    if code == 1 {
        push_record(FREE_LEAVES, out);
        return;
    }
    if code == 2 {
        push_record(OCCUPIED_LEAVES, out);
    }
}

/// Appends the two bytes of a record, for which there is room.
#[inline(always)]
fn push_record(codes: u16, out: &mut Vec<u8>)
    requires room { vec_len out.old + 2 ≤ vec_capacity out.old }
    ensures text { out.new.items ≡ out.old.items ++ code_bytes codes }
    ensures long { vec_len out.new ≡ vec_len out.old + 2 }
    ensures room { vec_capacity out.new ≡ vec_capacity out.old }
{
    out.push_reserved((codes % 256) as u8);
    out.push_reserved((codes / 256) as u8);
}

/// The code of the whole map in a file with this node data.
pub(crate) fn root_code(codes: &[u8]) -> u16
    ensures { result ≡ (if nat_eq (length codes.now) 0 then 0 else 3) }
{
    if codes.is_empty() { 0 } else { 3 }
}

/// What a block of both files has come to: its code, and how many bytes of each text were read.
#[derive(Clone, Copy)]
struct Part {
    code: u16,
    first: usize,
    second: usize,
}

/// Joins a block that has these codes in the two files, and where a code is 3 its record at the
/// front of the text. There is room for as many bytes as are left of both.
fn join_block(
    depth: u8,
    rule: Rule,
    a: u16,
    first: &[u8],
    b: u16,
    second: &[u8],
    out: &mut Vec<u8>,
) -> Part
    requires levels { depth ≤ 15 }
    requires parted { (a ≡ 3) ⊎ (b ≡ 3) }
    requires first { (r : Entries) × (tail : List ℕ) × IsSide depth a r
        × (first.now ≡ side_text a r ++ tail) }
    requires second { (s : Entries) × (tail : List ℕ) × IsSide depth b s
        × (second.now ≡ side_text b s ++ tail) }
    requires room { vec_len out.old + length first.now + length second.now
        ≤ vec_capacity out.old }
    ensures joined { (r s : Entries) (p q : List ℕ) → IsSide depth a r
        → first.now ≡ side_text a r ++ p → IsSide depth b s → second.now ≡ side_text b s ++ q
        → IsJoined (merged_class rule) a b r s out.old.items out.new.items result }
    ensures few { vec_len out.new ≤ vec_len out.old + result.first + result.second }
    ensures room { vec_capacity out.new ≡ vec_capacity out.old }
{
    let mut first_codes = side_codes(a, first);
    let mut second_codes = side_codes(b, second);
    let mut read = Part {
        code: 0,
        first: record_bytes(a),
        second: record_bytes(b),
    };
    let mut merged = merged_codes(rule, first_codes, second_codes);
    if are_leaves(first_codes, second_codes) {
        let code = close_leaves(merged, out);
        return Part { code, ..read };
    }
    let start = out.len();
    push_record(0, out);
    let mut codes: u32 = 0;
    let mut unit: u32 = 1;
    for _ in 0u8..8 {
        if is_parted(first_codes % 4, second_codes % 4) {
            let (_, first_rest) = first.split_at(read.first);
            let (_, second_rest) = second.split_at(read.second);
            let (a, b) = (first_codes % 4, second_codes % 4);
            let part = join_block(depth + 1, rule, a, first_rest, b, second_rest, out);
            read.first += part.first;
            read.second += part.second;
            codes += unit * u32::from(part.code);
        } else {
            codes += unit * u32::from(merged % 4);
        }
        unit *= 4;
        first_codes /= 4;
        second_codes /= 4;
        merged /= 4;
    }
    let code = close(codes as u16, start, out);
    Part { code, ..read }
}

/// Whether neither of two records has children with records of their own.
#[inline(always)]
fn are_leaves(a: u16, b: u16) -> bool
    ensures { IsTrue result ↔ ((threes 8 a ≡ 0) × (threes 8 b ≡ 0)) }
{
    threes(a) == 0 && threes(b) == 0
}

/// Closes a block whose children have these codes and no records: appends its record, where they
/// aren't all of one class.
#[inline(always)]
fn close_leaves(codes: u16, out: &mut Vec<u8>) -> u16
    requires room { vec_len out.old + 2 ≤ vec_capacity out.old }
    ensures code { result ≡ block_code (one_class codes) }
    ensures text { out.new.items
        ≡ out.old.items ++ data_of_child (one_class codes) (code_bytes codes) }
    ensures few { vec_len out.new ≤ vec_len out.old + 2 }
    ensures room { vec_capacity out.new ≡ vec_capacity out.old }
{
    if let Some(class) = one_class(codes) {
        return class_code(class);
    }
    push_record(codes, out);
    3
}

/// Whether a block has a record in one of the files at least.
#[inline(always)]
pub(crate) fn is_parted(a: u16, b: u16) -> bool
    ensures { IsTrue result ↔ ((a ≡ 3) ⊎ (b ≡ 3)) }
{
    a == 3 || b == 3
}

/// The codes of a block's children: those of its record, or its own for each.
#[inline(always)]
pub(crate) fn side_codes(code: u16, text: &[u8]) -> u16
    requires { (depth : ℕ) × (r : Entries) × (tail : List ℕ) × IsSide depth code r
        × (text.now ≡ side_text code r ++ tail) }
    ensures { (depth : ℕ) (r : Entries) (tail : List ℕ) → IsSide depth code r
        → text.now ≡ side_text code r ++ tail → result ≡ codes_of r }
{
    if code == 3 {
        return u16::from(text[0]) + 256 * u16::from(text[1]);
    }
    eight_times(code)
}

/// The codes of eight children that all have this one.
#[inline(always)]
fn eight_times(code: u16) -> u16
    requires { code < 3 }
    ensures { result ≡ code * 21845 }
{
    code * 0x5555
}

/// How many bytes a block's own record has.
#[inline(always)]
pub(crate) fn record_bytes(code: u16) -> usize
    ensures { result ≡ (if nat_eq code 3 then 2 else 0) }
{
    if code == 3 { 2 } else { 0 }
}

/// Writes the codes of a block's children where their place was kept, before what they have
/// appended. Where all are of one class nothing has been, and the place is taken off again.
#[inline(always)]
fn close(codes: u16, start: usize, out: &mut Vec<u8>) -> u16
    requires { start + 2 ≤ length out.old.items }
    ensures code { result ≡ block_code (one_class codes) }
    ensures text { (before later : List ℕ) → out.old.items ≡ before ++ (0 ∷ 0 ∷ later)
        → length before ≡ start
        → out.new.items ≡ before ++ data_of_child (one_class codes) (code_bytes codes ++ later) }
    ensures few { vec_len out.new ≤ vec_len out.old }
    ensures room { vec_capacity out.new ≡ vec_capacity out.old }
{
    match one_class(codes) {
        Some(class) => {
            out.truncate(start);
            class_code(class)
        }
        None => {
            out[start] = (codes % 256) as u8;
            out[start + 1] = (codes / 256) as u8;
            3
        }
    }
}
