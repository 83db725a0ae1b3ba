//! The texts of tasks over two files.
ghost use Rattle.std.specs.Prelude.{◌≡◌, ◌+◌, ◌++◌, ◌≤◌, IfOk, OnOk};
ghost use Rattle.oct_script.specs.Replies.{class_name};
ghost use Rattle.oct_file_tasks.specs.OverStore.{line_of, map_line, pair_line, table_line};
ghost use Rattle.oct_file_tasks.specs.OverStore.{table_row};
ghost use Rattle.oct_file_tasks.specs.OverStore.{table_rows};

use crate::no_file::push_bad;
use crate::two_files::{NoMap, NoPair};
use itoa::Buffer;
use oct_key::Res;
use oct_merge::ClassTable;
use oct_num::Memory;
use oct_odds::Class;
use oct_script::{Refusal, Reply, push_reply};
use std::alloc::Global;

/// Appends the line of a refusal that a script's line has too.
pub(crate) fn push_refusal(text: &mut Vec<u8>, why: Refusal) -> Result<(), Memory>
    ensures { OnOk result (text.new.items ≡ text.old.items ++ line_of why) }
{
    push_reply(text, &Reply::Refused(why))
}

/// Appends the line of why there is no map.
fn push_no_map(text: &mut Vec<u8>, reason: NoMap) -> Result<(), Memory>
    ensures { OnOk result (text.new.items ≡ text.old.items ++ map_line reason) }
{
    match reason {
        NoMap::Missing => push_refusal(text, Refusal::NoFile),
        NoMap::TooLarge => push_refusal(text, Refusal::FileTooLarge),
        NoMap::Bad(fault) => push_bad(text, fault),
    }
}

/// Appends the line of two resolutions that differ.
fn push_resolutions(text: &mut Vec<u8>, first: Res, second: Res) -> Result<(), Memory>
    ensures { OnOk result
        (text.new.items ≡ text.old.items ++ pair_line (NoPair.OtherResolution first second)) }
{
    push_refusal(
        text,
        Refusal::OtherResolution {
            file: second.nm(),
            session: first.nm(),
        },
    )
}

/// Appends a word and the line of why there is no map.
fn push_of_one(text: &mut Vec<u8>, which: &[u8], reason: NoMap) -> Result<(), Memory>
    ensures { OnOk result (text.new.items ≡ text.old.items ++ (which.now ++ map_line reason)) }
{
    text.extend_from_slice(which)?;
    push_no_map(text, reason)
}

/// The line of why there are no two maps.
pub(crate) fn no_pair_text(alloc: Global, reason: NoPair) -> Result<Vec<u8>, Memory>
    ensures { IfOk result (λ text. text.items ≡ pair_line reason) }
{
    let mut text = Vec::new(alloc);
    match reason {
        NoPair::First(reason) => push_of_one(&mut text, b"first ", reason)?,
        NoPair::Second(reason) => push_of_one(&mut text, b"second ", reason)?,
        NoPair::OtherResolution { first, second } => push_resolutions(&mut text, first, second)?,
    }
    Ok(text)
}

/// The name of a class in a table.
fn name_of(class: Class) -> &'static [u8]
    ensures { result.now ≡ class_name class }
{
    match class {
        Class::Unknown => b"unknown",
        Class::Free => b"free",
        Class::Occupied => b"occupied",
    }
}

/// Appends the line of two classes.
fn push_count(text: &mut Vec<u8>, first: Class, second: Class, n: u64) -> Result<(), Memory>
    ensures { OnOk result (text.new.items ≡ text.old.items ++ table_line first second n) }
{
    text.extend_from_slice(name_of(first))?;
    text.extend_from_slice(b" ")?;
    text.extend_from_slice(name_of(second))?;
    text.extend_from_slice(b" ")?;
    text.extend_from_slice(Buffer::new().format(n).as_bytes())?;
    text.extend_from_slice(b"\n")?;
    Ok(())
}

/// Appends the three lines of a class in the first map, whose counts begin at a place of the table.
fn push_row(
    text: &mut Vec<u8>,
    first: Class,
    table: &ClassTable,
    place: usize,
) -> Result<(), Memory>
    requires { place + 3 ≤ 9 }
    ensures { OnOk result
        (text.new.items ≡ text.old.items ++ table_row first place table.now.counts) }
{
    push_count(text, first, Class::Unknown, table.counts[place])?;
    push_count(text, first, Class::Free, table.counts[place + 1])?;
    push_count(text, first, Class::Occupied, table.counts[place + 2])
}

/// The nine lines of a table.
pub(crate) fn table_text(alloc: Global, table: &ClassTable) -> Result<Vec<u8>, Memory>
    ensures { IfOk result (λ text. text.items ≡ table_rows table.now.counts) }
{
    let mut text = Vec::new(alloc);
    push_row(&mut text, Class::Unknown, table, 0)?;
    push_row(&mut text, Class::Free, table, 3)?;
    push_row(&mut text, Class::Occupied, table, 6)?;
    Ok(text)
}
