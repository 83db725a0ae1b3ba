//! The first words of lines, and what they begin.
ghost use Rattle.std.specs.Prelude.{◌≡◌, map, bytes_eq, option_map};
ghost use Rattle.std.specs.List.{find};
ghost use Rattle.oct_script.specs.Commands.{IsSmallCommand};
ghost use Rattle.oct_script.specs.Grammar.{rows_of};
ghost use Rattle.oct_script.specs.Reading.{single_command, file_command, row_seen};
ghost use Rattle.oct_script.specs.Reading.{forms_at, forms_of_verb};

use crate::command::Command;
use crate::name::Name;

/// A command that is one word.
#[derive(Clone, Copy, Debug, PartialEq, Eq)]
pub enum Single {
    Counts,
    Refresh,
    Prune,
    Clear,
    MaxLik,
    Track,
    Untrack,
    Changes,
    NoLimit,
    Quit,
    End,
}

impl Single {
    /// The command.
    pub fn command(self) -> Command
        ensures exact { result ≡ single_command self }
        ensures small { IsSmallCommand result }
    {
        match self {
            Single::Counts => Command::Counts,
            Single::Refresh => Command::Refresh,
            Single::Prune => Command::Prune,
            Single::Clear => Command::Clear,
            Single::MaxLik => Command::MaxLik,
            Single::Track => Command::Track,
            Single::Untrack => Command::Untrack,
            Single::Changes => Command::Changes,
            Single::NoLimit => Command::NoLimit,
            Single::Quit => Command::Quit,
            Single::End => Command::End,
        }
    }
}

/// What is done with the file of a name.
#[derive(Clone, Copy, Debug, PartialEq, Eq)]
pub enum FileVerb {
    Save,
    Load,
    Snapshot,
    Restore,
}

impl FileVerb {
    /// The command that does it with the file of this name.
    pub fn command(self, name: Name) -> Command
        ensures exact { result ≡ file_command self name }
        ensures small { IsSmallCommand result }
    {
        match self {
            FileVerb::Save => Command::Save(name),
            FileVerb::Load => Command::Load(name),
            FileVerb::Snapshot => Command::Snapshot(name),
            FileVerb::Restore => Command::Restore(name),
        }
    }
}

/// What a first word begins: a command with words of its own, or a whole command.
#[derive(Clone, Copy, Debug, PartialEq, Eq)]
pub enum Verb {
    Hit,
    Miss,
    Add,
    Set,
    Forget,
    Get,
    List,
    Cast,
    Box,
    Limit,
    Scan,
    Beam,
    /// A name stands after the first word, and no more.
    File(FileVerb),
    /// No more words stand after the first one.
    Alone(Single),
}

/// A first word, and what it begins.
#[derive(Clone, Copy)]
struct FirstWord {
    word: &'static [u8],
    verb: Verb,
}

/// The row of a first word.
macro_rules! row {
    ($word:literal, $verb:expr) => {
        FirstWord { word: $word, verb: $verb }
    };
}

/// The first words of lines outside the block of a scan.
const OUTSIDE: [FirstWord; 25] = [
    row!(b"get", Verb::Get),
    row!(b"hit", Verb::Hit),
    row!(b"miss", Verb::Miss),
    row!(b"add", Verb::Add),
    row!(b"set", Verb::Set),
    row!(b"forget", Verb::Forget),
    row!(b"counts", Verb::Alone(Single::Counts)),
    row!(b"refresh", Verb::Alone(Single::Refresh)),
    row!(b"prune", Verb::Alone(Single::Prune)),
    row!(b"clear", Verb::Alone(Single::Clear)),
    row!(b"maxlik", Verb::Alone(Single::MaxLik)),
    row!(b"cast", Verb::Cast),
    row!(b"box", Verb::Box),
    row!(b"list", Verb::List),
    row!(b"quit", Verb::Alone(Single::Quit)),
    row!(b"scan", Verb::Scan),
    row!(b"save", Verb::File(FileVerb::Save)),
    row!(b"load", Verb::File(FileVerb::Load)),
    row!(b"snapshot", Verb::File(FileVerb::Snapshot)),
    row!(b"restore", Verb::File(FileVerb::Restore)),
    row!(b"track", Verb::Alone(Single::Track)),
    row!(b"untrack", Verb::Alone(Single::Untrack)),
    row!(b"changes", Verb::Alone(Single::Changes)),
    row!(b"limit", Verb::Limit),
    row!(b"nolimit", Verb::Alone(Single::NoLimit)),
];

/// The first words of lines inside the block of a scan.
const INSIDE: [FirstWord; 2] = [
    row!(b"p", Verb::Beam),
    row!(b"end", Verb::Alone(Single::End)),
];

/// The first words of lines inside the block of a scan, or outside.
fn first_words(inside: bool) -> &'static [FirstWord]
    ensures { map row_seen result.now ≡ rows_of inside }
{
    if inside { &INSIDE } else { &OUTSIDE }
}

/// The row of a word, if there is one.
fn find_row<'a>(rows: &'a [FirstWord], word: &[u8]) -> Option<&'a FirstWord>
    ensures { option_map (λ row. row.now) result
        ≡ find (λ row. bytes_eq word.now row.word.now) rows.now }
{
    rows.iter().find(|row| word == row.word)
}

/// What a word begins as the first of a line inside the block of a scan, or outside.
pub fn verb_of(word: &[u8], inside: bool) -> Option<&'static Verb>
    ensures { forms_of_verb (option_map (λ verb. verb.now) result)
        ≡ forms_at word.now (rows_of inside) }
{
    let row = find_row(first_words(inside), word)?;
    Some(&row.verb)
}
