//! How a line is read as a command.
ghost use Rattle.std.specs.Prelude.{◌≡◌, ◌+◌, ◌<◌, ◌≤◌, length, MatchResult, IfOk, OnOk, IfErr};
ghost use Rattle.std.specs.Prelude.{IfSome, Some, None, Ok, Err};
ghost use Rattle.oct_odds.specs.Odds.{IsSmall};
ghost use Rattle.oct_pose.specs.Reach.{IsInReach};
ghost use Rattle.oct_script.specs.Words.{placed_words};
ghost use Rattle.oct_script.specs.Grammar.{number_of, depth_of, component_of, range_of, miss_of};
ghost use Rattle.oct_script.specs.Grammar.{forms_of};
ghost use Rattle.oct_script.specs.Names.{name_of};
ghost use Rattle.oct_script.specs.Faults.{IsMeant, LeavesAt};
ghost use Rattle.oct_script.specs.Commands.{command_of, IsRead, opens_scan, IsSmallEdit, IsRange};
ghost use Rattle.oct_script.specs.Commands.{IsHitOdds, IsMissOdds, IsOwnOdds, IsSmallCommand};
ghost use Rattle.oct_script.specs.Reading.{single_command, number_in, point_in, point_number_in};
ghost use Rattle.oct_script.specs.Reading.{rotation_in, excess, end_in, flag_in, edit_end_in};
ghost use Rattle.oct_script.specs.Reading.{edit_in, points_in, number_edit_in, query_in, cast_in};
ghost use Rattle.oct_script.specs.Reading.{scan_in, beam_in, file_in, behind_verb, behind_first};
ghost use Rattle.oct_script.specs.Reading.{line_in, edit_number_in, edit_word_in, box_in};
ghost use Rattle.oct_script.specs.Reading.{listing_in, limit_in, miss_in, head_end_in};

use crate::command::{Command, Edit, ScanHead, ScanOdds, Syntax};
use crate::lines::LONGEST_LINE;
use crate::name::Name;
use crate::numbers::{component_of, depth_of, hit_of, miss_of, number_of, range_of};
use crate::verbs::{FileVerb, Single, Verb, verb_of};
use crate::words::{WordAt, Words, first_word};
use oct_key::Point;

/// Reads an N.
#[tactic(auto, unfolding(crate::specs::Reading::number_in))]
fn read_number(words: &mut Words<'_>) -> Result<i32, Syntax>
    ensures exact { MatchResult result
        (λ n. number_in number_of words.old.end words.old.words ≡ Ok (n, words.new.words))
        (λ s. number_in number_of words.old.end words.old.words ≡ Err s) }
    ensures end { words.new.end ≡ words.old.end }
    ensures small { IfOk result IsSmall }
{
    let word = words.take_word()?;
    number_of(word.text).ok_or(word.fault())
}

/// Reads a D.
#[tactic(auto, unfolding(crate::specs::Reading::number_in))]
fn read_depth(words: &mut Words<'_>) -> Result<u32, Syntax>
    ensures exact { MatchResult result
        (λ n. number_in depth_of words.old.end words.old.words ≡ Ok (n, words.new.words))
        (λ s. number_in depth_of words.old.end words.old.words ≡ Err s) }
    ensures end { words.new.end ≡ words.old.end }
    ensures small { IfOk result (λ depth. depth < 10000000) }
{
    let word = words.take_word()?;
    depth_of(word.text).ok_or(word.fault())
}

/// Reads a Q.
#[tactic(auto, unfolding(crate::specs::Reading::number_in))]
fn read_component(words: &mut Words<'_>) -> Result<i16, Syntax>
    ensures exact { MatchResult result
        (λ n. number_in component_of words.old.end words.old.words ≡ Ok (n, words.new.words))
        (λ s. number_in component_of words.old.end words.old.words ≡ Err s) }
    ensures end { words.new.end ≡ words.old.end }
{
    let word = words.take_word()?;
    component_of(word.text).ok_or(word.fault())
}

/// Reads a RANGE.
#[tactic(auto, unfolding(crate::specs::Reading::number_in))]
fn read_range(words: &mut Words<'_>) -> Result<Option<i64>, Syntax>
    ensures exact { MatchResult result
        (λ range. number_in range_of words.old.end words.old.words ≡ Ok (range, words.new.words))
        (λ s. number_in range_of words.old.end words.old.words ≡ Err s) }
    ensures end { words.new.end ≡ words.old.end }
    ensures within { IfOk result IsRange }
{
    let word = words.take_word()?;
    range_of(word.text).ok_or(word.fault())
}

/// Reads `X Y Z`.
#[tactic(auto, unfolding(crate::specs::Reading::point_in))]
#[inline(always)]
fn read_point(words: &mut Words<'_>) -> Result<Point, Syntax>
    ensures exact { MatchResult result
        (λ p. point_in words.old.end words.old.words ≡ Ok (p, words.new.words))
        (λ s. point_in words.old.end words.old.words ≡ Err s) }
    ensures end { words.new.end ≡ words.old.end }
    ensures reach { IfOk result IsInReach }
{
    let x = words.take_length()?;
    let y = words.take_length()?;
    let z = words.take_length()?;
    Ok(Point { x, y, z })
}

/// Reads the end of a line.
#[tactic(auto, unfolding(crate::specs::Reading::excess))]
fn read_end(words: &mut Words<'_>) -> Result<(), Syntax>
    ensures exact { MatchResult result
        (λ _. excess words.old.words ≡ None)
        (λ s. excess words.old.words ≡ Some s) }
{
    match words.next_word() {
        None => Ok(()),
        Some(word) => Err(word.fault()),
    }
}

/// Reads the end of a line, or this word before it: whether it's there.
#[tactic(auto, unfolding(crate::specs::Reading::flag_in))]
fn read_flag(flag: &[u8], words: &mut Words<'_>) -> Result<bool, Syntax>
    ensures exact { MatchResult result
        (λ there. flag_in flag.now words.old.words ≡ Ok there)
        (λ s. flag_in flag.now words.old.words ≡ Err s) }
{
    let Some(word) = words.next_word() else {
        return Ok(false);
    };
    if word.text != flag {
        return Err(word.fault());
    }
    read_end(words)?;
    Ok(true)
}

/// Reads `[lazy]`, after an edit of a point.
#[tactic(auto, unfolding(crate::specs::Reading::edit_end_in))]
fn read_edit_end(
    p: Point,
    e: Edit,
    words: &mut Words<'_>,
    command: &mut Command,
) -> Result<(), Syntax>
    requires { IsSmallEdit e }
    ensures exact { IsRead result command.new (edit_end_in p e words.old.words) }
    ensures small { OnOk result (IsSmallCommand command.new) }
{
    let lazy = read_flag(b"lazy", words)?;
    *command = Command::Edit { p, e, lazy };
    Ok(())
}

/// Reads `X Y Z [lazy]`, after the verb of an edit.
#[tactic(auto, unfolding(crate::specs::Reading::edit_in))]
fn read_edit(e: Edit, words: &mut Words<'_>, command: &mut Command) -> Result<(), Syntax>
    requires { IsSmallEdit e }
    ensures exact { IsRead result command.new (edit_in e words.old.end words.old.words) }
    ensures small { OnOk result (IsSmallCommand command.new) }
{
    let p = read_point(words)?;
    read_edit_end(p, e, words, command)
}

/// Reads `X Y Z N`.
#[tactic(auto, unfolding(crate::specs::Reading::point_number_in))]
fn read_point_number(words: &mut Words<'_>) -> Result<(Point, i32), Syntax>
    ensures exact { MatchResult result
        (λ r. point_number_in words.old.end words.old.words ≡ Ok (r.0, r.1, words.new.words))
        (λ s. point_number_in words.old.end words.old.words ≡ Err s) }
    ensures end { words.new.end ≡ words.old.end }
    ensures small { IfOk result (λ r. IsSmall r.1) }
{
    let p = read_point(words)?;
    let n = read_number(words)?;
    Ok((p, n))
}

/// Reads `X Y Z N [lazy]`, after `add`.
#[tactic(auto, unfolding(crate::specs::Reading::number_edit_in))]
fn read_add(words: &mut Words<'_>, command: &mut Command) -> Result<(), Syntax>
    ensures exact { IsRead result command.new
        (number_edit_in Edit.Add words.old.end words.old.words) }
    ensures small { OnOk result (IsSmallCommand command.new) }
{
    let (p, n) = read_point_number(words)?;
    read_edit_end(p, Edit::Add(n), words, command)
}

/// Reads `X Y Z N [lazy]`, after `set`.
#[tactic(auto, unfolding(crate::specs::Reading::number_edit_in))]
fn read_set(words: &mut Words<'_>, command: &mut Command) -> Result<(), Syntax>
    ensures exact { IsRead result command.new
        (number_edit_in Edit.Set words.old.end words.old.words) }
    ensures small { OnOk result (IsSmallCommand command.new) }
{
    let (p, n) = read_point_number(words)?;
    read_edit_end(p, Edit::Set(n), words, command)
}

/// Reads the end of a line after an edit that is one word.
fn read_plain_edit(e: Edit, words: &mut Words<'_>) -> Result<Edit, Syntax>
    requires { IsSmallEdit e }
    ensures exact { result ≡ end_in e words.old.words }
    ensures small { IfOk result IsSmallEdit }
{
    read_end(words)?;
    Ok(e)
}

/// Reads an N and the end of the line, after `add`.
#[tactic(auto, unfolding(crate::specs::Reading::edit_number_in))]
fn read_added(words: &mut Words<'_>) -> Result<Edit, Syntax>
    ensures exact { result ≡ edit_number_in Edit.Add words.old.end words.old.words }
    ensures small { IfOk result IsSmallEdit }
{
    let n = read_number(words)?;
    read_end(words)?;
    Ok(Edit::Add(n))
}

/// Reads an N and the end of the line, after `set`.
#[tactic(auto, unfolding(crate::specs::Reading::edit_number_in))]
fn read_value(words: &mut Words<'_>) -> Result<Edit, Syntax>
    ensures exact { result ≡ edit_number_in Edit.Set words.old.end words.old.words }
    ensures small { IfOk result IsSmallEdit }
{
    let n = read_number(words)?;
    read_end(words)?;
    Ok(Edit::Set(n))
}

/// Reads an edit, and the end of the line.
#[tactic(auto, unfolding(crate::specs::Reading::edit_word_in))]
fn read_edit_word(words: &mut Words<'_>) -> Result<Edit, Syntax>
    ensures exact { result ≡ edit_word_in words.old.end words.old.words }
    ensures small { IfOk result IsSmallEdit }
{
    let word = words.take_word()?;
    if word.text == b"hit".as_slice() {
        read_plain_edit(Edit::Hit, words)
    } else if word.text == b"miss".as_slice() {
        read_plain_edit(Edit::Miss, words)
    } else if word.text == b"forget".as_slice() {
        read_plain_edit(Edit::Forget, words)
    } else if word.text == b"add".as_slice() {
        read_added(words)
    } else if word.text == b"set".as_slice() {
        read_value(words)
    } else {
        Err(word.fault())
    }
}

/// Reads `X Y Z X Y Z` and an edit, after `box`.
#[tactic(auto, unfolding(crate::specs::Reading::box_in))]
fn read_box(words: &mut Words<'_>, command: &mut Command) -> Result<(), Syntax>
    ensures exact { IsRead result command.new (box_in words.old.end words.old.words) }
    ensures small { OnOk result (IsSmallCommand command.new) }
{
    let (lo, hi) = read_points(words)?;
    let e = read_edit_word(words)?;
    *command = Command::Box { lo, hi, e };
    Ok(())
}

/// Reads `X Y Z D`, after `get`.
#[tactic(auto, unfolding(crate::specs::Reading::query_in))]
fn read_query(words: &mut Words<'_>, command: &mut Command) -> Result<(), Syntax>
    ensures exact { IsRead result command.new (query_in words.old.end words.old.words) }
    ensures small { OnOk result (IsSmallCommand command.new) }
{
    let p = read_point(words)?;
    let depth = read_depth(words)?;
    read_end(words)?;
    *command = Command::Get { p, depth };
    Ok(())
}

/// Reads `X Y Z X Y Z`.
#[tactic(auto, unfolding(crate::specs::Reading::points_in))]
fn read_points(words: &mut Words<'_>) -> Result<(Point, Point), Syntax>
    ensures exact { MatchResult result
        (λ r. points_in words.old.end words.old.words ≡ Ok (r.0, r.1, words.new.words))
        (λ s. points_in words.old.end words.old.words ≡ Err s) }
    ensures end { words.new.end ≡ words.old.end }
{
    let p = read_point(words)?;
    let q = read_point(words)?;
    Ok((p, q))
}

/// Reads `X Y Z X Y Z D`, after `list`.
#[tactic(auto, unfolding(crate::specs::Reading::listing_in))]
fn read_listing(words: &mut Words<'_>, command: &mut Command) -> Result<(), Syntax>
    ensures exact { IsRead result command.new (listing_in words.old.end words.old.words) }
    ensures small { OnOk result (IsSmallCommand command.new) }
{
    let (lo, hi) = read_points(words)?;
    let depth = read_depth(words)?;
    read_end(words)?;
    *command = Command::List { lo, hi, depth };
    Ok(())
}

/// Reads `X Y Z X Y Z`, after `limit`.
#[tactic(auto, unfolding(crate::specs::Reading::limit_in))]
fn read_limit(words: &mut Words<'_>, command: &mut Command) -> Result<(), Syntax>
    ensures exact { IsRead result command.new (limit_in words.old.end words.old.words) }
    ensures small { OnOk result (IsSmallCommand command.new) }
{
    let (lo, hi) = read_points(words)?;
    read_end(words)?;
    *command = Command::Limit { lo, hi };
    Ok(())
}

/// Reads `X Y Z X Y Z [ignore]`, after `cast`.
#[tactic(auto, unfolding(crate::specs::Reading::cast_in))]
fn read_cast(words: &mut Words<'_>, command: &mut Command) -> Result<(), Syntax>
    ensures exact { IsRead result command.new (cast_in words.old.end words.old.words) }
    ensures small { OnOk result (IsSmallCommand command.new) }
{
    let (origin, end) = read_points(words)?;
    let ignore_unknown = read_flag(b"ignore", words)?;
    *command = Command::Cast {
        o: origin,
        e: end,
        ignore: ignore_unknown,
    };
    Ok(())
}

/// Reads `Q Q Q Q`, the numbers of a quaternion from its real part on.
#[tactic(auto, unfolding(crate::specs::Reading::rotation_in))]
fn read_rotation(words: &mut Words<'_>) -> Result<(i16, i16, i16, i16), Syntax>
    ensures exact { MatchResult result
        (λ q. rotation_in words.old.end words.old.words ≡ Ok (q.0, q.1, q.2, q.3, words.new.words))
        (λ s. rotation_in words.old.end words.old.words ≡ Err s) }
    ensures end { words.new.end ≡ words.old.end }
{
    let w = read_component(words)?;
    let x = read_component(words)?;
    let y = read_component(words)?;
    let z = read_component(words)?;
    Ok((w, x, y, z))
}

/// Reads a MISS.
#[tactic(auto, unfolding(crate::specs::Reading::number_in))]
fn read_miss(words: &mut Words<'_>) -> Result<i32, Syntax>
    ensures exact { MatchResult result
        (λ n. number_in miss_of words.old.end words.old.words ≡ Ok (n, words.new.words))
        (λ s. number_in miss_of words.old.end words.old.words ≡ Err s) }
    ensures within { IfOk result IsMissOdds }
{
    let word = words.take_word()?;
    miss_of(word.text).ok_or(word.fault())
}

/// Reads `MISS [lazy]`, after a HIT.
#[tactic(auto, unfolding(crate::specs::Reading::miss_in))]
fn read_odds(hit: i32, words: &mut Words<'_>) -> Result<(Option<ScanOdds>, bool), Syntax>
    requires { IsHitOdds hit }
    ensures exact { result ≡ miss_in hit words.old.end words.old.words }
    ensures trusted { IfOk result (λ r. IfSome r.0 IsOwnOdds) }
{
    let miss = read_miss(words)?;
    let lazy = read_flag(b"lazy", words)?;
    Ok((Some(ScanOdds { hit, miss }), lazy))
}

/// Reads `[HIT MISS] [lazy]`, at the end of a scan's head.
#[tactic(auto, unfolding(crate::specs::Reading::head_end_in))]
fn read_head_end(words: &mut Words<'_>) -> Result<(Option<ScanOdds>, bool), Syntax>
    ensures exact { result ≡ head_end_in words.old.end words.old.words }
    ensures trusted { IfOk result (λ r. IfSome r.0 IsOwnOdds) }
{
    let Some(word) = words.next_word() else {
        return Ok((None, false));
    };
    if word.text == b"lazy".as_slice() {
        read_end(words)?;
        return Ok((None, true));
    }
    let hit = hit_of(word.text).ok_or(word.fault())?;
    read_odds(hit, words)
}

/// Reads `X Y Z Q Q Q Q RANGE [HIT MISS] [lazy]`, after `scan`.
#[tactic(auto, unfolding(crate::specs::Reading::scan_in))]
fn read_scan(words: &mut Words<'_>, command: &mut Command) -> Result<(), Syntax>
    ensures exact { IsRead result command.new (scan_in words.old.end words.old.words) }
    ensures small { OnOk result (IsSmallCommand command.new) }
{
    let t = read_point(words)?;
    let (w, x, y, z) = read_rotation(words)?;
    let range = read_range(words)?;
    let (odds, lazy) = read_head_end(words)?;
    *command = Command::Scan(ScanHead {
        t,
        w,
        x,
        y,
        z,
        range,
        odds,
        lazy,
    });
    Ok(())
}

/// Reads `X Y Z`, after `p`.
#[tactic(auto, unfolding(crate::specs::Reading::beam_in))]
fn read_beam(words: &mut Words<'_>, command: &mut Command) -> Result<(), Syntax>
    ensures exact { IsRead result command.new (beam_in words.old.end words.old.words) }
    ensures small { OnOk result (IsSmallCommand command.new) }
{
    let p = read_point(words)?;
    read_end(words)?;
    *command = Command::Beam(p);
    Ok(())
}

/// Reads NAME.
#[tactic(auto, unfolding(crate::specs::Reading::number_in))]
fn read_name(words: &mut Words<'_>) -> Result<Name, Syntax>
    ensures exact { MatchResult result
        (λ name. number_in name_of words.old.end words.old.words ≡ Ok (name, words.new.words))
        (λ s. number_in name_of words.old.end words.old.words ≡ Err s) }
{
    let word = words.take_word()?;
    Name::new(word.text).ok_or(word.fault())
}

/// Reads NAME and the end of the line, after the verb of a file.
#[inline(never)]
#[tactic(auto, unfolding(crate::specs::Reading::file_in))]
fn read_file(verb: FileVerb, words: &mut Words<'_>, command: &mut Command) -> Result<(), Syntax>
    ensures exact { IsRead result command.new (file_in verb words.old.end words.old.words) }
    ensures small { OnOk result (IsSmallCommand command.new) }
{
    let name = read_name(words)?;
    read_end(words)?;
    *command = verb.command(name);
    Ok(())
}

/// Reads the end of a line whose one word is its command.
fn read_alone(single: Single, words: &mut Words<'_>, command: &mut Command) -> Result<(), Syntax>
    ensures exact { IsRead result command.new (end_in (single_command single) words.old.words) }
    ensures small { OnOk result (IsSmallCommand command.new) }
{
    read_end(words)?;
    *command = single.command();
    Ok(())
}

/// Reads what stands after a verb.
#[tactic(auto, unfolding(crate::specs::Reading::behind_verb))]
fn read_behind(verb: &Verb, words: &mut Words<'_>, command: &mut Command) -> Result<(), Syntax>
    ensures exact { IsRead result command.new
        (behind_verb verb.now words.old.end words.old.words) }
    ensures small { OnOk result (IsSmallCommand command.new) }
{
    match verb {
        Verb::Hit => read_edit(Edit::Hit, words, command),
        Verb::Miss => read_edit(Edit::Miss, words, command),
        Verb::Forget => read_edit(Edit::Forget, words, command),
        Verb::Add => read_add(words, command),
        Verb::Set => read_set(words, command),
        Verb::Get => read_query(words, command),
        Verb::List => read_listing(words, command),
        Verb::Cast => read_cast(words, command),
        Verb::Box => read_box(words, command),
        Verb::Limit => read_limit(words, command),
        Verb::Scan => read_scan(words, command),
        Verb::Beam => read_beam(words, command),
        Verb::File(verb) => read_file(*verb, words, command),
        Verb::Alone(single) => read_alone(*single, words, command),
    }
}

/// Reads what stands after the first word of a line.
fn read_behind_first(
    first: &WordAt<'_>,
    inside: bool,
    words: &mut Words<'_>,
    command: &mut Command,
) -> Result<(), Syntax>
    ensures exact { IsRead result command.new (behind_first inside
        (record { text = first.now.text.now; column = first.now.column })
        words.old.end words.old.words) }
    ensures small { OnOk result (IsSmallCommand command.new) }
{
    match verb_of(first.text, inside) {
        Some(verb) => read_behind(verb, words, command),
        None => Err(first.fault()),
    }
}

/// Reads a line from its first word on.
#[tactic(auto, unfolding(crate::specs::Reading::line_in))]
fn read_words(inside: bool, words: &mut Words<'_>, command: &mut Command) -> Result<(), Syntax>
    ensures exact { IsRead result command.new
        (line_in inside words.old.end words.old.words) }
    ensures small { OnOk result (IsSmallCommand command.new) }
{
    let Some(first) = words.next_word() else {
        *command = Command::Blank;
        return Ok(());
    };
    if first.text.first() == Some(&b'#') {
        *command = Command::Blank;
        return Ok(());
    }
    read_behind_first(&first, inside, words, command)
}

/// Reads a line, which isn't long, as a command of the script. It stands inside the block of an
/// open scan, or outside.
///
/// A line that needs no reply is [`Command::Blank`]: an empty line, one of blanks, and a comment. A
/// line that isn't in the grammar is a [`Syntax`], with the column of the first word that can't
/// stand there, or one more than the line's length where a word is missing. Inside a block only
/// `p X Y Z` and `end` are in the grammar, and outside they aren't.
pub fn parse(line: &[u8], inside: bool) -> Result<Command, Syntax>
    requires { length line.now ≤ LONGEST_LINE }
    ensures exact { result ≡ command_of inside line.now }
    ensures means { IfOk result
        (IsMeant (forms_of inside) (placed_words line.now)) }
    ensures leaves { IfErr result (λ s. LeavesAt (forms_of inside) (length line.now + 1)
        (placed_words line.now) s.column) }
    ensures small { IfOk result IsSmallCommand }
{
    let mut command = Command::Blank;
    parse_into(line, inside, &mut command)?;
    Ok(command)
}

/// Does what [`parse`] does, with the command put in a place. After a fault any command may stand
/// there.
pub fn parse_into(line: &[u8], inside: bool, command: &mut Command) -> Result<(), Syntax>
    requires { length line.now ≤ LONGEST_LINE }
    ensures exact { IsRead result command.new (command_of inside line.now) }
    ensures means { OnOk result
        (IsMeant (forms_of inside) (placed_words line.now) command.new) }
    ensures leaves { IfErr result (λ s. LeavesAt (forms_of inside) (length line.now + 1)
        (placed_words line.now) s.column) }
    ensures small { OnOk result (IsSmallCommand command.new) }
{
    read_words(inside, &mut Words::new(line), command)
}

/// Whether a line opens the block of a scan, if it isn't long: whether its first word is `scan`,
/// whatever its other words are.
pub fn opens_scan(line: &[u8]) -> bool
    ensures { result ≡ opens_scan line.now }
{
    first_word(line) == b"scan".as_slice()
}
