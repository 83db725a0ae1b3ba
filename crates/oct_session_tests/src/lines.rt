//! Worked examples of lines, commands and replies.
ghost use Rattle.std.specs.Prelude.{◌≡◌, false};

use oct_key::Point;
use oct_script::{
    Command, Edit, LONGEST_LINE, Lines, Name, Reply, ScanHead, ScanOdds, Syntax, opens_scan, parse,
    push_reply,
};
use std::process::Abort;
use std::test::Fail;

/// The text of a line that isn't long.
fn text_of(lines: &Lines) -> Option<&[u8]> {
    if lines.is_long() {
        None
    } else {
        Some(lines.text())
    }
}

/// Expects that the line so far has this text.
fn expect_text(rt: &impl Abort, lines: &Lines, want: &[u8]) {
    assert_eq!(rt; text_of(lines), Some(want));
}

/// Feeds a piece to a line that hasn't ended, and expects that this many bytes of it are taken, and
/// that the line ends there or doesn't.
fn expect_fed(rt: &impl Abort, lines: &mut Lines, piece: &[u8], taken: usize, ended: bool)
    requires { lines.old.has_ended ≡ false }
    ensures { lines.new.has_ended ≡ ended }
{
    let fed = lines.feed(piece);
    assert_eq!(rt; fed.taken, taken);
    assert!(rt; fed.ended == ended);
}

/// What a line that isn't long is read as, inside the block of a scan or outside.
fn read(line: &str, inside: bool) -> Option<Result<Command, Syntax>> {
    if line.len() > LONGEST_LINE {
        return None;
    }
    Some(parse(line.as_bytes(), inside))
}

/// Expects that a line is read so, inside the block of a scan or outside.
fn expect_read(rt: &impl Abort, line: &str, inside: bool, want: Result<Command, Syntax>) {
    assert_eq!(rt; read(line, inside), Some(want), "at {line:?}");
}

/// Whether a line that isn't long opens the block of a scan.
fn opens(line: &str) -> bool {
    line.len() <= LONGEST_LINE && opens_scan(line.as_bytes())
}

#[test]
fn lines_end_at_line_feeds(rt: HostRuntime) {
    let mut lines = Lines::new();
    assert!(rt; !lines.has_rest());
    expect_fed(&rt, &mut lines, b"hit 0 0 0\r\nget", 11, true);
    assert!(rt; !lines.has_rest());
    // One carriage return is dropped.
    expect_text(&rt, &lines, b"hit 0 0 0");
    lines.next();
    expect_fed(&rt, &mut lines, b"get", 3, false);
    assert!(rt; lines.has_rest());
}

#[test]
fn lines_lose_one_carriage_return_alone(rt: HostRuntime) {
    let mut lines = Lines::new();
    expect_fed(&rt, &mut lines, b"a\r\r\n\n", 4, true);
    expect_text(&rt, &lines, b"a\r");
    lines.next();
    expect_fed(&rt, &mut lines, b"\n", 1, true);
    expect_text(&rt, &lines, b"");
}

#[test]
fn lines_are_the_same_in_any_cut(rt: HostRuntime) {
    let mut lines = Lines::new();
    expect_fed(&rt, &mut lines, b"qu", 2, false);
    expect_fed(&rt, &mut lines, b"it\r", 3, false);
    // Without its line feed it keeps the carriage return.
    expect_text(&rt, &lines, b"quit\r");
    expect_fed(&rt, &mut lines, b"\n", 1, true);
    expect_text(&rt, &lines, b"quit");
}

#[test]
fn a_long_line_has_more_than_4096_bytes(rt: HostRuntime) {
    let most = [b' '; 4096];
    let mut lines = Lines::new();
    expect_fed(&rt, &mut lines, &most, 4096, false);
    assert!(rt; !lines.is_long() && lines.has_rest());
    expect_fed(&rt, &mut lines, b"\n", 1, true);
    assert!(rt; !lines.is_long());
    lines.next();
    // A carriage return counts, and blanks too.
    expect_fed(&rt, &mut lines, &most, 4096, false);
    expect_fed(&rt, &mut lines, b"\r\n", 2, true);
    assert!(rt; lines.is_long());
    lines.next();
    assert!(rt; !lines.is_long());
}

const ORIGIN: Point = Point { x: 0, y: 0, z: 0 };

const FAR: Point = Point {
    x: 1_500_000_000,
    y: -1,
    z: 9_999_999_999_999_999,
};

/// An edit of the voxel at a point.
macro_rules! edit {
    ($p:expr, $e:expr, $lazy:expr) => {
        Command::Edit { p: $p, e: $e, lazy: $lazy }
    };
}

/// An edit of the box from the origin to a point.
macro_rules! on_box {
    ($hi:expr, $e:expr) => {
        Command::Box { lo: ORIGIN, hi: $hi, e: $e }
    };
}

/// A query of a block around the origin.
macro_rules! get {
    ($depth:expr) => {
        Command::Get { p: ORIGIN, depth: $depth }
    };
}

/// A cast between two points.
macro_rules! cast {
    ($origin:expr, $end:expr, $ignore:expr) => {
        Command::Cast { o: $origin, e: $end, ignore: $ignore }
    };
}

/// A list of the blocks of a depth in a box.
macro_rules! list {
    ($lo:expr, $hi:expr, $depth:expr) => {
        Command::List { lo: $lo, hi: $hi, depth: $depth }
    };
}

/// Log-odds of a scan's own.
macro_rules! odds {
    ($hit:expr, $miss:expr) => {
        Some(ScanOdds { hit: $hit, miss: $miss })
    };
}

/// The head of a scan that is turned about the vertical axis.
macro_rules! scan {
    ($w:expr, $z:expr, $range:expr, $odds:expr, $lazy:expr) => {
        Command::Scan(ScanHead {
            t: Point { x: 1_000_000_000, y: 0, z: -500_000_000 },
            w: $w,
            x: 0,
            y: 0,
            z: $z,
            range: $range,
            odds: $odds,
            lazy: $lazy,
        })
    };
}

/// Lines outside the block of a scan, and their commands.
const COMMANDS: [(&str, Command); 45] = [
    ("hit 0 0 0", edit!(ORIGIN, Edit::Hit, false)),
    ("miss 0 0 0", edit!(ORIGIN, Edit::Miss, false)),
    (
        "\t add  0 \t 0 0 -1000000  ",
        edit!(ORIGIN, Edit::Add(-1_000_000), false),
    ),
    ("set 0 -0 0.0 0000009", edit!(ORIGIN, Edit::Set(9), false)),
    ("forget 0 0 0", edit!(ORIGIN, Edit::Forget, false)),
    (
        "hit 1.5 -0.000000001 9999999.999999999",
        edit!(FAR, Edit::Hit, false),
    ),
    ("hit 0 0 0 lazy", edit!(ORIGIN, Edit::Hit, true)),
    ("miss 0 0 0 lazy ", edit!(ORIGIN, Edit::Miss, true)),
    ("add 0 0 0 7 lazy", edit!(ORIGIN, Edit::Add(7), true)),
    ("set 0 0 0 -5 \t lazy", edit!(ORIGIN, Edit::Set(-5), true)),
    ("forget 0 0 0 lazy", edit!(ORIGIN, Edit::Forget, true)),
    ("get 0 0 0 0016", get!(16)),
    ("get 0 0 0 0", get!(0)),
    ("get 0 0 0 17", get!(17)),
    ("get 0 0 0 9999999", get!(9_999_999)),
    (
        "cast 0 0 0 1.5 -0.000000001 9999999.999999999",
        cast!(ORIGIN, FAR, false),
    ),
    (
        " cast 1.5 -0.000000001 9999999.999999999 0 -0 0.0 ignore ",
        cast!(FAR, ORIGIN, true),
    ),
    (
        "list 0 0 0 1.5 -0.000000001 9999999.999999999 16",
        list!(ORIGIN, FAR, 16),
    ),
    (
        " list 1.5 -0.000000001 9999999.999999999 0 0 0 9999999 ",
        list!(FAR, ORIGIN, 9_999_999),
    ),
    ("counts", Command::Counts),
    (" refresh", Command::Refresh),
    ("prune ", Command::Prune),
    ("clear", Command::Clear),
    ("maxlik", Command::MaxLik),
    ("box 0 0 0 0 0 0 hit", on_box!(ORIGIN, Edit::Hit)),
    (
        " box 0 0 0  1.5 -0.000000001 9999999.999999999 \t miss ",
        on_box!(FAR, Edit::Miss),
    ),
    ("box 0 0 0 0 0 0 forget", on_box!(ORIGIN, Edit::Forget)),
    (
        "box 0 0 0 0 0 0 add -1000000",
        on_box!(ORIGIN, Edit::Add(-1_000_000)),
    ),
    ("box 0 0 0 0 0 0 set 0000009", on_box!(ORIGIN, Edit::Set(9))),
    ("track", Command::Track),
    ("\tuntrack", Command::Untrack),
    ("changes ", Command::Changes),
    (
        "limit 0 0 0 \t 1.5 -0.000000001 9999999.999999999 ",
        Command::Limit {
            lo: ORIGIN,
            hi: FAR,
        },
    ),
    ("nolimit", Command::NoLimit),
    ("quit", Command::Quit),
    ("", Command::Blank),
    (" \t ", Command::Blank),
    (" #hit 0 0 x", Command::Blank),
    ("scan 1 0 -0.5 1 0 0 0 all", scan!(1, 0, None, None, false)),
    (
        " scan 1 0 -0.5 -32768 -0 0 0032767 8 lazy",
        scan!(-32768, 32767, Some(8_000_000_000), None, true),
    ),
    (
        "scan 1 0 -0.5 0 0 0 0 -0",
        scan!(0, 0, Some(0), None, false),
    ),
    (
        "scan 1 0 -0.5 0 0 0 0 9999999.999999999",
        scan!(0, 0, Some(9_999_999_999_999_999), None, false),
    ),
    (
        "scan 1 0 -0.5 1 0 0 0 all 1 -1",
        scan!(1, 0, None, odds!(1, -1), false),
    ),
    (
        "scan 1 0 -0.5 1 0 0 0 0 1000000 -1000000 lazy",
        scan!(1, 0, Some(0), odds!(1_000_000, -1_000_000), true),
    ),
    (
        "scan 1 0 -0.5 1 0 0 0 all  0000850 \t -0000400",
        scan!(1, 0, None, odds!(850, -400), false),
    ),
];

/// Lines inside the block of a scan, and their commands.
const BLOCK_COMMANDS: [(&str, Command); 4] = [
    ("p 0 0.0 -0", Command::Beam(ORIGIN)),
    (" end ", Command::End),
    ("", Command::Blank),
    ("\t# end", Command::Blank),
];

/// Expects that each line of a table is its command.
fn expect_commands(rt: &impl Abort, cases: &[(&str, Command)], inside: bool) {
    for (line, command) in cases {
        expect_read(rt, line, inside, Ok(*command));
    }
}

#[test]
fn lines_are_commands(rt: HostRuntime) {
    expect_commands(&rt, &COMMANDS, false);
    expect_commands(&rt, &BLOCK_COMMANDS, true);
}

/// A name of the greatest length.
const LONGEST: &str = "a23456789_123456789-123456789.123456789012345678901234567890123Z";

/// Words that are names.
const NAMES: &[&str] = &["m", "_", "0", "Map.bt", "a..b--c__", "9-", LONGEST];

/// Words that aren't.
const NO_NAMES: &[&str] = &[
    "",
    ".",
    "-",
    ".bt",
    "-m",
    "a/b",
    "/m",
    "m\\",
    "m:",
    "k\u{e4}se",
];

/// Expects that a word is a name, or that it isn't.
fn expect_name(rt: &impl Abort, word: &str, want: bool) {
    let is_kept = match Name::new(word.as_bytes()) {
        Some(name) => name.as_str() == word,
        None => false,
    };
    assert_eq!(rt; is_kept, want, "{word:?}");
}

/// Expects that each word is a name, or that none is.
fn expect_names(rt: &impl Abort, words: &[&str], want: bool) {
    for word in words {
        expect_name(rt, word, want);
    }
}

#[test]
fn names_are_words_of_files(rt: HostRuntime) {
    expect_names(&rt, NAMES, true);
    expect_names(&rt, NO_NAMES, false);
    assert_eq!(rt; Name::new(&[b'm'; 65]), None);
}

#[test]
fn lines_name_files(rt: HostRuntime) {
    let Some(name) = Name::new(b"Map_1.bt") else {
        assert!(rt; false, "a name isn't taken for one");
        return;
    };
    expect_read(&rt, "save Map_1.bt", false, Ok(Command::Save(name)));
    expect_read(&rt, " load \t Map_1.bt ", false, Ok(Command::Load(name)));
    expect_read(&rt, "snapshot Map_1.bt", false, Ok(Command::Snapshot(name)));
    expect_read(&rt, "restore Map_1.bt", false, Ok(Command::Restore(name)));
}

#[test]
fn scan_is_the_word_that_opens_a_block(rt: HostRuntime) {
    assert!(rt; opens("scan") && opens(" \tscan no head"));
    assert!(rt; !opens("") && !opens("# scan") && !opens("scans") && !opens("hit scan"));
}

#[test]
fn a_reply_is_appended(rt: HostRuntime) -> Result<(), Fail> {
    let mut out = Vec::new(rt.alloc());
    push_reply(&mut out, &Reply::Loaded(17))?;
    push_reply(&mut out, &Reply::Ok)?;
    assert_eq!(rt; out.as_slice(), b"loaded 17\nok\n".as_slice());
    Ok(())
}
