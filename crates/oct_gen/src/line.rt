//! The lines of a script.
ghost use Rattle.std.specs.Prelude.{◌≡◌, ◌+◌, ◌≤◌, ◌++◌, codes};
ghost use Rattle.arrayvec.specs.ArrayString.{array_string_len};
ghost use Rattle.oct_gen.specs.Draws.{state_after, stepped};
ghost use Rattle.oct_gen.specs.Script.{header_line, length_text, point_line, point_text, scan_line};

use crate::draws::Draws;
use arrayvec::ArrayString;
use itoa::Buffer;
use oct_num::metres_text;

/// A line with its line feed.
pub(crate) type Line = ArrayString<128>;

const NANOMETRES_PER_MILLIMETRE: i64 = 1_000_000;

/// How far a scan's place lies from 0 on each axis at most, in millimetres.
const ORIGIN_REACH: u16 = 2000;

/// How large the last number of a scan's quaternion is at most, by which it is turned about z.
const TURN_REACH: u16 = 2;

/// How far a point lies from 0 on each axis at most, in millimetres.
const POINT_REACH: u16 = 5000;

/// The first line: a comment that says what made the script.
pub(crate) fn header_line(seed: u64, scans: u32, points: u32) -> Line
    ensures { result.bytes ≡ header_line seed scans points }
{
    let mut line = Line::new();
    line.push_str("# octomap gen ");
    line.push_str(Buffer::new().format(seed));
    line.push_str(" ");
    line.push_str(Buffer::new().format(scans));
    line.push_str(" ");
    line.push_str(Buffer::new().format(points));
    line.push_str("\n");
    line
}

/// The first line of a scan.
pub(crate) fn scan_line(draws: &mut Draws) -> Line
    ensures text { result.bytes ≡ scan_line draws.old.state 0 }
    ensures state { draws.new.state ≡ state_after draws.old.state 4 }
{
    let mut line = Line::new();
    line.push_str("scan ");
    push_point(&mut line, draws, ORIGIN_REACH);
    line.push_str(" 1 0 0 ");
    line.push_str(Buffer::new().format(draws.draw_within(TURN_REACH)));
    line.push_str(" 8\n");
    line
}

/// The line of a point of a scan.
pub(crate) fn point_line(draws: &mut Draws) -> Line
    ensures text { result.bytes ≡ point_line draws.old.state 0 }
    ensures state { draws.new.state ≡ state_after draws.old.state 3 }
{
    let mut line = Line::new();
    line.push_str("p ");
    push_point(&mut line, draws, POINT_REACH);
    line.push_str("\n");
    line
}

/// The last line of a scan.
pub(crate) fn end_line() -> Line
    ensures { result.bytes ≡ codes "end\n" }
{
    let mut line = Line::new();
    line.push_str("end\n");
    line
}

/// The last line of the script.
pub(crate) fn quit_line() -> Line
    ensures { result.bytes ≡ codes "quit\n" }
{
    let mut line = Line::new();
    line.push_str("quit\n");
    line
}

/// Appends a point, whose coordinates are drawn one after another.
fn push_point(line: &mut Line, draws: &mut Draws, reach: u16)
    requires room { array_string_len line.old ≤ 5 }
    ensures text { line.new.bytes ≡ line.old.bytes ++ point_text reach draws.old.state 0 }
    ensures len { array_string_len line.new ≤ array_string_len line.old + 74 }
    ensures state { draws.new.state ≡ state_after draws.old.state 3 }
{
    push_length(line, draws, reach);
    line.push_str(" ");
    push_length(line, draws, reach);
    line.push_str(" ");
    push_length(line, draws, reach);
}

/// Appends a length of at most `reach` millimetres to either side, in metres.
fn push_length(line: &mut Line, draws: &mut Draws, reach: u16)
    requires room { array_string_len line.old ≤ 80 }
    ensures text { line.new.bytes ≡ line.old.bytes ++ length_text reach draws.old.state 0 }
    ensures len { array_string_len line.new ≤ array_string_len line.old + 24 }
    ensures state { draws.new.state ≡ stepped draws.old.state }
{
    let millimetres = draws.draw_within(reach);
    line.push_str(metres_text(NANOMETRES_PER_MILLIMETRE * millimetres).as_str());
}
