//! Lines of a script that comes in pieces: the one that is being read, and those that stand whole
//! in a piece.
ghost use Rattle.std.specs.Prelude.{◌≡◌, ◌+◌, ◌≤◌, List, ℕ, ◌++◌, [], ◌∷◌, length, take, nat_lt};
ghost use Rattle.std.specs.Prelude.{not, ◌&&◌, if◌then◌else◌, true, false, nat_le, is_some, IfSome};
ghost use Rattle.std.specs.List.{prefix_len};
ghost use Rattle.oct_script.specs.Lines.{LineSoFar, Text, unread, is_long, ended, joined};
ghost use Rattle.oct_script.specs.Lines.{is_in_line, has_bytes, last_line, rest_of, IsReading};
ghost use Rattle.oct_script.specs.Lines.{trimmed, whole};
ghost use Rattle.oct_script.specs.Lines.{HasJoined, HasEnded};

use arrayvec::ArrayVec;
use memchr::memchr;
use std::marker::Model;

/// The most bytes that a line may have before its line feed; a longer one is long, and isn't kept.
pub const LONGEST_LINE: usize = 4096;

/// The line that is being read, which takes the bytes of a script in any cut and never allocates.
#[derive(Drop)]
pub struct Lines {
    bytes: ArrayVec<u8, LONGEST_LINE>,
    /// Whether the line has more bytes than are kept.
    overran: bool,
    /// Whether the line's line feed has come.
    ended: bool,
}

impl Model for Lines {
    ghost use Rattle.std.specs.Prelude.{if◌then◌else◌};
    ghost use Rattle.oct_script.specs.Lines.{LineSoFar, Text, Long};

    ghost Value = { LineSoFar };

    ghost view = { λ l. record {
      line = if l.overran then Long else Text l.bytes.items;
      has_ended = l.ended;
    } };
}

/// A line that was read: its text without its end, or nothing but that it is long.
#[derive(Debug, Drop)]
pub struct ReadLine<'a> {
    /// Of a long line any text.
    text: &'a [u8],
    is_long: bool,
}

impl<'a> Model for ReadLine<'a> {
    ghost use Rattle.std.specs.Prelude.{if◌then◌else◌, length, ◌≤◌};
    ghost use Rattle.oct_script.specs.Lines.{Line, Text, Long};

    ghost Value = { Line };

    ghost view = { λ l. if l.is_long then Long else Text l.text.now };

    ghost invariant = { λ l. length l.text.now ≤ 4096 };
}

impl<'a> ReadLine<'a> {
    /// The line of this text, which mustn't be long.
    pub fn new(text: &'a [u8]) -> Self
        requires { length text.now ≤ LONGEST_LINE }
        ensures { result ≡ Text text.now }
    {
        ReadLine {
            text,
            is_long: false,
        }
    }

    /// The text of the line, which mustn't be long.
    pub fn text(&self) -> &'a [u8]
        requires { is_long self.now ≡ false }
        ensures text { self.now ≡ Text result.now }
        ensures few { length result.now ≤ LONGEST_LINE }
    {
        self.text
    }

    /// Whether the line is long: more than 4,096 bytes before its line feed, or in all where none
    /// has come.
    pub fn is_long(&self) -> bool
        ensures { result ≡ is_long self.now }
    {
        self.is_long
    }
}

/// A line that stands in a piece from its first byte to its end.
#[derive(Clone, Copy, Debug)]
pub struct WholeLine<'a> {
    /// Its text, without its end.
    pub text: &'a [u8],
    /// How many bytes it has with its end.
    pub taken: usize,
}

/// What was taken of a piece.
#[derive(Clone, Copy, Debug, PartialEq, Eq)]
pub struct Fed {
    /// How many bytes were taken, from the front of the piece.
    pub taken: usize,
    /// Whether a line feed was the last of them.
    pub ended: bool,
}

/// The number of bytes before the first line feed.
fn count_in_line(piece: &[u8]) -> usize
    ensures count { result ≡ prefix_len is_in_line piece.now }
    ensures within { result ≤ length piece.now }
{
    memchr(b'\n', piece).unwrap_or(piece.len())
}

/// A text without the carriage return at its end, if there is one.
#[inline(always)]
fn trimmed(text: &[u8]) -> &[u8]
    ensures { result.now ≡ trimmed text.now }
{
    match text {
        [front @ .., b'\r'] => front,
        _ => text,
    }
}

impl Lines {
    /// The first line, of which nothing has been read.
    pub fn new() -> Self
        ensures empty { result ≡ unread }
        ensures reads { IsReading result [] }
    {
        Lines {
            bytes: ArrayVec::new(),
            overran: false,
            ended: false,
        }
    }

    /// Takes bytes up to and with the next line feed. The line mustn't have ended since the last
    /// [`Lines::next`].
    ///
    /// However a script is cut, the lines that are reported as ended are its lines: fed with
    /// `piece` after any bytes that have left this line unended, no line has ended in the bytes
    /// taken, or this one has, with the last of them.
    pub fn feed(&mut self, piece: &[u8]) -> Fed
        requires { self.old.has_ended ≡ false }
        ensures ended { result.ended ≡ nat_lt (prefix_len is_in_line piece.now) (length piece.now) }
        ensures taken { result.taken
            ≡ prefix_len is_in_line piece.now + (if result.ended then 1 else 0) }
        ensures within { result.taken ≤ length piece.now }
        ensures same { self.new.has_ended ≡ result.ended }
        ensures line { let front = take (prefix_len is_in_line piece.now) piece.now in
            let line = joined self.old.line front in
            self.new.line ≡ (if result.ended then ended line else line) }
        ensures joins { result.ended ≡ false → (bytes : List ℕ) → IsReading self.old bytes
            → HasJoined self.new bytes (bytes ++ take result.taken piece.now) }
        ensures ends { result.ended ≡ true → (bytes : List ℕ) → IsReading self.old bytes
            → HasEnded self.new bytes (bytes ++ take result.taken piece.now) }
    {
        let count = count_in_line(piece);
        let (front, rest) = piece.split_at(count);
        self.join(front);
        if rest.is_empty() {
            return Fed {
                taken: count,
                ended: false,
            };
        }
        self.end();
        Fed {
            taken: count + 1,
            ended: true,
        }
    }

    /// The line that stands whole in a piece, which needn't be fed: nothing of it came before, it
    /// ends in the piece, and it isn't long.
    #[inline(always)]
    pub fn whole<'a>(&self, piece: &'a [u8]) -> Option<WholeLine<'a>>
        requires { self.now.has_ended ≡ false }
        ensures some { let count = prefix_len is_in_line piece.now in is_some result
            ≡ (not (has_bytes self.now.line) && nat_lt count (length piece.now)
            && nat_le count LONGEST_LINE) }
        ensures taken { IfSome result (λ w. w.taken ≡ prefix_len is_in_line piece.now + 1) }
        ensures within { IfSome result (λ w. w.taken ≤ length piece.now) }
        ensures few { IfSome result (λ w. length w.text.now ≤ LONGEST_LINE) }
        ensures unread { IfSome result (λ w. self.now ≡ unread) }
        ensures ends { IfSome result (λ w. (bytes : List ℕ) → IsReading self.now bytes
            → HasEnded (whole w.text.now) bytes (bytes ++ take w.taken piece.now)) }
    {
        if self.overran || !self.bytes.is_empty() {
            return None;
        }
        let count = count_in_line(piece);
        if count > LONGEST_LINE || count == piece.len() {
            return None;
        }
        let (front, _) = piece.split_at(count);
        Some(WholeLine {
            text: trimmed(front),
            taken: count + 1,
        })
    }

    /// The line that was fed.
    pub fn read(&self) -> ReadLine<'_>
        ensures { result ≡ self.now.line }
    {
        ReadLine {
            text: self.bytes.as_slice(),
            is_long: self.overran,
        }
    }

    /// The text of the line, which mustn't be long, without its end.
    pub fn text(&self) -> &[u8]
        requires { is_long self.now.line ≡ false }
        ensures text { self.now.line ≡ Text result.now }
        ensures few { length result.now ≤ LONGEST_LINE }
    {
        self.bytes.as_slice()
    }

    /// Whether the line is long: more than 4,096 bytes before its line feed, or in all where none
    /// has come.
    pub fn is_long(&self) -> bool
        ensures { result ≡ is_long self.now.line }
    {
        self.overran
    }

    /// Whether bytes of an unended line stand, which are the last line where the script ends here.
    pub fn has_rest(&self) -> bool
        ensures exact { result ≡ (not self.now.has_ended && has_bytes self.now.line) }
        ensures last { (bytes : List ℕ) → IsReading self.now bytes
            → last_line (rest_of bytes) ≡ (if result then self.now.line ∷ [] else []) }
    {
        !self.ended && (self.overran || !self.bytes.is_empty())
    }

    /// Begins the next line.
    pub fn next(&mut self)
        ensures empty { self.new ≡ unread }
        ensures reads { (bytes : List ℕ) → rest_of bytes ≡ [] → IsReading self.new bytes }
    {
        self.bytes.clear();
        self.overran = false;
        self.ended = false;
    }

    /// Adds bytes to the line, which is long once they don't fit.
    fn join(&mut self, bytes: &[u8])
        ensures line { self.new.line ≡ joined self.old.line bytes.now }
        ensures same { self.new.has_ended ≡ self.old.has_ended }
    {
        if !self.overran && self.bytes.try_extend_from_slice(bytes).is_err() {
            self.overran = true;
        }
    }

    /// Ends the line, and drops one carriage return at its end.
    fn end(&mut self)
        ensures line { self.new.line ≡ ended self.old.line }
        ensures same { self.new.has_ended ≡ true }
    {
        if self.bytes.last() == Some(&b'\r') {
            self.bytes.pop();
        }
        self.ended = true;
    }
}
