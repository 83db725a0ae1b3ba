//! The words of a line, which are parted by blanks, and where they stand.
ghost use Rattle.std.specs.Prelude.{◌≡◌, ◌+◌, ◌^◌, ◌<◌, ◌≤◌, unsigned_abs, [], ◌∷◌, length, drop};
ghost use Rattle.std.specs.Prelude.{MatchOption, MatchResult, IfOk, Ok, Err};
ghost use Rattle.oct_script.specs.Grammar.{length_of};
ghost use Rattle.oct_script.specs.Reading.{number_in};
ghost use Rattle.std.specs.List.{prefix_len};
ghost use Rattle.oct_script.specs.Words.{is_blank, is_in_word, words_from, placed_words};
ghost use Rattle.oct_script.specs.Words.{first_text};

use crate::command::Syntax;
use crate::lines::LONGEST_LINE;
use crate::numbers::length_of;
use oct_num::metres_at;
use std::marker::Model;

/// A word of a line.
#[derive(Clone, Copy, Debug)]
pub struct WordAt<'a> {
    /// Its bytes, of which there is at least one.
    pub text: &'a [u8],
    /// The place of its first byte in the line, counted from 1 on.
    pub column: u32,
}

impl WordAt<'_> {
    /// The fault of a word that can't stand where it does.
    pub fn fault(&self) -> Syntax
        ensures { result.column ≡ self.now.column }
    {
        Syntax {
            column: self.column,
        }
    }
}

/// The words of a line that are still to be read.
#[derive(Drop)]
pub struct Words<'a> {
    line: &'a [u8],
    /// The index behind the last word that was read.
    at: usize,
}

impl<'a> Model for Words<'a> {
    ghost use Rattle.std.specs.Prelude.{◌+◌, ◌≤◌, length, drop};
    ghost use Rattle.oct_script.specs.Words.{words_from};
    ghost use Rattle.oct_script.specs.Reading.{Unread};

    ghost Value = { Unread };

    ghost view = { λ w. record {
      words = words_from (w.at + 1) (drop w.at w.line.now);
      end = length w.line.now + 1;
    } };

    ghost invariant = { λ w. (w.at ≤ length w.line.now) × (length w.line.now ≤ 4096) };
}

/// Whether a byte is a space or a tab.
fn is_blank(b: u8) -> bool
    ensures { result ≡ is_blank b }
{
    b == b' ' || b == b'\t'
}

/// The index of the first byte from an index on that isn't a blank, or of the end.
#[inline(always)]
fn skip_blanks(text: &[u8], from: usize) -> usize
    requires { from ≤ length text.now }
    ensures end { result ≡ from + prefix_len is_blank (drop from text.now) }
    ensures within { result ≤ length text.now }
{
    let mut at = from;
    while at < text.len() {
        if !is_blank(text[at]) {
            return at;
        }
        at += 1;
    }
    at
}

/// The index of the first blank from an index on, or of the end.
#[inline(always)]
fn skip_word(text: &[u8], from: usize) -> usize
    requires { from ≤ length text.now }
    ensures end { result ≡ from + prefix_len is_in_word (drop from text.now) }
    ensures within { result ≤ length text.now }
{
    let mut at = from;
    while at < text.len() {
        if is_blank(text[at]) {
            return at;
        }
        at += 1;
    }
    at
}

/// The first word of a line of any length. It has no byte where the line has no word.
pub fn first_word(line: &[u8]) -> &[u8]
    ensures { result.now ≡ first_text (placed_words line.now) }
{
    let start = skip_blanks(line, 0);
    let (_, text) = line.split_at(start);
    let (word, _) = text.split_at(skip_word(line, start) - start);
    word
}

impl<'a> Words<'a> {
    /// All words of the line.
    pub fn new(line: &'a [u8]) -> Self
        requires { length line.now ≤ LONGEST_LINE }
        ensures words { result.words ≡ placed_words line.now }
        ensures end { result.end ≡ length line.now + 1 }
    {
        Words { line, at: 0 }
    }

    /// The column after the line: one more than its length.
    pub fn end(&self) -> u32
        ensures { result ≡ self.now.end }
    {
        self.line.len() as u32 + 1
    }

    /// The next word, if there is one.
    #[inline(always)]
    pub fn next_word(&mut self) -> Option<WordAt<'a>>
        ensures words { MatchOption result (self.old.words ≡ [])
            (λ w. self.old.words
            ≡ record { text = w.text.now; column = w.column } ∷ self.new.words) }
        ensures end { self.new.end ≡ self.old.end }
    {
        let start = skip_blanks(self.line, self.at);
        let end = skip_word(self.line, start);
        self.at = end;
        if start == end {
            return None;
        }
        let (_, text) = self.line.split_at(start);
        let (word, _) = text.split_at(end - start);
        Some(WordAt {
            text: word,
            column: start as u32 + 1,
        })
    }

    /// Reads a length, an X, a Y or a Z: the next word, which mustn't be missing.
    #[inline(always)]
    pub fn take_length(&mut self) -> Result<i64, Syntax>
        ensures exact { MatchResult result
            (λ n. number_in length_of self.old.end self.old.words ≡ Ok (n, self.new.words))
            (λ s. number_in length_of self.old.end self.old.words ≡ Err s) }
        ensures end { self.new.end ≡ self.old.end }
        ensures reach { IfOk result (λ n. unsigned_abs n < 10 ^ 16) }
    {
        let start = skip_blanks(self.line, self.at);
        // Nearly every length is read in this one pass; what it can't read is read again, slowly,
        // for the column of the fault.
        if let Some((length, end)) = metres_at(self.line, start) {
            if skip_word(self.line, end) == end {
                self.at = end;
                return Ok(length);
            }
        }
        self.take_length_slowly()
    }

    /// Does what [`Words::take_length`] does, in more passes.
    #[tactic(auto, unfolding(crate::specs::Reading::number_in))]
    #[inline(never)]
    fn take_length_slowly(&mut self) -> Result<i64, Syntax>
        ensures exact { MatchResult result
            (λ n. number_in length_of self.old.end self.old.words ≡ Ok (n, self.new.words))
            (λ s. number_in length_of self.old.end self.old.words ≡ Err s) }
        ensures end { self.new.end ≡ self.old.end }
        ensures reach { IfOk result (λ n. unsigned_abs n < 10 ^ 16) }
    {
        let word = self.take_word()?;
        length_of(word.text).ok_or(word.fault())
    }

    /// The next word, which mustn't be missing.
    pub fn take_word(&mut self) -> Result<WordAt<'a>, Syntax>
        ensures words { MatchResult result
            (λ w. self.old.words ≡ record { text = w.text.now; column = w.column } ∷ self.new.words)
            (λ s. (self.old.words ≡ []) × (s.column ≡ self.old.end)) }
        ensures end { self.new.end ≡ self.old.end }
    {
        match self.next_word() {
            Some(word) => Ok(word),
            None => Err(Syntax { column: self.end() }),
        }
    }
}
