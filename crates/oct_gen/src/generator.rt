//! The script of a seed as a source.
ghost use Rattle.std.specs.Prelude.{◌≡◌, ◌<◌, ◌≤◌, [], Some, drop, length, min, take, IfOk};
ghost use Rattle.oct_gen.specs.Script.{script_of};

use crate::line::Line;
use crate::lines::ScriptLines;
use oct_io::{Failed, Source};
use std::marker::Model;

/// The script of a seed, of which each line is made as it's read. Contracts see it as the text
/// that is still to come. It holds one line and takes no memory.
#[derive(Drop)]
pub struct Generator {
    lines: ScriptLines,
    line: Line,
    at: usize,
}

impl Model for Generator {
    ghost use Rattle.std.specs.Prelude.{ℕ, List, ◌++◌, ◌≤◌, drop};
    ghost use Rattle.arrayvec.specs.ArrayString.{array_string_len};
    ghost use Rattle.oct_gen.specs.Lines.{to_come};

    ghost Value = { List ℕ };

    ghost view = { λ g. drop g.at g.line.bytes ++ to_come g.lines };

    ghost invariant = { λ g. g.at ≤ array_string_len g.line };
}

impl Generator {
    /// The script of this seed, of this many scans of this many points each.
    pub fn new(seed: u64, scans: u32, points: u32) -> Self
        ensures { result ≡ script_of seed scans points }
    {
        Generator {
            lines: ScriptLines::new(seed, scans, points),
            line: Line::new(),
            at: 0,
        }
    }

    /// Moves the next bytes to the front of the buffer, as many as it holds or as are left, and
    /// answers how many. The rest of the buffer stays as it was.
    pub fn fill(&mut self, buffer: &mut [u8]) -> usize
        ensures count { result ≡ min (length buffer.old) (length self.old) }
        ensures bytes { take result buffer.new ≡ take result self.old }
        ensures rest { drop result buffer.new ≡ drop result buffer.old }
        ensures moved { self.new ≡ drop result self.old }
    {
        let mut filled = 0usize;
        while filled < buffer.len() {
            let count = self.give(&mut buffer[filled..]);
            if count == 0 {
                break;
            }
            filled += count;
        }
        filled
    }

    /// Moves the next bytes of one line, and answers how many: none of them only where none is
    /// left, or where the buffer holds none.
    fn give(&mut self, buffer: &mut [u8]) -> usize
        ensures within { result ≤ length buffer.old }
        ensures enough { result ≤ length self.old }
        ensures len { length buffer.new ≡ length buffer.old }
        ensures bytes { take result buffer.new ≡ take result self.old }
        ensures rest { drop result buffer.new ≡ drop result buffer.old }
        ensures moved { self.new ≡ drop result self.old }
        ensures end { result ≡ 0 → 0 < length buffer.old → self.old ≡ [] }
    {
        if self.at == self.line.len() {
            let Some(line) = self.lines.next_line() else {
                return 0;
            };
            self.line = line;
            self.at = 0;
        }
        let (_, rest) = self.line.as_bytes().split_at(self.at);
        let count = rest.len().min(buffer.len());
        let (piece, _) = rest.split_at(count);
        buffer[..count].copy_from_slice(piece);
        self.at += count;
        count
    }
}

impl Source for Generator {
    ghost left = { λ g. Some g };

    ghost faults = { λ _. 0 };

    // It counts none.
    ghost ends = { λ _. 0 };

    /// No read fails, and each fills the buffer, but for the last one.
    fn read(&mut self, buffer: &mut [u8]) -> Result<usize, Failed>
        ensures full { result ≡ Ok (min (length buffer.old) (length self.old)) }
        ensures within { IfOk result (λ n. n ≤ length buffer.old) }
        ensures moved { IfOk result (λ n. self.new ≡ drop n self.old) }
        ensures bytes { IfOk result (λ n. take n buffer.new ≡ take n self.old) }
        ensures rest { IfOk result (λ n. drop n buffer.new ≡ drop n buffer.old) }
        ensures some { IfOk result (λ n. n ≤ length self.old) }
        ensures end { IfOk result (λ n. n ≡ 0 → 0 < length buffer.old → self.old ≡ []) }
    {
        Ok(self.fill(buffer))
    }
}
