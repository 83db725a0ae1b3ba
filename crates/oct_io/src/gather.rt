//! Bytes on their way to a sink.
ghost use Rattle.std.specs.Prelude.{◌≡◌, ◌<◌, ◌≤◌, ◌+◌, ◌++◌, ℕ, [], length, take, drop, OnErr};
ghost use Rattle.std.specs.Prelude.{OnOk};
ghost use Rattle.oct_io.specs.Counts.{IsWriteCounted};
ghost use Rattle.oct_io.specs.Gathered.{handed_on};
ghost use Rattle.oct_io.specs.Taken.{IsCutOff, IsRefused, IsTaken};
ghost use Rattle.oct_io.specs.Told.{appended};

use crate::sink::{Sink, SinkFault, write_all};
use arrayvec::ArrayVec;
use std::marker::Model;

/// The most bytes that are held.
const MOST_HELD: usize = 4096;

/// Bytes on their way to a sink, gathered so that the sink gets pieces of 4,096 bytes. It takes no
/// memory. What it still holds when it is dropped is lost, so flush it last.
#[derive(Drop)]
pub struct Gather {
    bytes: ArrayVec<u8, MOST_HELD>,
}

impl Model for Gather {
    ghost use Rattle.std.specs.Prelude.{ℕ, List, ◌≤◌, length};

    ghost Value = { List ℕ };

    ghost view = { λ g. g.bytes.items };

    ghost invariant = { λ g. length g.bytes.items ≤ 4096 };
}

impl Default for Gather {
    ghost use Rattle.std.specs.Prelude.{◌≡◌, []};

    ghost is_default = { λ g. g ≡ [] };

    fn default() -> Self {
        Gather::new()
    }
}

impl Gather {
    /// A gather that holds no byte.
    pub fn new() -> Self
        ensures { result ≡ [] }
    {
        Gather {
            bytes: ArrayVec::new(),
        }
    }

    /// Takes a piece. The sink is written to only where the piece doesn't fit, and then in pieces
    /// of 4,096 bytes. After an error no byte is held.
    pub fn push<K: Sink>(&mut self, sink: &mut K, piece: &[u8]) -> Result<(), SinkFault>
        ensures ok { OnOk result (appended (K.written sink.new) self.new
            ≡ appended (appended (K.written sink.old) self.old) piece.now) }
        ensures handed { OnOk result (K.written sink.new ≡ appended (K.written sink.old)
            (take (handed_on (length (self.old ++ piece.now))) (self.old ++ piece.now))) }
        ensures held { OnOk result
            (self.new ≡ drop (handed_on (length (self.old ++ piece.now))) (self.old ++ piece.now)) }
        ensures waits { length (self.old ++ piece.now) ≤ 4096 → sink.new ≡ sink.old }
        ensures few { length self.new ≤ 4096 }
        ensures err { OnErr result (self.new ≡ []) }
        ensures cut { OnErr result
            (IsCutOff (K.written sink.old) (K.written sink.new) (self.old ++ piece.now)) }

        // In words of a text that is pushed piece by piece.
        ensures taken { OnOk result
            (IsTaken piece.now (K.written sink.old) self.old (K.written sink.new) self.new) }
        ensures refused { OnErr result
            (IsRefused piece.now (K.written sink.old) self.old (K.written sink.new)) }

        // Where it gives up, exactly one write of the sink did, for the same reason.
        ensures counts { IsWriteCounted result (K.faults sink.old) (K.faults sink.new)
            (K.shortages sink.old) (K.shortages sink.new) }
    {
        let mut rest = piece;
        while rest.len() > self.room() {
            let (front, behind) = rest.split_at(self.room());
            self.hold(front);
            self.flush(sink)?;
            rest = behind;
        }
        self.hold(rest);
        Ok(())
    }

    /// Writes all bytes that are held. With none of them the sink isn't called. No byte is held
    /// afterwards, also after an error.
    pub fn flush<K: Sink>(&mut self, sink: &mut K) -> Result<(), SinkFault>
        ensures ok { OnOk result (K.written sink.new ≡ appended (K.written sink.old) self.old) }
        ensures empty { self.new ≡ [] }
        ensures waits { self.old ≡ [] → sink.new ≡ sink.old }
        ensures err { OnErr result (IsCutOff (K.written sink.old) (K.written sink.new) self.old) }

        // Where it gives up, exactly one write of the sink did, for the same reason.
        ensures counts { IsWriteCounted result (K.faults sink.old) (K.faults sink.new)
            (K.shortages sink.old) (K.shortages sink.new) }
    {
        if self.bytes.is_empty() {
            return Ok(());
        }
        let written = write_all(sink, self.bytes.as_slice());
        self.bytes.clear();
        written
    }

    /// How many bytes more can be held.
    fn room(&self) -> usize
        ensures { result + length self.now ≡ 4096 }
    {
        MOST_HELD - self.bytes.len()
    }

    /// Holds a piece that fits.
    fn hold(&mut self, piece: &[u8])
        requires { length self.old + length piece.now ≤ 4096 }
        ensures { self.new ≡ self.old ++ piece.now }
    {
        if self.bytes.try_extend_from_slice(piece).is_err() {
            unreachable!();
        }
    }
}
