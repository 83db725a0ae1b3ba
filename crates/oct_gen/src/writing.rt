//! A script that is written whole.
ghost use Rattle.std.specs.Prelude.{◌≡◌, ◌<◌, ◌++◌, ℕ, length, take, OnOk, OnErr};
ghost use Rattle.oct_io.specs.Counts.{IsWriteCounted};
ghost use Rattle.oct_io.specs.Taken.{IsCutOff};
ghost use Rattle.oct_io.specs.Told.{appended};
ghost use Rattle.oct_gen.specs.Script.{script_of};

use crate::generator::Generator;
use crate::lines::ScriptLines;
use oct_io::{Sink, SinkFault, write_all};
use oct_num::Memory;

/// The most bytes that are made before they are written.
const MOST_HELD: usize = 4096;

/// Appends the script of this seed, of this many scans of this many points each. After `Memory` a
/// prefix of it was appended.
pub fn gen_script(out: &mut Vec<u8>, seed: u64, scans: u32, points: u32) -> Result<(), Memory>
    ensures ok { OnOk result (out.new.items ≡ out.old.items ++ script_of seed scans points) }
    ensures err { OnErr result ((n : ℕ) × (n < length (script_of seed scans points))
        × (out.new.items ≡ out.old.items ++ take n (script_of seed scans points))) }
{
    let mut lines = ScriptLines::new(seed, scans, points);
    while let Some(line) = lines.next_line() {
        out.extend_from_slice(line.as_bytes())?;
    }
    Ok(())
}

/// Writes the script of this seed, of this many scans of this many points each, in pieces of 4,096
/// bytes, which is all that it holds at a time. After an error a prefix of it was written.
pub fn generate<K: Sink>(seed: u64, scans: u32, points: u32, sink: &mut K) -> Result<(), SinkFault>
    ensures ok { OnOk result (K.written sink.new
        ≡ appended (K.written sink.old) (script_of seed scans points)) }
    ensures err { OnErr result
        (IsCutOff (K.written sink.old) (K.written sink.new) (script_of seed scans points)) }

    // Where it gives up, exactly one write of the sink did, for the same reason.
    ensures counts { IsWriteCounted result (K.faults sink.old) (K.faults sink.new)
        (K.shortages sink.old) (K.shortages sink.new) }
{
    let mut script = Generator::new(seed, scans, points);
    let mut buffer = [0u8; MOST_HELD];
    loop {
        let count = script.fill(&mut buffer);
        if count == 0 {
            return Ok(());
        }
        write_all(sink, &buffer[..count])?;
    }
}
