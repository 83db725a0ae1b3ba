//! One read of an input that may have a limited number of bytes more.
ghost use Rattle.std.specs.Prelude.{◌≡◌, ◌<◌, ◌≤◌, ◌+◌, [], length, take, IfOk, IfSome, OnErr};
ghost use Rattle.oct_io.specs.Counts.{IsEndCounted, IsReadCounted};
ghost use Rattle.oct_io.specs.Told.{dropped};

use crate::source::{Failed, Source};

/// Reads once to the front of the buffer, from an input that may have at most `room` bytes more. It
/// asks for at most `room + 1`, so that the caller sees where there are too many. Answers how many
/// came; 0 is the end of the input.
pub fn read_piece<S: Source>(source: &mut S, buffer: &mut [u8], room: u64) -> Result<usize, Failed>
    requires some { 0 < length buffer.old }
    ensures within { IfOk result (λ n. n ≤ length buffer.old) }
    ensures few { IfOk result (λ n. n ≤ room + 1) }
    ensures len { length buffer.new ≡ length buffer.old }
    ensures moved { IfOk result (λ n. S.left source.new ≡ dropped n (S.left source.old)) }
    ensures bytes { IfOk result
        (λ n. IfSome (S.left source.old) (λ left. take n buffer.new ≡ take n left)) }
    ensures enough { IfOk result (λ n. IfSome (S.left source.old) (λ left. n ≤ length left)) }
    ensures end { IfOk result (λ n. n ≡ 0 → IfSome (S.left source.old) (λ left. left ≡ [])) }
    ensures err { OnErr result (S.left source.new ≡ S.left source.old) }
    ensures counts { IsReadCounted result (S.faults source.old) (S.faults source.new) }
    ensures ends { IsEndCounted result (S.ends source.old) (S.ends source.new) }
{
    let most = wanted(room, buffer.len());
    source.read(&mut buffer[..most])
}

/// How many bytes to ask for, of as many as a buffer holds.
fn wanted(room: u64, len: usize) -> usize
    requires { 0 < len }
    ensures some { 0 < result }
    ensures within { result ≤ len }
    ensures few { result ≤ room + 1 }
{
    if room < len as u64 {
        room as usize + 1
    } else {
        len
    }
}
