//! A file from a source.
ghost use Rattle.std.specs.Prelude.{◌≤◌, ◌-◌, length, IfOk, IfSome};
ghost use Rattle.oct_file_tasks.specs.Counts.{IsFileCounted};
ghost use Rattle.oct_file_tasks.specs.Input.{MayRead, by_fault};

use oct_bt::{BtFault, BtFile, Reader};
use oct_io::{Failed, Source, read_piece};
use oct_num::Memory;
use std::alloc::Global;
use thiserror::Error;

/// The most bytes that one read asks for.
const MOST_READ: usize = 16 * 1024;

/// Why no file was read.
#[derive(Clone, Copy, Debug, PartialEq, Eq, Error)]
pub enum NoFile {
    /// The input isn't a file of this form.
    #[error("bad file")]
    BadFile(BtFault),
    /// The input has more bytes than it may have.
    #[error("input too long")]
    TooLong,
    /// The source failed.
    #[error("read fault")]
    ReadFault,
    /// Memory ran out.
    #[error("out of memory")]
    Memory,
}

impl From<Memory> for NoFile {
    ghost use Rattle.std.specs.Prelude.{◌≡◌};
    ghost use Rattle.oct_file_tasks.specs.declared.input.NoFile.TheVariants as none;

    ghost from_gives = { λ _ e. e ≡ none.Memory };

    fn from(_: Memory) -> Self {
        NoFile::Memory
    }
}

impl From<Failed> for NoFile {
    ghost use Rattle.std.specs.Prelude.{◌≡◌};
    ghost use Rattle.oct_file_tasks.specs.declared.input.NoFile.TheVariants as none;

    ghost from_gives = { λ _ e. e ≡ none.ReadFault };

    fn from(_: Failed) -> Self {
        NoFile::ReadFault
    }
}

impl From<BtFault> for NoFile {
    ghost use Rattle.std.specs.Prelude.{◌≡◌};
    ghost use Rattle.oct_file_tasks.specs.Input.{by_fault};

    ghost from_gives = { λ fault e. e ≡ by_fault fault };

    fn from(fault: BtFault) -> Self {
        match fault {
            BtFault::Memory => NoFile::Memory,
            _ => NoFile::BadFile(fault),
        }
    }
}

/// Reads a file of at most `max_bytes` bytes from a source, in pieces, to the end of its input.
///
/// The file is judged when the input has ended: a failed read comes before any fault of the file,
/// and so does an input that is too long, of which one byte more than it may have is taken. Nothing
/// is read after a failed read, after the end, after one byte too many or after memory ran out.
pub fn read_file<S: Source>(alloc: Global, max_bytes: u64, source: &mut S) -> Result<BtFile, NoFile>
    ensures answer { IfSome (S.left source.old)
        (λ bytes. MayRead max_bytes bytes (S.left source.new) result) }
    ensures few { IfOk result (λ file. length file.codes ≤ max_bytes) }
    ensures counts { IsFileCounted result (S.faults source.old) (S.faults source.new)
        (S.ends source.old) (S.ends source.new) }
{
    let mut reader = Reader::new(alloc);
    let mut buffer = [0u8; MOST_READ];
    let mut taken = 0u64;
    'reading: loop {
        let room = max_bytes - taken;
        let count = read_piece(source, &mut buffer, room)?;
        if count == 0 {
            return Ok(reader.finish()?);
        }
        if count as u64 > room {
            return Err(NoFile::TooLong);
        }
        let (piece, _) = buffer.split_at(count);
        reader.feed(piece)?;
        taken += count as u64;
    }
}
