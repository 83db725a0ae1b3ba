//! How a run ended.
ghost use Rattle.std.specs.Prelude.{◌≡◌};
ghost use Rattle.oct_io.specs.Stops.{status_written};

use crate::sink::SinkFault;
use std::fmt;

/// How a run ended. The numbers are those that the program ends with.
#[derive(Clone, Copy, Debug, PartialEq, Eq)]
pub enum Status {
    /// All was done, a script to its end or to `quit`, and nothing was refused.
    Done = 0,
    /// All was done as far as it could be, and a reply, or the one line of a task over files, is a
    /// refusal.
    Refused = 1,
    /// The words ask for no task. Nothing was read or written.
    Usage = 2,
    /// The input was to be a file of classes and isn't one; the refusal was written.
    BadFile = 3,
    /// The input has more bytes than it may have.
    TooLong = 4,
    /// The source failed.
    ReadFault = 5,
    /// The sink failed.
    WriteFault = 6,
    /// Memory ran out.
    Memory = 7,
    /// The store failed, at a command or a task that names a file.
    StoreFault = 8,
}

impl fmt::Display for Status {
    fn fmt<W: fmt::Write>(&self, f: &mut fmt::Formatter<W>) -> fmt::Result {
        f.write_str(match self {
            Status::Done => "done",
            Status::Refused => "refused",
            Status::Usage => "usage",
            Status::BadFile => "bad file",
            Status::TooLong => "input too long",
            Status::ReadFault => "read fault",
            Status::WriteFault => "write fault",
            Status::Memory => "out of memory",
            Status::StoreFault => "store fault",
        })
    }
}

/// The status of a task whose text was written, or else that of the sink's fault.
pub fn status_written<T: Drop>(whole: Status, written: Result<T, SinkFault>) -> Status
    ensures { result ≡ status_written whole written }
{
    match written {
        Ok(_) => whole,
        Err(SinkFault::Failed) => Status::WriteFault,
        Err(SinkFault::Memory) => Status::Memory,
    }
}
