//! Writers of std that take all, none or a part.
use super::{expect_write, expect_write_all};
use oct_io::{SinkFault, StdSink};
use std::io::{self, ErrorKind, Write};
use std::process::Abort;

/// Takes one byte, then none, then is out of memory, and then fails.
#[derive(Drop)]
struct Filling {
    writes: u8,
}

impl Write for Filling {
    fn write(&mut self, piece: &[u8]) -> io::Result<usize> {
        self.writes = self.writes.saturating_add(1);
        match self.writes {
            1 => Ok(piece.len().min(1)),
            2 => Ok(0),
            3 => Err(io::Error::from(ErrorKind::OutOfMemory)),
            _ => Err(io::Error::from(ErrorKind::Other)),
        }
    }

    fn flush(&mut self) -> io::Result<()> {
        Ok(())
    }
}

#[test]
fn a_writer_takes_whole_pieces(rt: HostRuntime) {
    let mut sink = StdSink::new(Vec::new(rt.alloc()));
    expect_write_all(&rt, &mut sink, b"ok\n", Ok(()));
    expect_write(&rt, &mut sink, b"", Ok(0));
}

#[test]
fn the_failures_of_a_writer_are_told(rt: HostRuntime) {
    let mut sink = StdSink::new(Filling { writes: 0 });
    expect_write_all(&rt, &mut sink, b"ok\n", Err(SinkFault::Failed));
    expect_write(&rt, &mut sink, b"ok\n", Err(SinkFault::Memory));
    expect_write(&rt, &mut sink, b"ok\n", Err(SinkFault::Failed));
    expect_write(&rt, &mut sink, b"ok\n", Err(SinkFault::Failed));
}
