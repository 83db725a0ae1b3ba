//! Readers of std that give their bytes or fail.
use super::expect_moved;
use oct_io::{Failed, Source, StdSource};
use std::io::{self, Read};
use std::process::Abort;

/// Gives a byte at every other read, and fails at those between.
#[derive(Drop)]
struct Faltering {
    fails: bool,
}

impl Read for Faltering {
    fn read(&mut self, buffer: &mut [u8]) -> io::Result<usize> {
        self.fails = !self.fails;
        if self.fails || buffer.is_empty() {
            return Err(io::Error::from(io::ErrorKind::Other));
        }
        buffer[0] = b'x';
        Ok(1)
    }
}

/// Expects that a read into a buffer of four bytes is answered so.
fn expect_read<R: Read + Drop>(
    rt: &impl Abort,
    source: &mut StdSource<R>,
    want: Result<usize, Failed>,
) {
    let mut buffer = [0u8; 4];
    assert_eq!(rt; source.read(&mut buffer), want);
}

/// Expects that such a read moves these bytes.
fn expect_bytes<R: Read + Drop>(rt: &impl Abort, source: &mut StdSource<R>, want: &[u8]) {
    let mut buffer = [0u8; 4];
    let count = source.read(&mut buffer);
    expect_moved(rt, &buffer, count, want);
}

#[test]
fn a_reader_gives_its_bytes(rt: HostRuntime) {
    let mut source = StdSource::new(b"hit 0".as_slice());
    expect_bytes(&rt, &mut source, b"hit ");
    expect_bytes(&rt, &mut source, b"0");
    expect_bytes(&rt, &mut source, b"");
}

#[test]
fn the_failures_of_a_reader_are_told(rt: HostRuntime) {
    let mut source = StdSource::new(Faltering { fails: false });
    expect_read(&rt, &mut source, Err(Failed));
    expect_read(&rt, &mut source, Ok(1));
    expect_read(&rt, &mut source, Err(Failed));
    expect_read(&rt, &mut source, Ok(1));
    expect_read(&rt, &mut source, Err(Failed));
}
