//! The head of a file, line by line.
ghost use Rattle.std.specs.Prelude.{◌≡◌, [], ◌<◌, ◌≤◌, not, nat_lt, ◌&&◌};
ghost use Rattle.std.specs.Prelude.{true, false, OnOk, OnErr, IfOk, IfSome};
ghost use Rattle.oct_num.specs.Metres.{metres_of};
ghost use Rattle.oct_bt.specs.Header.{resolution_of, first_line_fault, is_data_line, line_of};
ghost use Rattle.oct_bt.specs.Header.{judged_fields};
ghost use Rattle.oct_bt.specs.Reading.{Head, heading_of, longer_line, ended_line, closed_head};
ghost use Rattle.oct_bt.specs.Reading.{head_fault, with_line, after_head_byte, after_take};
ghost use Rattle.oct_bt.specs.Reading.{Heading};

use crate::fault::{BtFault, HeaderWord};
use crate::words::{split_word, trimmed};
use oct_key::Res;
use oct_num::{Memory, read_metres, read_natural};
use std::alloc::Global;
use std::marker::Model;

/// Only this many bytes at the front of a file are looked at for its header.
const MOST_HEADER_BYTES: u64 = 65_536;

/// What a header says.
#[derive(Drop)]
pub(crate) struct Header {
    res: Res,
    size: u64,
    start: u64,
}

impl Model for Header {
    ghost use Rattle.oct_bt.specs.Header.{Header as Said};

    ghost Value = { Said };

    ghost view = { λ h. record { res = h.res; size = h.size; start = h.start } };
}

impl Header {
    pub(crate) fn res(&self) -> Res
        ensures { result ≡ self.now.res }
    {
        self.res
    }

    /// The number of nodes.
    pub(crate) fn size(&self) -> u64
        ensures { result ≡ self.now.size }
    {
        self.size
    }

    /// Where the node data begins.
    pub(crate) fn start(&self) -> u64
        ensures { result ≡ self.now.start }
    {
        self.start
    }
}

/// The fields of a header that have come so far, each `None` inside where its value isn't of its
/// form.
#[derive(Drop)]
struct Fields {
    /// Whether the id is the one of these files.
    id: Option<bool>,
    res: Option<Option<Res>>,
    size: Option<Option<u64>>,
}

impl Model for Fields {
    ghost use Rattle.oct_bt.specs.Header.{Fields as Said};

    ghost Value = { Said };

    ghost view = { λ f. record { id = f.id; res = f.res; size = f.size } };
}

impl Fields {
    /// Notes what one line more says.
    fn note_line(&mut self, line: &[u8])
        ensures { self.new ≡ with_line self.old (line_of line.now 0) }
    {
        let (name, rest) = split_word(trimmed(line));
        let (value, _) = split_word(rest);
        if name == b"id".as_slice() {
            self.id = Some(value == b"OcTree".as_slice());
        }
        if name == b"res".as_slice() {
            self.res = Some(read_res(value));
        }
        if name == b"size".as_slice() {
            self.size = Some(read_natural(value));
        }
    }

    /// The header of these fields, where the node data begins at this place, or the first fault in
    /// the order id, resolution, size.
    fn header(&self, start: u64) -> Result<Header, BtFault>
        ensures { result ≡ judged_fields start self.now }
    {
        let Some(is_octree) = self.id else {
            return Err(missing(HeaderWord::Id));
        };
        if !is_octree {
            return Err(BtFault::WrongId);
        }
        let Some(res) = self.res else {
            return Err(missing(HeaderWord::Res));
        };
        let Some(res) = res else {
            return Err(bad(HeaderWord::Res));
        };
        let Some(size) = self.size else {
            return Err(missing(HeaderWord::Size));
        };
        let Some(size) = size else {
            return Err(bad(HeaderWord::Size));
        };
        Ok(Header { res, size, start })
    }
}

fn missing(word: HeaderWord) -> BtFault
    ensures { result ≡ BtFault.MissingField word }
{
    BtFault::MissingField { word }
}

fn bad(word: HeaderWord) -> BtFault
    ensures { result ≡ BtFault.BadField word }
{
    BtFault::BadField { word }
}

/// Reads a resolution from 0.0001 to 100 metres.
fn read_res(value: &[u8]) -> Option<Res>
    ensures { result ≡ resolution_of (metres_of value.now) }
{
    let Ok(nm) = read_metres(value) else {
        return None;
    };
    Res::new(nm).ok()
}

/// What is wrong with the first line of a file, by which it says what it is.
fn first_line_fault(text: &[u8]) -> Option<BtFault>
    ensures { result ≡ first_line_fault text.now }
{
    if text.starts_with(b"# Octomap OcTree binary file") {
        None
    } else if text.starts_with(b"# Octomap OcTree file") {
        Some(BtFault::FloatTree)
    } else {
        Some(BtFault::NotOctomap)
    }
}

/// The first bytes of a file, while no data line has ended in them. Of its lines it keeps the one
/// that hasn't ended.
#[derive(Drop)]
pub(crate) struct Head {
    /// How many bytes have come.
    total: u64,
    /// Whether the first line has ended.
    begun: bool,
    /// What is wrong with the first line, once it has ended.
    first_line: Option<BtFault>,
    fields: Fields,
    line: Vec<u8>,
}

impl Model for Head {
    ghost use Rattle.std.specs.Prelude.{◌≤◌};
    ghost use Rattle.oct_bt.specs.Reading.{Head as Read};

    ghost Value = { Read };

    ghost view = { λ h. record {
      total = h.total;
      begun = h.begun;
      first_line = h.first_line;
      fields = h.fields;
      line = h.line.items;
    } };

    ghost invariant = { λ h. h.total ≤ 65536 };
}

impl Head {
    /// The head of which no byte has come.
    pub(crate) fn new(alloc: Global) -> Self
        ensures { result ≡ heading_of [] }
    {
        Head {
            total: 0,
            begun: false,
            first_line: None,
            fields: Fields {
                id: None,
                res: None,
                size: None,
            },
            line: Vec::new(alloc),
        }
    }

    /// Takes one more byte, and answers the header where it ends the data line. Memory runs out
    /// only where the line goes on with it.
    pub(crate) fn take(&mut self, byte: u8) -> Result<Option<Result<Header, BtFault>>, Memory>
        ensures taken { IfOk result (λ ended.
            after_head_byte self.old byte ≡ after_take ended self.new) }
        ensures near { IfOk result (λ ended. IfSome ended
            (λ header. IfOk header (λ said. said.start ≤ 65536))) }
        ensures memory { OnErr result
            (after_head_byte self.old byte ≡ Heading (longer_line self.old byte)) }
    {
        if self.is_full() {
            return Ok(None);
        }
        if byte != b'\n' {
            self.push(byte)?;
            return Ok(None);
        }
        if self.is_at_data() {
            return Ok(Some(self.header()));
        }
        self.end_line();
        Ok(None)
    }

    /// Whether no further byte is looked at.
    fn is_full(&self) -> bool
        ensures { result ≡ not (nat_lt self.now.total 65536) }
    {
        self.total >= MOST_HEADER_BYTES
    }

    /// Takes a byte that is no line feed. After `Memory` the head is as it was.
    fn push(&mut self, byte: u8) -> Result<(), Memory>
        requires { self.old.total < 65536 }
        ensures ok { OnOk result (self.new ≡ longer_line self.old byte) }
        ensures err { OnErr result (self.new ≡ self.old) }
    {
        self.line.push(byte)?;
        self.total += 1;
        Ok(())
    }

    /// Whether the line is the data line, if it ends here.
    fn is_at_data(&self) -> bool
        ensures { result ≡ (self.now.begun && is_data_line (line_of self.now.line 0)) }
    {
        let (name, _) = split_word(trimmed(&self.line));
        self.begun && name == b"data".as_slice()
    }

    /// The header, where the data line ends here.
    fn header(&self) -> Result<Header, BtFault>
        requires { self.now.total < 65536 }
        ensures exact { result ≡ closed_head self.now }
        ensures near { IfOk result (λ header. header.start ≤ 65536) }
    {
        if let Some(fault) = self.first_line {
            return Err(fault);
        }
        self.fields.header(self.total + 1)
    }

    /// Ends a line that isn't the data line.
    fn end_line(&mut self)
        requires { self.old.total < 65536 }
        ensures { self.new ≡ ended_line self.old }
    {
        if self.begun {
            self.fields.note_line(&self.line);
        } else {
            self.first_line = first_line_fault(&self.line);
            self.begun = true;
        }
        self.total += 1;
        self.line.clear();
    }

    /// The fault of a file that ends here.
    pub(crate) fn fault(&self) -> BtFault
        ensures { result ≡ head_fault self.now }
    {
        let first_line = if self.begun {
            self.first_line
        } else {
            first_line_fault(&self.line)
        };
        match first_line {
            Some(fault) => fault,
            None if self.is_full() => BtFault::HeaderTooLong,
            None => missing(HeaderWord::Data),
        }
    }
}
