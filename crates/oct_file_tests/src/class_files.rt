//! Files of few voxels, read in pieces, refused for each fault, and made trees.
ghost use Rattle.std.specs.Prelude.{◌<◌};

use oct_bt::{BtFault, BtFile, HeaderWord, Reader, fill, push_fault, write};
use oct_io::{FailingSink, KeptList, SinkFault};
use oct_num::Memory;
use oct_odds::OddsModel;
use oct_tree::OccTree;
use std::alloc::Global;
use std::process::Abort;
use std::test::Fail;

/// The node data of one occupied voxel, at the corner of the middle of the map.
const ONE_VOXEL: &[u8] = &[
    0x00, 0xC0, 0x03, 0x00, 0x03, 0x00, 0x03, 0x00, 0x03, 0x00, 0x03, 0x00, 0x03, 0x00, 0x03, 0x00,
    0x03, 0x00, 0x03, 0x00, 0x03, 0x00, 0x03, 0x00, 0x03, 0x00, 0x03, 0x00, 0x03, 0x00, 0x02, 0x00,
];

/// The same down to depth 15, where all eight voxels are occupied.
const EIGHT_VOXELS: &[u8] = &[
    0x00, 0xC0, 0x03, 0x00, 0x03, 0x00, 0x03, 0x00, 0x03, 0x00, 0x03, 0x00, 0x03, 0x00, 0x03, 0x00,
    0x03, 0x00, 0x03, 0x00, 0x03, 0x00, 0x03, 0x00, 0x03, 0x00, 0x03, 0x00, 0x03, 0x00, 0xAA, 0xAA,
];

/// The same, where a voxel is said to have a record.
const TOO_DEEP: &[u8] = &[
    0x00, 0xC0, 0x03, 0x00, 0x03, 0x00, 0x03, 0x00, 0x03, 0x00, 0x03, 0x00, 0x03, 0x00, 0x03, 0x00,
    0x03, 0x00, 0x03, 0x00, 0x03, 0x00, 0x03, 0x00, 0x03, 0x00, 0x03, 0x00, 0x03, 0x00, 0x03, 0x00,
];

/// Eight occupied voxels as one block of depth 15.
const ONE_BLOCK: &[u8] = &[
    0x00, 0xC0, 0x03, 0x00, 0x03, 0x00, 0x03, 0x00, 0x03, 0x00, 0x03, 0x00, 0x03, 0x00, 0x03, 0x00,
    0x03, 0x00, 0x03, 0x00, 0x03, 0x00, 0x03, 0x00, 0x03, 0x00, 0x03, 0x00, 0x02, 0x00,
];

/// A header of 60 bytes.
const HEADER: &str = "# Octomap OcTree binary file\nid OcTree\nsize 17\nres 0.1\ndata\n";

/// Nanometres, nodes, bytes of records, and whether they are canonical.
type Said = (i64, u64, usize, bool);

/// Feeds bytes in pieces of this many.
fn feed_pieces(reader: &mut Reader, bytes: &[u8], most: usize) -> Result<(), BtFault>
    requires { 0 < most }
{
    for piece in bytes.chunks(most) {
        reader.feed(piece)?;
    }
    Ok(())
}

/// Reads a file of a header and node data, both fed in pieces of this many bytes.
fn file_in_pieces(alloc: Global, header: &str, data: &[u8], most: usize) -> Result<BtFile, BtFault>
    requires { 0 < most }
{
    let mut reader = Reader::new(alloc);
    feed_pieces(&mut reader, header.as_bytes(), most)?;
    feed_pieces(&mut reader, data, most)?;
    reader.finish()
}

/// What such a file says.
fn read(alloc: Global, header: &str, data: &[u8], most: usize) -> Result<Said, BtFault>
    requires { 0 < most }
{
    let file = file_in_pieces(alloc, header, data, most)?;
    let bytes = file.codes().as_slice().len();
    Ok((file.res().nm(), file.nodes(), bytes, file.is_canonical()))
}

/// Expects that a file of a header and node data is read so.
fn expect_read(
    rt: &impl Abort,
    alloc: Global,
    (header, data): (&str, &[u8]),
    most: usize,
    want: Result<Said, BtFault>,
) {
    assert!(rt; most > 0);
    assert_eq!(rt; read(alloc, header, data, most), want, "at {header:?}");
}

/// What is read of a file of one voxel.
const ONE: Result<Said, BtFault> = Ok((100_000_000, 17, 32, true));

#[test]
fn reads_one_voxel_however_the_file_is_cut(rt: HostRuntime) {
    for most in [1, 2, 7, 4096] {
        expect_read(&rt, rt.alloc(), (HEADER, ONE_VOXEL), most, ONE);
    }
}

/// Headers of a file of one voxel.
const FORMS: &[&str] = &[
    "# Octomap OcTree binary file\r\nid OcTree\r\nsize 17\r\nres 0.1\r\ndata\r\n",
    "# Octomap OcTree binary file\n  id\tOcTree  \n size 17 nodes\n\nres 0.10\n\tdata here\n",
    "# Octomap OcTree binary file\nres 0.1\n# a comment\nsize 5\nsize 017\nid OcTree\ndata\n",
    "# Octomap OcTree binary files\nid x\nid OcTree\nsize 17\nres 0.1\ndata\n",
];

#[test]
fn reads_every_form_of_a_header(rt: HostRuntime) {
    for header in FORMS {
        expect_read(&rt, rt.alloc(), (header, ONE_VOXEL), 16, ONE);
    }
}

#[test]
fn reads_eight_voxels_in_canonical_and_in_longer_data(rt: HostRuntime) {
    let header = "# Octomap OcTree binary file\n\
        # (feel free to add / change comments, but leave the first line as it is!)\n\
        #\nid OcTree\nsize 16\nres 0.1\ndata\n";
    let want = Ok((100_000_000, 16, 30, true));
    for most in [1, 100] {
        expect_read(&rt, rt.alloc(), (header, ONE_BLOCK), most, want);
    }
    let header = "# Octomap OcTree binary file\r\n# a comment\r\nauthor x\r\nsize 24\r\n\
        res 0.1\r\nid OcTree\r\ndata\r\n";
    let want = Ok((100_000_000, 24, 32, false));
    expect_read(&rt, rt.alloc(), (header, EIGHT_VOXELS), 100, want);
}

/// The fault of a file whose first line is followed by this many pairs of bytes, and by no other
/// line.
fn fault_behind(alloc: Global, pairs: u32) -> Option<BtFault> {
    let mut reader = Reader::new(alloc);
    if let Err(fault) = reader.feed(b"# Octomap OcTree binary file\n") {
        return Some(fault.into());
    }
    for _ in 0..pairs {
        if let Err(fault) = reader.feed(b"##") {
            return Some(fault.into());
        }
    }
    reader.finish().err()
}

#[test]
fn looks_for_a_header_in_65536_bytes(rt: HostRuntime) {
    let word = HeaderWord::Data;
    let missing = BtFault::MissingField { word };
    assert_eq!(rt; fault_behind(rt.alloc(), 32_753), Some(missing));
    assert_eq!(rt;
        fault_behind(rt.alloc(), 32_754),
        Some(BtFault::HeaderTooLong)
    );
}

/// Headers, and their first faults.
const HEADER_FAULTS: &[(&str, BtFault)] = &[
    ("", BtFault::NotOctomap),
    ("# Octomap OcTree binary fil\n", BtFault::NotOctomap),
    ("# Octomap OcTree file\nid OcTree\n", BtFault::FloatTree),
    ("# Octomap OcTree files\n", BtFault::FloatTree),
    (
        "# Octomap OcTree binary file\nid OcTree\nsize 17\nres 0.1\ndata",
        BtFault::MissingField {
            word: HeaderWord::Data,
        },
    ),
    (
        "# Octomap OcTree binary file\nsize x\ndata\n",
        BtFault::MissingField {
            word: HeaderWord::Id,
        },
    ),
    (
        "# Octomap OcTree binary file\nid\nsize x\ndata\n",
        BtFault::WrongId,
    ),
    (
        "# Octomap OcTree binary file\nid OcTree\nid ColorOcTree\nsize x\ndata\n",
        BtFault::WrongId,
    ),
    (
        "# Octomap OcTree binary file\nid OcTree\nsize x\ndata\n",
        BtFault::MissingField {
            word: HeaderWord::Res,
        },
    ),
    (
        "# Octomap OcTree binary file\nid OcTree\nsize x\nres 1e-05\ndata\n",
        BtFault::BadField {
            word: HeaderWord::Res,
        },
    ),
    (
        "# Octomap OcTree binary file\nid OcTree\nres 0.1\ndata\nsize 17\n",
        BtFault::MissingField {
            word: HeaderWord::Size,
        },
    ),
    (
        "# Octomap OcTree binary file\nid OcTree\nres 0.1\nsize -1\ndata\n",
        BtFault::BadField {
            word: HeaderWord::Size,
        },
    ),
    (
        "# Octomap OcTree binary file\nid OcTree\nres 0.1\nsize\ndata\n",
        BtFault::BadField {
            word: HeaderWord::Size,
        },
    ),
];

/// Expects that files of these headers and no node data have these faults.
fn expect_header_faults(rt: &impl Abort, alloc: Global, cases: &[(&str, BtFault)]) {
    for (header, want) in cases {
        expect_read(rt, alloc, (header, &[]), 5, Err(*want));
    }
}

#[test]
fn names_the_first_fault_of_a_header(rt: HostRuntime) {
    expect_header_faults(&rt, rt.alloc(), HEADER_FAULTS);
}

/// Node data after the header of 60 bytes, and its first faults.
const DATA_FAULTS: &[(&[u8], BtFault)] = &[
    (TOO_DEEP, BtFault::TooDeep { at: 90 }),
    (b"", BtFault::Truncated { at: 60 }),
    (b"\x00\x00\x00", BtFault::TrailingBytes { at: 62 }),
    (b"\xAA\xAA", BtFault::SizeMismatch { said: 17, found: 9 }),
    (b"\x00\x00", BtFault::SizeMismatch { said: 17, found: 1 }),
];

/// Expects that files of the header of 60 bytes and these node data have these faults.
fn expect_data_faults(rt: &impl Abort, alloc: Global, cases: &[(&[u8], BtFault)]) {
    for (data, want) in cases {
        expect_read(rt, alloc, (HEADER, data), 60, Err(*want));
    }
}

#[test]
fn names_the_first_fault_of_node_data(rt: HostRuntime) {
    expect_data_faults(&rt, rt.alloc(), DATA_FAULTS);
    let (short, _) = ONE_VOXEL.split_at(31);
    let ends = BtFault::Truncated { at: 91 };
    expect_read(&rt, rt.alloc(), (HEADER, short), 60, Err(ends));
}

/// Nodes, bytes of records, whether they are canonical, and the free and the occupied voxels.
type Counted = (u64, usize, bool, u64, u64);

/// Reads a file whose header has this line of a size.
fn count(alloc: Global, size: &str, data: &[u8]) -> Result<Counted, BtFault> {
    let mut reader = Reader::new(alloc);
    reader.feed(b"# Octomap OcTree binary file\nid OcTree\n")?;
    reader.feed(size.as_bytes())?;
    reader.feed(b"\nres 0.1\ndata\n")?;
    reader.feed(data)?;
    let file = reader.finish()?;
    let bytes = file.codes().as_slice().len();
    let voxels = file.voxels();
    Ok((
        file.nodes(),
        bytes,
        file.is_canonical(),
        voxels.free,
        voxels.occupied,
    ))
}

/// A line of a size, node data, and what is read of them.
type CountCase = (&'static str, &'static [u8], Result<Counted, BtFault>);

/// Files of one record and of none.
const RECORDS: &[CountCase] = &[
    ("size 0", b"", Ok((0, 0, true, 0, 0))),
    ("size 1", b"\x00\x00", Ok((1, 2, false, 0, 0))),
    ("size 9", b"\xAA\xAA", Ok((9, 2, true, 0, 1 << 48))),
    ("size 9", b"\x55\x55", Ok((9, 2, true, 1 << 48, 0))),
    ("size 4", b"\x06\x40", Ok((4, 2, true, 2 << 45, 1 << 45))),
    (
        "size 0",
        b"\x00\x00",
        Err(BtFault::TrailingBytes { at: 59 }),
    ),
];

/// Expects that a file whose header has this line of a size is read so.
fn expect_count(
    rt: &impl Abort,
    alloc: Global,
    size: &str,
    data: &[u8],
    want: Result<Counted, BtFault>,
) {
    assert_eq!(rt; count(alloc, size, data), want, "at {size}");
}

/// Expects that the files of a table are read so.
fn expect_counts(rt: &impl Abort, alloc: Global, cases: &[CountCase]) {
    for (size, data, want) in cases {
        expect_count(rt, alloc, size, data, *want);
    }
}

#[test]
fn reads_data_of_one_record_and_of_none(rt: HostRuntime) {
    expect_counts(&rt, rt.alloc(), RECORDS);
}

/// Faults, and their texts.
const TEXTS: &[(BtFault, &str)] = &[
    (
        BtFault::MissingField {
            word: HeaderWord::Data,
        },
        "the header has no line data",
    ),
    (
        BtFault::BadField {
            word: HeaderWord::Res,
        },
        "the value of res isn't of its form",
    ),
    (
        BtFault::TooDeep { at: 90 },
        "the record at byte 90 is too deep",
    ),
    (
        BtFault::SizeMismatch {
            said: 18,
            found: 17,
        },
        "the header says 18 nodes, and there are 17",
    ),
    (BtFault::Memory, "out of memory"),
];

/// Expects that a fault is printed so.
fn expect_text(rt: &impl Abort, alloc: Global, fault: BtFault, want: &str) -> Result<(), Fail> {
    let text = format!(in alloc; "{fault}")?;
    assert_eq!(rt; text.as_str(), want);
    Ok(())
}

/// Expects that the faults of a table are printed so.
fn expect_texts(rt: &impl Abort, alloc: Global, cases: &[(BtFault, &str)]) -> Result<(), Fail> {
    for (fault, want) in cases {
        expect_text(rt, alloc, *fault, want)?;
    }
    Ok(())
}

#[test]
fn prints_the_faults(rt: HostRuntime) -> Result<(), Fail> {
    expect_texts(&rt, rt.alloc(), TEXTS)
}

/// Faults, and their numbers, names and fields.
const NUMBERS: &[(BtFault, &str)] = &[
    (BtFault::NotOctomap, "10 NotOctomap"),
    (BtFault::FloatTree, "11 FloatTree"),
    (BtFault::WrongId, "12 WrongId"),
    (
        BtFault::MissingField {
            word: HeaderWord::Id,
        },
        "13 MissingField id",
    ),
    (
        BtFault::MissingField {
            word: HeaderWord::Data,
        },
        "13 MissingField data",
    ),
    (
        BtFault::BadField {
            word: HeaderWord::Res,
        },
        "14 BadField res",
    ),
    (
        BtFault::BadField {
            word: HeaderWord::Size,
        },
        "14 BadField size",
    ),
    (BtFault::HeaderTooLong, "15 HeaderTooLong"),
    (BtFault::TooDeep { at: 90 }, "16 TooDeep at 90"),
    (BtFault::Truncated { at: 136 }, "17 Truncated at 136"),
    (BtFault::TrailingBytes { at: 59 }, "18 TrailingBytes at 59"),
    (
        BtFault::SizeMismatch {
            said: 18,
            found: 17,
        },
        "19 SizeMismatch said 18 found 17",
    ),
];

/// Expects that a fault is written so after what stood there.
fn expect_number(rt: &impl Abort, alloc: Global, fault: BtFault, want: &str) -> Result<(), Fail> {
    let mut out = Vec::from_slice(alloc, b"refused ")?;
    push_fault(&mut out, fault)?;
    let (_, text) = out.as_slice().split_at(8);
    assert_eq!(rt; text, want.as_bytes());
    Ok(())
}

/// Expects that the faults of a table are written so.
fn expect_numbers(rt: &impl Abort, alloc: Global, cases: &[(BtFault, &str)]) -> Result<(), Fail> {
    for (fault, want) in cases {
        expect_number(rt, alloc, *fault, want)?;
    }
    Ok(())
}

#[test]
fn names_each_fault_with_its_number_and_fields(rt: HostRuntime) -> Result<(), Fail> {
    expect_numbers(&rt, rt.alloc(), NUMBERS)?;
    let mut out = Vec::from_slice(rt.alloc(), b"refused ")?;
    assert!(rt; push_fault(&mut out, BtFault::Memory).is_err());
    assert_eq!(rt; out.as_slice(), b"refused ".as_slice());
    Ok(())
}

/// A sink of which the write of this number fails.
fn failing(alloc: Global, number: u64) -> Result<FailingSink, Fail> {
    let mut fails = KeptList::new(alloc);
    fails.push(number)?;
    Ok(FailingSink::new(alloc, 4096, fails))
}

/// The tree of a file of sixteen records.
fn tree_of(rt: &impl Abort, alloc: Global, file: &BtFile) -> Result<OccTree, Memory> {
    assert_eq!(rt; file.records(), 16);
    let mut tree = OccTree::new(alloc, file.res(), OddsModel::default());
    tree.reserve(16)?;
    fill(file, &mut tree);
    Ok(tree)
}

/// The tree of the file of one voxel.
fn one_voxel(rt: &impl Abort, alloc: Global) -> Result<OccTree, Fail> {
    let file = file_in_pieces(alloc, HEADER, ONE_VOXEL, 4096)?;
    Ok(tree_of(rt, alloc, &file)?)
}

#[test]
fn fills_a_tree_that_is_known_to_be_tidy(rt: HostRuntime) -> Result<(), Fail> {
    let tree = one_voxel(&rt, rt.alloc())?;
    assert!(rt; tree.tidiness().is_tidy());
    Ok(())
}

/// Expects that a write of the file of a tree is answered so, and that the sink then has these
/// bytes after a header of 137.
fn expect_written(
    rt: &impl Abort,
    sink: &mut FailingSink,
    tree: &OccTree,
    want: Result<u64, SinkFault>,
    data: Option<&[u8]>,
) {
    assert_eq!(rt; write(tree, sink), want);
    assert_eq!(rt; sink.written().get(137..), data);
}

#[test]
fn hands_a_sink_whole_pieces(rt: HostRuntime) -> Result<(), Fail> {
    let tree = one_voxel(&rt, rt.alloc())?;
    // The header and all records come in one write: the second one would fail.
    let mut sink = failing(rt.alloc(), 2)?;
    expect_written(&rt, &mut sink, &tree, Ok(169), Some(ONE_VOXEL));
    let mut sink = failing(rt.alloc(), 1)?;
    expect_written(&rt, &mut sink, &tree, Err(SinkFault::Failed), None);
    assert!(rt; sink.written().is_empty());
    Ok(())
}
