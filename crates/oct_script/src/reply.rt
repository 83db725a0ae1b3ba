//! Replies, and their texts.
ghost use Rattle.std.specs.Prelude.{◌≡◌, ◌++◌, IfOk, OnOk, OnErr, Some, take, vec_len};
ghost use Rattle.std.specs.Prelude.{map, codes};
ghost use Rattle.std.specs.List.{flat_map};
ghost use Rattle.oct_script.specs.Replies.{class_name, refusal_text, voxel_text, cast_text};
ghost use Rattle.oct_script.specs.Replies.{class_shown, value_text, block_text, file_refusal};
ghost use Rattle.oct_script.specs.Replies.{kind_name, change_text, end_text, blocks_text};
ghost use Rattle.oct_script.specs.Replies.{changes_text, reply_text};
ghost use Rattle.oct_bt.specs.FaultText.{fault_text};
ghost use Rattle.oct_bt.specs.declared.fault.BtFault.{BtFault};
ghost use Rattle.oct_query.specs.Shown.{shown_as};
ghost use Rattle.std.specs.Fmt.{signed_decimal};

use itoa::{Buffer, Integer};
use oct_bt::{BtFault, HeaderWord, push_fault};
use oct_cast::Cast;
use oct_change::{Change, ChangeList, Kind};
use oct_key::Key;
use oct_num::{Memory, push_whole};
use oct_odds::Class;
use oct_query::{BlockList, Counts, Found};

/// How many voxels a scan hit, and how many it freed.
#[derive(Clone, Copy, Debug, PartialEq, Eq)]
pub struct ScanDone {
    pub hits: u64,
    pub frees: u64,
}

/// Why a line or the block of a scan was refused. Places in a file count bytes from its start, from
/// 0 on.
#[derive(Clone, Copy, Debug, PartialEq, Eq)]
pub enum Refusal {
    /// The numbers of the scan's quaternion are all 0.
    ZeroQuaternion,
    /// The scan's origin lies outside the map.
    OriginOutside,
    /// The beam to the point of this index, from 0 on, ends outside the map.
    PointOutside { index: u64 },
    /// With the beam to the point of this index, from 0 on, the beams meet more voxels than the map
    /// allows: `cells`.
    TooManyCells { index: u64, cells: u64 },
    /// This many blocks meet the box, and that is more than a list may have.
    TooManyBlocks { count: u64 },
    /// The file doesn't begin as a file of classes.
    NotOctomap,
    /// It begins as a file of a tree with values does.
    FloatTree,
    /// The id in its header is another one.
    WrongId,
    /// Its header has no line of this word.
    MissingField { word: HeaderWord },
    /// The value in the line of this word isn't of its form.
    BadField { word: HeaderWord },
    /// Its header is longer than 65,536 bytes.
    HeaderTooLong,
    /// The record at this byte is that of a block of depth 15 and says that a voxel has a record.
    TooDeep { at: u64 },
    /// The file ends at this byte, where it isn't whole.
    Truncated { at: u64 },
    /// The first byte after what the file has to have stands here.
    TrailingBytes { at: u64 },
    /// The header says another number of nodes than are found.
    SizeMismatch { said: u64, found: u64 },
    /// The file doesn't begin as a snapshot.
    BadMagic,
    /// What stands at this byte can't stand in a snapshot.
    BadSnapshot { at: u64 },
    /// The map is stale, and the depth is below 16.
    Stale,
    /// These groups and those that the command may need are more than the map may have.
    Full { groups: u64, need: u128 },
    /// The point of this number, from 1 on, lies outside the map.
    Outside { point: u8 },
    /// The depth is above that of a voxel.
    BadDepth,
    /// On some axis the first corner of the box lies beyond the second.
    BadBox,
    /// It's noted how voxels change, and the box has this many voxels, which is more than may be
    /// noted at once.
    WideWhileTracked { count: u64 },
    /// It isn't noted how voxels change.
    NotTracked,
    /// The line of this number, from 1 on, isn't in the grammar from this column on.
    Syntax { line: u64, column: u32 },
    /// The line of this number, from 1 on, has more than 4,096 bytes.
    LongLine { line: u64 },
    /// The script ended inside the scan block that began on the line of this number, from 1 on.
    OpenScan { line: u64 },
    /// The point on the line of this number, from 1 on, is one more than a scan may have.
    TooManyPoints { line: u64 },
    /// There is no file of this name.
    NoFile,
    /// The file has more bytes than are loaded.
    FileTooLarge,
    /// The resolutions of the file and of the session differ. Both are in nanometres.
    OtherResolution { file: i64, session: i64 },
}

/// The reply to a line or to the block of a scan.
#[derive(Debug, Drop)]
pub enum Reply {
    /// The command was done.
    Ok,
    /// The value of a voxel or a block in thousandths of log-odds, and its class.
    Known { value: i32, class: Class },
    /// Nothing is known of the voxel or the block.
    Unknown,
    /// The scan was done.
    Scanned(ScanDone),
    /// Known blocks with their values. Values from the threshold on show as occupied.
    Blocks { blocks: BlockList, threshold: i32 },
    /// The voxels that changed.
    Changed(ChangeList),
    /// How many groups and nodes there are.
    Counted(Counts),
    /// What a cast finds.
    Casted(Cast),
    /// The file was written, and has this many bytes.
    Saved(u64),
    /// The file of classes was read, and has this many nodes.
    Loaded(u64),
    /// The snapshot was read, and has this many groups.
    Restored(u64),
    /// Nothing was done.
    Refused(Refusal),
}

/// The name of a class in a reply.
fn name_of(class: Class) -> &'static str
    ensures { result.now ≡ class_name class }
{
    match class {
        Class::Unknown => "unknown",
        Class::Free => "free",
        Class::Occupied => "occupied",
    }
}

/// Appends a text.
fn append_text(out: &mut Vec<u8>, text: &[u8]) -> Result<(), Memory>
    ensures ok { OnOk result (out.new.items ≡ out.old.items ++ text.now) }
    ensures err { OnErr result (take (vec_len out.old) out.new.items ≡ out.old.items) }
{
    Ok(out.extend_from_slice(text)?)
}

/// Appends a text and the decimal text of a number after it.
fn append_field<I: Integer>(out: &mut Vec<u8>, before: &[u8], n: I) -> Result<(), Memory>
    ensures ok { OnOk result (out.new.items ≡ out.old.items ++ (before.now ++ I.text n)) }
    ensures err { OnErr result (take (vec_len out.old) out.new.items ≡ out.old.items) }
{
    out.extend_from_slice(before)?;
    out.extend_from_slice(Buffer::new().format(n).as_bytes())?;
    Ok(())
}

/// Appends two texts, each with the decimal text of a number after it.
fn append_fields<I: Integer, J: Integer>(
    out: &mut Vec<u8>,
    before: &[u8],
    n: I,
    between: &[u8],
    m: J,
) -> Result<(), Memory>
    ensures ok { OnOk result (out.new.items
        ≡ out.old.items ++ ((before.now ++ I.text n) ++ (between.now ++ J.text m))) }
    ensures err { OnErr result (take (vec_len out.old) out.new.items ≡ out.old.items) }
{
    append_field(out, before, n)?;
    append_field(out, between, m)
}

/// Appends a refusal's number, name and fields.
fn append_refusal(out: &mut Vec<u8>, refusal: Refusal) -> Result<(), Memory>
    ensures ok { OnOk result (out.new.items ≡ out.old.items ++ refusal_text refusal) }
    ensures err { OnErr result (take (vec_len out.old) out.new.items ≡ out.old.items) }
{
    match refusal {
        Refusal::ZeroQuaternion => append_text(out, b"5 ZeroQuaternion"),
        Refusal::OriginOutside => append_text(out, b"6 OriginOutside"),
        Refusal::PointOutside { index } => append_field(out, b"7 PointOutside index ", index),
        Refusal::TooManyCells { index, cells } => {
            append_fields(out, b"8 TooManyCells index ", index, b" cells ", cells)
        }
        Refusal::TooManyBlocks { count } => append_field(out, b"9 TooManyBlocks count ", count),
        Refusal::NotOctomap => push_fault(out, BtFault::NotOctomap),
        Refusal::FloatTree => push_fault(out, BtFault::FloatTree),
        Refusal::WrongId => push_fault(out, BtFault::WrongId),
        Refusal::MissingField { word } => push_fault(out, BtFault::MissingField { word }),
        Refusal::BadField { word } => push_fault(out, BtFault::BadField { word }),
        Refusal::HeaderTooLong => push_fault(out, BtFault::HeaderTooLong),
        Refusal::TooDeep { at } => push_fault(out, BtFault::TooDeep { at }),
        Refusal::Truncated { at } => push_fault(out, BtFault::Truncated { at }),
        Refusal::TrailingBytes { at } => push_fault(out, BtFault::TrailingBytes { at }),
        Refusal::SizeMismatch { said, found } => {
            push_fault(out, BtFault::SizeMismatch { said, found })
        }
        Refusal::BadMagic => append_text(out, b"20 BadMagic"),
        Refusal::BadSnapshot { at } => append_field(out, b"21 BadSnapshot at ", at),
        Refusal::Stale => append_text(out, b"22 Stale"),
        Refusal::Full { groups, need } => {
            append_fields(out, b"23 Full groups ", groups, b" need ", need)
        }
        Refusal::Outside { point } => append_field(out, b"24 Outside point ", point),
        Refusal::BadDepth => append_text(out, b"25 BadDepth"),
        Refusal::BadBox => append_text(out, b"26 BadBox"),
        Refusal::WideWhileTracked { count } => {
            append_field(out, b"27 WideWhileTracked count ", count)
        }
        Refusal::NotTracked => append_text(out, b"28 NotTracked"),
        Refusal::Syntax { line, column } => {
            append_fields(out, b"29 Syntax line ", line, b" column ", column)
        }
        Refusal::LongLine { line } => append_field(out, b"30 LongLine line ", line),
        Refusal::OpenScan { line } => append_field(out, b"31 OpenScan line ", line),
        Refusal::TooManyPoints { line } => append_field(out, b"32 TooManyPoints line ", line),
        Refusal::NoFile => append_text(out, b"33 NoFile"),
        Refusal::FileTooLarge => append_text(out, b"34 FileTooLarge"),
        Refusal::OtherResolution { file, session } => {
            append_fields(
                out,
                b"35 OtherResolution file ",
                file,
                b" session ",
                session,
            )
        }
    }
}

/// What a reply says is wrong with a file of classes, in the same words, unless memory ran out.
pub fn file_refusal(fault: BtFault) -> Result<Refusal, Memory>
    ensures ok { IfOk result (λ refusal. file_refusal fault ≡ Some refusal) }
    ensures text { IfOk result (λ refusal. refusal_text refusal ≡ fault_text fault) }
    ensures err { OnErr result (fault ≡ BtFault.Memory) }
{
    match fault {
        BtFault::NotOctomap => Ok(Refusal::NotOctomap),
        BtFault::FloatTree => Ok(Refusal::FloatTree),
        BtFault::WrongId => Ok(Refusal::WrongId),
        BtFault::MissingField { word } => Ok(Refusal::MissingField { word }),
        BtFault::BadField { word } => Ok(Refusal::BadField { word }),
        BtFault::HeaderTooLong => Ok(Refusal::HeaderTooLong),
        BtFault::TooDeep { at } => Ok(Refusal::TooDeep { at }),
        BtFault::Truncated { at } => Ok(Refusal::Truncated { at }),
        BtFault::TrailingBytes { at } => Ok(Refusal::TrailingBytes { at }),
        BtFault::SizeMismatch { said, found } => Ok(Refusal::SizeMismatch { said, found }),
        BtFault::Memory => Err(Memory),
    }
}

/// Appends a text and the numbers of a voxel after it.
fn append_voxel(out: &mut Vec<u8>, before: &[u8], k: Key) -> Result<(), Memory>
    ensures ok { OnOk result (out.new.items ≡ out.old.items ++ (before.now ++ voxel_text k)) }
    ensures err { OnErr result (take (vec_len out.old) out.new.items ≡ out.old.items) }
{
    append_field(out, before, k.x)?;
    append_fields(out, b" ", k.y, b" ", k.z)
}

/// Appends what a cast finds.
fn append_cast(out: &mut Vec<u8>, found: Cast) -> Result<(), Memory>
    ensures ok { OnOk result (out.new.items ≡ out.old.items ++ cast_text found) }
    ensures err { OnErr result (take (vec_len out.old) out.new.items ≡ out.old.items) }
{
    match found {
        Cast::Hit(k) => append_voxel(out, b"cast hit ", k),
        Cast::Unknown(k) => append_voxel(out, b"cast unknown ", k),
        Cast::Clear => Ok(out.extend_from_slice(b"cast clear")?),
    }
}

/// The class that a known value shows.
fn class_shown(threshold: i32, value: i32) -> Class
    ensures { result ≡ class_shown threshold value }
{
    if value < threshold {
        Class::Free
    } else {
        Class::Occupied
    }
}

/// Appends a value and its class.
fn append_value(out: &mut Vec<u8>, value: i32, class: Class) -> Result<(), Memory>
    ensures ok { OnOk result (out.new.items ≡ out.old.items ++ value_text value class) }
    ensures err { OnErr result (take (vec_len out.old) out.new.items ≡ out.old.items) }
{
    out.extend_from_slice(b" ")?;
    push_whole(out, i64::from(value))?;
    out.extend_from_slice(b" ")?;
    out.extend_from_slice(name_of(class).as_bytes())?;
    Ok(())
}

/// Appends the line of a block.
fn append_block(out: &mut Vec<u8>, threshold: i32, found: Found) -> Result<(), Memory>
    ensures ok { OnOk result
        (out.new.items ≡ out.old.items ++ block_text threshold (shown_as found)) }
    ensures err { OnErr result (take (vec_len out.old) out.new.items ≡ out.old.items) }
{
    let block = found.block;
    let place = Key {
        x: block.x,
        y: block.y,
        z: block.z,
    };
    append_voxel(out, b"block ", place)?;
    append_value(out, found.value, class_shown(threshold, found.value))?;
    out.extend_from_slice(b"\n")?;
    Ok(())
}

/// The name of a change.
fn name_of_kind(kind: Kind) -> &'static str
    ensures { result.now ≡ kind_name kind }
{
    match kind {
        Kind::New => "new",
        Kind::Lost => "lost",
        Kind::Occupied => "occupied",
        Kind::Freed => "freed",
    }
}

/// Appends the line of a change.
fn append_change(out: &mut Vec<u8>, change: Change) -> Result<(), Memory>
    ensures ok { OnOk result (out.new.items ≡ out.old.items ++ change_text change) }
    ensures err { OnErr result (take (vec_len out.old) out.new.items ≡ out.old.items) }
{
    out.extend_from_slice(name_of_kind(change.kind).as_bytes())?;
    append_voxel(out, b" ", change.key)?;
    out.extend_from_slice(b"\n")?;
    Ok(())
}

/// Appends a text, the decimal text of a number after it, and a line feed.
fn append_field_line<I: Integer>(out: &mut Vec<u8>, before: &[u8], n: I) -> Result<(), Memory>
    ensures ok { OnOk result
        (out.new.items ≡ out.old.items ++ ((before.now ++ I.text n) ++ codes "\n")) }
    ensures err { OnErr result (take (vec_len out.old) out.new.items ≡ out.old.items) }
{
    append_field(out, before, n)?;
    append_text(out, b"\n")
}

/// Appends two texts, each with the decimal text of a number after it, and a line feed.
fn append_fields_line<I: Integer, J: Integer>(
    out: &mut Vec<u8>,
    before: &[u8],
    n: I,
    between: &[u8],
    m: J,
) -> Result<(), Memory>
    ensures ok { OnOk result (out.new.items ≡ out.old.items
        ++ (((before.now ++ I.text n) ++ (between.now ++ J.text m)) ++ codes "\n")) }
    ensures err { OnErr result (take (vec_len out.old) out.new.items ≡ out.old.items) }
{
    append_fields(out, before, n, between, m)?;
    append_text(out, b"\n")
}

/// Appends the line after a list of this many lines.
fn append_end(out: &mut Vec<u8>, count: usize) -> Result<(), Memory>
    ensures ok { OnOk result (out.new.items ≡ out.old.items ++ end_text count) }
    ensures err { OnErr result (take (vec_len out.old) out.new.items ≡ out.old.items) }
{
    append_field_line(out, b"end ", count)
}

/// Appends a line for each block.
fn append_found(out: &mut Vec<u8>, threshold: i32, blocks: &[Found]) -> Result<(), Memory>
    ensures ok { OnOk result (out.new.items
        ≡ out.old.items ++ flat_map (block_text threshold) (map shown_as blocks.now)) }
    ensures err { OnErr result (take (vec_len out.old) out.new.items ≡ out.old.items) }
{
    for found in blocks {
        append_block(out, threshold, *found)?;
    }
    Ok(())
}

/// Appends the lines of blocks, and how many there are.
fn append_blocks(out: &mut Vec<u8>, threshold: i32, blocks: &BlockList) -> Result<(), Memory>
    ensures ok { OnOk result
        (out.new.items ≡ out.old.items ++ blocks_text threshold blocks.now) }
    ensures err { OnErr result (take (vec_len out.old) out.new.items ≡ out.old.items) }
{
    let found = blocks.as_slice();
    append_found(out, threshold, found)?;
    append_end(out, found.len())
}

/// Appends a line for each change.
fn append_each(out: &mut Vec<u8>, changes: &[Change]) -> Result<(), Memory>
    ensures ok { OnOk result
        (out.new.items ≡ out.old.items ++ flat_map change_text changes.now) }
    ensures err { OnErr result (take (vec_len out.old) out.new.items ≡ out.old.items) }
{
    for change in changes {
        append_change(out, *change)?;
    }
    Ok(())
}

/// Appends the lines of changes, and how many there are.
fn append_changes(out: &mut Vec<u8>, changes: &ChangeList) -> Result<(), Memory>
    ensures ok { OnOk result (out.new.items ≡ out.old.items ++ changes_text changes.now) }
    ensures err { OnErr result (take (vec_len out.old) out.new.items ≡ out.old.items) }
{
    let changes = changes.as_slice();
    append_each(out, changes)?;
    append_end(out, changes.len())
}

/// Appends the line of a known value and its class.
fn append_known(out: &mut Vec<u8>, value: i32, class: Class) -> Result<(), Memory>
    ensures ok { OnOk result (out.new.items ≡ out.old.items ++ (codes "known "
        ++ signed_decimal value ++ codes " " ++ class_name class ++ codes "\n")) }
    ensures err { OnErr result (take (vec_len out.old) out.new.items ≡ out.old.items) }
{
    append_text(out, b"known")?;
    append_value(out, value, class)?;
    append_text(out, b"\n")
}

/// Appends the line of what a cast finds.
fn append_cast_line(out: &mut Vec<u8>, found: Cast) -> Result<(), Memory>
    ensures ok { OnOk result (out.new.items ≡ out.old.items ++ (cast_text found ++ codes "\n")) }
    ensures err { OnErr result (take (vec_len out.old) out.new.items ≡ out.old.items) }
{
    append_cast(out, found)?;
    append_text(out, b"\n")
}

/// Appends the line of a refusal.
fn append_refused(out: &mut Vec<u8>, refusal: &Refusal) -> Result<(), Memory>
    ensures ok { OnOk result (out.new.items
        ≡ out.old.items ++ (codes "refused " ++ refusal_text refusal.now ++ codes "\n")) }
    ensures err { OnErr result (take (vec_len out.old) out.new.items ≡ out.old.items) }
{
    append_text(out, b"refused ")?;
    append_refusal(out, *refusal)?;
    append_text(out, b"\n")
}

/// Appends a reply's line or lines. After an error a part of them may stand there.
fn append_reply(out: &mut Vec<u8>, reply: &Reply) -> Result<(), Memory>
    ensures ok { OnOk result (out.new.items ≡ out.old.items ++ reply_text reply.now) }
    ensures err { OnErr result (take (vec_len out.old) out.new.items ≡ out.old.items) }
{
    match reply {
        Reply::Ok => append_text(out, b"ok\n"),
        Reply::Known { value, class } => append_known(out, *value, *class),
        Reply::Unknown => append_text(out, b"unknown\n"),
        Reply::Scanned(done) => {
            append_fields_line(out, b"ok hits ", done.hits, b" frees ", done.frees)
        }
        Reply::Counted(counts) => {
            append_fields_line(out, b"groups ", counts.groups, b" nodes ", counts.nodes)
        }
        Reply::Blocks { blocks, threshold } => append_blocks(out, *threshold, blocks),
        Reply::Changed(changes) => append_changes(out, changes),
        Reply::Casted(found) => append_cast_line(out, *found),
        Reply::Saved(bytes) => append_field_line(out, b"saved ", *bytes),
        Reply::Loaded(nodes) => append_field_line(out, b"loaded ", *nodes),
        Reply::Restored(groups) => append_field_line(out, b"restored groups ", *groups),
        Reply::Refused(refusal) => append_refused(out, refusal),
    }
}

/// Appends the line of a reply, or its lines, with line feeds. After an error nothing was appended.
pub fn push_reply(out: &mut Vec<u8>, reply: &Reply) -> Result<(), Memory>
    ensures ok { OnOk result (out.new.items ≡ out.old.items ++ reply_text reply.now) }
    ensures err { OnErr result (out.new.items ≡ out.old.items) }
{
    let len = out.len();
    let appended = append_reply(out, reply);
    if appended.is_err() {
        out.truncate(len);
    }
    appended
}
