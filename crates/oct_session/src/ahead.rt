//! Edits of single voxels on lines that come one after another: their replies are written together,
//! and then they are done.
ghost use Rattle.std.specs.Prelude.{◌≡◌, ◌*◌, ◌<◌, ◌≤◌, [], All, length, IfSome, true, false};
ghost use Rattle.oct_map.specs.Edits.{IsSureOf};
ghost use Rattle.oct_script.specs.Commands.{IsSmallCommand, IsSmallEdit};
ghost use Rattle.oct_script.specs.Lines.{Text};
ghost use Rattle.oct_session.specs.Ahead.{SaysEdit, IsPlaced, IsRun, HasWritten, AreBegun};
ghost use Rattle.oct_session.specs.Ahead.{HasEdited, oks};

use crate::commands::edit_surely;
use arrayvec::ArrayVec;
use oct_io::{Sink, SinkFault};
use oct_key::Point;
use oct_map::OccMap;
use oct_script::{Command, Edit, Lines, parse_into};

/// The most edits whose replies are written together.
pub const MOST_AHEAD: usize = 16;

/// An edit of one voxel.
#[derive(Clone, Copy)]
pub struct VoxelEdit {
    pub p: Point,
    pub e: Edit,
    pub lazy: bool,
}

impl Default for VoxelEdit {
    fn default() -> Self {
        VoxelEdit {
            p: Point { x: 0, y: 0, z: 0 },
            e: Edit::Hit,
            lazy: false,
        }
    }
}

/// Edits on whole lines, one after another.
#[derive(Drop)]
pub struct Run {
    pub edits: ArrayVec<VoxelEdit, MOST_AHEAD>,
    /// How many bytes their lines have.
    pub taken: usize,
}

/// The edit of a voxel that a command is, if it is one.
fn edit_in(command: &Command) -> Option<VoxelEdit>
    requires { IsSmallCommand command.now }
    ensures exact { IfSome result (λ edit. command.now ≡ Command.Edit edit.p edit.e edit.lazy) }
    ensures small { IfSome result (λ edit. IsSmallEdit edit.e) }
{
    match *command {
        Command::Edit { p, e, lazy } => Some(VoxelEdit { p, e, lazy }),
        _ => None,
    }
}

/// The edit that a line outside a block says, if it says one of a voxel of the map. What was read
/// of the line stays in its place.
fn read_edit(map: &OccMap, text: &[u8], command: &mut Command) -> Option<VoxelEdit>
    requires { length text.now ≤ 4096 }
    ensures says { IfSome result (λ edit. SaysEdit (Text text.now) edit) }
    ensures placed { IfSome result (λ edit. IsPlaced map.now.tree.res edit) }
{
    let Ok(()) = parse_into(text, false, command) else {
        return None;
    };
    let edit = edit_in(command)?;
    map.tree().res().key_of(edit.p)?;
    Some(edit)
}

impl Run {
    /// No edits, on no lines.
    pub fn new() -> Self
        ensures { (result.edits.items ≡ []) × (result.taken ≡ 0) }
    {
        Run {
            edits: ArrayVec::new(),
            taken: 0,
        }
    }

    /// Takes in the next line of a piece, if it says an edit that the map is sure of, too. What was
    /// read of the line stays in its place.
    fn read_next(&mut self, map: &OccMap, line: &Lines, piece: &[u8], command: &mut Command) -> bool
        requires unended { line.now.has_ended ≡ false }
        requires run { IsRun map.now line.now piece.now self.old }
        ensures run { IsRun map.now line.now piece.now self.new }
        ensures more { result ≡ true → self.old.taken < self.new.taken }
    {
        if self.edits.is_full() || !map.is_sure_of(self.edits.len() as u32 + 1) {
            return false;
        }
        let (_, rest) = piece.split_at(self.taken);
        let Some(whole) = line.whole(rest) else {
            return false;
        };
        let Some(edit) = read_edit(map, whole.text, command) else {
            return false;
        };
        self.edits.push(edit);
        self.taken += whole.taken;
        true
    }

    /// Takes in the lines at the front of a piece that say edits that the map is sure of, where no
    /// block is open, as many as fit.
    pub fn read(&mut self, map: &OccMap, line: &Lines, piece: &[u8])
        requires unended { line.now.has_ended ≡ false }
        requires empty { (self.old.edits.items ≡ []) × (self.old.taken ≡ 0) }
        ensures { IsRun map.now line.now piece.now self.new }
    {
        let mut command = Command::Blank;
        'reading: while self.read_next(map, line, piece, &mut command) {}
    }
}

/// Whether a line may be one of those that a run has. (No clause says so: only time hangs on it.)
pub fn may_begin(piece: &[u8]) -> bool {
    matches!(piece.first(), Some(b'a' | b'f' | b'h' | b'm' | b's'))
}

/// The replies to this many edits that are done.
pub fn oks(count: usize) -> &'static [u8]
    requires { count ≤ MOST_AHEAD }
    ensures { result.now ≡ oks count }
{
    let all = b"ok\nok\nok\nok\nok\nok\nok\nok\nok\nok\nok\nok\nok\nok\nok\nok\n";
    let (front, _) = all.as_slice().split_at(3 * count);
    front
}

/// Writes a text, and counts the bytes that were written.
pub fn write_counted<K: Sink>(sink: &mut K, text: &[u8], told: &mut usize) -> Result<(), SinkFault>
    ensures { HasWritten K.Sink sink.old sink.new text.now told.new result }
{
    *told = 0;
    while *told < text.len() {
        let (_, rest) = text.split_at(*told);
        *told += sink.write(rest)?;
    }
    Ok(())
}

/// How many of this many replies were begun, of which so many bytes were written, or all.
pub fn begun(told: usize, count: usize) -> usize
    requires { told ≤ 3 * count }
    ensures { AreBegun told count result }
{
    if told / 3 < count {
        told / 3 + 1
    } else {
        count
    }
}

/// Has the map do edits that it is sure of.
pub fn do_edits(map: &mut OccMap, edits: &[VoxelEdit])
    requires sure { IsSureOf map.old (length edits.now) }
    requires placed { All (IsPlaced map.old.tree.res) edits.now }
    ensures { HasEdited map.old map.new edits.now }
{
    for edit in edits {
        edit_surely(map, *edit);
    }
}
