//! Edits of voxels.
ghost use Rattle.std.specs.Prelude.{◌≡◌, if◌then◌else◌, None, Ok, Err, IfOk};
ghost use Rattle.oct_odds.specs.Odds.{IsSmall};
ghost use Rattle.oct_odds.specs.Update.{IsSmallEvent};
ghost use Rattle.octofix.specs.Changed.{IsAsked, IsDone, IsTold};
ghost use Rattle.octofix.specs.Edits.{AreEdits, IsBoxEdit, IsKeepAsked, IsPointEdit, event_of};
ghost use Rattle.octofix.specs.Edits.{is_small};
ghost use Rattle.octofix.specs.Points.{point_of};
ghost use Rattle.octofix.specs.declared.refusal.Refusal.TheVariants.{BadArgument};

use crate::answers::{code_of, details_of};
use crate::handle::Octofix;
use crate::refusal::Refusal;
use crate::types::{Details, PointEdit, PointNm};
use oct_map::OccMap;
use oct_odds::Event;

/// The largest magnitude of a number in an edit.
const MOST: i32 = 1_000_000;

/// A number that may stand in an event.
fn small(number: i32) -> Result<i32, Refusal>
    ensures exact { result ≡ (if is_small number then Ok number else Err (BadArgument 0)) }
    ensures small { IfOk result IsSmall }
{
    if !(-MOST..=MOST).contains(&number) {
        return Err(Refusal::BadArgument { index: 0 });
    }
    Ok(number)
}

/// The event of this number. The number beside it counts where something is added or set.
fn event_of(event: u32, number: i32) -> Result<Event, Refusal>
    ensures exact { result ≡ event_of event number }
    ensures small { IfOk result IsSmallEvent }
{
    if event == 0 {
        return Ok(Event::Add(small(number)?));
    }
    if event == 1 {
        return Ok(Event::Set(small(number)?));
    }
    if event == 2 {
        return Ok(Event::Forget);
    }
    if event == 3 {
        return Ok(Event::Likely);
    }
    Err(Refusal::BadArgument { index: 0 })
}

/// Does an edit of a map.
fn edit_map(map: &mut OccMap, edit: PointEdit, lazy: bool) -> Result<(), Refusal>
    ensures { IsPointEdit edit lazy map.old map.new result }
{
    let event = event_of(edit.event, edit.number)?;
    map.edit(edit.point.point(), event, lazy)?;
    Ok(())
}

/// Does an edit of the map of a handle.
fn edit_open(handle: &mut Octofix, edit: PointEdit, lazy: bool) -> Result<(), Refusal>
    ensures { IsDone handle.old handle.new (IsPointEdit edit lazy) result }
{
    edit_map(handle.map_mut()?, edit, lazy)
}

/// Applies an event to the voxel that holds the point.
///
/// It is refused where the handle has no map, for the event and its number, for a point outside the
/// map, where the map is full, and where memory runs out.
#[unsafe(no_mangle)]
pub extern "C" fn octofix_edit(
    handle: &mut Octofix,
    point: &PointNm,
    event: u32,
    number: i32,
    lazy: bool,
    details: &mut Details,
) -> u32
    ensures { IsTold handle.old handle.new
        (IsPointEdit (record { point = point.now; event = event; number = number }) lazy)
        result details.new }
{
    let edit = PointEdit {
        point: *point,
        event,
        number,
    };
    let answer = edit_open(handle, edit, lazy);
    *details = details_of(&answer);
    code_of(&answer)
}

/// Does an edit of each voxel of a box of the map of a handle.
fn edit_box(
    handle: &mut Octofix,
    low: PointNm,
    high: PointNm,
    event: u32,
    number: i32,
) -> Result<(), Refusal>
    ensures { IsDone handle.old handle.new
        (IsAsked (event_of event number) (IsBoxEdit (point_of low) (point_of high))) result }
{
    let map = handle.map_mut()?;
    let event = event_of(event, number)?;
    map.edit_box(low.point(), high.point(), event)?;
    Ok(())
}

/// Applies an event to each voxel of the box whose corners hold the two points, both included.
///
/// It is refused where the handle has no map, for the event and its number, for a point outside the
/// map, for corners of which the first lies beyond the second, for more than 1,000,000 voxels while
/// a mark stands, where the map is full, and where memory runs out.
#[unsafe(no_mangle)]
pub extern "C" fn octofix_edit_box(
    handle: &mut Octofix,
    low: &PointNm,
    high: &PointNm,
    event: u32,
    number: i32,
    details: &mut Details,
) -> u32
    ensures { IsTold handle.old handle.new
        (IsAsked (event_of event number) (IsBoxEdit (point_of low.now) (point_of high.now)))
        result details.new }
{
    let answer = edit_box(handle, *low, *high, event, number);
    *details = details_of(&answer);
    code_of(&answer)
}

/// Keeps a box of the map of a handle.
fn keep_box(handle: &mut Octofix, low: PointNm, high: PointNm) -> Result<(), Refusal>
    ensures { IsDone handle.old handle.new (IsKeepAsked (point_of low) (point_of high)) result }
{
    let map = handle.map_mut()?;
    map.keep_box(low.point(), high.point())?;
    Ok(())
}

/// Forgets each voxel outside of the box whose corners hold the two points, and keeps those in it,
/// both corners included.
///
/// It is refused where the handle has no map, for a point outside the map, for corners of which the
/// first lies beyond the second, for more than 1,000,000 voxels in the least box around what the
/// map knows while a mark stands, where the map is full, and where memory runs out.
#[unsafe(no_mangle)]
pub extern "C" fn octofix_keep_box(
    handle: &mut Octofix,
    low: &PointNm,
    high: &PointNm,
    details: &mut Details,
) -> u32
    ensures { IsTold handle.old handle.new
        (IsKeepAsked (point_of low.now) (point_of high.now)) result details.new }
{
    let answer = keep_box(handle, *low, *high);
    *details = details_of(&answer);
    code_of(&answer)
}

/// Does edits of a map one after another, up to the first that is refused, and tells how many were
/// done.
fn edit_each(
    map: &mut OccMap,
    edits: &[PointEdit],
    lazy: bool,
    done: &mut usize,
) -> Result<(), Refusal>
    ensures { AreEdits edits.now 0 lazy map.old map.new done.new result }
{
    *done = 0;
    for (index, edit) in edits.iter().enumerate() {
        match edit_map(map, *edit, lazy) {
            Ok(()) => *done = index + 1,
            Err(refusal) => return Err(refusal.at(index)),
        }
    }
    Ok(())
}

/// Does edits of the map of a handle.
fn edit_all(
    handle: &mut Octofix,
    edits: &[PointEdit],
    lazy: bool,
    done: &mut usize,
) -> Result<(), Refusal>
    ensures edits { IsDone handle.old handle.new
        (λ m n. AreEdits edits.now 0 lazy m n done.new) result }
    ensures none { handle.old.slot.map ≡ None → done.new ≡ 0 }
{
    *done = 0;
    edit_each(handle.map_mut()?, edits, lazy, done)
}

/// Does the edits one after another, as [`octofix_edit`] does each, up to the first that is
/// refused, and tells how many were done.
#[unsafe(no_mangle)]
pub extern "C" fn octofix_edit_all(
    handle: &mut Octofix,
    edits: &[PointEdit],
    lazy: bool,
    done: &mut usize,
    details: &mut Details,
) -> u32
    ensures told { IsTold handle.old handle.new
        (λ m n. AreEdits edits.now 0 lazy m n done.new) result details.new }
    ensures none { handle.old.slot.map ≡ None → done.new ≡ 0 }
{
    let answer = edit_all(handle, edits, lazy, done);
    *details = details_of(&answer);
    code_of(&answer)
}
