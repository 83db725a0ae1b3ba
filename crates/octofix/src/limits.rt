//! The box to which scans are restricted, and the mark.
ghost use Rattle.std.specs.Prelude.{◌≡◌, Ok};
ghost use Rattle.octofix.specs.Asked.{asked};
ghost use Rattle.octofix.specs.Changed.{changed, open_code};
ghost use Rattle.octofix.specs.Codes.{answer_code, answer_details};
ghost use Rattle.octofix.specs.Limits.{limited, limiting, tracked, unlimited, untracked};
ghost use Rattle.octofix.specs.Limits.{window_code, window_left};
ghost use Rattle.octofix.specs.Points.{point_of};

use crate::answers::{code_of, details_of};
use crate::bounds::tell_box;
use crate::handle::Octofix;
use crate::refusal::Refusal;
use crate::types::{Details, PointNm, VoxelBox};
use oct_key::Window;

/// Restricts the scans of the map of a handle.
fn limit(handle: &mut Octofix, low: PointNm, high: PointNm) -> Result<(), Refusal>
    ensures answer { result
        ≡ asked handle.old.slot.map (limiting (point_of low) (point_of high)) }
    ensures limited { handle.new ≡ changed (limited (point_of low) (point_of high)) handle.old }
{
    handle.map_mut()?.limit(low.point(), high.point())?;
    Ok(())
}

/// Restricts the scans that come to the box whose corners hold the two points, both included.
///
/// It is refused where the handle has no map, for a point outside the map, and for corners of which
/// the first lies beyond the second. The box that stood stays then.
#[unsafe(no_mangle)]
pub extern "C" fn octofix_limit(
    handle: &mut Octofix,
    low: &PointNm,
    high: &PointNm,
    details: &mut Details,
) -> u32
    ensures code { result ≡ answer_code
        (asked handle.old.slot.map (limiting (point_of low.now) (point_of high.now))) }
    ensures details { details.new ≡ answer_details
        (asked handle.old.slot.map (limiting (point_of low.now) (point_of high.now))) }
    ensures limited { handle.new
        ≡ changed (limited (point_of low.now) (point_of high.now)) handle.old }
{
    let answer = limit(handle, *low, *high);
    *details = details_of(&answer);
    code_of(&answer)
}

/// Lifts the restriction.
fn no_limit(handle: &mut Octofix) -> Result<(), Refusal>
    ensures answer { result ≡ asked handle.old.slot.map (λ _. Ok tt) }
    ensures exact { handle.new ≡ changed unlimited handle.old }
{
    handle.map_mut()?.no_limit();
    Ok(())
}

/// Takes the box away to which scans are restricted, where one stands.
#[unsafe(no_mangle)]
pub extern "C" fn octofix_no_limit(handle: &mut Octofix) -> u32
    ensures code { result ≡ open_code handle.old.slot.map }
    ensures exact { handle.new ≡ changed unlimited handle.old }
{
    code_of(&no_limit(handle))
}

/// The box of the map of a handle.
fn window(handle: &mut Octofix) -> Result<Option<Window>, Refusal>
    ensures answer { result ≡ asked handle.old.slot.map (λ m. Ok m.update_box) }
    ensures same { handle.new ≡ handle.old }
{
    Ok(handle.map_mut()?.window())
}

/// Tells the box to which scans are restricted, where one stands.
#[unsafe(no_mangle)]
pub extern "C" fn octofix_window(handle: &mut Octofix, window: &mut VoxelBox) -> u32
    ensures same { handle.new ≡ handle.old }
    ensures code { result ≡ window_code (asked handle.old.slot.map (λ m. Ok m.update_box)) }
    ensures window { window.new
        ≡ window_left window.old (asked handle.old.slot.map (λ m. Ok m.update_box)) }
{
    match self::window(handle) {
        Ok(found) => tell_box(found, window),
        Err(refusal) => refusal.code(),
    }
}

/// Sets a mark in the map of a handle.
fn track(handle: &mut Octofix) -> Result<(), Refusal>
    ensures answer { result ≡ asked handle.old.slot.map (λ _. Ok tt) }
    ensures exact { handle.new ≡ changed tracked handle.old }
{
    handle.map_mut()?.track();
    Ok(())
}

/// Sets the mark at this moment, in place of an earlier one.
#[unsafe(no_mangle)]
pub extern "C" fn octofix_track(handle: &mut Octofix) -> u32
    ensures code { result ≡ open_code handle.old.slot.map }
    ensures exact { handle.new ≡ changed tracked handle.old }
{
    code_of(&track(handle))
}

/// Takes the mark of the map of a handle away.
fn untrack(handle: &mut Octofix) -> Result<(), Refusal>
    ensures answer { result ≡ asked handle.old.slot.map (λ _. Ok tt) }
    ensures exact { handle.new ≡ changed untracked handle.old }
{
    handle.map_mut()?.untrack();
    Ok(())
}

/// Takes the mark away, where one stands.
#[unsafe(no_mangle)]
pub extern "C" fn octofix_untrack(handle: &mut Octofix) -> u32
    ensures code { result ≡ open_code handle.old.slot.map }
    ensures exact { handle.new ≡ changed untracked handle.old }
{
    code_of(&untrack(handle))
}
