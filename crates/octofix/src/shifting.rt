//! One map merged into another, moved by whole voxels.
ghost use Rattle.std.specs.Prelude.{◌≡◌};
ghost use Rattle.octofix.specs.Shifts.{AreShiftMerged, AreShiftMergedTold, IsShiftMerge, shift_of};

use crate::answers::{code_of, details_of};
use crate::handle::Octofix;
use crate::merging::{check_alike, rule_of};
use crate::refusal::Refusal;
use crate::types::Details;
use oct_map::OccMap;
use oct_merge::Rule;
use oct_shift::Shift;

/// Merges a map into another one, moved.
fn merge_maps(map: &mut OccMap, other: &OccMap, rule: Rule, shift: Shift) -> Result<(), Refusal>
    ensures { IsShiftMerge rule shift map.old other.now map.new result }
{
    check_alike(map, other)?;
    map.merge_shifted(other, shift, rule)?;
    Ok(())
}

/// Merges the map of a handle, moved, into that of another one.
fn merge(handle: &mut Octofix, other: &mut Octofix, rule: u32, shift: Shift) -> Result<(), Refusal>
    ensures merged { AreShiftMerged rule shift handle.old other.old handle.new result }
    ensures same { other.new ≡ other.old }
{
    let map = handle.map_mut()?;
    let theirs = other.map_mut()?;
    let rule = rule_of(rule)?;
    merge_maps(map, theirs, rule, shift)
}

/// Merges the map of another handle into that of this one, as `octofix_merge` does, moved by this
/// many voxels on each axis. The other map stays.
///
/// It is refused where one of the handles has no map, for the rule, for another resolution, for
/// other log-odds, where a corner of the least box around what the other map knows leaves the map,
/// the lower one first, while a mark stands where that box has more than 1,000,000 voxels, where
/// the map is full, and where memory runs out.
#[unsafe(no_mangle)]
pub extern "C" fn octofix_merge_shifted(
    handle: &mut Octofix,
    other: &mut Octofix,
    rule: u32,
    details: &mut Details,
    dx: i32,
    dy: i32,
    dz: i32,
) -> u32
    ensures merged { AreShiftMergedTold rule (shift_of dx dy dz) handle.old other.old handle.new
        result details.new }
    ensures same { other.new ≡ other.old }
{
    let shift = Shift {
        x: dx,
        y: dy,
        z: dz,
    };
    let answer = merge(handle, other, rule, shift);
    *details = details_of(&answer);
    code_of(&answer)
}
