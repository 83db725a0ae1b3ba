//! How far the voxels of a map reach.
ghost use Rattle.std.specs.Prelude.{◌≡◌, Some, Ok};
ghost use Rattle.octofix.specs.Bounds.{IsBoundsTold, sought_numbered};
ghost use Rattle.octofix.specs.Limits.{window_code, window_left};

use crate::handle::Octofix;
use crate::refusal::{DONE, NONE, Refusal};
use crate::types::VoxelBox;
use oct_key::Window;
use oct_map::OccMap;
use oct_query::Sought;

/// The voxels that a number means.
pub fn sought_numbered(number: u32) -> Option<Sought>
    ensures { result ≡ sought_numbered number }
{
    match number {
        0 => Some(Sought::Known),
        1 => Some(Sought::Occupied),
        2 => Some(Sought::Free),
        _ => None,
    }
}

/// Tells a box, where there is one.
pub fn tell_box(found: Option<Window>, corners: &mut VoxelBox) -> u32
    ensures code { result ≡ window_code (Ok found) }
    ensures corners { corners.new ≡ window_left corners.old (Ok found) }
{
    match found {
        Some(window) => {
            *corners = VoxelBox::of(window);
            DONE
        }
        None => NONE,
    }
}

/// Tells the least box around the voxels of a map that a number means.
fn bounds(map: &OccMap, sought: u32, corners: &mut VoxelBox) -> u32
    ensures { IsBoundsTold (Some map.now) sought result corners.old corners.new }
{
    match sought_numbered(sought) {
        Some(sought) => tell_box(map.bounds(sought), corners),
        None => Refusal::BadArgument { index: 0 }.code(),
    }
}

/// The least box that holds all known voxels (0), all occupied ones (1), or all free ones (2).
#[unsafe(no_mangle)]
pub extern "C" fn octofix_bounds(handle: &mut Octofix, sought: u32, corners: &mut VoxelBox) -> u32
    ensures same { handle.new ≡ handle.old }
    ensures told { IsBoundsTold handle.old.slot.map sought result corners.old corners.new }
{
    match handle.map_mut() {
        Ok(map) => bounds(map, sought, corners),
        Err(refusal) => refusal.code(),
    }
}
