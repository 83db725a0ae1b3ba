//! A height band of a map as the cells of an occupancy grid.
ghost use Rattle.std.specs.Prelude.{◌≡◌, ◌≤◌, ◌^◌, length};
ghost use Rattle.oct_export.specs.Grids.{cells_of, column_count};
ghost use Rattle.oct_key.specs.Boxes.{IsBox};
ghost use Rattle.oct_tree.specs.Classes.{classes_in};
ghost use Rattle.octofix.specs.Asked.{asked};
ghost use Rattle.octofix.specs.Buffers.{count_left, filled, list_code, list_left, room_code};
ghost use Rattle.octofix.specs.Codes.{answer_details};
ghost use Rattle.octofix.specs.Grids.{cells_between, cells_in};

use crate::handle::Octofix;
use crate::refusal::{DONE, Refusal, SMALL_BUFFER};
use crate::types::{Details, PointNm};
use oct_export::{column_count, fill_cells};
use oct_key::{Key, Window};
use oct_map::{MapFault, OccMap};
use oct_tree::OccTree;

/// The most columns of a grid.
const MOST_COLUMNS: u64 = 1 << 26;

/// Puts the cells of a box into a buffer, and tells how many there are.
fn put_cells(tree: &OccTree, low: Key, high: Key, cells: &mut [i8], count: &mut usize) -> u32
    requires order { IsBox low high }
    requires few { column_count (record { lo = low; hi = high }) ≤ 2 ^ 26 }
    ensures code { result
        ≡ room_code (length cells.old) (length (cells_of (classes_in tree.now) low high)) }
    ensures cells { cells.new ≡ filled cells.old (cells_of (classes_in tree.now) low high) }
    ensures count { count.new ≡ length (cells_of (classes_in tree.now) low high) }
{
    let total = column_count(low, high) as usize;
    *count = total;
    if cells.len() < total {
        return SMALL_BUFFER;
    }
    fill_cells(tree, low, high, &mut cells[..total]);
    DONE
}

/// Tells the cells of a box, unless they are too many.
fn cells_in(
    tree: &OccTree,
    low: Key,
    high: Key,
    cells: &mut [i8],
    count: &mut usize,
    details: &mut Details,
) -> u32
    requires order { IsBox low high }
    ensures code { result
        ≡ list_code (length cells.old) (cells_in (classes_in tree.now) low high) }
    ensures cells { cells.new ≡ list_left cells.old (cells_in (classes_in tree.now) low high) }
    ensures count { count.new ≡ count_left count.old (cells_in (classes_in tree.now) low high) }
    ensures details { details.new ≡ answer_details (cells_in (classes_in tree.now) low high) }
{
    let total = column_count(low, high);
    if total > MOST_COLUMNS {
        return Refusal::WideGrid { count: total }.tell(details);
    }
    *details = Details::none();
    put_cells(tree, low, high, cells, count)
}

/// Tells the cells of the box between two points.
fn grid(
    map: &OccMap,
    low: &PointNm,
    high: &PointNm,
    cells: &mut [i8],
    count: &mut usize,
    details: &mut Details,
) -> u32
    ensures code { result ≡ list_code (length cells.old) (cells_between low.now high.now map.now) }
    ensures cells { cells.new ≡ list_left cells.old (cells_between low.now high.now map.now) }
    ensures count { count.new ≡ count_left count.old (cells_between low.now high.now map.now) }
    ensures details { details.new ≡ answer_details (cells_between low.now high.now map.now) }
{
    let tree = map.tree();
    let Some(first) = tree.res().key_of(low.point()) else {
        return Refusal::Map(MapFault::Outside { point: 1 }).tell(details);
    };
    let Some(last) = tree.res().key_of(high.point()) else {
        return Refusal::Map(MapFault::Outside { point: 2 }).tell(details);
    };
    if Window::new(first, last).is_none() {
        return Refusal::Map(MapFault::BadBox).tell(details);
    }
    cells_in(tree, first, last, cells, count, details)
}

/// What the columns of voxels between two points show, one cell each: 100 where some voxel is
/// occupied, else 0 where some voxel is free, else -1. Rows ascend in y, and each of them in x.
#[unsafe(no_mangle)]
pub extern "C" fn octofix_grid(
    handle: &mut Octofix,
    low: &PointNm,
    high: &PointNm,
    cells: &mut [i8],
    count: &mut usize,
    details: &mut Details,
) -> u32
    ensures same { handle.new ≡ handle.old }
    ensures code { result ≡ list_code (length cells.old)
        (asked handle.old.slot.map (cells_between low.now high.now)) }
    ensures cells { cells.new ≡ list_left cells.old
        (asked handle.old.slot.map (cells_between low.now high.now)) }
    ensures count { count.new ≡ count_left count.old
        (asked handle.old.slot.map (cells_between low.now high.now)) }
    ensures details { details.new
        ≡ answer_details (asked handle.old.slot.map (cells_between low.now high.now)) }
{
    match handle.map_mut() {
        Ok(map) => grid(map, low, high, cells, count, details),
        Err(refusal) => refusal.tell(details),
    }
}
