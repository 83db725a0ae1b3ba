//! A height band as the cells of an occupancy grid.
ghost use Rattle.std.specs.Prelude.{◌≡◌, ◌+◌, ◌-◌, length};
ghost use Rattle.oct_key.specs.Boxes.{IsBox};
ghost use Rattle.oct_tree.specs.Classes.{classes_in};
ghost use Rattle.oct_export.specs.Grids.{cell_of, cells_of, column_count, shown_row};

use crate::strip::strip_at;
use oct_key::Key;
use oct_odds::Class;
use oct_tree::OccTree;

/// The cell of a class: how likely it is occupied, in per cent, and -1 where nothing is known.
fn cell_of(class: Class) -> i8
    ensures { result ≡ cell_of class }
{
    match class {
        Class::Occupied => 100,
        Class::Free => 0,
        Class::Unknown => -1,
    }
}

/// How many columns the box of two corners has.
pub fn column_count(low: Key, high: Key) -> u64
    requires order { IsBox low high }
    ensures { result ≡ column_count (record { lo = low; hi = high }) }
{
    let width = u32::from(high.x - low.x) + 1;
    let height = u32::from(high.y - low.y) + 1;
    u64::from(width) * u64::from(height)
}

/// Puts the cells of the columns with this number on y into a row, strip by strip.
fn fill_row(tree: &OccTree, lo: Key, hi: Key, y: u16, row: &mut [i8])
    requires order { IsBox lo hi }
    requires room { length row.old ≡ hi.x + 1 - lo.x }
    ensures { row.new ≡ shown_row cell_of (classes_in tree.now) lo hi y }
{
    let mut x = u32::from(lo.x);
    while x <= u32::from(hi.x) {
        let strip = strip_at(tree, x as u16, y, lo.z, hi.z);
        let next = u32::from(strip.last.min(hi.x)) + 1;
        let first = u32::from(lo.x);
        row[(x - first) as usize..(next - first) as usize].fill(cell_of(strip.class));
        x = next;
    }
}

/// Puts what the columns of a box show into cells, one for each column: 100 where some voxel of the
/// column is occupied, else 0 where some voxel is free, else -1, as [`band`](crate::band) tells
/// them. Rows go from the lowest number on y to the highest, and in a row the number on x ascends.
///
/// Takes no memory. Blocks of one class are looked at once for all columns of a row over them.
pub fn fill_cells(tree: &OccTree, lo: Key, hi: Key, cells: &mut [i8])
    requires order { IsBox lo hi }
    requires room { length cells.old ≡ column_count (record { lo = lo; hi = hi }) }
    ensures { cells.new ≡ cells_of (classes_in tree.now) lo hi }
{
    let width = usize::from(hi.x - lo.x) + 1;
    let height = u32::from(hi.y - lo.y) + 1;
    for n in 0..height {
        let at = n as usize * width;
        fill_row(tree, lo, hi, lo.y + n as u16, &mut cells[at..at + width]);
    }
}
