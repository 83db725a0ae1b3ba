//! How many voxels of a box have which classes in two files.
ghost use Rattle.std.specs.Prelude.{◌≡◌, ◌+◌, ◌*◌, ◌^◌, ◌<◌, ◌≤◌, ◌++◌, ℕ, List, length};
ghost use Rattle.std.specs.Prelude.{slice_index_or};
ghost use Rattle.std.specs.List.{sum};
ghost use Rattle.oct_key.specs.Voxel.{IsInMap};
ghost use Rattle.oct_key.specs.Block.{child_of, side};
ghost use Rattle.oct_key.specs.Boxes.{IsBox, box_volume};
ghost use Rattle.oct_key.specs.CubeOf.{cube_of};
ghost use Rattle.oct_merge.specs.Pairs.{pair_of, pair_counts};
ghost use Rattle.oct_merge.specs.Shared.{shared, shared_in};
ghost use Rattle.oct_odds.specs.declared.event.Class.{Class};
ghost use Rattle.oct_bt.specs.DataClasses.{data_classes};
ghost use Rattle.oct_bt.specs.NodeData.{IsAccepted};
ghost use Rattle.oct_bt.specs.Records.{Entries, class_code};
ghost use Rattle.oct_join.specs.Sides.{IsSide, side_text};
ghost use Rattle.oct_join.specs.Tabled.{AreAtHand, IsTabled};

use crate::joining::{is_parted, record_bytes, root_code, side_codes};
use oct_bt::BtFile;
use oct_key::{Block, Key, Window};
use oct_merge::{ClassTable, shared_across};

/// The table of the voxels of the box of two corners, both included, by their classes in two files.
/// Each record of both is read once, blocks of one class in each are counted as a whole, and those
/// that don't meet the box are passed over. Takes no memory.
pub fn tabulate(first: &BtFile, second: &BtFile, lo: Key, hi: Key) -> ClassTable
    requires order { IsBox lo hi }
    ensures exact { result.counts ≡ pair_counts lo hi
        (data_classes first.now.codes) (data_classes second.now.codes) }
    ensures all { sum result.counts ≡ box_volume lo hi }
{
    let mine = first.codes().as_slice();
    let theirs = second.codes().as_slice();
    tabulate_records(mine, theirs, Window::of(lo, hi))
}

/// How many bytes of each text were read.
#[derive(Clone, Copy)]
struct Read {
    first: usize,
    second: usize,
}

/// The table of the voxels of a box by their classes in two texts of node data.
fn tabulate_records(first: &[u8], second: &[u8], window: Window) -> ClassTable
    requires first { (n : ℕ) × IsAccepted n first.now }
    requires second { (n : ℕ) × IsAccepted n second.now }
    requires in_map { IsInMap window.hi }
    ensures exact { result.counts ≡ pair_counts window.lo window.hi
        (data_classes first.now) (data_classes second.now) }
    ensures all { sum result.counts ≡ box_volume window.lo window.hi }
{
    let mut table = ClassTable { counts: [0; 9] };
    let a = root_code(first);
    let b = root_code(second);
    count_block(&mut table, window, Block::whole_map(), a, first, b, second);
    table
}

/// Counts the voxels of the box in a block that has these codes in the two files, and where a code
/// is 3 its record at the front of the text.
fn count_block(
    table: &mut ClassTable,
    window: Window,
    block: Block,
    a: u16,
    first: &[u8],
    b: u16,
    second: &[u8],
) -> Read
    requires levels { block.depth ≤ 15 }
    requires sides { AreAtHand window.lo window.hi (cube_of block) a b first.now
        second.now table.old.counts }
    ensures counted { (r s : Entries) (p q : List ℕ) → IsSide block.depth a r
        → first.now ≡ side_text a r ++ p → IsSide block.depth b s
        → second.now ≡ side_text b s ++ q
        → IsTabled window.lo window.hi (cube_of block) a b r s table.old.counts
        table.new.counts result }
    ensures long { length table.new.counts ≡ length table.old.counts }
{
    let mut left = side_codes(a, first);
    let mut other = side_codes(b, second);
    let mut at = record_bytes(a);
    let mut to = record_bytes(b);
    let shares = shares_of(block, window);
    for i in 0u8..8 {
        let voxels = shares[usize::from(i)];
        if is_parted(left % 4, other % 4) {
            let (_, later) = first.split_at(at);
            let (_, others) = second.split_at(to);
            let read = if voxels == 0 {
                pass_over(block.depth + 1, left % 4, later, other % 4, others)
            } else {
                let child = block.child(i);
                count_block(table, window, child, left % 4, later, other % 4, others)
            };
            at += read.first;
            to += read.second;
        } else {
            table.add(place_of(left % 4, other % 4), voxels);
        }
        left /= 4;
        other /= 4;
    }
    Read {
        first: at,
        second: to,
    }
}

/// How many bytes a block has in each text.
fn pass_over(depth: u8, a: u16, first: &[u8], b: u16, second: &[u8]) -> Read
    requires levels { depth ≤ 15 }
    requires first { (r : Entries) × (tail : List ℕ) × IsSide depth a r
        × (first.now ≡ side_text a r ++ tail) }
    requires second { (s : Entries) × (tail : List ℕ) × IsSide depth b s
        × (second.now ≡ side_text b s ++ tail) }
    ensures first { (r : Entries) (p : List ℕ) → IsSide depth a r
        → first.now ≡ side_text a r ++ p → result.first ≡ length (side_text a r) }
    ensures second { (s : Entries) (q : List ℕ) → IsSide depth b s
        → second.now ≡ side_text b s ++ q → result.second ≡ length (side_text b s) }
{
    Read {
        first: side_length(depth, a, first),
        second: side_length(depth, b, second),
    }
}

/// How many bytes a block has that has this code, and where it is 3 its record at the front of the
/// text.
fn side_length(depth: u8, code: u16, text: &[u8]) -> usize
    requires levels { depth ≤ 15 }
    requires side { (r : Entries) × (tail : List ℕ) × IsSide depth code r
        × (text.now ≡ side_text code r ++ tail) }
    ensures { (r : Entries) (tail : List ℕ) → IsSide depth code r
        → text.now ≡ side_text code r ++ tail → result ≡ length (side_text code r) }
{
    let mut left = side_codes(code, text);
    let mut at = record_bytes(code);
    for _ in 0u8..8 {
        if left % 4 == 3 {
            let (_, later) = text.split_at(at);
            at += side_length(depth + 1, left % 4, later);
        }
        left /= 4;
    }
    at
}

/// The place of two classes in a table, by their codes.
#[inline(always)]
fn place_of(a: u16, b: u16) -> usize
    requires a { a < 3 }
    requires b { b < 3 }
    ensures exact { (x y : Class) → a ≡ class_code x → b ≡ class_code y → result ≡ pair_of x y }
    ensures few { result < 9 }
{
    usize::from(3 * a + b)
}

/// How many voxels of each child of a block lie in the box.
fn shares_of(block: Block, window: Window) -> [u64; 8]
    requires { block.depth ≤ 15 }
    ensures { (i : ℕ) → i < 8 → slice_index_or result i 0
        ≡ shared_in window.lo window.hi (child_of (cube_of block) i) }
{
    let depth = block.depth + 1;
    let lo = window.lo();
    let hi = window.hi();
    let x = shared_halves(lo.x, hi.x, depth, block.x);
    let y = shared_halves(lo.y, hi.y, depth, block.y);
    let z = shared_halves(lo.z, hi.z, depth, block.z);
    [
        x.low * y.low * z.low,
        x.high * y.low * z.low,
        x.low * y.high * z.low,
        x.high * y.high * z.low,
        x.low * y.low * z.high,
        x.high * y.low * z.high,
        x.low * y.high * z.high,
        x.high * y.high * z.high,
    ]
}

/// How many voxels of the two halves of a block lie in the box on one axis.
#[derive(Clone, Copy)]
struct Halves {
    low: u64,
    high: u64,
}

/// How many voxels of the two halves, which have this depth, of the block of this number have these
/// numbers on an axis.
#[inline(always)]
fn shared_halves(low: u16, high: u16, depth: u8, n: u16) -> Halves
    requires { (depth ≤ 16) × (n < 2 ^ 15) }
    ensures low { result.low ≡ shared low (high + 1) (side depth) (2 * n + 0) }
    ensures high { result.high ≡ shared low (high + 1) (side depth) (2 * n + 1) }
    ensures few_low { result.low ≤ 2 ^ 16 }
    ensures few_high { result.high ≤ 2 ^ 16 }
{
    Halves {
        low: shared_across(low, high, depth, 2 * n),
        high: shared_across(low, high, depth, 2 * n + 1),
    }
}
