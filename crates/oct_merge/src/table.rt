//! How many voxels of a box have which pair of classes in two maps.
ghost use Rattle.std.specs.Prelude.{◌≡◌, ℕ, ◌+◌, ◌-◌, ◌*◌, ◌^◌, ◌<◌, ◌≤◌, min, max, length};
ghost use Rattle.std.specs.Prelude.{slice_index_or, if◌then◌else◌, nat_eq, ◌↔◌, IsTrue, None};
ghost use Rattle.std.specs.List.{sum};
ghost use Rattle.oct_key.specs.Block.{side};
ghost use Rattle.oct_key.specs.Boxes.{IsBox, box_volume};
ghost use Rattle.oct_key.specs.CubeOf.{cube_of};
ghost use Rattle.oct_odds.specs.Update.{class_of};
ghost use Rattle.oct_values.specs.Classes.{classes_of};
ghost use Rattle.oct_tree.specs.Tree.{IsOver, IsLinked, value_at};
ghost use Rattle.oct_tree.specs.Shape.{IsWellFormed};
ghost use Rattle.oct_arena.specs.Nodes.{link_of, value_of};
ghost use Rattle.oct_merge.specs.Pairs.{number_of, pair_of, pair_counts, pairs_in};
ghost use Rattle.oct_merge.specs.Shared.{shared, shared_in};

use crate::walk::is_plain;
use oct_arena::Node;
use oct_key::{Block, Key, Window};
use oct_odds::Class;
use oct_tree::OccTree;

/// How many voxels have which class in two maps: at `3 * i + j` those of class i in the first map
/// and j in the second, where unknown is 0, free 1 and occupied 2.
#[derive(Clone, Copy, Debug, PartialEq, Eq)]
pub struct ClassTable {
    pub counts: [u64; 9],
}

/// The table of the voxels of the box of two corners, both included. Counts blocks as a whole where
/// both maps have one node over them, and takes no memory.
pub fn class_table(a: &OccTree, b: &OccTree, lo: Key, hi: Key) -> ClassTable
    requires a { IsWellFormed a.now }
    requires b { IsWellFormed b.now }
    requires order { IsBox lo hi }
    ensures exact { result.counts ≡ pair_counts lo hi
        (classes_of a.now.odds (value_at a.now)) (classes_of b.now.odds (value_at b.now)) }
    ensures all { sum result.counts ≡ box_volume lo hi }
{
    let mut table = ClassTable { counts: [0; 9] };
    let map = Block::whole_map();
    let window = Window::of(lo, hi);
    count_part(&mut table, a, b, a.root(), b.root(), map, window);
    table
}

impl ClassTable {
    /// Counts this many voxels at a place.
    #[inline(always)]
    pub fn add(&mut self, place: usize, voxels: u64)
        requires place { place < 9 }
        requires room { slice_index_or self.old.counts place 0 + voxels < 2 ^ 64 }
        ensures counted { (n : ℕ) → n < 9 → slice_index_or self.new.counts n 0
            ≡ slice_index_or self.old.counts n 0 + (if nat_eq place n then voxels else 0) }
        ensures long { length self.new.counts ≡ length self.old.counts }
    {
        self.counts[place] += voxels;
    }
}

/// Adds the voxels of the box in the block, over which these nodes stand in the two maps.
fn count_part(
    table: &mut ClassTable,
    a: &OccTree,
    b: &OccTree,
    first: Node,
    second: Node,
    block: Block,
    window: Window,
)
    requires a { IsLinked a.now }
    requires b { IsLinked b.now }
    requires first { IsOver a.now (cube_of block) first }
    requires second { IsOver b.now (cube_of block) second }
    requires room { (n : ℕ) → n < 9 → slice_index_or table.old.counts n 0
        + pairs_in window.lo window.hi (classes_of a.now.odds (value_at a.now))
        (classes_of b.now.odds (value_at b.now)) n (cube_of block) < 2 ^ 64 }
    ensures counted { (n : ℕ) → n < 9 → slice_index_or table.new.counts n 0
        ≡ slice_index_or table.old.counts n 0
        + pairs_in window.lo window.hi (classes_of a.now.odds (value_at a.now))
        (classes_of b.now.odds (value_at b.now)) n (cube_of block) }
    ensures long { length table.new.counts ≡ length table.old.counts }
{
    let voxels = shared_with(block, window);
    if voxels == 0 {
        return;
    }
    if are_plain(first, second) {
        let place = place_of(class_under(a, first), class_under(b, second));
        table.add(place, voxels);
        return;
    }
    for i in 0..8 {
        let child = a.child_node(first, i);
        let other = b.child_node(second, i);
        count_part(table, a, b, child, other, block.child(i), window);
    }
}

/// Whether neither of the nodes links a group.
fn are_plain(first: Node, second: Node) -> bool
    ensures { IsTrue result ↔ ((link_of first ≡ None) × (link_of second ≡ None)) }
{
    is_plain(first) && is_plain(second)
}

/// The class that the node, which links no group, gives its voxels.
fn class_under(tree: &OccTree, node: Node) -> Class
    ensures { result ≡ class_of tree.now.odds (value_of node) }
{
    tree.odds().class(node.value())
}

/// The place of two classes in a table.
fn place_of(first: Class, second: Class) -> usize
    ensures exact { result ≡ pair_of first second }
    ensures few { result < 9 }
{
    3 * number_of(first) + number_of(second)
}

/// The number of a class in a table.
fn number_of(class: Class) -> usize
    ensures exact { result ≡ number_of class }
    ensures few { result < 3 }
{
    match class {
        Class::Unknown => 0,
        Class::Free => 1,
        Class::Occupied => 2,
    }
}

/// How many voxels of the block lie in the box.
fn shared_with(block: Block, window: Window) -> u64
    ensures { result ≡ shared_in window.lo window.hi (cube_of block) }
{
    let lo = window.lo();
    let hi = window.hi();
    let x = shared_across(lo.x, hi.x, block.depth, block.x);
    let y = shared_across(lo.y, hi.y, block.depth, block.y);
    let z = shared_across(lo.z, hi.z, block.depth, block.z);
    x * y * z
}

/// How many voxels of a block of this depth and number on an axis have these numbers there.
#[inline(always)]
pub fn shared_across(low: u16, high: u16, depth: u8, n: u16) -> u64
    requires { depth ≤ 16 }
    ensures exact { result ≡ shared low (high + 1) (side depth) n }
    ensures few { result ≤ 2 ^ 16 }
{
    let height = 16 - depth;
    let first = u64::from(n) << height;
    let end = first + (1u64 << height);
    end.min(u64::from(high) + 1)
        .saturating_sub(first.max(u64::from(low)))
}
