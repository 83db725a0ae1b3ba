//! How many groups a merge may make, counted before it.
ghost use Rattle.std.specs.Prelude.{◌≡◌, ◌-◌, ◌^◌, ◌≤◌};
ghost use Rattle.oct_key.specs.CubeOf.{cube_of};
ghost use Rattle.oct_arena.specs.Entries.{live};
ghost use Rattle.oct_tree.specs.Tree.{IsOver, IsLinked};
ghost use Rattle.oct_tree.specs.Shape.{IsWellFormed};
ghost use Rattle.oct_merge.specs.Need as groups;
ghost use Rattle.oct_merge.specs.Walk.{common_in};

use crate::walk::is_plain;
use oct_arena::Node;
use oct_key::Block;
use oct_tree::OccTree;

/// How many live groups of `other` have a home that is the home of no live group of `into`: this
/// many groups at most are taken by a merge of `other` into `into`. Visits the groups that have a
/// home in common, and takes no memory.
pub fn merge_need(into: &OccTree, other: &OccTree) -> u32
    requires into { IsWellFormed into.now }
    requires other { IsWellFormed other.now }
    ensures exact { result ≡ groups.merge_need into.now other.now }
    ensures few { result ≤ live other.now.groups }
{
    let map = Block::whole_map();
    let common = common_under(into, into.root(), other, other.root(), map);
    other.arena().live() - common as u32
}

/// How many blocks from this one down have a group in both trees. The nodes are those over the
/// block.
fn common_under(into: &OccTree, node: Node, other: &OccTree, theirs: Node, block: Block) -> u64
    requires into { IsLinked into.now }
    requires other { IsLinked other.now }
    requires node { IsOver into.now (cube_of block) node }
    requires theirs { IsOver other.now (cube_of block) theirs }
    ensures exact { result ≡ common_in into.now other.now (cube_of block) }
    ensures few { result ≤ 9 ^ (16 - block.depth) }
{
    if is_plain(theirs) {
        return 0;
    }
    if is_plain(node) {
        return 0;
    }
    let mut common = 1;
    for i in 0..8 {
        let child = into.child_node(node, i);
        let their_child = other.child_node(theirs, i);
        common += common_under(into, child, other, their_child, block.child(i));
    }
    common
}
