//! How large a tree is, counted node by node.
ghost use Rattle.std.specs.Prelude.{◌≡◌, ◌+◌, ◌-◌, ◌^◌, ◌≤◌, ◌↔◌, Some};
ghost use Rattle.oct_key.specs.Block.{Cube};
ghost use Rattle.oct_values.specs.Counts.{group_count, node_count};
ghost use Rattle.oct_arena.specs.Entries.{live};
ghost use Rattle.oct_tree.specs.Tree.{IsLinked, IsPlace, node_in, block_in, value_at};
ghost use Rattle.oct_tree.specs.Shape.{IsWellFormed, IsPruned};
ghost use Rattle.oct_query.specs.Nodes.{nodes_of};
ghost use Rattle.oct_query.specs.Under.{nodes_under};

use crate::totals::Counts;
use oct_arena::Node;
use oct_tree::{OccTree, Place};

/// How many groups the tree has, and how many nodes that aren't absent. Reads each node once and
/// takes no memory.
///
/// No tree of these values has fewer. A tree has as few groups as its values need exactly where it
/// is pruned, and then, if it is well-formed, as few nodes too.
pub fn counts(tree: &OccTree) -> Counts
    ensures groups { result.groups ≡ live tree.now.groups }
    ensures nodes { result.nodes ≡ nodes_of tree.now.groups tree.now.root }
    ensures least_groups { group_count (value_at tree.now) ≤ result.groups }
    ensures least_nodes { node_count (value_at tree.now) ≤ result.nodes }
    ensures pruned_groups { (result.groups ≡ group_count (value_at tree.now)) ↔ IsPruned tree.now }
    ensures pruned_nodes { IsWellFormed tree.now → IsPruned tree.now
        → result.nodes ≡ node_count (value_at tree.now) }
    ensures linked { IsLinked tree.now }
{
    Counts {
        groups: tree.arena().live(),
        nodes: nodes_under(tree, Place::Root, 0),
    }
}

/// How many nodes aren't absent, of the one at the place, whose block has this depth, and those
/// under it.
fn nodes_under(tree: &OccTree, p: Place, depth: u8) -> u64
    requires place { IsPlace tree.now p }
    requires block { (b : Cube) → block_in tree.now p ≡ Some b → b.depth ≡ depth }
    requires levels { depth ≤ 16 }
    ensures exact { result ≡ nodes_under tree.now.groups (16 - depth) (node_in tree.now p) }
    ensures few { result ≤ 9 ^ (16 - depth) }
    ensures linked { IsLinked tree.now }
{
    match tree.node(p) {
        Node::Absent => 0,
        Node::Leaf(_) => 1,
        Node::Inner(_, id) => {
            let mut nodes = 1;
            for i in 0..8 {
                nodes += nodes_under(tree, Place::Slot(id, i), depth + 1);
            }
            nodes
        }
    }
}
