//! The nodes down to one voxel, kept for the next one that is asked.
ghost use Rattle.std.specs.Prelude.{◌≡◌, ◌+◌, ◌≤◌};
ghost use Rattle.oct_key.specs.Voxel.{IsInMap};
ghost use Rattle.oct_key.specs.Block.{block_of};
ghost use Rattle.oct_tree.specs.Tree.{reach};
ghost use Rattle.oct_query.specs.Paths.{IsPathOf};

use oct_arena::Node;
use oct_key::{Key, child_index};
use oct_tree::OccTree;

/// The nodes on the path from the root to a voxel, down to a depth. A caller that asks for one
/// voxel after another goes up only to where the paths part.
#[derive(Clone, Copy)]
pub(crate) struct Path {
    nodes: [Node; 17],
    key: Key,
    depth: u8,
}

impl Path {
    /// The path that ends at the root.
    pub(crate) fn new(tree: &OccTree) -> Path
        ensures { IsPathOf tree.now result }
    {
        Path {
            nodes: [tree.root(); 17],
            key: Key { x: 0, y: 0, z: 0 },
            depth: 0,
        }
    }

    /// The node that stands at the block of that depth around the voxel, or the one that covers it.
    pub(crate) fn go(&mut self, tree: &OccTree, k: Key, depth: u8) -> Node
        requires path { IsPathOf tree.now self.old }
        requires depth { depth ≤ 16 }
        ensures node { result ≡ reach tree.now depth k }
        ensures path { IsPathOf tree.now self.new }
    {
        let from = self.shared(k, depth);
        let mut node = self.nodes[from as usize];
        for level in from..depth {
            node = tree.child_node(node, child_index(k, level));
            self.nodes[level as usize + 1] = node;
        }
        self.key = k;
        self.depth = depth;
        node
    }

    /// A depth of at most `most`, down to which this path and that to the voxel are the same.
    fn shared(&self, k: Key, most: u8) -> u8
        requires few { self.now.depth ≤ 16 }
        requires in_map { IsInMap self.now.key }
        ensures most { result ≤ most }
        ensures few { result ≤ self.now.depth }
        ensures same { block_of result self.now.key ≡ block_of result k }
    {
        let depth = self.depth.min(most);
        let differ = (self.key.x ^ k.x) | (self.key.y ^ k.y) | (self.key.z ^ k.z);
        if differ == 0 {
            return depth;
        }
        depth.min(15 - differ.ilog2() as u8)
    }
}
