//! The way down a tree to a voxel, kept from one voxel to the next.
ghost use Rattle.std.specs.Prelude.{◌≡◌, ◌≢◌, ◌+◌, ◌*◌, ◌-◌, ◌/◌, ◌^◌, ◌<◌, ◌≤◌, ◌↔◌, IsTrue};
ghost use Rattle.std.specs.Prelude.{ℕ, Some, IfSome, IfNone};
ghost use Rattle.oct_key.specs.Voxel.{Voxel};
ghost use Rattle.oct_key.specs.Morton.{code_prefix};
ghost use Rattle.oct_arena.specs.Nodes.{link_of};
ghost use Rattle.oct_tree.specs.Tree.{reach};
ghost use Rattle.oct_cast.specs.Way.{IsCodeOf, AreLinked, IsLast, LeadsTo};

use oct_arena::{GroupId, Node};
use oct_tree::{Descent, OccTree};

/// The way down a tree to a voxel: through the groups that the nodes over it link, to the first
/// node that isn't Inner, or whose value is below a floor.
#[derive(Drop)]
pub(crate) struct Way {
    /// The groups that are linked above the way's end, by their depths.
    pub(crate) groups: [GroupId; 16],
    /// How deep the block of the node at the end is.
    pub(crate) depth: u8,
    /// How many of a code's last bits the voxels of that block don't have in common.
    pub(crate) height: u8,
    /// The bits before them, which they have in common.
    pub(crate) block: u64,
    /// The value below which an Inner node is the last one.
    pub(crate) floor: i32,
}

impl Way {
    /// The way from the root, which links a group, to the voxel of a code, with this floor, and the
    /// node at its end.
    pub(crate) fn new(tree: &OccTree, id: GroupId, code: u64, floor: i32) -> (Way, Node)
        requires root { link_of tree.now.root ≡ Some id.number }
        requires code { (k : Voxel) × IsCodeOf code k }
        ensures leads { (k : Voxel) → IsCodeOf code k → LeadsTo tree.now result.0 k }
        ensures node { (k : Voxel) → IsCodeOf code k
            → result.1 ≡ reach tree.now result.0.depth k }
        ensures floor { result.0.floor ≡ floor }
    {
        let mut way = Way {
            groups: [id; 16],
            depth: 0,
            height: 48,
            block: 0,
            floor,
        };
        let node = way.descend(tree, code);
        (way, node)
    }

    /// Whether the voxel of a code lies in the block of the node at the end.
    pub(crate) fn is_over(&self, code: u64) -> bool
        requires { self.now.height ≤ 48 }
        ensures { IsTrue result ↔ (code / 2 ^ self.now.height ≡ self.now.block) }
    {
        code >> self.height == self.block
    }

    /// Leads to the voxel of a code that doesn't lie in the block of the node at the end, and
    /// answers the node at the new end. Goes up only to the block that holds both voxels.
    pub(crate) fn turn_to(&mut self, tree: &OccTree, code: u64) -> Node
        requires before { (k : Voxel) × LeadsTo tree.now self.old k }
        requires code { (k : Voxel) × IsCodeOf code k }
        requires leaves { code / 2 ^ self.old.height ≢ self.old.block }
        ensures leads { (k : Voxel) → IsCodeOf code k → LeadsTo tree.now self.new k }
        ensures node { (k : Voxel) → IsCodeOf code k → result ≡ reach tree.now self.new.depth k }
        ensures floor { self.new.floor ≡ self.old.floor }
    {
        self.ascend(code);
        self.descend(tree, code)
    }

    /// Shortens the way to the deepest block on it that holds the voxel of a code too.
    fn ascend(&mut self, code: u64)
        requires depth { self.old.depth ≤ 16 }
        requires height { self.old.height ≡ 3 * (16 - self.old.depth) }
        requires code { code < 2 ^ 48 }
        requires block { (before : ℕ) × (before < 2 ^ 48)
            × (self.old.block ≡ code_prefix self.old.depth before) }
        requires leaves { code / 2 ^ self.old.height ≢ self.old.block }
        ensures depth { self.new.depth < self.old.depth }
        ensures here { self.new.block ≡ code_prefix self.new.depth code }
        ensures before { (before : ℕ) → self.old.block ≡ code_prefix self.old.depth before
            → self.new.block ≡ code_prefix self.new.depth before }
        ensures groups { self.new.groups ≡ self.old.groups }
        ensures floor { self.new.floor ≡ self.old.floor }
    {
        let mut here = code >> self.height;
        'up: while here != self.block {
            here >>= 3;
            self.block >>= 3;
            self.depth -= 1;
        }
    }

    /// Goes on from the group that is linked at the way's depth to the voxel of a code, and answers
    /// the node at the end.
    fn descend(&mut self, tree: &OccTree, code: u64) -> Node
        requires depth { self.old.depth ≤ 15 }
        requires linked { (k : Voxel) × IsCodeOf code k
            × AreLinked tree.now self.old.groups (self.old.depth + 1) k }
        ensures leads { (k : Voxel) → IsCodeOf code k → LeadsTo tree.now self.new k }
        ensures node { (k : Voxel) → IsCodeOf code k → result ≡ reach tree.now self.new.depth k }
        ensures floor { self.new.floor ≡ self.old.floor }
    {
        let arena = tree.arena();
        let mut depth = self.depth as usize;
        let mut way = Descent::new(code, self.depth);
        let mut node = arena.node(self.groups[depth], way.step());
        while let Some(id) = group_on(node, self.floor) {
            depth += 1;
            self.groups[depth] = id;
            node = arena.node(id, way.step());
        }
        let depth = depth as u8;
        self.depth = depth + 1;
        self.height = 3 * (15 - depth);
        self.block = code >> self.height;
        node
    }
}

/// The group that a way goes on to: what the node links, unless the way ends at it.
fn group_on(node: Node, floor: i32) -> Option<GroupId>
    ensures on { IfSome result (λ id. link_of node ≡ Some id.number) }
    ensures ends { IfNone result (IsLast floor node) }
{
    match node {
        Node::Inner(most, id) if floor <= most => Some(id),
        _ => None,
    }
}
