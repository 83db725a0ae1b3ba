//! The linked tree, and the calls that change one node, or one and its group.
ghost use Rattle.std.specs.Prelude.{◌≡◌, ℕ, ◌+◌, ◌-◌, ◌<◌, ◌≤◌, ◌^◌, ◌↔◌, ◌++◌, [], length, max};
ghost use Rattle.std.specs.Prelude.{Some, None, IsSome, IsTrue, IsOk, OnOk, IfOk};
ghost use Rattle.std.specs.Bool.{OnTrue, OnFalse};
ghost use Rattle.oct_key.specs.Voxel.{Voxel, IsInMap};
ghost use Rattle.oct_key.specs.Block.{Cube, HoldsVoxel, block_of};
ghost use Rattle.oct_odds.specs.Odds.{odds_of};
ghost use Rattle.oct_odds.specs.Update.{IsWithin};
ghost use Rattle.oct_arena.specs.declared.node.Node.{Node};
ghost use Rattle.oct_arena.specs.declared.node.GroupId.{GroupId};
ghost use Rattle.oct_arena.specs.Entries.{IsLive, home_at, spare, live, vacant};
ghost use Rattle.oct_tree.specs.Nodes.{inherited, IsKnown};
ghost use Rattle.oct_arena.specs.Nodes.{link_of, value_of};

use crate::descent::Descent;
use crate::nodes::{Survey, common_node, greatest, inherited, is_absent, read_group};
use crate::place::Place;
use crate::slots;
use crate::tidiness::{NOTHING, Tidiness};
use oct_arena::{GroupId, Node, NodeArena};
use oct_key::{Key, Res, morton};
use oct_num::Memory;
use oct_odds::OddsModel;
use std::alloc::Global;
use std::marker::Model;

/// An occupancy octree: for each voxel of the map a value, or none where nothing is known of it.
#[derive(Drop)]
pub struct OccTree {
    arena: NodeArena,
    root: Node,
    res: Res,
    odds: OddsModel,
    known: Tidiness,
}

impl Model for OccTree {
    ghost use Rattle.oct_odds.specs.Odds.{odds_of};
    ghost use Rattle.oct_tree.specs.Tree.{Tree, IsLinked};
    ghost use Rattle.oct_tree.specs.Tidiness.{IsKept};

    ghost Value = { Tree };

    ghost view = { λ t. record {
      groups = t.arena;
      root = t.root;
      res = t.res;
      odds = odds_of t.odds;
    } };

    ghost invariant = { λ t. IsKept t.known (record {
      groups = t.arena;
      root = t.root;
      res = t.res;
      odds = odds_of t.odds;
    }) };
}

impl OccTree {
    ghost use Rattle.oct_tree.specs.Tree.{Tree, IsLinked, IsPlace, StandsOver, node_in, block_in};
    ghost use Rattle.oct_tree.specs.Tree.{step, reach, value_at};
    ghost use Rattle.oct_tree.specs.Shape.{IsShaped};
    ghost use Rattle.oct_tree.specs.Changes.{SetsBlock, IsWritten, IsSplit, CanCollapse, CanDrop};
    ghost use Rattle.oct_tree.specs.Changes.{IsCollapsed, IsRenewed, IsGrown, IsSameOutside};
    ghost use Rattle.oct_tree.specs.Tidiness.{IsTrueOf};
    ghost use Rattle.oct_key.specs.Values.{SameValues};

    /// The tree of the unknown world: no voxel has a value. Takes no memory.
    pub fn new(alloc: Global, res: Res, odds: OddsModel) -> OccTree
        ensures exact { result
            ≡ record { groups = []; root = Node.Absent; res = res; odds = odds_of odds } }
        ensures unknown { (k : Voxel) → value_at result k ≡ None }
        ensures linked { IsLinked result }
    {
        OccTree {
            arena: NodeArena::new(alloc),
            root: Node::Absent,
            res,
            odds,
            known: Tidiness {
                fresh: true,
                pruned: true,
            },
        }
    }

    /// A tree of its own with the same nodes, in groups with the same ids, and with the same room.
    ///
    /// `Memory` comes only where this tree has taken memory.
    pub fn copy(&self) -> Result<OccTree, Memory>
        ensures exact { IfOk result (λ copy. copy ≡ self.now) }
        ensures none { self.now.groups ≡ [] → IsOk result }
        ensures linked { IsLinked self.now }
    {
        Ok(OccTree {
            arena: self.arena.copy()?,
            root: self.root,
            res: self.res,
            odds: self.odds,
            known: self.known,
        })
    }

    /// What is known of the inner nodes of the tree. What isn't known may be so.
    pub fn tidiness(&self) -> Tidiness
        ensures so { IsTrueOf result self.now }
        ensures linked { IsLinked self.now }
    {
        self.known
    }

    /// Keeps what is known of the inner nodes of the tree, until one of its nodes is changed.
    pub fn note(&mut self, known: Tidiness)
        requires { IsTrueOf known self.old }
        ensures same { self.new ≡ self.old }
        ensures linked { IsLinked self.new }
    {
        self.known = known;
    }

    /// The groups of the tree.
    pub fn arena(&self) -> &NodeArena
        ensures exact { result.now ≡ self.now.groups }
        ensures linked { IsLinked self.now }
    {
        &self.arena
    }

    /// The node of the whole map.
    pub fn root(&self) -> Node
        ensures exact { result ≡ self.now.root }
        ensures linked { IsLinked self.now }
    {
        self.root
    }

    /// The edge of a voxel.
    pub fn res(&self) -> Res
        ensures { result ≡ self.now.res }
    {
        self.res
    }

    /// How events change values, and how these are read.
    pub fn odds(&self) -> OddsModel
        ensures { odds_of result ≡ self.now.odds }
    {
        self.odds
    }

    /// Sets the log-odds of a tree that knows nothing. All else stays, and no memory is taken.
    pub fn set_odds(&mut self, odds: OddsModel)
        requires { self.old.root ≡ Node.Absent }
        ensures exact { self.new ≡ record {
          groups = self.old.groups;
          root = self.old.root;
          res = self.old.res;
          odds = odds_of odds;
        } }
        ensures linked { IsLinked self.new }
    {
        self.odds = odds;
    }

    /// Makes room for n more groups, and for at most 1,023 more than these where there wasn't room
    /// for n. All else stays.
    ///
    /// `Memory` comes only where there wasn't room for n, and then too the tree stays.
    #[inline(always)]
    pub fn reserve(&mut self, n: u32) -> Result<(), Memory>
        requires { live self.old.groups + n ≤ 2 ^ 31 }
        ensures room { OnOk result (n ≤ spare self.new.groups) }
        ensures enough { n ≤ spare self.old.groups → IsOk result × (self.new ≡ self.old) }
        ensures groups { self.new.groups
            ≡ self.old.groups ++ vacant (length self.new.groups - length self.old.groups) }
        ensures few { spare self.new.groups ≤ max (spare self.old.groups) (n + 1023) }
        ensures live { live self.new.groups ≡ live self.old.groups }
        ensures kept { IsGrown self.old self.new }
        ensures values { (k : Voxel) → value_at self.new k ≡ value_at self.old k }
        ensures linked { IsLinked self.new }
    {
        self.arena.reserve(n)
    }

    /// The voxel's value, or `None` where nothing is known of it. Reads at most sixteen nodes of
    /// the arena.
    pub fn at(&self, k: Key) -> Option<i32>
        ensures exact { result ≡ value_at self.now k }
        ensures within { IsWithin self.now.odds result }
        ensures linked { IsLinked self.now }
    {
        self.node_over(k, 16).value()
    }

    /// The node that stands at the block of that depth around the voxel, or the leaf or absent node
    /// that covers it. Reads at most one node of the arena for each depth.
    ///
    /// Where it is not Inner, each voxel of the block has its value. Where it is, the block is the
    /// home of the group that it links.
    pub fn node_over(&self, k: Key, depth: u8) -> Node
        requires { depth ≤ 16 }
        ensures exact { result ≡ reach self.now depth k }
        ensures stands { StandsOver self.now (block_of depth k) result }
        ensures only { (n : Node) → StandsOver self.now (block_of depth k) n → result ≡ n }
        ensures values { link_of result ≡ None → (j : Voxel) → HoldsVoxel (block_of depth k) j
            → value_at self.now j ≡ value_of result }
        ensures home { (id : ℕ) → link_of result ≡ Some id
            → home_at self.now.groups id ≡ Some (block_of depth k) }
        ensures linked { IsLinked self.now }
    {
        let mut way = Descent::new(morton(k), 0);
        let mut node = self.root;
        for _level in 0..depth {
            let Node::Inner(_, id) = node else {
                return node;
            };
            node = self.arena.node(id, way.step());
        }
        node
    }

    /// The node at the place. A node that is not Inner gives its value to each voxel of its block.
    pub fn node(&self, p: Place) -> Node
        requires { IsPlace self.now p }
        ensures exact { result ≡ node_in self.now p }
        ensures values { (b : Cube) → block_in self.now p ≡ Some b → link_of result ≡ None
            → (k : Voxel) → IsInMap k → HoldsVoxel b k → value_at self.now k ≡ value_of result }
        ensures linked { IsLinked self.now }
    {
        slots::read(&self.arena, self.root, p)
    }

    /// Child i of a node: that of the group that it links, or the node itself, which covers its
    /// block's children.
    #[inline(always)]
    pub fn child_node(&self, node: Node, i: u8) -> Node
        requires live { (id : ℕ) → link_of node ≡ Some id → IsLive self.now.groups id }
        requires index { i ≤ 7 }
        ensures { result ≡ step self.now.groups node i }
    {
        match node {
            Node::Inner(_, id) => self.arena.node(id, i),
            _ => node,
        }
    }

    /// Puts a group of eight copies of the place's node under it, which is not Inner, and makes the
    /// place Inner, with the leaf's value or 0. No voxel changes.
    pub fn split(&mut self, p: Place) -> GroupId
        requires place { IsPlace self.old p }
        requires node { link_of (node_in self.old p) ≡ None }
        requires depth { (b : Cube) → block_in self.old p ≡ Some b → b.depth ≤ 15 }
        requires room { 1 ≤ spare self.old.groups }
        ensures split { IsSplit self.old self.new p result (inherited (node_in self.old p)) }
        ensures values { SameValues (value_at self.old) (value_at self.new) }
        ensures outside { (b : Cube) → block_in self.old p ≡ Some b
            → IsSameOutside self.old self.new b }
        ensures linked { IsLinked self.new }
    {
        let value = inherited(slots::read(&self.arena, self.root, p));
        self.split_to(p, value)
    }

    /// The same, with this value in the place of the leaf's or 0.
    #[inline(always)]
    pub fn split_to(&mut self, p: Place, value: i32) -> GroupId
        requires place { IsPlace self.old p }
        requires node { link_of (node_in self.old p) ≡ None }
        requires depth { (b : Cube) → block_in self.old p ≡ Some b → b.depth ≤ 15 }
        requires room { 1 ≤ spare self.old.groups }
        ensures split { IsSplit self.old self.new p result value }
        ensures values { SameValues (value_at self.old) (value_at self.new) }
        ensures outside { (b : Cube) → block_in self.old p ≡ Some b
            → IsSameOutside self.old self.new b }
        ensures linked { IsLinked self.new }
    {
        self.known = NOTHING;
        slots::split(&mut self.arena, &mut self.root, p, value)
    }

    /// Gives back the group of an Inner place whose eight nodes are all absent, or all leaves of
    /// one value, and puts that node at the place. Answers whether it did. No voxel changes.
    pub fn collapse(&mut self, p: Place) -> bool
        requires { IsPlace self.old p }
        ensures when { IsTrue result ↔ CanCollapse self.old p }
        ensures collapsed { OnTrue result (IsCollapsed self.old self.new p) }
        ensures kept { OnFalse result (self.new ≡ self.old) }
        ensures values { SameValues (value_at self.old) (value_at self.new) }
        ensures outside { (b : Cube) → block_in self.old p ≡ Some b
            → IsSameOutside self.old self.new b }
        ensures linked { IsLinked self.new }
    {
        let Node::Inner(_, id) = slots::read(&self.arena, self.root, p) else {
            return false;
        };
        let Some(node) = common_node(&self.arena, id) else {
            return false;
        };
        self.known = NOTHING;
        slots::give_back(&mut self.arena, &mut self.root, p, id, node);
        true
    }

    /// Gives back the group of an Inner place whose eight nodes are absent, and makes the place
    /// absent. Answers whether it did. No voxel changes.
    pub fn drop_absent(&mut self, p: Place) -> bool
        requires { IsPlace self.old p }
        ensures when { IsTrue result ↔ CanDrop self.old p }
        ensures collapsed { OnTrue result (IsCollapsed self.old self.new p) }
        ensures kept { OnFalse result (self.new ≡ self.old) }
        ensures values { SameValues (value_at self.old) (value_at self.new) }
        ensures outside { (b : Cube) → block_in self.old p ≡ Some b
            → IsSameOutside self.old self.new b }
        ensures linked { IsLinked self.new }
    {
        let Node::Inner(_, id) = slots::read(&self.arena, self.root, p) else {
            return false;
        };
        if !is_absent(&self.arena, id) {
            return false;
        }
        self.known = NOTHING;
        slots::give_back(&mut self.arena, &mut self.root, p, id, Node::Absent);
        true
    }

    /// Makes the value of an Inner place the greatest that stands in its group. No voxel changes.
    pub fn renew(&mut self, p: Place)
        requires place { IsPlace self.old p }
        requires inner { IsSome (link_of (node_in self.old p)) }
        requires known { (id : ℕ) → link_of (node_in self.old p) ≡ Some id
            → IsKnown self.old.groups id }
        ensures renewed { IsRenewed self.old self.new p }
        ensures values { SameValues (value_at self.old) (value_at self.new) }
        ensures outside { (b : Cube) → block_in self.old p ≡ Some b
            → IsSameOutside self.old self.new b }
        ensures linked { IsLinked self.new }
    {
        let Node::Inner(_, id) = slots::read(&self.arena, self.root, p) else {
            unreachable!();
        };
        let value = greatest(&self.arena, id);
        self.known = NOTHING;
        slots::write(&mut self.arena, &mut self.root, p, Node::Inner(value, id));
    }

    /// Closes the group of an Inner place: collapses it where it can be, as [`OccTree::collapse`]
    /// does, and answers true; else renews the place's value, as [`OccTree::renew`] does. Compares
    /// the eight nodes until two differ, and reads their values only then. No voxel changes.
    #[inline(always)]
    pub fn settle(&mut self, p: Place) -> bool
        requires place { IsPlace self.old p }
        requires inner { IsSome (link_of (node_in self.old p)) }
        ensures when { IsTrue result ↔ CanCollapse self.old p }
        ensures collapsed { OnTrue result (IsCollapsed self.old self.new p) }
        ensures renewed { OnFalse result (IsRenewed self.old self.new p) }
        ensures values { SameValues (value_at self.old) (value_at self.new) }
        ensures outside { (b : Cube) → block_in self.old p ≡ Some b
            → IsSameOutside self.old self.new b }
        ensures linked { IsLinked self.new }
    {
        let Node::Inner(_, id) = slots::read(&self.arena, self.root, p) else {
            unreachable!();
        };
        self.settle_group(p, id)
    }

    /// The same, for whoever knows which group the place links.
    #[inline(always)]
    pub fn settle_group(&mut self, p: Place, id: GroupId) -> bool
        requires place { IsPlace self.old p }
        requires inner { link_of (node_in self.old p) ≡ Some id.number }
        ensures when { IsTrue result ↔ CanCollapse self.old p }
        ensures collapsed { OnTrue result (IsCollapsed self.old self.new p) }
        ensures renewed { OnFalse result (IsRenewed self.old self.new p) }
        ensures values { SameValues (value_at self.old) (value_at self.new) }
        ensures outside { (b : Cube) → block_in self.old p ≡ Some b
            → IsSameOutside self.old self.new b }
        ensures linked { IsLinked self.new }
    {
        match read_group(&self.arena, id) {
            Survey::Alike(node) => {
                self.known = NOTHING;
                slots::give_back(&mut self.arena, &mut self.root, p, id, node);
                true
            }
            Survey::Varied(value) => {
                self.known = NOTHING;
                slots::write(&mut self.arena, &mut self.root, p, Node::Inner(value, id));
                false
            }
        }
    }

    /// Puts the node at the place. Neither it nor the node that stands there is Inner, and a leaf's
    /// value lies within the bounds. The voxels of the place's block get the leaf's value, or none,
    /// and no other voxel changes.
    pub fn set_place(&mut self, p: Place, n: Node)
        requires place { IsPlace self.old p }
        requires before { link_of (node_in self.old p) ≡ None }
        requires node { link_of n ≡ None }
        requires within { IsWithin self.old.odds (value_of n) }
        ensures written { IsWritten self.old self.new p n }
        ensures values { (b : Cube) → block_in self.old p ≡ Some b
            → SetsBlock (value_at self.old) (value_at self.new) b (value_of n) }
        ensures outside { (b : Cube) → block_in self.old p ≡ Some b
            → IsSameOutside self.old self.new b }
        ensures linked { IsLinked self.new }
    {
        self.known = NOTHING;
        slots::write(&mut self.arena, &mut self.root, p, n);
    }

    /// What the links of each tree mean. A law, with nothing to compute.
    pub fn shape(&self)
        ensures shaped { IsShaped self.now }
        ensures linked { IsLinked self.now }
    {
        let _root = self.root;
    }
}
