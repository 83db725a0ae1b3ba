//! Groups under ids: taken from the entries that were given back, or from those never taken.
ghost use Rattle.std.specs.Prelude.{◌≡◌, ℕ, ◌+◌, ◌-◌, ◌*◌, ◌<◌, ◌≤◌, ◌^◌, [], ◌++◌, length};
ghost use Rattle.std.specs.Prelude.{slice_set, Some, None, OnOk, OnErr, IfOk, IsOk, max};
ghost use Rattle.std.specs.Prelude.{option_map};
ghost use Rattle.oct_arena.specs.declared.node.Node.TheVariants.{Inner};
ghost use Rattle.oct_key.specs.Block.{Cube};
ghost use Rattle.oct_key.specs.CubeOf.{cube_of};
ghost use Rattle.oct_arena.specs.Entries.{IsArena, IsLive, entry, node_at, home_at, with_node};
ghost use Rattle.oct_arena.specs.Entries.{copies_under, spare, live, vacant};
ghost use Rattle.oct_arena.specs.Nodes.{link_of};

use crate::chunk::CHUNK;
use crate::home::PackedBlock;
use crate::node::{Group, GroupId, Node, PackedNode};
use crate::rows::Rows;
use oct_key::Block;
use oct_num::Memory;
use std::alloc::Global;
use std::marker::Model;

/// Groups of eight nodes, each under an id of its own.
#[derive(Drop)]
pub struct NodeArena {
    rows: Rows,
    // The first of the entries that were given back, where there is one, and how many there are.
    // The memory of each links the next.
    head: GroupId,
    given: u32,
    // How many entries were ever taken: those before this one. The memory of the others has not
    // been written.
    used: u32,
}

impl Model for NodeArena {
    ghost use Rattle.oct_arena.specs.Entries.{Groups};
    ghost use Rattle.oct_arena.specs.Free.{without, chain, IsThreaded};

    ghost Value = { Groups };

    ghost view = { λ a. without a.rows (chain a.given a.head.number a.rows) };

    ghost invariant = { λ a. IsThreaded a.rows a.head.number a.given a.used };
}

impl NodeArena {
    /// The arena without a group, which takes no memory.
    pub fn new(alloc: Global) -> NodeArena
        ensures empty { result ≡ [] }
        ensures arena { IsArena result }
    {
        NodeArena {
            rows: Rows::new(alloc),
            head: GroupId::new(0),
            given: 0,
            used: 0,
        }
    }

    /// An arena of its own with the same groups under the same ids, and the same room. Ids are
    /// taken in it in the same order.
    ///
    /// `Memory` comes only where this arena has taken memory.
    pub fn copy(&self) -> Result<NodeArena, Memory>
        ensures exact { IfOk result (λ copy. copy ≡ self.now) }
        ensures none { self.now ≡ [] → IsOk result }
        ensures arena { IsArena self.now }
    {
        Ok(NodeArena {
            rows: self.rows.copy(self.used as usize)?,
            head: self.head,
            given: self.given,
            used: self.used,
        })
    }

    /// Makes room for n more groups, and for at most 1,023 more than these where there wasn't room
    /// for n. The groups and their ids stay.
    ///
    /// `Memory` comes only where there wasn't room for n. Whole chunks were appended then, or none.
    #[inline(always)]
    pub fn reserve(&mut self, n: u32) -> Result<(), Memory>
        requires { live self.old + n ≤ 2 ^ 31 }
        ensures room { OnOk result (n ≤ spare self.new) }
        ensures enough { n ≤ spare self.old → IsOk result × (self.new ≡ self.old) }
        ensures kept { self.new ≡ self.old ++ vacant (length self.new - length self.old) }
        ensures chunks { (c : ℕ) × (length self.new ≡ length self.old + 1024 * c) }
        ensures few { spare self.new ≤ max (spare self.old) (n + 1023) }
        ensures live { live self.new ≡ live self.old }
        ensures arena { IsArena self.new }
    {
        'grow: while self.spare() < n {
            self.grow()?;
        }
        Ok(())
    }

    /// Appends a chunk of vacant entries, or none where memory runs out.
    #[inline(never)]
    fn grow(&mut self) -> Result<(), Memory>
        requires { length self.old < 2 ^ 31 }
        ensures ok { OnOk result (self.new ≡ self.old ++ vacant 1024) }
        ensures err { OnErr result (self.new ≡ self.old) }
        ensures arena { IsArena self.new }
    {
        self.rows.append()?;
        Ok(())
    }

    /// Puts a group into a vacant entry. No other entry changes.
    pub fn take(&mut self, home: Block, nodes: [Node; 8]) -> GroupId
        requires { 1 ≤ spare self.old }
        ensures within { result.number < length self.old }
        ensures vacant { entry self.old result.number ≡ None }
        ensures filled { self.new ≡ slice_set self.old result.number
            (Some (record { home = cube_of home; nodes = nodes })) }
        ensures spare { spare self.new + 1 ≡ spare self.old }
        ensures arena { IsArena self.new }
    {
        self.put(PackedBlock::new(home), PackedNode::all(&nodes))
    }

    /// Puts a group into the entry that was given back last, where there is one, and else into the
    /// first one that was never taken. No other entry changes.
    #[inline(always)]
    fn put(&mut self, home: PackedBlock, nodes: [PackedNode; 8]) -> GroupId
        requires { 1 ≤ spare self.old }
        ensures within { result.number < length self.old }
        ensures vacant { entry self.old result.number ≡ None }
        ensures filled { self.new ≡ slice_set self.old result.number
            (Some (record { home = home; nodes = nodes })) }
        ensures spare { spare self.new + 1 ≡ spare self.old }
        ensures arena { IsArena self.new }
    {
        if self.given == 0 {
            let id = GroupId::new(self.used);
            self.rows.write(self.used as usize, home, nodes);
            self.used += 1;
            return id;
        }
        let id = self.head;
        let at = id.number() as usize;
        self.head = self.rows.get(at).next();
        self.rows.fill(at, home, nodes);
        self.given -= 1;
        id
    }

    /// Puts a group of eight copies of node i of the group into a vacant entry, and makes the node
    /// Inner, with this value, so that it links them. No other entry changes.
    #[inline(always)]
    pub fn split_to(&mut self, id: GroupId, i: u8, value: i32) -> GroupId
        requires live { IsLive self.old id.number }
        requires index { i ≤ 7 }
        requires deep { (b : Cube) → home_at self.old id.number ≡ Some b → b.depth ≤ 15 }
        requires spare { 1 ≤ spare self.old }
        ensures within { result.number < length self.old }
        ensures vacant { entry self.old result.number ≡ None }
        ensures filled { let mid = slice_set self.old result.number
            (copies_under (entry self.old id.number) i) in
            self.new ≡ slice_set mid id.number
            (with_node (entry mid id.number) i (Inner value result)) }
        ensures spare { spare self.new + 1 ≡ spare self.old }
        ensures arena { IsArena self.new }
    {
        let (home, node) = self.group(id).child(i);
        let under = self.put(home, [node; 8]);
        self.set_node(id, i, Node::Inner(value, under));
        under
    }

    /// Takes the group away, so that its entry is vacant. No other entry changes.
    pub fn give(&mut self, id: GroupId)
        requires { IsLive self.old id.number }
        ensures vacated { self.new ≡ slice_set self.old id.number None }
        ensures spare { spare self.new ≡ spare self.old + 1 }
        ensures arena { IsArena self.new }
    {
        self.rows.set_node(
            id.number() as usize,
            0,
            PackedNode::new(Node::Inner(0, self.head)),
        );
        self.head = id;
        self.given += 1;
    }

    /// Node i of the group.
    pub fn node(&self, id: GroupId, i: u8) -> Node
        requires live { IsLive self.now id.number }
        requires index { i ≤ 7 }
        ensures exact { result ≡ node_at self.now id.number i }
        ensures arena { IsArena self.now }
    {
        self.rows.get(id.number() as usize).node(i)
    }

    /// The group that node i of the group links, if the node is Inner.
    #[inline(always)]
    pub fn link(&self, id: GroupId, i: u8) -> Option<GroupId>
        requires live { IsLive self.now id.number }
        requires index { i ≤ 7 }
        ensures exact { option_map (λ g. g.number) result ≡ link_of (node_at self.now id.number i) }
        ensures arena { IsArena self.now }
    {
        self.rows.get(id.number() as usize).link(i)
    }

    /// The group: its home and its nodes.
    pub fn group(&self, id: GroupId) -> &Group
        requires { IsLive self.now id.number }
        ensures exact { entry self.now id.number ≡ Some result.now }
        ensures arena { IsArena self.now }
    {
        self.rows.get(id.number() as usize)
    }

    /// Puts n in the place of node i of the group. The group's home and its other nodes stay, and
    /// so do all other entries.
    pub fn set_node(&mut self, id: GroupId, i: u8, n: Node)
        requires live { IsLive self.old id.number }
        requires index { i ≤ 7 }
        ensures changed { self.new
            ≡ slice_set self.old id.number (with_node (entry self.old id.number) i n) }
        ensures spare { spare self.new ≡ spare self.old }
        ensures arena { IsArena self.new }
    {
        self.rows
            .set_node(id.number() as usize, i, PackedNode::new(n));
    }

    /// The block whose children the group's nodes are of.
    pub fn home(&self, id: GroupId) -> Block
        requires { IsLive self.now id.number }
        ensures exact { home_at self.now id.number ≡ Some (cube_of result) }
        ensures arena { IsArena self.now }
    {
        self.rows.get(id.number() as usize).home.block()
    }

    /// How many groups there are.
    pub fn live(&self) -> u32
        ensures exact { result ≡ live self.now }
        ensures arena { IsArena self.now }
    {
        self.used - self.given
    }

    /// How many groups can still be taken.
    pub fn spare(&self) -> u32
        ensures exact { result ≡ spare self.now }
        ensures arena { IsArena self.now }
    {
        self.rows.len() as u32 - self.used + self.given
    }
}
