//! Memory for 1,024 groups that never moves.
ghost use Rattle.std.specs.Prelude.{◌≡◌, ◌<◌, ◌≤◌, length, slice_set, Some, None, IfOk};
ghost use Rattle.oct_arena.specs.Entries.{IsLive, entry, with_node, vacant};

use crate::home::PackedBlock;
use crate::node::{Group, PackedNode};
use oct_cells::{Address, Cells, Grant, allocate, deallocate};
use std::alloc::{AllocError, Global};
use std::marker::Model;

/// How many groups a chunk has.
pub(crate) const CHUNK: usize = 1024;

/// The memory of 1,024 groups, which never moves.
pub(crate) struct Chunk {
    address: Address<Group>,
    cells: Cells<Group>,
    grant: Grant<Group, Global>,
    alloc: Global,
}

impl Model for Chunk {
    ghost use Rattle.oct_arena.specs.Entries.{Groups};
    ghost use Rattle.oct_arena.specs.Chunks.{IsChunk};

    ghost Value = { Groups };

    ghost view = { λ c. c.cells.values };

    ghost invariant = { IsChunk };
}

impl Chunk {
    /// A chunk in which no group has been written. Its memory isn't touched.
    pub(crate) fn new(alloc: Global) -> Result<Chunk, AllocError>
        ensures { IfOk result (λ chunk. chunk ≡ vacant 1024) }
    {
        let (address, cells, grant) = allocate(&alloc, CHUNK)?;
        Ok(Chunk {
            address,
            cells,
            grant,
            alloc,
        })
    }

    pub(crate) fn get(&self, i: usize) -> &Group
        requires { IsLive self.now i }
        ensures { entry self.now i ≡ Some result.now }
    {
        self.cells.get(self.address, i)
    }

    /// Writes a group where none has been written.
    pub(crate) fn write(&mut self, i: usize, home: PackedBlock, nodes: [PackedNode; 8])
        requires within { i < length self.old }
        requires empty { entry self.old i ≡ None }
        ensures { self.new
            ≡ slice_set self.old i (Some (record { home = home; nodes = nodes })) }
    {
        self.cells.write(self.address, i, Group { home, nodes });
    }

    /// Writes a group in the place of another one.
    pub(crate) fn fill(&mut self, i: usize, home: PackedBlock, nodes: [PackedNode; 8])
        requires { IsLive self.old i }
        ensures { self.new
            ≡ slice_set self.old i (Some (record { home = home; nodes = nodes })) }
    {
        let group = self.cells.get_mut(self.address, i);
        group.home = home;
        group.nodes = nodes;
    }

    pub(crate) fn set_node(&mut self, i: usize, j: u8, node: PackedNode)
        requires live { IsLive self.old i }
        requires child { j ≤ 7 }
        ensures { self.new ≡ slice_set self.old i (with_node (entry self.old i) j node) }
    {
        let group = self.cells.get_mut(self.address, i);
        group.nodes[j as usize] = node;
    }
}

impl Drop for Chunk {
    fn drop(self) {
        let Chunk {
            address,
            cells,
            grant,
            alloc,
        } = self;
        deallocate(&alloc, address, CHUNK, cells, grant);
    }
}
