//! The groups of all chunks, numbered through.
ghost use Rattle.std.specs.Prelude.{◌≡◌, ◌<◌, ◌≤◌, ◌^◌, ◌++◌, [], length, slice_set, Some, None};
ghost use Rattle.std.specs.Prelude.{ℕ, OnOk, OnErr, IfOk, IsOk};
ghost use Rattle.oct_arena.specs.Entries.{IsLive, entry, with_node, vacant};

use crate::chunk::{CHUNK, Chunk};
use crate::home::PackedBlock;
use crate::node::{Group, PackedNode};
use std::alloc::{AllocError, Global};
use std::marker::Model;

/// Chunks, seen as one list of their groups. No group moves where a chunk is added.
#[derive(Drop)]
pub(crate) struct Rows {
    chunks: Vec<Chunk>,
    alloc: Global,
}

impl Model for Rows {
    ghost use Rattle.std.specs.Prelude.{length, ◌≤◌, ◌^◌};
    ghost use Rattle.oct_arena.specs.Entries.{Groups};
    ghost use Rattle.oct_arena.specs.Chunks.{joined, AllFull};

    ghost Value = { Groups };

    ghost view = { λ r. joined r.chunks.items };

    ghost invariant = { λ r. AllFull r.chunks.items × (length r.chunks.items ≤ 2 ^ 21) };
}

impl Rows {
    pub(crate) fn new(alloc: Global) -> Rows
        ensures { result ≡ [] }
    {
        Rows {
            chunks: Vec::new(alloc),
            alloc,
        }
    }

    pub(crate) fn len(&self) -> usize
        ensures { result ≡ length self.now }
    {
        self.chunks.len() * CHUNK
    }

    pub(crate) fn get(&self, i: usize) -> &Group
        requires { IsLive self.now i }
        ensures { entry self.now i ≡ Some result.now }
    {
        let chunk = &self.chunks[i / CHUNK];
        chunk.get(i % CHUNK)
    }

    /// Writes a group where none has been written.
    pub(crate) fn write(&mut self, i: usize, home: PackedBlock, nodes: [PackedNode; 8])
        requires within { i < length self.old }
        requires empty { entry self.old i ≡ None }
        ensures { self.new
            ≡ slice_set self.old i (Some (record { home = home; nodes = nodes })) }
    {
        let chunk = &mut self.chunks[i / CHUNK];
        chunk.write(i % CHUNK, home, nodes);
    }

    /// Writes a group in the place of another one.
    pub(crate) fn fill(&mut self, i: usize, home: PackedBlock, nodes: [PackedNode; 8])
        requires { IsLive self.old i }
        ensures { self.new
            ≡ slice_set self.old i (Some (record { home = home; nodes = nodes })) }
    {
        let chunk = &mut self.chunks[i / CHUNK];
        chunk.fill(i % CHUNK, home, nodes);
    }

    pub(crate) fn set_node(&mut self, i: usize, j: u8, node: PackedNode)
        requires live { IsLive self.old i }
        requires child { j ≤ 7 }
        ensures { self.new ≡ slice_set self.old i (with_node (entry self.old i) j node) }
    {
        let chunk = &mut self.chunks[i / CHUNK];
        chunk.set_node(i % CHUNK, j, node);
    }

    /// Adds a chunk in which no group has been written, or none where memory runs out.
    pub(crate) fn append(&mut self) -> Result<(), AllocError>
        requires { length self.old < 2 ^ 31 }
        ensures ok { OnOk result (self.new ≡ self.old ++ vacant 1024) }
        ensures err { OnErr result (self.new ≡ self.old) }
    {
        let chunk = Chunk::new(self.alloc)?;
        self.chunks.push(chunk)?;
        Ok(())
    }

    /// A copy in chunks of its own. The memory of entries that were never taken isn't read.
    pub(crate) fn copy(&self, used: usize) -> Result<Rows, AllocError>
        requires within { used ≤ length self.now }
        requires full { (i : ℕ) → i < used → IsLive self.now i }
        requires empty { (i : ℕ) → used ≤ i → entry self.now i ≡ None }
        ensures exact { IfOk result (λ rows. rows ≡ self.now) }
        ensures none { self.now ≡ [] → IsOk result }
    {
        let mut rows = Rows::new(self.alloc);
        'room: for _chunk in 0..self.chunks.len() {
            rows.append()?;
        }
        'copy: for i in 0..used {
            let group = self.get(i);
            rows.write(i, group.home, group.nodes);
        }
        Ok(rows)
    }
}
