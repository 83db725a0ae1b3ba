//! What a map holds as a whole: its leaves, how many they are, how far it reaches, its limits and
//! its memory.
ghost use Rattle.std.specs.Prelude.{◌≡◌, ◌-◌, ◌^◌, min, [], Ok, Err, IsOk, IfOk, length};
ghost use Rattle.oct_values.specs.Counts.{group_count, node_count};
ghost use Rattle.oct_query.specs.Extent.{IsExtent, IsFound};
ghost use Rattle.oct_query.specs.Leaves.{IsLeafList, leaves_of, those_sought};
ghost use Rattle.oct_map.specs.declared.fault.MapFault.{MapFault};
ghost use Rattle.oct_map.specs.Answers.{IsAnswerOrMemory};
ghost use Rattle.oct_map.specs.Leaves.{leaves_in_answer, sought_in_answer};
ghost use Rattle.oct_map.specs.Marks.{classes_in};
ghost use Rattle.oct_map.specs.Memory.{memory_of};

use super::OccMap;
use crate::fault::MapFault;
use crate::limits::Limits;
use oct_arena::Group;
use oct_change::Note;
use oct_key::{Point, Window};
use oct_query::{
    BlockList, LeastTree, Sought, bounds, least_tree, leaves, leaves_of, leaves_of_in,
};
use std::mem::size_of;

/// The bytes of a group.
const GROUP_BYTES: u128 = 72;

const _: () = prove!(size_of::<Group>() as u128 == GROUP_BYTES);

/// The bytes of a note of the mark.
const NOTE_BYTES: u128 = 8;

const _: () = prove!(size_of::<Note>() as u128 == NOTE_BYTES);

impl OccMap {
    ghost use Rattle.oct_map.specs.Map.{IsMap, values_of, ground_of};

    /// The leaves of the map: the greatest blocks whose voxels are known and have one value, each
    /// with that value, in the order of the Morton codes of their first voxels. A stale map answers
    /// as well, and a map that isn't pruned gives the same leaves.
    pub fn leaves(&self) -> Result<BlockList, MapFault>
        ensures answer { IsAnswerOrMemory (Ok (leaves_of (values_of self.now))) result }
        ensures leaves { IfOk result (λ list. IsLeafList (values_of self.now) list) }
        ensures memory { result ≡ Err MapFault.Memory
            → leaves_of (values_of self.now) ≡ [] → ⊥ }
        ensures map { IsMap self.now }
    {
        Ok(leaves(self.alloc, &self.tree)?)
    }

    /// The leaves of the map whose blocks meet the box whose corners hold the two points, both
    /// included, in the same order. Each is a leaf of the whole map, and may reach beyond the box.
    ///
    /// It is refused for a corner outside the map, and then where on some axis the first corner
    /// lies beyond the second.
    pub fn leaves_in(&self, lo: Point, hi: Point) -> Result<BlockList, MapFault>
        ensures answer { IsAnswerOrMemory
            (leaves_in_answer (ground_of self.now) (values_of self.now) lo hi) result }
        ensures memory { result ≡ Err MapFault.Memory
            → IsOk (leaves_in_answer (ground_of self.now) (values_of self.now) lo hi)
            × (leaves_in_answer (ground_of self.now) (values_of self.now) lo hi ≡ Ok [] → ⊥) }
        ensures map { IsMap self.now }
    {
        self.leaves_of_in(lo, hi, Sought::Known)
    }

    /// Those of the leaves of the map whose voxels are sought, by their class, in the same order. A
    /// stale map answers as well, but each of its leaves is looked at.
    pub fn leaves_of(&self, sought: Sought) -> Result<BlockList, MapFault>
        ensures answer { IsAnswerOrMemory
            (Ok (those_sought self.now.tree.odds sought (leaves_of (values_of self.now)))) result }
        ensures memory { result ≡ Err MapFault.Memory
            → those_sought self.now.tree.odds sought (leaves_of (values_of self.now)) ≡ [] → ⊥ }
        ensures map { IsMap self.now }
    {
        Ok(leaves_of(self.alloc, &self.tree, sought)?)
    }

    /// Those of these leaves whose blocks meet the box whose corners hold the two points, both
    /// included. It is refused as [`leaves_in`](OccMap::leaves_in).
    pub fn leaves_of_in(&self, lo: Point, hi: Point, sought: Sought) -> Result<BlockList, MapFault>
        ensures answer { IsAnswerOrMemory
            (sought_in_answer (ground_of self.now) (values_of self.now) sought lo hi) result }
        ensures memory { result ≡ Err MapFault.Memory
            → IsOk (sought_in_answer (ground_of self.now) (values_of self.now) sought lo hi)
            × (sought_in_answer (ground_of self.now) (values_of self.now) sought lo hi ≡ Ok []
            → ⊥) }
        ensures map { IsMap self.now }
    {
        let Some(low) = self.tree.res().key_of(lo) else {
            return Err(MapFault::Outside { point: 1 });
        };
        let Some(high) = self.tree.res().key_of(hi) else {
            return Err(MapFault::Outside { point: 2 });
        };
        let Some(window) = Window::new(low, high) else {
            return Err(MapFault::BadBox);
        };
        Ok(leaves_of_in(self.alloc, &self.tree, &window, sought)?)
    }

    /// The least box of voxels that holds every voxel of the map that is sought, or `None` where
    /// there is none. A stale map answers as well.
    pub fn bounds(&self, sought: Sought) -> Option<Window>
        ensures exact { IsExtent (IsFound (classes_in self.now) sought) result }
        ensures map { IsMap self.now }
    {
        bounds(&self.tree, sought)
    }

    /// How many groups, nodes and leaves the least tree of the map's values has: those that
    /// [`counts`](OccMap::counts) finds, but the map isn't pruned. A stale map answers as well.
    /// Takes no memory.
    pub fn least_tree(&self) -> LeastTree
        ensures groups { result.groups ≡ group_count (values_of self.now) }
        ensures nodes { result.nodes ≡ node_count (values_of self.now) }
        ensures leaves { result.leaves ≡ length (leaves_of (values_of self.now)) }
        ensures map { IsMap self.now }
    {
        least_tree(&self.tree)
    }

    /// How large the map may grow, and how much a scan may meet.
    pub fn limits(&self) -> Limits
        ensures groups { result.max_groups ≡ self.now.max_groups }
        ensures cells { result.max_cells ≡ self.now.max_cells }
        ensures map { IsMap self.now }
    {
        self.limits
    }

    /// The bytes that the map holds now for its groups and for the notes of its mark, and for those
    /// that it can make without asking for memory again. Not counted are the map itself and the
    /// table of its chunks, a few bytes for each 1,024 groups.
    pub fn memory(&self) -> u64
        ensures exact { result ≡ min (memory_of self.now) (2 ^ 64 - 1) }
        ensures map { IsMap self.now }
    {
        let arena = self.tree.arena();
        let groups = u128::from(arena.live()) + u128::from(arena.spare());
        let bytes = groups * GROUP_BYTES + self.mark.room() * NOTE_BYTES;
        bytes.min(u128::from(u64::MAX)) as u64
    }
}
