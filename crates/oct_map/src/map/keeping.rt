//! A map that forgets all that lies outside of a box.
ghost use Rattle.std.specs.Prelude.{◌≡◌, ◌+◌, ◌^◌, ◌<◌, ◌≤◌, ◌⊎◌, ◌↔◌, IsTrue, IsSome, is_some};
ghost use Rattle.std.specs.Prelude.{false, Some, Ok, Err, OnOk, IfErr, IfSome};
ghost use Rattle.oct_key.specs.Boxes.{IsBox};
ghost use Rattle.oct_key.specs.Voxel.{Voxel, IsInMap, key_at};
ghost use Rattle.oct_edit.specs.Edits.{IsTidyAlong};
ghost use Rattle.oct_edit.specs.Keep as tree;
ghost use Rattle.oct_edit.specs.Keep.{keep_events};
ghost use Rattle.oct_map.specs.declared.fault.MapFault.{MapFault};
ghost use Rattle.oct_map.specs.Answers.{corner_fault};
ghost use Rattle.oct_map.specs.Edits.{IsMapEdited, IsMapRefused, LacksEntries, ReservesFew};
ghost use Rattle.oct_map.specs.Keeps.{IsKept, IsFittedToKeep};
ghost use Rattle.oct_map.specs.Marks.{KeepsMark};
ghost use Rattle.oct_map.specs.Merges.{IsInGiven, given_events, given_volume};
ghost use Rattle.oct_map.specs.Notes.{LacksNotes, NotesFew};

use super::OccMap;
use crate::fault::MapFault;
use oct_edit::{keep_box, keep_need};
use oct_key::{Key, Point, Window};

impl OccMap {
    ghost use Rattle.oct_map.specs.Map.{IsMap, HasRoomFor, values_of, ground_of};

    /// Forgets each voxel outside of the box whose corners are the voxels that hold the two points,
    /// and keeps those in it, both corners included. It isn't lazy.
    ///
    /// It takes a group only under each block that the box cuts and that is known with one value.
    /// It is refused for the corners as `edit_box` is; then where a mark stands and the least box
    /// around what the map knows has more than 1,000,000 voxels; and then as full where the groups
    /// that the values need and those that it takes of them are more than the limit. The map prunes
    /// itself only where its own groups and those are.
    pub fn keep_box(&mut self, lo: Point, hi: Point) -> Result<(), MapFault>
        ensures fault { IfSome (corner_fault (key_at self.old.tree.res lo)
            (key_at self.old.tree.res hi))
            (λ fault. (result ≡ Err fault) × (self.new ≡ self.old)) }
        ensures kept { (low high : Voxel) → key_at self.old.tree.res lo ≡ Some low
            → key_at self.old.tree.res hi ≡ Some high → IsBox low high
            → IsKept self.old self.new low high result }
        ensures map { IsMap self.new }
    {
        let Some(low) = self.tree.res().key_of(lo) else {
            return Err(MapFault::Outside { point: 1 });
        };
        let Some(high) = self.tree.res().key_of(hi) else {
            return Err(MapFault::Outside { point: 2 });
        };
        if Window::new(low, high).is_none() {
            return Err(MapFault::BadBox);
        }
        self.keep_between(low, high)
    }

    /// The same, for two voxels that are the corners of a box.
    fn keep_between(&mut self, low: Key, high: Key) -> Result<(), MapFault>
        requires order { IsBox low high }
        ensures kept { IsKept self.old self.new low high result }
    {
        let noted = self.box_to_note(self)?;
        let need = self.fit_to_keep(low, high)?;
        self.keep_fitted(low, high, need, noted)
    }

    /// The groups that it takes, once the map is pruned where there isn't room for them as it
    /// stands. Refuses where there still isn't.
    fn fit_to_keep(&mut self, low: Key, high: Key) -> Result<u128, MapFault>
        requires order { IsBox low high }
        ensures fitted { IsFittedToKeep self.old self.new low high result }
    {
        let need = keep_need(&self.tree, low, high);
        if self.has_room_for(need) {
            return Ok(need);
        }
        self.prune();
        let need = keep_need(&self.tree, low, high);
        if self.has_room_for(need) {
            return Ok(need);
        }
        Err(MapFault::Full {
            groups: u64::from(self.tree.arena().live()),
            need,
        })
    }

    /// Whether the map may have this many groups more as it stands.
    fn has_room_for(&self, need: u128) -> bool
        requires { need < 2 ^ 127 }
        ensures room { IsTrue result ↔ HasRoomFor self.now need }
        ensures map { IsMap self.now }
    {
        u128::from(self.tree.arena().live()) + need <= u128::from(self.limits.max_groups)
    }

    /// Keeps the box, where there is room for the groups that it takes, and the box is given whose
    /// voxels are noted.
    fn keep_fitted(
        &mut self,
        low: Key,
        high: Key,
        need: u128,
        noted: Option<Window>,
    ) -> Result<(), MapFault>
        requires order { IsBox low high }
        requires need { need ≡ tree.keep_need self.old.tree low high }
        requires map { IsMap self.old }
        requires room { HasRoomFor self.old need }
        requires noted { IsTrue (is_some self.old.mark) → (k : Voxel) → IsInMap k
            → IsSome (values_of self.old k) → IsInGiven noted k }
        ensures answer { (result ≡ Ok tt) ⊎ (result ≡ Err MapFault.Memory) }
        ensures memory { result ≡ Err MapFault.Memory → LacksEntries self.old need
            ⊎ LacksNotes self.old.mark (given_volume noted) }
        ensures edited { OnOk result (IsMapEdited self.old self.new (keep_events low high)
            need false) }
        ensures path { OnOk result ((k : Voxel) → IsInMap k → IsSome (keep_events low high k)
            → IsTidyAlong self.new.tree k) }
        ensures refused { IfErr result (λ fault. IsMapRefused self.old self.new fault need) }
        ensures reserved { ReservesFew self.old self.new need }
        ensures mark { KeepsMark self.old self.new }
        ensures noted { NotesFew self.old.mark self.new.mark (given_events noted)
            (given_volume noted) }
        ensures setup { ground_of self.new ≡ ground_of self.old }
        ensures map { IsMap self.new }
    {
        self.make_room(need)?;
        self.mark.note_window(&self.tree, noted)?;
        keep_box(&mut self.tree, low, high);
        Ok(())
    }
}
