//! One map merged into another, moved by whole voxels.
ghost use Rattle.std.specs.Prelude.{◌≡◌, ℕ, ◌<◌, ◌≤◌, ◌⊎◌, ⊤, Option, Result, Err, Ok, IsOk, OnOk};
ghost use Rattle.std.specs.Prelude.{IfOk};
ghost use Rattle.oct_key.specs.Boxes.{Window};
ghost use Rattle.oct_values.specs.Counts.{group_count};
ghost use Rattle.oct_map.specs.declared.fault.MapFault.{MapFault};
ghost use Rattle.oct_map.specs.Loads.{fresh_room_answer};
ghost use Rattle.oct_map.specs.Merges.{IsKnownBox};
ghost use Rattle.oct_map.specs.Shifts.{HasNoMemory, IsMovedMap, IsShiftMerged, landing_answer};
ghost use Rattle.oct_map.specs.Shifts.{moved_values, shift_answer};

use super::OccMap;
use crate::fault::MapFault;
use crate::mark::Mark;
use oct_merge::Rule;
use oct_query::{Sought, bounds};
use oct_shift::{Shift, shifted, stays_within};

impl OccMap {
    ghost use Rattle.oct_map.specs.Map.{IsMap};

    /// Merges another map of the same resolution and log-odds into this one, moved by whole voxels:
    /// what [`OccMap::merge`] does with a map whose value at each voxel is the other's that far
    /// behind it. The other map stays.
    ///
    /// It is refused where a corner of the least box around what the other map knows leaves the
    /// map, the lower one first; then where a mark stands and the box has more than 1,000,000
    /// voxels; then as full where the moved map alone needs more groups than this one may have; and
    /// then as such a merge is. Memory may run out before that for the moved map. Until then
    /// nothing is changed.
    pub fn merge_shifted(
        &mut self,
        other: &OccMap,
        shift: Shift,
        rule: Rule,
    ) -> Result<(), MapFault>
        requires res { self.old.tree.res ≡ other.now.tree.res }
        requires odds { self.old.tree.odds ≡ other.now.tree.odds }
        ensures faulty { (extent : Option Window) → IsKnownBox other.now extent
            → (fault : MapFault) → shift_answer self.old extent shift other.now ≡ Err fault
            → (result ≡ Err fault) × (self.new ≡ self.old) }
        ensures merged { (extent : Option Window) → IsKnownBox other.now extent
            → IsOk (shift_answer self.old extent shift other.now)
            → HasNoMemory shift self.old other.now self.new result
            ⊎ IsShiftMerged rule shift self.old other.now self.new result }
        ensures map { IsMap self.new }
    {
        // Called for its clauses alone: that this is a map.
        self.tree();
        other.check_landing(shift)?;
        self.box_to_note(other)?;
        let mut moved = self.moved(other, shift)?;
        self.merge(&mut moved, rule)
    }

    /// Refuses a shift by which a corner of the least box around what the map knows leaves the map.
    fn check_landing(&self, shift: Shift) -> Result<(), MapFault>
        ensures answer { (extent : Option Window) → IsKnownBox self.now extent
            → result ≡ landing_answer shift extent }
        ensures map { IsMap self.now }
    {
        let Some(window) = bounds(&self.tree, Sought::Known) else {
            return Ok(());
        };
        if !stays_within(shift, window.lo()) {
            return Err(MapFault::Outside { point: 1 });
        }
        if !stays_within(shift, window.hi()) {
            return Err(MapFault::Outside { point: 2 });
        }
        Ok(())
    }

    /// The other map, moved, with this map's limits.
    fn moved(&self, other: &OccMap, shift: Shift) -> Result<OccMap, MapFault>
        ensures moved { IfOk result (IsMovedMap shift other.now) }
        ensures fits { IsOk result
            → group_count (moved_values shift other.now) ≤ self.now.max_groups }
        ensures fault { (fault : MapFault) → result ≡ Err fault
            → (fresh_room_answer self.now.max_groups
            (group_count (moved_values shift other.now)) ≡ Err fault)
            ⊎ ((fault ≡ MapFault.Memory)
            × (group_count (moved_values shift other.now) ≤ self.now.max_groups)
            × (0 < group_count (moved_values shift other.now))) }
        ensures map { IsMap self.now }
        ensures other_map { IsMap other.now }
    {
        let tree = shifted(self.alloc, &other.tree, shift, self.limits.max_groups)?;
        Ok(OccMap {
            tree,
            is_stale: false,
            window: None,
            limits: self.limits,
            mark: Mark::none(),
            alloc: self.alloc,
        })
    }
}
