//! One map merged into another.
ghost use Rattle.std.specs.Prelude.{◌≡◌, ℕ, ◌⊎◌, Option, false, Err, OnOk, IfOk, IfErr, IsOk};
ghost use Rattle.std.specs.Prelude.{IsSome, IsTrue, is_some};
ghost use Rattle.oct_key.specs.Boxes.{Window};
ghost use Rattle.oct_key.specs.Values.{SameValues};
ghost use Rattle.oct_key.specs.Voxel.{Voxel, IsInMap};
ghost use Rattle.oct_tree.specs.Shape.{IsPruned};
ghost use Rattle.oct_merge.specs.Merged.{merge_events};
ghost use Rattle.oct_map.specs.declared.fault.MapFault.{MapFault};
ghost use Rattle.oct_map.specs.Answers.{IsAnswerOrMemory};
ghost use Rattle.oct_map.specs.Edits.{IsMapEdited, IsMapRefused, LacksEntries, ReservesFew};
ghost use Rattle.oct_map.specs.Marks.{KeepsMark};
ghost use Rattle.oct_map.specs.Notes.{LacksNotes, NotesFew};
ghost use Rattle.oct_map.specs.Merges.{HasMerged, IsKeptByMerge, IsLeftByMerge, IsMergeAnswered};
ghost use Rattle.oct_map.specs.Merges.{IsMergeRefused, IsInGiven, IsKnownBox, IsWide};
ghost use Rattle.oct_map.specs.Merges.{given_events, given_volume, merged_values, more_groups};
ghost use Rattle.oct_map.specs.Merges.{note_answer, union_answer};

use super::{MOST_NOTED, OccMap};
use crate::fault::MapFault;
use oct_key::Window;
use oct_merge::{Rule, merge, merge_need};
use oct_query::{Sought, bounds};

impl OccMap {
    ghost use Rattle.oct_map.specs.Map.{IsMap, values_of, ground_of};

    /// Merges another map of the same resolution and log-odds into this one: each voxel that one of
    /// them knows gets its value, and one that both know the value that the rule takes. Only values
    /// are merged: limits, update box and the stale flag stay, and whether the other map is stale
    /// doesn't matter.
    ///
    /// It prunes both, and changes nothing else of the other. It is refused where a mark stands and
    /// the least box around what the other map knows has more than 1,000,000 voxels, and then as
    /// full exactly where the blocks that have several values in one of the two maps are more than
    /// the groups that this one may have.
    pub fn merge(&mut self, other: &mut OccMap, rule: Rule) -> Result<(), MapFault>
        requires res { self.old.tree.res ≡ other.old.tree.res }
        requires odds { self.old.tree.odds ≡ other.old.tree.odds }
        ensures answered { IsMergeAnswered self.old other.old result }
        ensures done { OnOk result (HasMerged rule self.old other.old self.new) }
        ensures refused { IfErr result (IsMergeRefused self.old self.new) }
        ensures wide { (count : ℕ) → result ≡ Err (MapFault.WideWhileTracked count)
            → (self.new ≡ self.old) × (other.new ≡ other.old) }
        ensures kept { IsKeptByMerge self.old other.old self.new }
        ensures other { IsLeftByMerge other.old other.new result }
    {
        let noted = self.box_to_note(other)?;
        self.prune();
        other.prune();
        self.merge_pruned(other, noted, rule)
    }

    /// The least box around what the other map, or this one, knows, where a mark stands.
    pub(super) fn box_to_note(&self, other: &OccMap) -> Result<Option<Window>, MapFault>
        ensures answer { (extent : Option Window) → IsKnownBox other.now extent
            → result ≡ note_answer (is_some self.now.mark) extent }
        ensures covers { IfOk result (λ noted. IsTrue (is_some self.now.mark) → (k : Voxel)
            → IsInMap k → IsSome (values_of other.now k) → IsInGiven noted k) }
        ensures wide { IfErr result IsWide }
        ensures map { IsMap self.now }
        ensures other_map { IsMap other.now }
    {
        let theirs = &other.tree;
        if !self.mark.is_set() {
            return Ok(None);
        }
        let window = bounds(theirs, Sought::Known);
        if let Some(window) = window {
            let count = window.volume();
            if count > MOST_NOTED {
                return Err(MapFault::WideWhileTracked { count });
            }
        }
        Ok(window)
    }

    /// The same, where both are pruned, and the box is given whose voxels are noted.
    fn merge_pruned(
        &mut self,
        other: &OccMap,
        noted: Option<Window>,
        rule: Rule,
    ) -> Result<(), MapFault>
        requires pruned { IsPruned self.old.tree }
        requires other { IsPruned other.now.tree }
        requires res { self.old.tree.res ≡ other.now.tree.res }
        requires odds { self.old.tree.odds ≡ other.now.tree.odds }
        requires noted { IsTrue (is_some self.old.mark) → (k : Voxel) → IsInMap k
            → IsSome (values_of other.now k) → IsInGiven noted k }
        ensures answer { IsAnswerOrMemory (union_answer self.old.max_groups (values_of self.old)
            (values_of other.now)) result }
        ensures memory { result ≡ Err MapFault.Memory
            → IsOk (union_answer self.old.max_groups (values_of self.old) (values_of other.now))
            × (LacksEntries self.old (more_groups (values_of self.old) (values_of other.now))
            ⊎ LacksNotes self.old.mark (given_volume noted)) }
        ensures edited { OnOk result (IsMapEdited self.old self.new
            (merge_events rule (values_of self.old) (values_of other.now))
            (more_groups (values_of self.old) (values_of other.now)) false) }
        ensures merged { OnOk result (SameValues
            (merged_values rule (values_of self.old) (values_of other.now))
            (values_of self.new)) }
        ensures refused { IfErr result (λ fault. IsMapRefused self.old self.new fault
            (more_groups (values_of self.old) (values_of other.now))) }
        ensures reserved { ReservesFew self.old self.new
            (more_groups (values_of self.old) (values_of other.now)) }
        ensures pruned { IsPruned self.new.tree }
        ensures stale { self.new.is_stale ≡ self.old.is_stale }
        ensures mark { KeepsMark self.old self.new }
        ensures noted { NotesFew self.old.mark self.new.mark (given_events noted)
            (given_volume noted) }
        ensures setup { ground_of self.new ≡ ground_of self.old }
        ensures map { IsMap self.new }
    {
        let need = merge_need(&self.tree, &other.tree);
        self.make_room(u128::from(need))?;
        self.mark.note_window(&self.tree, noted)?;
        merge(&mut self.tree, &other.tree, rule);
        Ok(())
    }
}
