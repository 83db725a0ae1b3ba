//! The mark of a map, and what has changed since it was set.
ghost use Rattle.std.specs.Prelude.{◌≡◌, [], Some, None, Err, is_some, IsOk};
ghost use Rattle.oct_map.specs.declared.fault.MapFault.{MapFault};
ghost use Rattle.oct_map.specs.Answers.{IsAnswerOrMemory};
ghost use Rattle.oct_map.specs.Marks.{classes_in, marked_of, changes_answer, SameMark};
ghost use Rattle.oct_map.specs.Notes.{notes_of};

use super::OccMap;
use crate::fault::MapFault;
use oct_change::ChangeList;

impl OccMap {
    ghost use Rattle.oct_map.specs.Map.{IsMap, ground_of};

    /// Sets the mark at this moment, in place of an earlier one. Takes no memory.
    pub fn track(&mut self)
        ensures exact { self.new
            ≡ record self.old { mark = Some (record { notes = []; spare = 0 }) } }
        ensures marked { SameMark (Some (classes_in self.old)) (marked_of self.new) }
        ensures setup { ground_of self.new ≡ ground_of self.old }
        ensures map { IsMap self.new }
    {
        self.mark.set(self.alloc);
    }

    /// Takes the mark away, where one stands, and gives the memory of its notes back.
    pub fn untrack(&mut self)
        ensures exact { self.new ≡ record self.old { mark = None } }
        ensures marked { marked_of self.new ≡ None }
        ensures setup { ground_of self.new ≡ ground_of self.old }
        ensures map { IsMap self.new }
    {
        self.mark.unset();
    }

    /// Whether a mark stands.
    pub fn has_mark(&self) -> bool
        ensures exact { result ≡ is_some self.now.mark }
        ensures marked { result ≡ is_some (marked_of self.now) }
        ensures map { IsMap self.now }
    {
        self.mark.is_set()
    }

    /// The voxels whose class isn't the one that they had at the mark, each with the kind of its
    /// change, by ascending x, then y, then z. The mark stays, and a stale map answers as well.
    ///
    /// Its cost depends on the number of notes, not on the map.
    pub fn changes(&self) -> Result<ChangeList, MapFault>
        ensures answer { IsAnswerOrMemory
            (changes_answer (marked_of self.now) (classes_in self.now)) result }
        ensures memory { result ≡ Err MapFault.Memory
            → IsOk (changes_answer (marked_of self.now) (classes_in self.now))
            × (notes_of self.now.mark ≡ [] → ⊥) }
        ensures map { IsMap self.now }
    {
        let changes = self.mark.report(&self.tree)?;
        changes.ok_or(MapFault::NotTracked)
    }
}
