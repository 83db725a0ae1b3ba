//! What voxels counted as before they changed, and which of them count as something else now.
ghost use Rattle.std.specs.Prelude.{◌≡◌, ◌+◌, ◌-◌, ◌<◌, ◌≤◌, ◌++◌, ◌∷◌, [], length, max, IsOk};
ghost use Rattle.std.specs.Prelude.{OnOk, OnErr, IfOk, map, vec_len, vec_capacity};
ghost use Rattle.std.specs.BTreeMap.{IsOrdered, get};
ghost use Rattle.std.specs.List.{filter_map};
ghost use Rattle.oct_key.specs.Voxel.{Voxel, IsInMap};
ghost use Rattle.oct_key.specs.Order.{key_cmp};
ghost use Rattle.oct_values.specs.Classes.{classes_of};
ghost use Rattle.oct_tree.specs.Tree.{value_at};
ghost use Rattle.oct_change.specs.declared.changes.Note.{Note};
ghost use Rattle.oct_change.specs.Notes.{AreInMap, first_noted, marked_by, note_of};
ghost use Rattle.oct_change.specs.Changes.{AreChanges, change_of, changes_between};

use crate::kind::{Change, ChangeList, kind_of_change};
use oct_key::Key;
use oct_num::Memory;
use oct_odds::Class;
use oct_tree::OccTree;
use std::alloc::Global;
use std::collections::BTreeMap;
use std::marker::Model;

/// A voxel, and the class that it had.
#[derive(Clone, Copy, Debug, PartialEq, Eq)]
pub struct Note {
    /// The voxel.
    pub key: Key,
    /// The class that it had.
    pub before: Class,
}

impl Note {
    /// The note of a voxel and its class.
    fn new(key: Key, before: Class) -> Note
        ensures exact { result ≡ record { key = key; before = before } }
        ensures in_map { IsInMap result.key }
    {
        Note { key, before }
    }
}

/// Notes of the classes that voxels had before they changed, of which the first of a voxel counts.
#[derive(Drop)]
pub struct Changes {
    notes: Vec<Note>,
    alloc: Global,
}

impl Model for Changes {
    ghost use Rattle.std.specs.Prelude.{◌-◌, length, vec_capacity};
    ghost use Rattle.oct_change.specs.Held.{Held};
    ghost use Rattle.oct_change.specs.Notes.{AreInMap};

    ghost Value = { Held };

    ghost view = { λ c. record {
      notes = c.notes.items;
      spare = vec_capacity c.notes - length c.notes.items;
    } };

    ghost invariant = { λ c. AreInMap c.notes.items };
}

impl Changes {
    ghost use Rattle.oct_change.specs.Held.{room_of, wanted_room, IsCompacted};

    /// No notes. Takes no memory.
    pub fn new(alloc: Global) -> Changes
        ensures notes { result.notes ≡ [] }
        ensures spare { result.spare ≡ 0 }
    {
        Changes {
            notes: Vec::new(alloc),
            alloc,
        }
    }

    /// The same notes again, with the same room. `Memory` comes only where these have room.
    pub fn copy(&self) -> Result<Changes, Memory>
        ensures exact { IfOk result (λ copy. copy ≡ self.now) }
        ensures none { room_of self.now ≡ 0 → IsOk result }
    {
        let mut notes = Vec::new(self.alloc);
        notes.reserve_exact(self.notes.capacity())?;
        'copy: for note in self.notes.as_slice() {
            notes.push_reserved(*note);
        }
        Ok(Changes {
            notes,
            alloc: self.alloc,
        })
    }

    /// How many notes there are.
    pub fn len(&self) -> u64
        ensures { result ≡ length self.now.notes }
    {
        self.notes.len() as u64
    }

    /// How many notes can still be added without asking for memory.
    pub fn spare(&self) -> u64
        ensures { result ≡ self.now.spare }
    {
        (self.notes.capacity() - self.notes.len()) as u64
    }

    /// Drops all notes. Their room stays.
    pub fn mark(&mut self)
        ensures notes { self.new.notes ≡ [] }
        ensures spare { self.new.spare ≡ self.old.spare + length self.old.notes }
    {
        self.notes.clear();
    }

    /// Makes room for n more notes. Where there isn't any, there is room for n more afterwards, or
    /// for as many again, where these are more. All notes stay.
    ///
    /// `Memory` comes only where there wasn't room for n, and then nothing changes.
    pub fn reserve(&mut self, n: u64) -> Result<(), Memory>
        ensures notes { self.new.notes ≡ self.old.notes }
        ensures room { OnOk result (n ≤ self.new.spare) }
        ensures enough { n ≤ self.old.spare → IsOk result × (self.new ≡ self.old) }
        ensures made { OnOk result (self.old.spare < n
            → room_of self.new ≡ wanted_room (length self.old.notes) n) }
        ensures err { OnErr result (self.new ≡ self.old) }
    {
        if n <= self.spare() {
            return Ok(());
        }
        let len = self.notes.len();
        self.grow(len, n as usize)
    }

    /// Makes room for n more notes. Where there isn't any, each note goes whose voxel was noted
    /// before it, the others come by ascending x, y and z, and there is room for n more, or for as
    /// many again, where these are more. So this happens seldom, however often a voxel is noted.
    ///
    /// `Memory` comes only where there wasn't room for n, and then nothing changes.
    pub fn compact(&mut self, n: u64) -> Result<(), Memory>
        ensures room { OnOk result (n ≤ self.new.spare) }
        ensures enough { n ≤ self.old.spare → IsOk result × (self.new ≡ self.old) }
        ensures made { OnOk result (self.old.spare < n → IsCompacted self.old self.new n) }
        ensures err { OnErr result (self.new ≡ self.old) }
    {
        if self.spare() < n {
            let first = self.first_of_each()?;
            self.grow(first.len(), n as usize)?;
            self.mark();
            put_notes(&mut self.notes, &first);
        }
        Ok(())
    }

    /// Makes room for this many of the notes and n more, or for as many again, where that is more.
    fn grow(&mut self, left: usize, n: usize) -> Result<(), Memory>
        requires { left ≤ length self.old.notes }
        ensures notes { self.new.notes ≡ self.old.notes }
        ensures room { OnOk result
            (room_of self.new ≡ max (room_of self.old) (wanted_room left n)) }
        ensures err { OnErr result (self.new ≡ self.old) }
    {
        let gone = self.notes.len() - left;
        self.notes.reserve_exact(n.max(left).saturating_sub(gone))?;
        Ok(())
    }

    /// Adds a note at the end.
    pub fn note(&mut self, key: Key, before: Class)
        requires { 1 ≤ self.old.spare }
        ensures notes { self.new.notes
            ≡ self.old.notes ++ record { key = key; before = before } ∷ [] }
        ensures spare { self.old.spare ≡ self.new.spare + 1 }
        ensures room { room_of self.new ≡ room_of self.old }
    {
        self.notes.push_reserved(Note { key, before });
    }

    /// The voxels whose class in the tree isn't that of their first note, by ascending x, y and z.
    /// Its cost depends on the number of notes, not on the map.
    pub fn report(&self, tree: &OccTree) -> Result<ChangeList, Memory>
        ensures exact { IfOk result (λ changes. changes ≡ changes_between
            (marked_by self.now.notes (classes_of tree.now.odds (value_at tree.now)))
            (classes_of tree.now.odds (value_at tree.now))) }
        ensures changes { IfOk result (AreChanges
            (marked_by self.now.notes (classes_of tree.now.odds (value_at tree.now)))
            (classes_of tree.now.odds (value_at tree.now))) }
        ensures none { self.now.notes ≡ [] → IsOk result }
    {
        let first = self.first_of_each()?;
        changed(self.alloc, &first, tree)
    }

    /// The class of the first note of each voxel that is noted.
    fn first_of_each(&self) -> Result<BTreeMap<Key, Class>, Memory>
        ensures first { IfOk result (λ first. (k : Voxel) →
            get key_cmp first k ≡ first_noted self.now.notes k) }
        ensures few { IfOk result (λ first. length first.entries ≤ length self.now.notes) }
        ensures none { self.now.notes ≡ [] → IsOk result }
        ensures in_map { AreInMap self.now.notes }
    {
        let mut first = BTreeMap::new(self.alloc);
        for note in &self.notes {
            if !first.contains_key(&note.key) {
                first.insert(note.key, note.before)?;
            }
        }
        Ok(first)
    }
}

/// Adds these voxels with their classes as notes.
fn put_notes(notes: &mut Vec<Note>, first: &BTreeMap<Key, Class>)
    requires { vec_len notes.old + length first.now.entries ≤ vec_capacity notes.old }
    ensures items { notes.new.items ≡ notes.old.items ++ map note_of first.now.entries }
    ensures capacity { vec_capacity notes.new ≡ vec_capacity notes.old }
    ensures in_map { AreInMap notes.old.items → AreInMap notes.new.items }
    ensures ordered { IsOrdered key_cmp first.now }
{
    for (key, before) in first {
        notes.push_reserved(Note::new(*key, *before));
    }
}

/// Those of the voxels whose class in the tree isn't the one that they had, with their changes.
fn changed(
    alloc: Global,
    first: &BTreeMap<Key, Class>,
    tree: &OccTree,
) -> Result<ChangeList, Memory>
    ensures ordered { IsOrdered key_cmp first.now }
    ensures changes { IfOk result (λ changes. changes ≡ filter_map
        (λ e. change_of e.0 e.1 (classes_of tree.now.odds (value_at tree.now) e.0))
        first.now.entries) }
    ensures none { first.now.entries ≡ [] → IsOk result }
{
    let mut changes = ChangeList::new(alloc);
    for (key, before) in first {
        let after = tree.odds().class(tree.at(*key));
        if let Some(kind) = kind_of_change(*before, after) {
            changes.push(Change { key: *key, kind })?;
        }
    }
    Ok(changes)
}
