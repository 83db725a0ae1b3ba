//! The mark of a map.
ghost use Rattle.std.specs.Prelude.{◌≡◌, ◌+◌, ◌<◌, ◌^◌, ◌⊎◌, length, [], Option, None, Some};
ghost use Rattle.std.specs.Prelude.{is_some, IsOk, OnOk, OnErr, IfOk, option_map, true, false};
ghost use Rattle.std.specs.Prelude.{All, Contains};
ghost use Rattle.oct_brick.specs.Bricks.{IsBrick};
ghost use Rattle.oct_brick.specs.Voxels.{hit_voxels, freed_voxels};
ghost use Rattle.oct_tree.specs.Tree.{value_at};
ghost use Rattle.oct_key.specs.Boxes.{IsBox, IsInBox, box_volume};
ghost use Rattle.oct_values.specs.Classes.{classes_of};
ghost use Rattle.oct_change.specs.Changes.{changes_between};
ghost use Rattle.oct_map.specs.Notes.{HasRoomForNotes, IsSameNoted, IsRoomMade, HasMarked};
ghost use Rattle.oct_map.specs.Notes.{LacksNotes};
ghost use Rattle.oct_map.specs.Notes.{NotesFew, marked_by_notes, notes_of, note_room};
ghost use Rattle.oct_map.specs.Merges.{IsInGiven, given_events, given_volume};
ghost use Rattle.oct_change.specs.Held.{Held};

use oct_brick::Brick;
use oct_change::{ChangeList, Changes};
use oct_key::{Key, Window};
use oct_num::Memory;
use oct_tree::OccTree;
use std::alloc::Global;
use std::marker::Model;

/// Whether a mark stands, and where one does, the notes of the classes that voxels had.
///
/// Where none stands, no call does any work.
#[derive(Drop)]
pub(crate) struct Mark {
    changes: Option<Changes>,
}

impl Model for Mark {
    ghost use Rattle.std.specs.Prelude.{Option};
    ghost use Rattle.oct_change.specs.Held.{Held};

    ghost Value = { Option Held };

    ghost view = { λ m. m.changes };
}

impl Mark {
    /// No mark.
    pub(crate) fn none() -> Mark
        ensures { result ≡ None }
    {
        Mark { changes: None }
    }

    /// The same mark again, with the same notes and room, or none where none stands.
    pub(crate) fn copy(&self) -> Result<Mark, Memory>
        ensures exact { IfOk result (λ copy. copy ≡ self.now) }
        ensures none { note_room self.now ≡ 0 → IsOk result }
    {
        let changes = match &self.changes {
            Some(changes) => Some(changes.copy()?),
            None => None,
        };
        Ok(Mark { changes })
    }

    /// Sets the mark at this moment, with no notes. Takes no memory.
    pub(crate) fn set(&mut self, alloc: Global)
        ensures { self.new ≡ Some (record { notes = []; spare = 0 }) }
    {
        self.changes = Some(Changes::new(alloc));
    }

    /// Takes the mark away, and gives the memory of its notes back.
    pub(crate) fn unset(&mut self)
        ensures { self.new ≡ None }
    {
        self.changes = None;
    }

    /// Whether a mark stands.
    pub(crate) fn is_set(&self) -> bool
        ensures { result ≡ is_some self.now }
    {
        self.changes.is_some()
    }

    /// For how many notes there is room in all.
    pub(crate) fn room(&self) -> u128
        ensures exact { result ≡ note_room self.now }
        ensures few { result < 2 ^ 65 }
    {
        match &self.changes {
            Some(changes) => u128::from(changes.len()) + u128::from(changes.spare()),
            None => 0,
        }
    }

    /// Whether there is room for n notes, where a mark stands.
    pub(crate) fn has_room(&self, n: u64) -> bool
        ensures room { result ≡ true → HasRoomForNotes self.now n }
        ensures lacks { result ≡ false → LacksNotes self.now n }
    {
        match &self.changes {
            Some(changes) => n <= changes.spare(),
            None => true,
        }
    }

    /// Makes room for n notes, where a mark stands. The first note of each voxel stays, and where
    /// memory runs out all of them do.
    #[inline(always)]
    pub(crate) fn reserve(&mut self, n: u64) -> Result<(), Memory>
        ensures room { OnOk result (HasRoomForNotes self.new n) }
        ensures enough { HasRoomForNotes self.old n → IsOk result × (self.new ≡ self.old) }
        ensures made { (self.new ≡ self.old) ⊎ IsRoomMade self.old self.new n 0 }
        ensures kept { IsSameNoted self.old self.new }
        ensures err { OnErr result (self.new ≡ self.old) }
    {
        if let Some(changes) = &mut self.changes {
            changes.compact(n)?;
        }
        Ok(())
    }

    /// Notes the class that the voxel has in the tree, where a mark stands.
    pub(crate) fn note_class(&mut self, tree: &OccTree, key: Key)
        requires { HasRoomForNotes self.old 1 }
        ensures { HasMarked (classes_of tree.now.odds (value_at tree.now)) (λ k. k ≡ key) 1
            self.old self.new }
    {
        if let Some(changes) = &mut self.changes {
            changes.note_class(tree, key);
        }
    }

    /// Notes the classes that the voxels of the bricks have in the tree, where a mark stands.
    pub(crate) fn note_bricks(&mut self, tree: &OccTree, bricks: &[Brick])
        requires bricks { All IsBrick bricks.now }
        requires room { HasRoomForNotes self.old
            (length (hit_voxels bricks.now) + length (freed_voxels bricks.now)) }
        ensures { HasMarked (classes_of tree.now.odds (value_at tree.now))
            (λ k. Contains (hit_voxels bricks.now) k ⊎ Contains (freed_voxels bricks.now) k)
            (length (hit_voxels bricks.now) + length (freed_voxels bricks.now))
            self.old self.new }
    {
        if let Some(changes) = &mut self.changes {
            changes.note_bricks(tree, bricks);
        }
    }

    /// Notes the classes that the voxels of the box of two corners have in the tree, where a mark
    /// stands.
    pub(crate) fn note_box(&mut self, tree: &OccTree, lo: Key, hi: Key)
        requires order { IsBox lo hi }
        requires room { HasRoomForNotes self.old (box_volume lo hi) }
        ensures { HasMarked (classes_of tree.now.odds (value_at tree.now)) (IsInBox lo hi)
            (box_volume lo hi) self.old self.new }
    {
        if let Some(changes) = &mut self.changes {
            changes.note_box(tree, lo, hi);
        }
    }

    /// Makes room for notes of the voxels of the box, where there is one, and notes the classes
    /// that they have in the tree, where a mark stands.
    pub(crate) fn note_window(
        &mut self,
        tree: &OccTree,
        window: Option<Window>,
    ) -> Result<(), Memory>
        ensures noted { OnOk result ((between : Option Held) × IsSameNoted self.old between
            × HasMarked (classes_of tree.now.odds (value_at tree.now)) (IsInGiven window)
            (given_volume window) between self.new) }
        ensures few { OnOk result
            (NotesFew self.old self.new (given_events window) (given_volume window)) }
        ensures enough { HasRoomForNotes self.old (given_volume window) → IsOk result }
        ensures err { OnErr result (self.new ≡ self.old) }
    {
        if let Some(window) = window {
            self.reserve(window.volume())?;
            self.note_box(tree, window.lo(), window.hi());
        }
        Ok(())
    }

    /// The changes since the mark, or none where no mark stands.
    pub(crate) fn report(&self, tree: &OccTree) -> Result<Option<ChangeList>, Memory>
        ensures exact { IfOk result (λ changes. changes ≡ option_map
            (λ before. changes_between before (classes_of tree.now.odds (value_at tree.now)))
            (marked_by_notes self.now (classes_of tree.now.odds (value_at tree.now)))) }
        ensures none { notes_of self.now ≡ [] → IsOk result }
    {
        match &self.changes {
            Some(changes) => Ok(Some(changes.report(tree)?)),
            None => Ok(None),
        }
    }
}
