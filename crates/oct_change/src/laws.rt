//! What is computed from classes then and now is the list of changes.
ghost use Rattle.oct_values.specs.Classes.{Classes};
ghost use Rattle.oct_change.specs.Changes.{AreChanges, changes_between};

/// What `changes_between` computes are the changes, with whichever classes the voxels had and have,
/// as those of any tree: a law, with nothing to compute.
pub fn changes_are_right()
    ensures { (before after : Classes)
        → AreChanges before after (changes_between before after) }
{}
