//! Every known voxel made certain, as one edit of the whole map.
ghost use Rattle.std.specs.Prelude.{◌≡◌, ◌+◌, ◌≤◌, Some};
ghost use Rattle.oct_key.specs.Values.{SameValues};
ghost use Rattle.oct_odds.specs.declared.event.Event.{Event};
ghost use Rattle.oct_values.specs.Events.{updated};
ghost use Rattle.oct_arena.specs.Entries.{live, spare};
ghost use Rattle.oct_tree.specs.Tree.{value_at};
ghost use Rattle.oct_tree.specs.Shape.{IsWellFormed, IsFresh, IsPruned};

use oct_edit::touch_box;
use oct_key::Key;
use oct_odds::Event;
use oct_tree::{OccTree, Tidiness};

/// Makes each known voxel as sure as it can be: occupied ones get the upper bound and free ones the
/// lower, as `toMaxLikelihood` of the OctoMap library does. Renews the inner values and collapses
/// groups on the way, whatever the tree was. Closes each group once and makes none.
pub fn maximum_likelihood(tree: &mut OccTree)
    requires { IsWellFormed tree.old }
    ensures values { SameValues (updated tree.old.odds (λ _. Some Event.Likely) (value_at tree.old))
        (value_at tree.new) }
    ensures fresh { IsFresh tree.new }
    ensures pruned { IsPruned tree.new }
    ensures groups { live tree.new.groups ≤ live tree.old.groups }
    ensures room { live tree.new.groups + spare tree.new.groups
        ≡ live tree.old.groups + spare tree.old.groups }
    ensures res { tree.new.res ≡ tree.old.res }
    ensures odds { tree.new.odds ≡ tree.old.odds }
{
    touch_box(tree, LOWEST, HIGHEST, Event::Likely);
    tree.note(Tidiness {
        fresh: true,
        pruned: true,
    });
}

/// The corners of the map.
const LOWEST: Key = Key { x: 0, y: 0, z: 0 };

const HIGHEST: Key = Key {
    x: u16::MAX,
    y: u16::MAX,
    z: u16::MAX,
};
