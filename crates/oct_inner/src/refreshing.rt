//! Inner values made right again after lazy edits.
ghost use Rattle.std.specs.Prelude.{◌≡◌, Some};
ghost use Rattle.oct_key.specs.Block.{Cube};
ghost use Rattle.oct_tree.specs.Tree.{IsPlace, block_in, value_at};
ghost use Rattle.oct_tree.specs.Shape.{IsWellFormed, IsFresh, IsPruned};
ghost use Rattle.oct_key.specs.Values.{SameValues};
ghost use Rattle.oct_inner.specs.Changes.{IsSameButInner};
ghost use Rattle.oct_inner.specs.Passes.{IsFreshAt, IsRefreshing};
ghost use Rattle.oct_tree.specs.Passes.{IsPassed};

use oct_arena::Node;
use oct_tree::{OccTree, Place, Tidiness};

/// Makes the value of each Inner node the greatest that stands in its group. All else stays, so no
/// voxel changes and no group is made or given back. Closes each group once.
pub fn refresh(tree: &mut OccTree)
    requires { IsWellFormed tree.old }
    ensures fresh { IsFresh tree.new }
    ensures values { SameValues (value_at tree.old) (value_at tree.new) }
    ensures nodes { IsSameButInner tree.old tree.new }
    ensures pruned { IsPruned tree.old → IsPruned tree.new }
    ensures same { IsFresh tree.old → tree.new ≡ tree.old }
{
    let known = tree.tidiness();
    refresh_place(tree, Place::Root);
    tree.note(Tidiness {
        fresh: true,
        ..known
    });
}

/// Refreshes the place's node, after all nodes below it.
fn refresh_place(tree: &mut OccTree, p: Place)
    requires formed { IsWellFormed tree.old }
    requires place { IsPlace tree.old p }
    ensures { (b : Cube) → block_in tree.old p ≡ Some b
        → IsPassed IsFreshAt IsRefreshing tree.old tree.new b }
{
    let Node::Inner(_, id) = tree.node(p) else {
        return;
    };
    for i in 0..8 {
        refresh_place(tree, Place::Slot(id, i));
    }
    tree.renew(p);
}
