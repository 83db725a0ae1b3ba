//! Groups that say no more than one node, given back from the voxels up.
ghost use Rattle.std.specs.Prelude.{◌≡◌, Some};
ghost use Rattle.oct_key.specs.Block.{Cube};
ghost use Rattle.oct_tree.specs.Tree.{IsPlace, block_in, value_at};
ghost use Rattle.oct_tree.specs.Shape.{IsWellFormed, IsFresh, IsPruned};
ghost use Rattle.oct_key.specs.Values.{SameValues};
ghost use Rattle.oct_inner.specs.Changes.{IsShrunk};
ghost use Rattle.oct_inner.specs.Passes.{IsPrunedAt, IsPruning};
ghost use Rattle.oct_tree.specs.Passes.{IsPassed};

use oct_arena::Node;
use oct_tree::{OccTree, Place, Tidiness};

/// Collapses groups until none is left whose nodes are all absent or all leaves of one value. No
/// voxel changes, and the Inner nodes that are left keep their values. Closes each group once, and
/// visits none where the tree is known to be pruned.
pub fn prune(tree: &mut OccTree)
    requires { IsWellFormed tree.old }
    ensures formed { IsWellFormed tree.new }
    ensures pruned { IsPruned tree.new }
    ensures values { SameValues (value_at tree.old) (value_at tree.new) }
    ensures groups { IsShrunk tree.old tree.new }
    ensures fresh { IsFresh tree.old → IsFresh tree.new }
    ensures same { IsPruned tree.old → tree.new ≡ tree.old }
{
    let known = tree.tidiness();
    if known.pruned {
        return;
    }
    prune_place(tree, Place::Root);
    tree.note(Tidiness {
        pruned: true,
        ..known
    });
}

/// Prunes the place, after all places below it.
fn prune_place(tree: &mut OccTree, p: Place)
    requires formed { IsWellFormed tree.old }
    requires place { IsPlace tree.old p }
    ensures { (b : Cube) → block_in tree.old p ≡ Some b
        → IsPassed IsPrunedAt IsPruning tree.old tree.new b }
{
    let Node::Inner(_, id) = tree.node(p) else {
        return;
    };
    for i in 0..8 {
        prune_place(tree, Place::Slot(id, i));
    }
    tree.collapse(p);
}
