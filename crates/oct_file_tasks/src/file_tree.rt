//! A tree of the classes of a file.
ghost use Rattle.std.specs.Prelude.{◌≡◌, ◌≤◌, ◌^◌, length, IfOk};
ghost use Rattle.oct_arena.specs.Entries.{live};
ghost use Rattle.oct_key.specs.Voxel.{Voxel, IsInMap};
ghost use Rattle.oct_odds.specs.Odds.{default_odds};
ghost use Rattle.oct_bt.specs.Classes.{value_for};
ghost use Rattle.oct_bt.specs.DataClasses.{data_classes};
ghost use Rattle.oct_tree.specs.Classes.{classes_in};
ghost use Rattle.oct_bt.specs.NodeData.{IsAccepted};
ghost use Rattle.oct_bt.specs.Records.{record_total};
ghost use Rattle.oct_tree.specs.Shape.{IsWellFormed};
ghost use Rattle.oct_tree.specs.Tree.{value_at};

use oct_bt::{BtFile, fill};
use oct_num::Memory;
use oct_odds::OddsModel;
use oct_tree::OccTree;
use std::alloc::Global;

/// The tree of the classes of a file, with the default log-odds: free voxels have the least value,
/// and occupied ones the greatest.
pub(crate) fn tree_of(alloc: Global, file: &BtFile) -> Result<OccTree, Memory>
    requires accepted { IsAccepted file.now.nodes file.now.codes }
    requires few { length file.now.codes ≤ 2 ^ 32 }
    ensures classes { IfOk result (λ tree. (k : Voxel) → IsInMap k
        → classes_in tree k ≡ data_classes file.now.codes k) }
    ensures values { IfOk result (λ tree. (k : Voxel) → IsInMap k
        → value_at tree k ≡ value_for default_odds (data_classes file.now.codes k)) }
    ensures formed { IfOk result IsWellFormed }
    ensures res { IfOk result (λ tree. tree.res ≡ file.now.res) }
    ensures odds { IfOk result (λ tree. tree.odds ≡ default_odds) }
    ensures groups { IfOk result (λ tree. live tree.groups ≤ record_total file.now.codes) }
{
    let mut tree = OccTree::new(alloc, file.res(), OddsModel::default());
    tree.reserve(file.records() as u32)?;
    fill(file, &mut tree);
    Ok(tree)
}
