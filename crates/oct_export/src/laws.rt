//! What the definitions amount to. Nothing is computed here.
ghost use Rattle.std.specs.Prelude.{◌<◌};
ghost use Rattle.std.specs.List.{AllPairs};
ghost use Rattle.oct_key.specs.Block.{lowest_voxel};
ghost use Rattle.oct_key.specs.Morton.{morton_of};
ghost use Rattle.oct_values.specs.Classes.{Classes};
ghost use Rattle.oct_export.specs.Boxes.{boxes_of};

/// The boxes of occupied space stand in the order of the Morton codes of their lowest voxels.
pub fn boxes_rise()
    ensures { (classes : Classes)
        → AllPairs (λ a b. morton_of (lowest_voxel a) < morton_of (lowest_voxel b))
        (boxes_of classes) }
{}
