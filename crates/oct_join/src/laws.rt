//! Classes of files are joined as the values of maps are.
ghost use Rattle.std.specs.Prelude.{◌≡◌};
ghost use Rattle.oct_bt.specs.Classes.{value_for};
ghost use Rattle.oct_merge.specs.declared.rule.Rule.{Rule};
ghost use Rattle.oct_merge.specs.Merged.{merged};
ghost use Rattle.oct_odds.specs.Odds.{default_odds};
ghost use Rattle.oct_odds.specs.Update.{class_of};
ghost use Rattle.oct_odds.specs.declared.event.Class.{Class};
ghost use Rattle.oct_join.specs.Merged.{merged_class};

/// The merged class of a voxel is that of its merged value, where a file's classes become the
/// values of the model that is the default.
pub fn merged_classes_are_exact()
    ensures exact { (rule : Rule) (a b : Class)
        → class_of default_odds (merged rule (value_for default_odds a) (value_for default_odds b))
        ≡ merged_class rule a b }
{}
