//! Lists and tests that count blocks, boxes and events agree with the words for them.
ghost use Rattle.std.specs.Prelude.{◌≡◌, ◌+◌, ◌≤◌, ◌↔◌, IsTrue, Option, Some, count_by};
ghost use Rattle.std.specs.List.{All, Contains};
ghost use Rattle.oct_key.specs.Voxel.{Voxel, IsInMap};
ghost use Rattle.oct_key.specs.Values.{Values, SameValues, is_same_voxel};
ghost use Rattle.oct_key.specs.Block.{Cube, IsBlock, HoldsVoxel, is_same_block};
ghost use Rattle.oct_odds.specs.Odds.{Odds};
ghost use Rattle.oct_odds.specs.Update.{Value};
ghost use Rattle.oct_odds.specs.declared.event.Event.{Event};
ghost use Rattle.oct_values.specs.Blocks.{voxels_of, blocks_above_voxels};
ghost use Rattle.oct_values.specs.Depths.{IsLargestIn, depth_value};
ghost use Rattle.oct_key.specs.Boxes.{IsInBox, is_in_box, MeetsBox, LiesInBox};
ghost use Rattle.oct_values.specs.Boxes.{is_met_by, is_cut_by, box_events};
ghost use Rattle.oct_values.specs.Boxes.{box_need};
ghost use Rattle.oct_values.specs.Events.{Events, event_at, updated};
ghost use Rattle.oct_values.specs.Needs.{IsReached, is_reached, event_need};
ghost use Rattle.oct_values.specs.Uniform.{IsUniform};
ghost use Rattle.oct_values.specs.Counts.{IsKnownIn, is_uniform, is_known_in, group_count};
ghost use Rattle.oct_values.specs.Counts.{node_count};

/// The list of a block's voxels has each voxel that the block holds, once, and no other.
pub fn voxels_are_listed_once()
    ensures held { (b : Cube) (k : Voxel) → IsBlock b → HoldsVoxel b k ↔ Contains (voxels_of b) k }
    ensures once { (b : Cube) (k : Voxel) → IsBlock b → HoldsVoxel b k
        → count_by (is_same_voxel k) (voxels_of b) ≡ 1 }
{}

/// The list of the blocks above the voxels has each block of depth 0 to 15, once, and no other.
pub fn blocks_are_listed_once()
    ensures held { All (λ b. IsBlock b × (b.depth ≤ 15)) blocks_above_voxels }
    ensures once { (b : Cube) → IsBlock b → b.depth ≤ 15
        → count_by (is_same_block b) blocks_above_voxels ≡ 1 }
{}

/// The tests by which blocks are counted say what they say in words of voxels.
pub fn tests_tell_blocks()
    ensures uniform { (values : Values) (b : Cube) → IsBlock b
        → IsTrue (is_uniform values b) ↔ IsUniform values b }
    ensures known { (values : Values) (b : Cube) → IsBlock b
        → IsTrue (is_known_in values b) ↔ IsKnownIn values b }
    ensures reached { (events : Events) (b : Cube) → IsBlock b
        → IsTrue (is_reached events b) ↔ IsReached events b }
{}

/// Each block has exactly one answer, and going through its voxels finds it.
pub fn blocks_have_one_answer()
    ensures { (values : Values) (b : Cube) (answer : Value) → IsBlock b
        → IsLargestIn values b answer ↔ (answer ≡ depth_value values b) }
{}

/// What blocks answer and how many groups and nodes are needed depends on the values and events of
/// the map's voxels alone.
pub fn answers_are_of_the_map()
    ensures groups { (v w : Values) → SameValues v w → group_count v ≡ group_count w }
    ensures nodes { (v w : Values) → SameValues v w → node_count v ≡ node_count w }
    ensures depths { (v w : Values) (b : Cube) → IsBlock b → SameValues v w
        → depth_value v b ≡ depth_value w b }
    ensures needs { (d e : Events) → ((k : Voxel) → IsInMap k → d k ≡ e k)
        → event_need d ≡ event_need e }
{}

/// The tests by which boxes and their blocks are counted say what they say in words of voxels.
pub fn tests_tell_boxes()
    ensures voxel { (lo hi k : Voxel) → IsTrue (is_in_box lo hi k) ↔ IsInBox lo hi k }
    ensures met { (lo hi : Voxel) (b : Cube) → IsBlock b
        → IsTrue (is_met_by lo hi b) ↔ MeetsBox lo hi b }
    ensures cut { (lo hi : Voxel) (b : Cube) → IsBlock b
        → IsTrue (is_cut_by lo hi b) ↔ (MeetsBox lo hi b × (LiesInBox lo hi b → ⊥)) }
{}

/// After events at most `event_need` more groups are needed than before: a block that isn't uniform
/// afterwards wasn't before, or holds a voxel with an event. For one voxel that is 16, for a box
/// the number of the blocks that it cuts, and for one event on every voxel of the map, or none, it
/// is 0.
pub fn events_make_few_groups()
    ensures events { (odds : Odds) (events : Events) (values : Values)
        → group_count (updated odds events values) ≤ group_count values + event_need events }
    ensures voxel { (odds : Odds) (k : Voxel) (event : Event) (values : Values) → IsInMap k
        → group_count (updated odds (event_at (Some k) event) values) ≤ group_count values + 16 }
    ensures boxes { (odds : Odds) (lo hi : Voxel) (event : Event) (values : Values)
        → group_count (updated odds (box_events lo hi event) values)
        ≤ group_count values + box_need lo hi }
    ensures all { (odds : Odds) (event : Option Event) (values : Values)
        → group_count (updated odds (λ _. event) values) ≤ group_count values }
{}
