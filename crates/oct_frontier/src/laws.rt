//! What is computed from the classes of voxels is the frontier.
ghost use Rattle.oct_key.specs.Voxel.{Voxel};
ghost use Rattle.oct_values.specs.Classes.{Classes};
ghost use Rattle.oct_frontier.specs.Frontier.{IsFrontierBetween, frontier_between};

/// What `frontier_between` computes is the frontier between two corners, with whichever classes the
/// voxels have, as those of any tree: a law, with nothing to compute.
pub fn frontiers_are_right()
    ensures { (classes : Classes) (lo hi : Voxel)
        → IsFrontierBetween classes lo hi (frontier_between classes lo hi) }
{}
