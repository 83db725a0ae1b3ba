//! Walks along a beam, however they keep their numbers.
ghost use Rattle.std.specs.Prelude.{◌≡◌, ◌≢◌, ◌^◌, ◌<◌, ◌≤◌, List, [], length, IfSome, IfNone};
ghost use Rattle.oct_key.specs.Voxel.{Voxel};
ghost use Rattle.oct_ray.specs.Given.{HasGiven};

/// A walk along a beam, which gives its voxels in order.
pub trait BeamWalk: Drop {
    /// The voxels still to come.
    ghost to_come: { Self → List Voxel };

    /// The code of the next voxel, or `None` where that is the last one, or none is left, and then
    /// the walk stays as it is.
    fn next_but_last(&mut self) -> Option<u64>
        ensures next { IfSome result (HasGiven (to_come self.old) (to_come self.new)) }
        ensures below { IfSome result (λ code. code < 2 ^ 48) }
        ensures more { IfSome result (λ _. to_come self.new ≢ []) }
        ensures none { IfNone result ((to_come self.new ≡ to_come self.old)
            × (length (to_come self.old) ≤ 1)) };
}
