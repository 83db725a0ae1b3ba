//! The computed voxels of a segment are those that it meets.
ghost use Rattle.std.specs.Prelude.{ℕ, IsSome};
ghost use Rattle.oct_key.specs.Voxel.{IsResolution, key_at};
ghost use Rattle.oct_key.specs.declared.point.Point.{Point};
ghost use Rattle.oct_ray.specs.Met.{met_by};
ghost use Rattle.oct_ray.specs.Segment.{IsWalkAlong};

/// The voxels that `met_by` computes are those that the segment meets, in the order of its way. A
/// law, with nothing to compute.
pub fn segments_are_walked()
    ensures { (edge : ℕ) (o e : Point) → IsResolution edge →
        IsSome (key_at edge o) → IsSome (key_at edge e) → IsWalkAlong edge o e (met_by edge o e) }
{}
