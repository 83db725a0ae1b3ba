//! What is computed along a segment is the first voxel that stops it.
ghost use Rattle.std.specs.Prelude.{ℕ, Bool, IsSome};
ghost use Rattle.oct_key.specs.Voxel.{IsResolution, key_at};
ghost use Rattle.oct_key.specs.declared.point.Point.{Point};
ghost use Rattle.oct_values.specs.Classes.{Classes};
ghost use Rattle.oct_cast.specs.Cast.{IsRight, cast_along};

/// What `cast_along` computes is right, with whichever classes the voxels have: a law, with nothing
/// to compute.
pub fn casts_are_right()
    ensures { (edge : ℕ) (o e : Point) (ignore : Bool) (classes : Classes) → IsResolution edge
        → IsSome (key_at edge o) → IsSome (key_at edge e)
        → IsRight edge o e ignore classes (cast_along edge o e ignore classes) }
{}
