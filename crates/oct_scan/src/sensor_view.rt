//! From where the beams of a scan go, and what of them counts.
ghost use Rattle.std.specs.Prelude.{◌≡◌, Some};
ghost use Rattle.oct_key.specs.Voxel.{IsResolution, key_at};
ghost use Rattle.oct_ray.specs.Given.{IsRestOf};
ghost use Rattle.oct_ray.specs.Met.{met_by};
ghost use Rattle.oct_scan.specs.Beam.{IsPlaced};

use crate::beam::PlacedBeam;
use oct_key::{Key, Point, Res, Window};
use oct_ray::Walk;

/// The place of a map from which the beams of a scan go, and the box in which they change voxels,
/// where one stands.
#[derive(Clone, Copy, Debug)]
pub struct SensorView {
    pub res: Res,
    pub origin: Point,
    /// The voxel that holds the origin.
    pub start: Key,
    pub window: Option<Window>,
    pub ghost ranged: { IsResolution res },
    pub ghost placed: { key_at res origin ≡ Some start },
}

impl SensorView {
    /// The walk along a beam.
    #[inline(always)]
    pub fn walk(&self, beam: PlacedBeam) -> Walk
        requires { IsPlaced self.now.res beam }
        ensures { result ≡ met_by self.now.res self.now.origin beam.end }
    {
        Walk::between(self.res, self.origin, beam.end, self.start, beam.voxel)
    }

    /// What is left of it just after this part of the beam, in 65,536ths.
    pub fn walk_after(&self, beam: PlacedBeam, part: u16) -> Walk
        requires { IsPlaced self.now.res beam }
        ensures { IsRestOf (met_by self.now.res self.now.origin beam.end) result }
    {
        Walk::after(
            self.res,
            self.origin,
            beam.end,
            self.start,
            beam.voxel,
            part,
        )
    }
}
