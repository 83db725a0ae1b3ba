//! The place and the turn of a sensor, and the points of its frame in that of the map.
ghost use Rattle.std.specs.Prelude.{◌≡◌, ◌↔◌, ◌*◌, ◌^◌, IsErr, IfOk};
ghost use Rattle.oct_pose.specs.Reach.{IsInReach, IsNear, IsZero};

use crate::rotation::Quaternion;
use oct_key::Point;
use thiserror::Error;

/// Where a sensor stands and how it is turned: a translation in nanometres, and a quaternion
/// `w + xi + yj + zk` of whole numbers. Only the quaternion's direction counts, so it needn't have
/// the length 1.
///
/// The translation is in reach, with each coordinate's magnitude below 10^16, and the quaternion
/// isn't 0.
#[derive(Clone, Copy, Debug, PartialEq, Eq)]
pub struct Pose {
    pub t: Point,
    pub w: i16,
    pub x: i16,
    pub y: i16,
    pub z: i16,
    pub ghost in_reach: { IsInReach t },
    pub ghost turns: { ¬ IsZero w x y z },
}

/// A quaternion whose four numbers are all 0 turns nothing.
#[derive(Clone, Copy, Debug, PartialEq, Eq, Error)]
#[error("the quaternion of a pose must not be 0")]
pub struct ZeroQuaternion;

impl Pose {
    ghost use Rattle.oct_pose.specs.Posed.{posed, quaternion_of, IsNearestTo};

    /// The pose of a translation and a quaternion. Refuses exactly the quaternion 0.
    pub fn new(t: Point, w: i16, x: i16, y: i16, z: i16) -> Result<Pose, ZeroQuaternion>
        requires { IsInReach t }
        ensures refused { IsErr result ↔ IsZero w x y z }
        ensures translation { IfOk result (λ pose. pose.t ≡ t) }
        ensures quaternion { IfOk result (λ pose.
            quaternion_of pose ≡ record { w = w; x = x; y = y; z = z }) }
    {
        if w == 0 && x == 0 && y == 0 && z == 0 {
            return Err(ZeroQuaternion);
        }
        Ok(Pose { t, w, x, y, z })
    }

    /// Where the pose takes a point: the point is turned by the quaternion q, to the product
    /// `q p q*` divided by the square of q's length, and moved by the translation. Each coordinate
    /// of the turned point is rounded to the nearest whole number, and half up.
    pub fn apply(&self, p: Point) -> Point
        requires { IsInReach p }
        ensures exact { result ≡ posed self.now p }
        ensures nearest { IsNearestTo self.now p result }
        ensures near { IsNear (3 * 10 ^ 16) self.now.t result }
    {
        let turned = self.quaternion().rotate(p);
        Point {
            x: self.t.x + turned.x,
            y: self.t.y + turned.y,
            z: self.t.z + turned.z,
        }
    }

    fn quaternion(&self) -> Quaternion
        ensures { result ≡ quaternion_of self.now }
    {
        Quaternion {
            w: self.w,
            x: self.x,
            y: self.y,
            z: self.z,
        }
    }
}
