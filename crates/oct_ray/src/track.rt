//! One axis of a walk under way.
ghost use Rattle.std.specs.Prelude.{◌≡◌, ◌↔◌, true, false, IsTrue};
ghost use Rattle.std.specs.Bool.{OnTrue};
ghost use Rattle.oct_ray.specs.Axis.{HasRoom};
ghost use Rattle.oct_ray.specs.Track.{CanPass, IsTrackOf, crosses_now, has_ended, track_after};
ghost use Rattle.oct_ray.specs.Near.{AreClose, AreSmall};

use crate::axis::Axis;
use oct_key::Dilated;

/// The first number that doesn't fit 63 bits.
const SMALL_END: u128 = 1 << 63;

/// What a walk keeps of an axis: where it stands, and at which place of the segment it next crosses
/// a face.
///
/// A place is a fraction over the axis's span. To be compared with those of another axis it is kept
/// multiplied by the span of that one, so that no step multiplies. It is doubled, and one more on
/// an axis that falls: a voxel has its lower faces and not its upper ones, so that at one place the
/// axes that rise cross before those that fall.
#[derive(Debug, Drop)]
pub struct Track {
    /// The number of the voxels where the walk stands, with its bits where a code has them.
    pub key: Dilated,
    /// Whether the axis rises.
    pub rises: bool,
    /// How many crossings are still to come.
    pub crossings: u16,
    /// The next crossing, to be compared with that of the next axis.
    pub beside_next: u128,
    /// The next crossing, to be compared with that of the third axis.
    pub beside_third: u128,
    /// What a crossing of another axis adds there to be compared with this one.
    pub pace: u128,
}

impl Track {
    /// The track of an axis at the origin, beside the next axis and the third.
    pub fn new(axis: &Axis, next: &Axis, third: &Axis) -> Track
        requires axis { HasRoom axis.now }
        requires next { HasRoom next.now }
        requires third { HasRoom third.now }
        ensures { IsTrackOf result axis.now next.now third.now }
    {
        let late = u128::from(!axis.rises);
        Track {
            key: Dilated::new(axis.key),
            rises: axis.rises,
            crossings: axis.crossings,
            beside_next: 2 * (axis.distance as u128 * next.span as u128) + late,
            beside_third: 2 * (axis.distance as u128 * third.span as u128) + late,
            pace: 2 * (axis.edge as u128 * axis.span as u128),
        }
    }

    /// Whether this axis crosses no later than the other two.
    fn crosses_now(&self, next: &Track, third: &Track) -> bool
        ensures { result ≡ crosses_now self.now next.now third.now }
    {
        self.beside_next <= next.beside_third && self.beside_third <= third.beside_next
    }

    /// Whether this axis crosses before the other two, as mostly one does. Where none does, some
    /// cross together.
    fn crosses_alone(&self, next: &Track, third: &Track) -> bool
        ensures now { OnTrue result (crosses_now self.now next.now third.now ≡ true) }
        ensures next { OnTrue result (crosses_now next.now third.now self.now ≡ false) }
        ensures third { OnTrue result (crosses_now third.now self.now next.now ≡ false) }
    {
        self.beside_next < next.beside_third && self.beside_third < third.beside_next
    }

    /// Takes the next crossing, where it comes now.
    fn pass(&mut self, now: bool, next_pace: u128, third_pace: u128)
        requires { CanPass now self.old next_pace third_pace }
        ensures { self.new ≡ track_after now self.old next_pace third_pace }
    {
        if now {
            if self.rises {
                self.key.increment();
            } else {
                self.key.decrement();
            }
            self.crossings -= 1;
            self.beside_next += next_pace;
            self.beside_third += third_pace;
        }
    }
}

/// Whether the paces of three tracks, and how far their crossings are apart, fit 63 bits.
pub fn are_small(x: &Track, y: &Track, z: &Track) -> bool
    ensures small { IsTrue result → AreSmall x.now y.now z.now }
    ensures only { AreSmall x.now y.now z.now → IsTrue result }
{
    x.pace < SMALL_END
        && y.pace < SMALL_END
        && z.pace < SMALL_END
        && are_close(x.beside_next, y.beside_third)
        && are_close(x.beside_third, z.beside_next)
        && are_close(y.beside_next, z.beside_third)
}

/// Whether two places lie so near one another that 63 bits tell how much.
fn are_close(first: u128, second: u128) -> bool
    ensures { IsTrue result ↔ AreClose first second }
{
    first.saturating_sub(second) < SMALL_END && second.saturating_sub(first) < SMALL_END
}

/// Whether none of the axes has a crossing to come.
pub fn has_ended(x: &Track, y: &Track, z: &Track) -> bool
    ensures { result ≡ has_ended x.now y.now z.now }
{
    x.crossings == 0 && y.crossings == 0 && z.crossings == 0
}

/// Takes the crossings that come next, of one axis or of several at once.
#[inline(always)]
pub fn advance(x: &mut Track, y: &mut Track, z: &mut Track)
    requires x { CanPass (crosses_now x.old y.old z.old) x.old y.old.pace z.old.pace }
    requires y { CanPass (crosses_now y.old z.old x.old) y.old z.old.pace x.old.pace }
    requires z { CanPass (crosses_now z.old x.old y.old) z.old x.old.pace y.old.pace }
    ensures x { x.new ≡ track_after (crosses_now x.old y.old z.old) x.old y.old.pace z.old.pace }
    ensures y { y.new ≡ track_after (crosses_now y.old z.old x.old) y.old z.old.pace x.old.pace }
    ensures z { z.new ≡ track_after (crosses_now z.old x.old y.old) z.old x.old.pace y.old.pace }
{
    let (x_pace, y_pace, z_pace) = (x.pace, y.pace, z.pace);
    if x.crosses_alone(y, z) {
        x.pass(true, y_pace, z_pace);
    } else if y.crosses_alone(z, x) {
        y.pass(true, z_pace, x_pace);
    } else if z.crosses_alone(x, y) {
        z.pass(true, x_pace, y_pace);
    } else {
        advance_together(x, y, z);
    }
}

/// Takes the crossings that come next, whichever they are.
fn advance_together(x: &mut Track, y: &mut Track, z: &mut Track)
    requires x { CanPass (crosses_now x.old y.old z.old) x.old y.old.pace z.old.pace }
    requires y { CanPass (crosses_now y.old z.old x.old) y.old z.old.pace x.old.pace }
    requires z { CanPass (crosses_now z.old x.old y.old) z.old x.old.pace y.old.pace }
    ensures x { x.new ≡ track_after (crosses_now x.old y.old z.old) x.old y.old.pace z.old.pace }
    ensures y { y.new ≡ track_after (crosses_now y.old z.old x.old) y.old z.old.pace x.old.pace }
    ensures z { z.new ≡ track_after (crosses_now z.old x.old y.old) z.old x.old.pace y.old.pace }
{
    let x_now = x.crosses_now(y, z);
    let y_now = y.crosses_now(z, x);
    let z_now = z.crosses_now(x, y);
    let (x_pace, y_pace, z_pace) = (x.pace, y.pace, z.pace);
    x.pass(x_now, y_pace, z_pace);
    y.pass(y_now, z_pace, x_pace);
    z.pass(z_now, x_pace, y_pace);
}
