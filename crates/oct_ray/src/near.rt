//! A walk whose numbers fit 64 bits.
ghost use Rattle.std.specs.Prelude.{◌≡◌, ◌+◌, ◌*◌, ◌^◌, ◌<◌, ◌≤◌, nat_le};
ghost use Rattle.oct_ray.specs.Given.{HasLast};
ghost use Rattle.oct_ray.specs.Track.{AreTracks, keys_left};
ghost use Rattle.oct_ray.specs.Near.{AreClose, AreNow, AreSmall, CanCross, HasCrossed, IsOrder};
ghost use Rattle.oct_ray.specs.Near.{AllStay, HaveRoom, IsStep, StaysOnMap};
ghost use Rattle.oct_ray.specs.Near.{after_pass, axis_of_track, bit};
ghost use Rattle.oct_ray.specs.Placed.{IsUnit};

use crate::beam_walk::BeamWalk;
use crate::placed::{PlacedNumber, sum_of_parts};
use crate::track::Track;
use std::marker::Model;

/// The order of two crossings at one place.
const TOGETHER: u64 = 1 << 63;

/// One axis of a walk in 64 bits.
#[derive(Debug, Drop)]
struct NearAxis {
    /// The number of the voxels where the walk stands, with its bits where a code has them.
    key: PlacedNumber,
    /// What a crossing of another axis adds to its place beside this one.
    pace: u64,
}

impl NearAxis {
    /// The axis of a track, whose numbers have their lowest bit there.
    #[inline(always)]
    fn new(track: Track, unit: u64) -> NearAxis
        requires unit { IsUnit unit }
        requires pace { track.pace < 2 ^ 63 }
        ensures { result ≡ axis_of_track unit track }
    {
        NearAxis {
            key: PlacedNumber::new(&track.key, unit, track.rises),
            pace: track.pace as u64,
        }
    }

    /// Takes a crossing where `now` is 1.
    #[inline(always)]
    fn pass(&mut self, now: u64)
        requires now { now ≤ 1 }
        requires stays { StaysOnMap now self.old }
        ensures { self.new ≡ after_pass now self.old }
    {
        self.key.step(now);
    }
}

/// How much later the second crossing comes than the first, above [`TOGETHER`].
fn order(first: u128, second: u128) -> u64
    requires { AreClose first second }
    ensures { IsOrder result first second }
{
    if first <= second {
        TOGETHER + (second - first) as u64
    } else {
        TOGETHER - (first - second) as u64
    }
}

/// 1 where the second crossing comes no earlier.
#[inline(always)]
fn not_before(order: u64) -> u64
    ensures { result ≡ bit (nat_le (2 ^ 63) order) }
{
    order >> 63
}

/// 1 where the second crossing comes no later.
#[inline(always)]
fn not_after(order: u64) -> u64
    requires { 0 < order }
    ensures { result ≡ bit (nat_le order (2 ^ 63)) }
{
    0u64.wrapping_sub(order) >> 63
}

/// The order after a step, in which each of the two crossings is taken where its number is 1.
#[inline(always)]
fn order_after(order: u64, first: u64, second: u64, first_pace: u64, second_pace: u64) -> u64
    requires order { 0 < order }
    requires first { first ≤ 1 }
    requires second { second ≤ 1 }
    requires first_pace { first_pace < 2 ^ 63 }
    requires second_pace { second_pace < 2 ^ 63 }
    requires not_before { first ≡ 1 → 2 ^ 63 ≤ order }
    requires not_after { second ≡ 1 → order ≤ 2 ^ 63 }
    ensures some { 0 < result }
    ensures moved { result + first * second_pace ≡ order + second * first_pace }
{
    order + second * first_pace - first * second_pace
}

/// Three axes of a walk, and how much later one crosses than another.
#[derive(Debug, Drop)]
struct NearAxes {
    x: NearAxis,
    y: NearAxis,
    z: NearAxis,
    /// How much later y crosses than x, above [`TOGETHER`].
    y_after_x: u64,
    /// How much later z crosses than x.
    z_after_x: u64,
    /// How much later z crosses than y.
    z_after_y: u64,
}

impl NearAxes {
    /// Takes the next crossings, which are those of the axes whose number is 1.
    #[inline(always)]
    fn cross(&mut self, x_now: u64, y_now: u64, z_now: u64)
        requires now { AreNow self.old x_now y_now z_now }
        requires stay { AllStay self.old x_now y_now z_now }
        requires room { HaveRoom self.old }
        ensures { IsStep self.old self.new x_now y_now z_now }
    {
        let (x_pace, y_pace, z_pace) = (self.x.pace, self.y.pace, self.z.pace);
        self.y_after_x = order_after(self.y_after_x, x_now, y_now, x_pace, y_pace);
        self.z_after_x = order_after(self.z_after_x, x_now, z_now, x_pace, z_pace);
        self.z_after_y = order_after(self.z_after_y, y_now, z_now, y_pace, z_pace);
        self.x.pass(x_now);
        self.y.pass(y_now);
        self.z.pass(z_now);
    }

    // Each axis has a branch of its own: nearly always one crosses alone, and then the numbers of
    // `cross` are known, and most of it comes to nothing.
    /// Takes the next crossings, one or those that come together.
    #[inline(always)]
    fn cross_next(&mut self)
        requires { CanCross self.old }
        ensures { HasCrossed self.old self.new }
    {
        if self.y_after_x > TOGETHER && self.z_after_x > TOGETHER {
            self.cross(1, 0, 0);
        } else if self.y_after_x < TOGETHER && self.z_after_y > TOGETHER {
            self.cross(0, 1, 0);
        } else if self.z_after_x < TOGETHER && self.z_after_y < TOGETHER {
            self.cross(0, 0, 1);
        } else {
            let x_now = not_before(self.y_after_x) & not_before(self.z_after_x);
            let y_now = not_before(self.z_after_y) & not_after(self.y_after_x);
            let z_now = not_after(self.z_after_x) & not_after(self.z_after_y);
            self.cross(x_now, y_now, z_now);
        }
    }
}

/// A [`Walk`](crate::Walk) in numbers of 64 bits. It keeps how much later one axis crosses than
/// another, and not where. Contracts see it as the list of the voxels still to come.
#[derive(Debug, Drop)]
pub struct NearWalk {
    axes: NearAxes,
    /// The code of the last voxel.
    last: u64,
}

impl Model for NearWalk {
    ghost use Rattle.std.specs.Prelude.{List};
    ghost use Rattle.oct_key.specs.Voxel.{Voxel};

    ghost Value = { List Voxel };

    ghost use Rattle.oct_ray.specs.Near.{near_keys, IsNear};

    ghost view = { near_keys };

    ghost invariant = { IsNear };
}

impl NearWalk {
    /// The walk of three tracks whose numbers fit, to the voxel of a code.
    #[inline(always)]
    pub(crate) fn new(x: Track, y: Track, z: Track, last: u64) -> NearWalk
        requires tracks { AreTracks x y z }
        requires small { AreSmall x y z }
        requires last { HasLast (keys_left x y z) last }
        ensures { result ≡ keys_left x y z }
    {
        let y_after_x = order(x.beside_next, y.beside_third);
        let z_after_x = order(x.beside_third, z.beside_next);
        let z_after_y = order(y.beside_next, z.beside_third);
        let axes = NearAxes {
            x: NearAxis::new(x, 1),
            y: NearAxis::new(y, 2),
            z: NearAxis::new(z, 4),
            y_after_x,
            z_after_x,
            z_after_y,
        };
        NearWalk { axes, last }
    }
}

impl BeamWalk for NearWalk {
    ghost to_come = { λ walk. walk };

    #[inline(always)]
    fn next_but_last(&mut self) -> Option<u64> {
        let code = sum_of_parts(&self.axes.x.key, &self.axes.y.key, &self.axes.z.key);
        if code == self.last {
            return None;
        }
        self.axes.cross_next();
        Some(code)
    }
}
