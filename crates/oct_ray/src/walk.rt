//! A beam followed voxel by voxel, from face to face.
ghost use Rattle.std.specs.Prelude.{◌≡◌, ◌+◌, ◌-◌, ◌*◌, ◌^◌, ◌<◌, ◌≤◌, [], length, slice_get};
ghost use Rattle.std.specs.Prelude.{IsSome, IfSome, IfNone, IfOk, IfErr, Some};
ghost use Rattle.std.specs.Iterator.{YieldsFirst, item_count};
ghost use Rattle.oct_key.specs.Voxel.{IsResolution, key_at};
ghost use Rattle.oct_ray.specs.Axis.{AreAxesOf};
ghost use Rattle.oct_ray.specs.Segment.{IsWalkAlong};
ghost use Rattle.oct_ray.specs.Given.{HasGiven, HasLast, HasNext, IsRestOf};
ghost use Rattle.oct_ray.specs.Met.{met_by, met_after};

use crate::axis::Axis;
use crate::beam_walk::BeamWalk;
use crate::near::NearWalk;
use crate::track::{Track, advance, are_small, has_ended};
use oct_key::{Key, Point, Res, from_morton, morton_of_axes};
use std::iter::FusedIterator;
use std::marker::Model;

/// The voxels that a beam meets, in the order of its way. Contracts see it as the list of the
/// voxels still to come.
#[derive(Debug, Drop)]
pub struct Walk {
    x: Track,
    y: Track,
    z: Track,
    more: bool,
}

impl Model for Walk {
    ghost use Rattle.std.specs.Prelude.{List};
    ghost use Rattle.oct_key.specs.Voxel.{Voxel};

    ghost Value = { List Voxel };

    ghost use Rattle.oct_ray.specs.Track.{keys_to_come, IsWalking};

    ghost view = { keys_to_come };

    ghost invariant = { IsWalking };
}

impl Walk {
    /// The walk from `o` to `e`, points of the map in nanometres: each voxel that holds a point of
    /// the closed segment between them.
    ///
    /// A voxel has its lower faces and not its upper ones. From one point to itself there is the
    /// one voxel that holds it.
    pub fn new(res: Res, o: Point, e: Point) -> Walk
        requires origin { IsSome (key_at res o) }
        requires end { IsSome (key_at res e) }
        ensures walk { IsWalkAlong res o e result }
        ensures computed { result ≡ met_by res o e }
        ensures first { slice_get result 0 ≡ key_at res o }
        ensures last { slice_get result (length result - 1) ≡ key_at res e }
        ensures few { length result ≤ 3 * 65535 + 1 }
    {
        let start = res.key_of(o).unwrap();
        let end = res.key_of(e).unwrap();
        Walk::between(res, o, e, start, end)
    }

    /// The same walk, by whoever knows the voxels of both ends: they aren't looked for again.
    #[inline(always)]
    pub fn between(res: Res, o: Point, e: Point, start: Key, end: Key) -> Walk
        requires start { key_at res o ≡ Some start }
        requires end { key_at res e ≡ Some end }
        ensures walk { IsWalkAlong res o e result }
        ensures computed { result ≡ met_by res o e }
        ensures first { slice_get result 0 ≡ Some start }
        ensures last { slice_get result (length result - 1) ≡ Some end }
        ensures few { length result ≤ 3 * 65535 + 1 }
    {
        let (x, y, z) = axes_between(res, o, e, start, end);
        Walk {
            x: Track::new(&x, &y, &z),
            y: Track::new(&y, &z, &x),
            z: Track::new(&z, &x, &y),
            more: true,
        }
    }

    /// The rest of the walk from `o` to `e`, which these two voxels hold, just after this part of
    /// it, in 65,536ths: where the voxels before are of no use, they need not be walked.
    pub fn after(res: Res, o: Point, e: Point, start: Key, end: Key, part: u16) -> Walk
        requires start { key_at res o ≡ Some start }
        requires end { key_at res e ≡ Some end }
        ensures computed { result ≡ met_after part res o e }
        ensures rest { IsRestOf (met_by res o e) result }
    {
        let (x, y, z) = axes_between(res, o, e, start, end);
        let late_x = x.after(part);
        let late_y = y.after(part);
        let late_z = z.after(part);
        Walk {
            x: Track::new(&late_x, &late_y, &late_z),
            y: Track::new(&late_y, &late_z, &late_x),
            z: Track::new(&late_z, &late_x, &late_y),
            more: true,
        }
    }

    /// The Morton code of the next voxel, which stays to come, or `None` where none is left.
    pub fn peek_code(&self) -> Option<u64>
        ensures next { IfSome result (HasNext self.now) }
        ensures none { IfNone result (self.now ≡ []) }
    {
        if !self.more {
            return None;
        }
        Some(morton_of_axes(&self.x.key, &self.y.key, &self.z.key))
    }

    /// The same walk in numbers of 64 bits, where its own fit, or else the walk as it is: in both
    /// the voxels to come are the same, and a step of the first takes less time. `last` is the code
    /// of its last voxel.
    #[inline(always)]
    pub fn near(self, last: u64) -> Result<NearWalk, Walk>
        requires { HasLast self last }
        ensures near { IfOk result (λ near. near ≡ self) }
        ensures far { IfErr result (λ walk. walk ≡ self) }
    {
        if are_small(&self.x, &self.y, &self.z) {
            Ok(NearWalk::new(self.x, self.y, self.z, last))
        } else {
            Err(self)
        }
    }

    // A step is short, and is made in the loops of scans and casts, which keep the walk in
    // registers.
    /// The Morton code of the next voxel, or `None` where the last one was given. It is made from
    /// the numbers of the three axes as the walk keeps them, so that no bits are moved.
    #[inline(always)]
    pub fn next_code(&mut self) -> Option<u64>
        ensures next { IfSome result (HasGiven self.old self.new) }
        ensures below { IfSome result (λ code. code < 2 ^ 48) }
        ensures none { IfNone result ((self.old ≡ []) × (self.new ≡ [])) }
    {
        if !self.more {
            return None;
        }
        let code = morton_of_axes(&self.x.key, &self.y.key, &self.z.key);
        if has_ended(&self.x, &self.y, &self.z) {
            self.more = false;
        } else {
            advance(&mut self.x, &mut self.y, &mut self.z);
        }
        Some(code)
    }
}

impl BeamWalk for Walk {
    ghost to_come = { λ walk. walk };

    // In line as `next_code` is.
    #[inline(always)]
    fn next_but_last(&mut self) -> Option<u64> {
        if !self.more || has_ended(&self.x, &self.y, &self.z) {
            return None;
        }
        let next = morton_of_axes(&self.x.key, &self.y.key, &self.z.key);
        advance(&mut self.x, &mut self.y, &mut self.z);
        Some(next)
    }
}

/// The axes of the segment from `o` to `e`, which these two voxels hold.
#[inline(always)]
fn axes_between(res: Res, o: Point, e: Point, start: Key, end: Key) -> (Axis, Axis, Axis)
    requires start { key_at res o ≡ Some start }
    requires end { key_at res e ≡ Some end }
    ensures { AreAxesOf res o e result.0 result.1 result.2 }
{
    let edge = edge_of(res);
    let x = Axis::new(edge, o.x, e.x, start.x, end.x);
    let y = Axis::new(edge, o.y, e.y, start.y, end.y);
    let z = Axis::new(edge, o.z, e.z, start.z, end.z);
    (x, y, z)
}

/// The edge of a voxel, in nanometres.
fn edge_of(res: Res) -> u64
    ensures value { result ≡ res }
    ensures range { IsResolution result }
{
    res.nm() as u64
}

impl Iterator for Walk {
    type Item = Key;

    ghost next_gives = { YieldsFirst (λ rest. rest) };

    ghost remaining = { item_count (λ rest. rest) };

    /// The next voxel, or `None` where the last one was given.
    fn next(&mut self) -> Option<Key> {
        let code = self.next_code()?;
        Some(from_morton(code))
    }
}

impl FusedIterator for Walk {}
