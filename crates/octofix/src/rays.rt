//! The voxels of a segment, without a map.
ghost use Rattle.std.specs.Prelude.{◌≡◌, ◌<◌, ◌^◌, length, map, IsSome};
ghost use Rattle.oct_key.specs.Voxel.{key_at};
ghost use Rattle.oct_ray.specs.Met.{met_by};
ghost use Rattle.octofix.specs.Buffers.{count_left, filled, list_code, list_left, room_code};
ghost use Rattle.octofix.specs.Codes.{answer_details};
ghost use Rattle.octofix.specs.Points.{key_told};
ghost use Rattle.octofix.specs.Rays.{ray_at, ray_between};

use crate::refusal::{DONE, Refusal, SMALL_BUFFER};
use crate::types::{Details, PointNm, VoxelKey};
use oct_key::{Point, Res};
use oct_map::MapFault;
use oct_ray::Walk;

/// How many voxels a walk gives.
fn walk_len(walk: Walk) -> usize
    requires { length walk < 2 ^ 64 }
    ensures { result ≡ length walk }
{
    walk.count()
}

/// Puts the voxels of a walk into a buffer, and tells how many there are.
fn put_walk(res: Res, origin: Point, end: Point, keys: &mut [VoxelKey], count: &mut usize) -> u32
    requires origin { IsSome (key_at res origin) }
    requires end { IsSome (key_at res end) }
    ensures code { result ≡ room_code (length keys.old) (length (met_by res origin end)) }
    ensures keys { keys.new ≡ filled keys.old (map key_told (met_by res origin end)) }
    ensures count { count.new ≡ length (met_by res origin end) }
{
    let total = walk_len(Walk::new(res, origin, end));
    *count = total;
    if keys.len() < total {
        return SMALL_BUFFER;
    }
    let mut walk = Walk::new(res, origin, end);
    for i in 0..total {
        let Some(key) = walk.next() else {
            unreachable!();
        };
        keys[i] = VoxelKey::of(key);
    }
    DONE
}

/// Tells the voxels of the segment between two points, at this edge.
fn ray_at(
    res: Res,
    origin: Point,
    end: Point,
    keys: &mut [VoxelKey],
    count: &mut usize,
    details: &mut Details,
) -> u32
    ensures code { result ≡ list_code (length keys.old) (ray_at res origin end) }
    ensures keys { keys.new ≡ list_left keys.old (ray_at res origin end) }
    ensures count { count.new ≡ count_left count.old (ray_at res origin end) }
    ensures details { details.new ≡ answer_details (ray_at res origin end) }
{
    if res.key_of(origin).is_none() {
        return Refusal::Map(MapFault::Outside { point: 1 }).tell(details);
    }
    if res.key_of(end).is_none() {
        return Refusal::Map(MapFault::Outside { point: 2 }).tell(details);
    }
    *details = Details::none();
    put_walk(res, origin, end, keys, count)
}

/// The voxels that the segment between two points meets, at this edge of a voxel, in their order
/// from the first end to the last.
#[unsafe(no_mangle)]
pub extern "C" fn octofix_ray(
    res: i64,
    origin: &PointNm,
    end: &PointNm,
    keys: &mut [VoxelKey],
    count: &mut usize,
    details: &mut Details,
) -> u32
    ensures code { result ≡ list_code (length keys.old) (ray_between res origin.now end.now) }
    ensures keys { keys.new ≡ list_left keys.old (ray_between res origin.now end.now) }
    ensures count { count.new ≡ count_left count.old (ray_between res origin.now end.now) }
    ensures details { details.new ≡ answer_details (ray_between res origin.now end.now) }
{
    match Res::new(res) {
        Ok(res) => ray_at(res, origin.point(), end.point(), keys, count, details),
        Err(_) => Refusal::BadResolution.tell(details),
    }
}
