//! What stops the straight way from one point to another.
ghost use Rattle.std.specs.Prelude.{◌≡◌, ◌≤◌, length};
ghost use Rattle.octofix.specs.Asked.{asked};
ghost use Rattle.octofix.specs.Buffers.{list_code, list_left};
ghost use Rattle.octofix.specs.Casts.{cast_between, cast_code, key_left, stop_told, stops_along};
ghost use Rattle.octofix.specs.Codes.{answer_details};

use crate::answers::details_of;
use crate::handle::Octofix;
use crate::refusal::{CLEAR, DONE, Refusal, SMALL_BUFFER, UNKNOWN};
use crate::types::{CastStop, Details, PointNm, SegmentNm, VoxelKey};
use oct_cast::Cast;
use oct_map::OccMap;

/// The first voxel that stops the way between two points.
fn cast_between(
    map: &OccMap,
    origin: &PointNm,
    end: &PointNm,
    ignore_unknown: bool,
) -> Result<Cast, Refusal>
    ensures { result ≡ cast_between origin.now end.now ignore_unknown map.now }
{
    let stop = map.cast(origin.point(), end.point(), ignore_unknown)?;
    Ok(stop)
}

/// Tells where a cast ended.
fn tell_stop(answer: &Result<Cast, Refusal>, key: &mut VoxelKey) -> u32
    ensures code { result ≡ cast_code answer.now }
    ensures small { result ≤ 48 }
    ensures key { key.new ≡ key_left key.old answer.now }
{
    match *answer {
        Ok(Cast::Hit(k)) => {
            *key = VoxelKey::of(k);
            DONE
        }
        Ok(Cast::Unknown(k)) => {
            *key = VoxelKey::of(k);
            UNKNOWN
        }
        Ok(Cast::Clear) => CLEAR,
        Err(refusal) => refusal.code(),
    }
}

/// Casts from one point to another.
fn cast(
    map: &OccMap,
    origin: &PointNm,
    end: &PointNm,
    ignore_unknown: bool,
    key: &mut VoxelKey,
    details: &mut Details,
) -> u32
    ensures code { result ≡ cast_code (cast_between origin.now end.now ignore_unknown map.now) }
    ensures key { key.new
        ≡ key_left key.old (cast_between origin.now end.now ignore_unknown map.now) }
    ensures details { details.new
        ≡ answer_details (cast_between origin.now end.now ignore_unknown map.now) }
{
    let answer = cast_between(map, origin, end, ignore_unknown);
    *details = details_of(&answer);
    tell_stop(&answer, key)
}

/// What a segment of many is answered.
fn stop_along(map: &OccMap, segment: &SegmentNm, ignore_unknown: bool) -> CastStop
    ensures { result
        ≡ stop_told (cast_between segment.now.origin segment.now.end ignore_unknown map.now) }
{
    let answer = cast_between(map, &segment.origin, &segment.end, ignore_unknown);
    let mut key = VoxelKey { x: 0, y: 0, z: 0 };
    let code = tell_stop(&answer, &mut key);
    CastStop {
        key,
        code: code as u16,
    }
}

/// Tells what each segment is answered.
fn cast_all(
    map: &OccMap,
    segments: &[SegmentNm],
    ignore_unknown: bool,
    stops: &mut [CastStop],
) -> u32
    ensures code { result
        ≡ list_code (length stops.old) (stops_along segments.now ignore_unknown map.now) }
    ensures stops { stops.new
        ≡ list_left stops.old (stops_along segments.now ignore_unknown map.now) }
{
    if stops.len() < segments.len() {
        return SMALL_BUFFER;
    }
    for (i, segment) in segments.iter().enumerate() {
        stops[i] = stop_along(map, segment, ignore_unknown);
    }
    DONE
}

/// The first voxel that stops the straight way from one point to another: an occupied one, or an
/// unknown one where these aren't ignored.
#[unsafe(no_mangle)]
pub extern "C" fn octofix_cast(
    handle: &mut Octofix,
    origin: &PointNm,
    end: &PointNm,
    ignore_unknown: bool,
    key: &mut VoxelKey,
    details: &mut Details,
) -> u32
    ensures same { handle.new ≡ handle.old }
    ensures code { result
        ≡ cast_code (asked handle.old.slot.map (cast_between origin.now end.now ignore_unknown)) }
    ensures key { key.new
        ≡ key_left key.old
        (asked handle.old.slot.map (cast_between origin.now end.now ignore_unknown)) }
    ensures details { details.new
        ≡ answer_details
        (asked handle.old.slot.map (cast_between origin.now end.now ignore_unknown)) }
{
    match handle.map_mut() {
        Ok(map) => cast(map, origin, end, ignore_unknown, key, details),
        Err(refusal) => refusal.tell(details),
    }
}

/// The same of many segments, each with a code of its own.
#[unsafe(no_mangle)]
pub extern "C" fn octofix_cast_all(
    handle: &mut Octofix,
    segments: &[SegmentNm],
    ignore_unknown: bool,
    stops: &mut [CastStop],
) -> u32
    ensures same { handle.new ≡ handle.old }
    ensures code { result
        ≡ list_code (length stops.old)
        (asked handle.old.slot.map (stops_along segments.now ignore_unknown)) }
    ensures stops { stops.new
        ≡ list_left stops.old
        (asked handle.old.slot.map (stops_along segments.now ignore_unknown)) }
{
    match handle.map_mut() {
        Ok(map) => cast_all(map, segments, ignore_unknown, stops),
        Err(refusal) => refusal.code(),
    }
}
