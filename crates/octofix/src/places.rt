//! Points of a sensor's frame, placed in that of the map, without a map.
ghost use Rattle.std.specs.Prelude.{◌≡◌, All, IfErr, IfOk, Ok, Err, length, map};
ghost use Rattle.oct_pose.specs.Reach.{IsInReach};
ghost use Rattle.octofix.specs.Buffers.{filled, list_code, list_left, room_code};
ghost use Rattle.octofix.specs.Codes.{answer_details};
ghost use Rattle.octofix.specs.Places.{placed_by, places_by};
ghost use Rattle.octofix.specs.Points.{point_of};

use crate::refusal::{DONE, Refusal, SMALL_BUFFER};
use crate::scans::{is_in_reach, test_points};
use crate::types::{Details, PointNm, PoseNm};
use oct_pose::Pose;

/// The pose by which points are placed, where all of them can be.
fn pose_for(pose: PoseNm, points: &[PointNm]) -> Result<Pose, Refusal>
    ensures places { IfOk result (λ by.
        places_by pose points.now ≡ Ok (map (placed_by by) points.now)) }
    ensures near { IfOk result (λ _. All IsInReach (map point_of points.now)) }
    ensures refused { IfErr result (λ refusal. places_by pose points.now ≡ Err refusal) }
{
    let origin = pose.at.point();
    if !is_in_reach(origin) {
        return Err(Refusal::BadArgument { index: 0 });
    }
    test_points(points)?;
    let by = Pose::new(origin, pose.w, pose.x, pose.y, pose.z)?;
    Ok(by)
}

/// Where a pose takes a point.
fn placed(by: &Pose, point: PointNm) -> PointNm
    requires { IsInReach (point_of point) }
    ensures { result ≡ placed_by by.now point }
{
    PointNm::of(by.apply(point.point()))
}

/// Puts where a pose takes points into a buffer.
fn put_placed(by: &Pose, points: &[PointNm], places: &mut [PointNm]) -> u32
    requires { All IsInReach (map point_of points.now) }
    ensures code { result ≡ room_code (length places.old) (length points.now) }
    ensures places { places.new ≡ filled places.old (map (placed_by by.now) points.now) }
{
    if places.len() < points.len() {
        return SMALL_BUFFER;
    }
    for (i, point) in points.iter().enumerate() {
        places[i] = placed(by, *point);
    }
    DONE
}

/// Where a pose takes points of the sensor's frame in that of the map: each is turned by the
/// quaternion, rounded to whole numbers, and moved, as by a scan.
///
/// It is refused, before anything is written, for the place of the sensor or a point out of its
/// range, for the quaternion 0, and where the buffer is too small.
#[unsafe(no_mangle)]
pub extern "C" fn octofix_place(
    pose: &PoseNm,
    points: &[PointNm],
    places: &mut [PointNm],
    details: &mut Details,
) -> u32
    ensures code { result ≡ list_code (length places.old) (places_by pose.now points.now) }
    ensures places { places.new ≡ list_left places.old (places_by pose.now points.now) }
    ensures details { details.new ≡ answer_details (places_by pose.now points.now) }
{
    match pose_for(*pose, points) {
        Ok(by) => {
            *details = Details::none();
            put_placed(&by, points, places)
        }
        Err(refusal) => refusal.tell(details),
    }
}
