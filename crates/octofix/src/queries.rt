//! What is known at points.
ghost use Rattle.std.specs.Prelude.{◌≡◌, length};
ghost use Rattle.octofix.specs.Asked.{asked};
ghost use Rattle.octofix.specs.Buffers.{list_code, list_left};
ghost use Rattle.octofix.specs.Codes.{of_map};
ghost use Rattle.octofix.specs.Queries.{answer_told, answers_at, value_at, value_code, value_left};

use crate::batches::{MOST_KEYED, answer_piece};
use crate::handle::Octofix;
use crate::refusal::{DONE, Refusal, SMALL_BUFFER, UNKNOWN};
use crate::types::{PointAnswer, PointNm};
use oct_map::{MapFault, OccMap};
use std::alloc::Global;

/// Tells the value at a point.
fn get(map: &OccMap, point: &PointNm, depth: u32, value: &mut i32) -> u32
    ensures code { result ≡ value_code (value_at depth point.now map.now) }
    ensures value { value.new ≡ value_left value.old (value_at depth point.now map.now) }
{
    match map.get(point.point(), depth) {
        Ok(Some(known)) => {
            *value = known;
            DONE
        }
        Ok(None) => UNKNOWN,
        Err(fault) => Refusal::Map(fault).code(),
    }
}

/// What a point of many is told of an answer of the map.
pub fn told(answer: Result<Option<i32>, MapFault>) -> PointAnswer
    ensures { result ≡ answer_told (of_map answer) }
{
    match answer {
        Ok(Some(value)) => PointAnswer { value, code: DONE },
        Ok(None) => PointAnswer {
            value: 0,
            code: UNKNOWN,
        },
        Err(fault) => PointAnswer {
            value: 0,
            code: Refusal::Map(fault).code(),
        },
    }
}

/// Tells what each point is answered.
fn get_all(
    alloc: Global,
    map: &OccMap,
    points: &[PointNm],
    depth: u32,
    answers: &mut [PointAnswer],
) -> u32
    ensures code { result
        ≡ list_code (length answers.old) (answers_at depth points.now map.now) }
    ensures answers { answers.new
        ≡ list_left answers.old (answers_at depth points.now map.now) }
{
    if answers.len() < points.len() {
        return SMALL_BUFFER;
    }
    let mut done = 0;
    while done < points.len() {
        let end = points.len().min(done + MOST_KEYED);
        answer_piece(
            alloc,
            map,
            &points[done..end],
            depth,
            &mut answers[done..end],
        );
        done = end;
    }
    DONE
}

/// The largest known value among the voxels of the block of that depth around the point. The value
/// is written only where one is known; unknown space has a code of its own (`UNKNOWN`).
#[unsafe(no_mangle)]
pub extern "C" fn octofix_get(
    handle: &mut Octofix,
    point: &PointNm,
    depth: u32,
    value: &mut i32,
) -> u32
    ensures same { handle.new ≡ handle.old }
    ensures code { result ≡ value_code (asked handle.old.slot.map (value_at depth point.now)) }
    ensures value { value.new
        ≡ value_left value.old (asked handle.old.slot.map (value_at depth point.now)) }
{
    match handle.map_mut() {
        Ok(map) => get(map, point, depth, value),
        Err(refusal) => refusal.code(),
    }
}

/// The same of many points, each with a code of its own.
#[unsafe(no_mangle)]
pub extern "C" fn octofix_get_all(
    alloc: Global,
    handle: &mut Octofix,
    points: &[PointNm],
    depth: u32,
    answers: &mut [PointAnswer],
) -> u32
    ensures same { handle.new ≡ handle.old }
    ensures code { result
        ≡ list_code (length answers.old)
        (asked handle.old.slot.map (answers_at depth points.now)) }
    ensures answers { answers.new
        ≡ list_left answers.old (asked handle.old.slot.map (answers_at depth points.now)) }
{
    match handle.map_mut() {
        Ok(map) => get_all(alloc, map, points, depth, answers),
        Err(refusal) => refusal.code(),
    }
}
