//! Many points, answered in the order of the Morton codes of their voxels.
ghost use Rattle.std.specs.Prelude.{◌≡◌, ◌^◌, ◌<◌, ◌≤◌, All, IfOk, IsTrue, Some, length};
ghost use Rattle.oct_key.specs.Morton.{morton_of};
ghost use Rattle.oct_key.specs.Voxel.{Voxel, IsInMap, key_at};
ghost use Rattle.oct_query.specs.Paths.{ArePathsOf};
ghost use Rattle.octofix.specs.Batches.{AreToldOrKeyed, HasAnswers, IsKeyOf};
ghost use Rattle.octofix.specs.Points.{point_of};
ghost use Rattle.octofix.specs.Queries.{told_all, told_at};

use crate::queries::told;
use crate::types::{PointAnswer, PointNm};
use oct_key::{Block, Res, from_morton, morton};
use oct_map::OccMap;
use oct_num::Memory;
use oct_query::Paths;
use std::alloc::Global;

/// How many points are put in order at once, at most. Their keys take half a megabyte then.
pub const MOST_KEYED: usize = 1 << 16;

/// A key is the code of the voxel that holds a point times this, and the point's place in its
/// list.
const KEY_STEP: u64 = 1 << 16;

/// How many points are put in order at least. Fewer of them save little.
const LEAST_KEYED: usize = 16_384;

/// How many points are answered without paths at most. To make these takes longer than a few ways
/// from the root.
const MOST_ALONE: usize = 8;

/// How many pairs of neighbours in a list are looked at, at most.
const MOST_SAMPLED: usize = 256;

/// Answers points, by keys where that pays and there is memory for them.
pub fn answer_piece(
    alloc: Global,
    map: &OccMap,
    points: &[PointNm],
    depth: u32,
    answers: &mut [PointAnswer],
)
    requires few { length points.now ≤ 2 ^ 16 }
    requires room { length answers.old ≡ length points.now }
    ensures { answers.new ≡ told_all depth map.now points.now }
{
    if points.len() <= MOST_ALONE {
        answer_each(map, points, depth, answers);
        return;
    }
    if is_for_keys(map, points, depth) {
        if let Ok(keys) = sorted_keys(alloc, map, points, depth, answers) {
            answer_by_keys(map, points, keys.as_slice(), depth, answers);
            return;
        }
    }
    answer_in_turn(map, points, depth, answers);
}

/// Answers few points, each on its own.
fn answer_each(map: &OccMap, points: &[PointNm], depth: u32, answers: &mut [PointAnswer])
    requires { length answers.old ≡ length points.now }
    ensures { answers.new ≡ told_all depth map.now points.now }
{
    for (i, point) in points.iter().enumerate() {
        answers[i] = told(map.get(point.point(), depth));
    }
}

/// Answers one point after another, by the paths to those before it.
fn answer_in_turn(map: &OccMap, points: &[PointNm], depth: u32, answers: &mut [PointAnswer])
    requires { length answers.old ≡ length points.now }
    ensures { answers.new ≡ told_all depth map.now points.now }
{
    let mut paths = map.paths();
    for (i, point) in points.iter().enumerate() {
        answers[i] = told(map.get_by(&mut paths, point.point(), depth));
    }
}

/// Whether points are answered faster by keys: the map answers at this depth, they are many, and
/// most of them lie far from the next one in the list.
fn is_for_keys(map: &OccMap, points: &[PointNm], depth: u32) -> bool
    ensures { IsTrue result → HasAnswers depth map.now }
{
    let has_answers = depth == 16 || depth < 16 && !map.is_stale();
    has_answers && points.len() >= LEAST_KEYED && come_apart(map.tree().res(), points)
}

/// Whether most of the points lie far from the next one in the list, by a sample.
fn come_apart(res: Res, points: &[PointNm]) -> bool {
    let mut apart = 0u32;
    for pair in points.chunks(points.len() / MOST_SAMPLED + 1) {
        if pair.len() > 1 && are_apart(res, &pair[0], &pair[1]) {
            apart = apart.saturating_add(1);
        }
    }
    apart > MOST_SAMPLED as u32 / 2
}

/// Whether two points lie in different blocks of depth 12.
fn are_apart(res: Res, one: &PointNm, other: &PointNm) -> bool {
    match (res.key_of(one.point()), res.key_of(other.point())) {
        (Some(k), Some(l)) => ((k.x ^ l.x) | (k.y ^ l.y) | (k.z ^ l.z)) >> 4 != 0,
        _ => false,
    }
}

/// The keys of the points that lie in the map, in order. The others are answered.
fn sorted_keys(
    alloc: Global,
    map: &OccMap,
    points: &[PointNm],
    depth: u32,
    answers: &mut [PointAnswer],
) -> Result<Vec<u64>, Memory>
    requires few { length points.now ≤ 2 ^ 16 }
    requires room { length answers.old ≡ length points.now }
    ensures keys { IfOk result (λ keys. All (IsKeyOf map.now.tree.res points.now) keys.items) }
    ensures told { IfOk result (λ keys. AreToldOrKeyed (told_at depth map.now) points.now
        keys.items 0 (length points.now) answers.new) }
    ensures room { length answers.new ≡ length answers.old }
{
    let mut keys = Vec::with_capacity(alloc, points.len())?;
    for (i, point) in points.iter().enumerate() {
        let p = point.point();
        match map.tree().res().key_of(p) {
            Some(k) => keys.push(morton(k) * KEY_STEP + i as u64)?,
            None => answers[i] = told(map.get(p, depth)),
        }
    }
    keys.sort_unstable();
    Ok(keys)
}

/// Answers the points that have keys, in the order of these.
fn answer_by_keys(
    map: &OccMap,
    points: &[PointNm],
    keys: &[u64],
    depth: u32,
    answers: &mut [PointAnswer],
)
    requires answers { HasAnswers depth map.now }
    requires keys { All (IsKeyOf map.now.tree.res points.now) keys.now }
    requires told { AreToldOrKeyed (told_at depth map.now) points.now keys.now 0
        (length points.now) answers.old }
    requires room { length answers.old ≡ length points.now }
    ensures { answers.new ≡ told_all depth map.now points.now }
{
    let mut paths = map.paths();
    for key in keys {
        let place = (*key % KEY_STEP) as usize;
        answers[place] = answer_by_code(map, &mut paths, *key / KEY_STEP, depth);
    }
}

/// What a point in the voxel of a code is answered.
fn answer_by_code(map: &OccMap, paths: &mut Paths, code: u64, depth: u32) -> PointAnswer
    requires code { code < 2 ^ 48 }
    requires answers { HasAnswers depth map.now }
    requires paths { ArePathsOf map.now.tree paths.old }
    ensures answer { (p : PointNm) (k : Voxel) → key_at map.now.tree.res (point_of p) ≡ Some k
        → IsInMap k → morton_of k ≡ code → result ≡ told_at depth map.now p }
    ensures paths { ArePathsOf map.now.tree paths.new }
{
    let block = Block::of(from_morton(code), depth as u8);
    told(Ok(paths.query(map.tree(), block)))
}
