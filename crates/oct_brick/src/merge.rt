//! Bricks in the order of their codes, those of one code joined.
ghost use Rattle.std.specs.Prelude.{ℕ, ◌^◌, ◌<◌, ◌≤◌, ◌↔◌, All, Contains, IfOk, OnErr, OnOk};
ghost use Rattle.std.specs.Prelude.{length, vec_len};
ghost use Rattle.std.specs.List.Sorted.{IsNonDecreasing};
ghost use Rattle.oct_brick.specs.Bricks.{scanned_codes, hit_codes, IsBrick, AreAscending};
ghost use Rattle.oct_brick.specs.Merge.{HasAdded, IsCodeOf};
ghost use Rattle.oct_key.specs.PlaceKeys.{AreKeys};

use crate::brick::Brick;
use oct_key::sorted_keys;
use oct_num::Memory;
use std::alloc::Global;

/// How many bricks have keys at most. A key is the code of a brick times this, and the brick's
/// place in the list.
const MOST_KEYED: u64 = 1 << 22;

/// The same voxels as bricks in the order of their codes, with one brick for each code. No bricks
/// need no memory.
pub fn merge_bricks(alloc: Global, bricks: Vec<Brick>) -> Result<Vec<Brick>, Memory>
    requires { All IsBrick bricks.items }
    ensures scanned { IfOk result (λ merged. (c : ℕ) →
        Contains (scanned_codes bricks.items) c ↔ Contains (scanned_codes merged.items) c) }
    ensures hits { IfOk result (λ merged. (c : ℕ) →
        Contains (hit_codes bricks.items) c ↔ Contains (hit_codes merged.items) c) }
    ensures bricks { IfOk result (λ merged. All IsBrick merged.items) }
    ensures ascend { IfOk result (λ merged. AreAscending merged.items) }
    ensures few { IfOk result (λ merged. vec_len merged ≤ vec_len bricks) }
    ensures memory { OnErr result (0 < vec_len bricks) }
{
    if bricks.len() as u64 > MOST_KEYED {
        return merge_many(alloc, bricks);
    }
    let keys = sorted_keys(alloc, &bricks, MOST_KEYED, |brick| brick.code)?;
    merge_by_keys(alloc, &bricks, &keys)
}

/// The same by the keys of all bricks, in order.
fn merge_by_keys(alloc: Global, bricks: &[Brick], keys: &[u64]) -> Result<Vec<Brick>, Memory>
    requires bricks { All IsBrick bricks.now }
    requires keys { AreKeys IsCodeOf (2 ^ 22) bricks.now keys.now }
    requires order { IsNonDecreasing keys.now }
    ensures scanned { IfOk result (λ merged. (c : ℕ) →
        Contains (scanned_codes bricks.now) c ↔ Contains (scanned_codes merged.items) c) }
    ensures hits { IfOk result (λ merged. (c : ℕ) →
        Contains (hit_codes bricks.now) c ↔ Contains (hit_codes merged.items) c) }
    ensures bricks { IfOk result (λ merged. All IsBrick merged.items) }
    ensures ascend { IfOk result (λ merged. AreAscending merged.items) }
    ensures few { IfOk result (λ merged. vec_len merged ≤ length bricks.now) }
    ensures memory { OnErr result (0 < length bricks.now) }
{
    let mut merged = Vec::with_capacity(alloc, bricks.len())?;
    for &key in keys {
        add(&mut merged, bricks[(key % MOST_KEYED) as usize])?;
    }
    Ok(merged)
}

/// The same for bricks that are too many for keys.
fn merge_many(alloc: Global, bricks: Vec<Brick>) -> Result<Vec<Brick>, Memory>
    requires { All IsBrick bricks.items }
    ensures scanned { IfOk result (λ merged. (c : ℕ) →
        Contains (scanned_codes bricks.items) c ↔ Contains (scanned_codes merged.items) c) }
    ensures hits { IfOk result (λ merged. (c : ℕ) →
        Contains (hit_codes bricks.items) c ↔ Contains (hit_codes merged.items) c) }
    ensures bricks { IfOk result (λ merged. All IsBrick merged.items) }
    ensures ascend { IfOk result (λ merged. AreAscending merged.items) }
    ensures few { IfOk result (λ merged. vec_len merged ≤ vec_len bricks) }
{
    let mut bricks = bricks;
    bricks.sort_unstable_by_key(|brick| brick.code);
    let mut merged = Vec::new(alloc);
    for &brick in &bricks {
        add(&mut merged, brick)?;
    }
    Ok(merged)
}

/// Adds a brick to a list, or joins it to the last one, where that has its code.
#[inline(always)]
fn add(merged: &mut Vec<Brick>, brick: Brick) -> Result<(), Memory>
    ensures { OnOk result (HasAdded brick merged.old.items merged.new.items) }
{
    let count = merged.len();
    if count > 0 && merged[count - 1].code == brick.code {
        merged[count - 1] = merged[count - 1].joined(brick);
    } else {
        merged.push(brick)?;
    }
    Ok(())
}
