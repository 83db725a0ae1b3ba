//! The bricks that beams fill, with a table that mostly finds the one of a code again.
ghost use Rattle.std.specs.Prelude.{◌≡◌, ℕ, ◌+◌, ◌*◌, ◌^◌, ◌<◌, ◌↔◌, ◌⊎◌, [], All, Contains, OnOk};
ghost use Rattle.std.specs.Prelude.{length};
ghost use Rattle.oct_brick.specs.Masks.{HasCode};
ghost use Rattle.oct_brick.specs.Bricks.{scanned_codes, hit_codes, IsBrick};
ghost use Rattle.oct_scan.specs.Gathered.{IsCurrent, IsHeld};
ghost use Rattle.oct_scan.specs.Piled.{AreFew};

use oct_brick::{Brick, merge_bricks};
use oct_num::Memory;
use std::alloc::Global;
use std::marker::Model;
use std::mem::replace;

/// How many places a table has at first.
const LEAST: usize = 1 << 10;

/// How many it has at most: a megabyte, with which bricks of a dense scan are seldom forgotten.
const MOST: usize = 1 << 18;

/// How many bricks there may be beside twice as many as were left when they were last merged. A
/// dense scan seldom has so many.
const MOST_SPARE: usize = 1 << 18;

/// The bricks of the beams so far. A brick is joined with one of its code that is remembered, so
/// that mostly there is one for each code. They are merged where those that were forgotten become
/// too many, so that there are never more than twice as many as codes, and 2^18.
#[derive(Drop)]
pub struct BrickPile {
    bricks: Vec<Brick>,
    /// Where a brick may stand, by the place of its code here.
    places: Vec<u32>,
    /// How many were left when they were last merged, one for each code.
    merged: usize,
    alloc: Global,
}

impl Model for BrickPile {
    ghost use Rattle.std.specs.Prelude.{List};
    ghost use Rattle.oct_brick.specs.declared.brick.Brick.{Brick};
    ghost use Rattle.oct_scan.specs.Piled.{AreFew};

    ghost Value = { List Brick };

    ghost view = { λ pile. pile.bricks.items };

    ghost invariant = { λ pile. AreFew pile.merged pile.bricks.items };
}

impl BrickPile {
    /// No bricks, which take no memory.
    pub fn new(alloc: Global) -> BrickPile
        ensures { result ≡ [] }
    {
        BrickPile {
            bricks: Vec::new(alloc),
            places: Vec::new(alloc),
            merged: 0,
            alloc,
        }
    }

    /// Adds the voxels of a brick. Its numbers go on one by one, since a processor waits where two
    /// were written as two and are read as one.
    #[inline(always)]
    pub fn push(&mut self, brick: Brick) -> Result<(), Memory>
        requires bricks { All IsBrick self.old }
        requires brick { IsBrick brick }
        ensures scanned { OnOk result ((c : ℕ) →
            Contains (scanned_codes self.new) c ↔ IsHeld self.old brick c) }
        ensures hits { OnOk result ((c : ℕ) → Contains (hit_codes self.new) c ↔
            (Contains (hit_codes self.old) c ⊎ HasCode brick.code brick.hits c)) }
        ensures bricks { OnOk result (All IsBrick self.new) }
    {
        self.push_masks(brick.code, brick.scanned, brick.hits)
    }

    /// The same for the numbers of a brick.
    #[inline(never)]
    fn push_masks(&mut self, code: u64, scanned: u64, hits: u64) -> Result<(), Memory>
        requires bricks { All IsBrick self.old }
        requires brick { IsBrick (record { code = code; scanned = scanned; hits = hits }) }
        ensures scanned { OnOk result ((c : ℕ) → Contains (scanned_codes self.new) c ↔
            (Contains (scanned_codes self.old) c ⊎ HasCode code scanned c)) }
        ensures hits { OnOk result ((c : ℕ) → Contains (hit_codes self.new) c ↔
            (Contains (hit_codes self.old) c ⊎ HasCode code hits c)) }
        ensures bricks { OnOk result (All IsBrick self.new) }
    {
        let brick = Brick {
            code,
            scanned,
            hits,
        };
        let at = find(self.places.as_slice(), brick.code);
        if at < self.bricks.len() {
            let known = self.bricks[at];
            if known.code == brick.code {
                self.bricks[at] = known.joined(brick);
                return Ok(());
            }
        }
        make_room(
            self.alloc,
            &mut self.bricks,
            &mut self.places,
            &mut self.merged,
        )?;
        remember(&mut self.places, self.bricks.as_slice(), brick.code)?;
        self.bricks.push(brick)?;
        Ok(())
    }

    /// The bricks, in no order, and of a code there may be several.
    pub fn into_bricks(self) -> Vec<Brick>
        ensures bricks { result.items ≡ self }
        ensures few { (n : ℕ) × AreFew n result.items }
    {
        self.bricks
    }
}

/// Adds the brick of a place to a pile, where it isn't empty.
#[inline(always)]
pub fn put_away(pile: &mut BrickPile, brick: Brick) -> Result<(), Memory>
    requires bricks { All IsBrick pile.old }
    requires current { IsCurrent brick }
    ensures scanned { OnOk result ((c : ℕ) →
        Contains (scanned_codes pile.new) c ↔ IsHeld pile.old brick c) }
    ensures hits { OnOk result ((c : ℕ) →
        Contains (hit_codes pile.new) c ↔ Contains (hit_codes pile.old) c) }
    ensures bricks { OnOk result (All IsBrick pile.new) }
{
    if brick.scanned != 0 {
        pile.push(brick)?;
    }
    Ok(())
}

/// Merges the bricks, where there is no room for one more.
#[inline(always)]
fn make_room(
    alloc: Global,
    bricks: &mut Vec<Brick>,
    places: &mut Vec<u32>,
    merged: &mut usize,
) -> Result<(), Memory>
    requires bricks { All IsBrick bricks.old.items }
    requires few { AreFew merged.old bricks.old.items }
    ensures scanned { OnOk result ((c : ℕ) →
        Contains (scanned_codes bricks.old.items) c ↔ Contains (scanned_codes bricks.new.items) c) }
    ensures hits { OnOk result ((c : ℕ) →
        Contains (hit_codes bricks.old.items) c ↔ Contains (hit_codes bricks.new.items) c) }
    ensures bricks { OnOk result (All IsBrick bricks.new.items) }
    ensures few { AreFew merged.new bricks.new.items }
    ensures room { OnOk result (length bricks.new.items < 2 * merged.new + 2 ^ 18) }
{
    if bricks.len() >= merged.saturating_mul(2).saturating_add(MOST_SPARE) {
        *merged = 0;
        let unmerged = replace(bricks, Vec::new(alloc));
        *bricks = merge_bricks(alloc, unmerged)?;
        *merged = bricks.len();
        note_all(places, bricks.as_slice());
    }
    Ok(())
}

/// Where a brick of this code may stand.
#[inline(always)]
fn find(places: &[u32], code: u64) -> usize {
    let place = place_of(code, places.len());
    if place < places.len() {
        places[place] as usize
    } else {
        0
    }
}

/// Remembers that a brick of this code comes next in the list.
#[inline(always)]
fn remember(places: &mut Vec<u32>, bricks: &[Brick], code: u64) -> Result<(), Memory> {
    if bricks.len() >= places.len() && places.len() < MOST {
        widen(places, bricks)?;
    }
    note(places, code, bricks.len());
    Ok(())
}

/// Makes the table four times as long, and remembers all bricks anew.
#[inline(never)]
fn widen(places: &mut Vec<u32>, bricks: &[Brick]) -> Result<(), Memory> {
    places.resize(places.len().saturating_mul(4).clamp(LEAST, MOST), 0)?;
    note_all(places, bricks);
    Ok(())
}

/// Notes where all bricks stand.
fn note_all(places: &mut Vec<u32>, bricks: &[Brick]) {
    for (at, brick) in bricks.iter().enumerate() {
        note(places, brick.code, at);
    }
}

/// Notes where a brick of this code stands. An index of more than 32 bits is of no use.
#[inline(always)]
fn note(places: &mut Vec<u32>, code: u64, at: usize) {
    let place = place_of(code, places.len());
    if place < places.len() {
        places[place] = (at & 0xffff_ffff) as u32;
    }
}

/// The place of a code in a table, whose length is a power of two: bricks that lie near one another
/// have different ones.
#[inline(always)]
fn place_of(code: u64, length: usize) -> usize {
    ((code ^ (code >> 12) ^ (code >> 24)) as usize) & length.wrapping_sub(1)
}
