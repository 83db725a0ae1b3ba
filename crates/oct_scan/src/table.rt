//! The bricks that beams fill, with a table in which those of a dense scan stand.
ghost use Rattle.std.specs.Prelude.{◌≡◌, ℕ, ◌↔◌, ◌⊎◌, [], All, Contains, IfOk, OnOk};
ghost use Rattle.std.specs.Prelude.{◌++◌, None, IfSome, IsNone};
ghost use Rattle.oct_brick.specs.Masks.{HasCode};
ghost use Rattle.oct_brick.specs.Bricks.{scanned_codes, hit_codes, IsBrick};
ghost use Rattle.oct_key.specs.Morton.{morton_of};
ghost use Rattle.oct_key.specs.Voxel.{Voxel, IsInMap};
ghost use Rattle.oct_scan.specs.Gathered.{EndsAt, IsCurrent, IsHeld, IsWayAdded};
ghost use Rattle.oct_scan.specs.Piled.{AreFew, HoldSame, filled};

use crate::beam::PlacedBeam;
use crate::density::are_dense;
use crate::marks::{PLACES, mark_steps};
use crate::pile::{BrickPile, put_away};
use oct_brick::Brick;
use oct_key::Key;
use oct_num::Memory;
use oct_ray::NearWalk;
use std::alloc::Global;
use std::marker::Model;

/// The bricks of the beams so far. In a dense scan those that beams pass stand in a table, by the
/// last bits of their codes, so that a voxel is set with no search. A brick goes to the pile where
/// another one takes its place.
#[derive(Drop)]
pub struct BrickTable {
    pile: BrickPile,
    /// No voxel of them is hit, and some are empty. A scan that isn't dense has none.
    places: Vec<Brick>,
}

impl Model for BrickTable {
    ghost use Rattle.std.specs.Prelude.{List, ◌++◌, All};
    ghost use Rattle.oct_brick.specs.declared.brick.Brick.{Brick};
    ghost use Rattle.oct_scan.specs.Gathered.{IsCurrent};
    ghost use Rattle.oct_scan.specs.Piled.{filled};

    ghost Value = { List Brick };

    ghost view = { λ table. table.pile ++ filled table.places.items };

    ghost invariant = { λ table. All IsCurrent table.places.items };
}

impl BrickTable {
    /// No bricks, and no table. They take no memory.
    fn sparse(alloc: Global) -> BrickTable
        ensures { result ≡ [] }
    {
        BrickTable {
            pile: BrickPile::new(alloc),
            places: Vec::new(alloc),
        }
    }

    /// No bricks, with a table where these beams from a voxel are worth one.
    pub fn for_beams(alloc: Global, start: Key, beams: &[PlacedBeam]) -> Result<BrickTable, Memory>
        ensures { IfOk result (λ table. table ≡ []) }
    {
        if are_dense(start, beams) {
            BrickTable::dense(alloc)
        } else {
            Ok(BrickTable::sparse(alloc))
        }
    }

    /// No bricks, with a table for a dense scan.
    fn dense(alloc: Global) -> Result<BrickTable, Memory>
        ensures { IfOk result (λ table. table ≡ []) }
    {
        let mut places = Vec::new(alloc);
        places.resize(PLACES, Brick::around(0))?;
        Ok(BrickTable {
            pile: BrickPile::new(alloc),
            places,
        })
    }

    /// Adds the voxels of a brick.
    #[inline(always)]
    pub fn push(&mut self, brick: Brick) -> Result<(), Memory>
        requires bricks { All IsBrick self.old }
        requires brick { IsBrick brick }
        ensures scanned { OnOk result ((c : ℕ) →
            Contains (scanned_codes self.new) c ↔ IsHeld self.old brick c) }
        ensures hits { OnOk result ((c : ℕ) → Contains (hit_codes self.new) c ↔
            (Contains (hit_codes self.old) c ⊎ HasCode brick.code brick.hits c)) }
        ensures bricks { OnOk result (All IsBrick self.new) }
    {
        self.pile.push(brick)
    }

    /// Adds the voxels of a walk but that of the end, none of them as hit, where there is a table;
    /// else it gives the walk back.
    #[inline(always)]
    pub fn mark_way(&mut self, walk: NearWalk) -> Result<Option<NearWalk>, Memory>
        requires bricks { All IsBrick self.old }
        ensures added { IfOk result (λ left. IsNone left → (end : Voxel) → IsInMap end
            → EndsAt end walk → IsWayAdded None (morton_of end) walk self.old self.new) }
        ensures same { IfOk result (λ left. IfSome left (λ back.
            (back ≡ walk) × (self.new ≡ self.old))) }
    {
        if self.places.len() != PLACES {
            return Ok(Some(walk));
        }
        mark_steps(&mut self.pile, self.places.as_mut_slice(), walk)?;
        Ok(None)
    }

    /// The bricks, in no order, and of a code there may be several.
    pub fn into_bricks(self) -> Result<Vec<Brick>, Memory>
        requires { All IsBrick self }
        ensures same { IfOk result (λ bricks. HoldSame self bricks.items) }
        ensures few { IfOk result (λ bricks. (n : ℕ) × AreFew n bricks.items) }
    {
        let mut pile = self.pile;
        pour(&mut pile, self.places.as_slice())?;
        Ok(pile.into_bricks())
    }
}

/// Adds the bricks of places that aren't empty to a pile.
fn pour(pile: &mut BrickPile, places: &[Brick]) -> Result<(), Memory>
    requires bricks { All IsBrick (pile.old ++ filled places.now) }
    requires places { All IsCurrent places.now }
    ensures { OnOk result (HoldSame (pile.old ++ filled places.now) pile.new) }
{
    for &brick in places {
        put_away(pile, brick)?;
    }
    Ok(())
}
