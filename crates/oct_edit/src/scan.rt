//! The events of a scan on all its voxels, in one pass over the tree.
ghost use Rattle.std.specs.Prelude.{◌≡◌, ◌+◌, ◌-◌, ◌*◌, ◌/◌, ◌%◌, ◌^◌, ◌==◌, true, ◌≤◌};
ghost use Rattle.std.specs.Prelude.{◌≤ℤ◌, ◌<◌, ◌⊎◌, [], All, Bool, IsTrue, IsSome, IfSome, IfNone};
ghost use Rattle.std.specs.Prelude.{Some, None, false, length, leb};
ghost use Rattle.std.specs.Bool.{OnTrue, OnFalse};
ghost use Rattle.std.specs.List.Sorted.{IsNonDecreasingBy, IsPartitionPoint};
ghost use Rattle.oct_key.specs.Voxel.{Voxel, IsInMap};
ghost use Rattle.oct_key.specs.Block.{Cube, block_of};
ghost use Rattle.oct_odds.specs.Odds.{odds_of};
ghost use Rattle.oct_odds.specs.Update.{IsSmallEvent};
ghost use Rattle.oct_odds.specs.declared.event.Event.{Event};
ghost use Rattle.oct_values.specs.Events.{event_at, is_listed};
ghost use Rattle.oct_values.specs.Needs.{event_need};
ghost use Rattle.oct_brick.specs.Bricks.{IsBrick, AreAscending};
ghost use Rattle.oct_brick.specs.Voxels.{hit_voxels, freed_voxels};
ghost use Rattle.oct_arena.specs.declared.node.Node.{Node};
ghost use Rattle.oct_arena.specs.Entries.{live, spare};
ghost use Rattle.oct_arena.specs.Nodes.{link_of, value_of};
ghost use Rattle.oct_tree.specs.Tree.{IsLinked, IsPlace, node_in, block_in};
ghost use Rattle.oct_tree.specs.Shape.{IsWellFormed};
ghost use Rattle.oct_edit.specs.Saturated.{IsSaturated, TakesFrom};
ghost use Rattle.oct_edit.specs.Edits.{IsEdited, IsEagerEdit, IsLazyEdit, IsTidyAlong};
ghost use Rattle.oct_edit.specs.Steps.{IsTouched};
ghost use Rattle.oct_edit.specs.Listed.{update_of};
ghost use Rattle.oct_edit.specs.Parts.{IsUpdateIn, IsAtRest, IsFirstChild, need_in};
ghost use Rattle.oct_edit.specs.Scan.{events_of, AreDisjoint};
ghost use Rattle.oct_edit.specs.Bricks.{listed, listed_one, brick_child, event_of_bit, CanApply};
ghost use Rattle.oct_edit.specs.Bricks.{IsApplied, AreAlike, AreCut, IsFirstBrick, HasGap};
ghost use Rattle.oct_edit.specs.Bricks.{FillsBlock, IsPlain, IsPart};

use crate::voxel::{apply_at, close, enter, note_eager, stays};
use oct_arena::Node;
use oct_brick::Brick;
use oct_odds::{Event, OddsModel};
use oct_tree::{OccTree, Place};

/// The depth of the block of a brick.
const BRICK_DEPTH: u8 = 14;

/// The depth of the blocks of which bricks are the children.
const LAST_DEPTH: u8 = 13;

/// The voxels that a scan changes, and what each kind adds.
#[derive(Clone, Copy)]
pub struct ScanUpdate<'a> {
    /// The voxels that are hit and those that are freed, in the order of the bricks' codes, each
    /// brick once.
    pub bricks: &'a [Brick],
    /// What a hit adds to a voxel.
    pub hit: i32,
    /// What a miss adds to a voxel.
    pub miss: i32,
}

/// The voxels of a brick that a scan changes, or some of them, and the event of each kind.
#[derive(Clone, Copy)]
struct BrickUpdate {
    brick: Brick,
    hit: Event,
    miss: Event,
}

/// Applies the events of a scan, each to its own voxels and to no others, in one pass over the
/// tree.
///
/// It changes the values as [`touch`](crate::touch) does voxel by voxel. The tree has room for a
/// group under each block that events reach. A leaf of which no voxel takes anything isn't
/// expanded.
pub fn touch_all(tree: &mut OccTree, update: ScanUpdate, lazy: bool)
    requires well_formed { IsWellFormed tree.old }
    requires bricks { All IsBrick update.bricks.now }
    requires ascend { AreAscending update.bricks.now }
    requires room { event_need (events_of (listed update)) ≤ spare tree.old.groups }
    requires hit { IsSmallEvent (Event.Add update.hit) }
    requires miss { IsSmallEvent (Event.Add update.miss) }
    ensures edited { IsEdited tree.old tree.new (events_of (listed update.entry)) }
    ensures eager { (IsTrue lazy → ⊥)
        → IsEagerEdit tree.old tree.new (events_of (listed update.entry)) }
    ensures lazily { IsTrue lazy
        → IsLazyEdit tree.old tree.new (events_of (listed update.entry)) }
    ensures path { (IsTrue lazy → ⊥) → (k : Voxel) → IsInMap k
        → IsSome (events_of (listed update.entry) k) → IsTidyAlong tree.new k }
    ensures groups { live tree.new.groups
        ≤ live tree.old.groups + event_need (events_of (listed update.entry)) }
    ensures room { live tree.new.groups + spare tree.new.groups
        ≡ live tree.old.groups + spare tree.old.groups }
{
    if update.bricks.is_empty() {
        return;
    }
    let known = tree.tidiness();
    touch_within(tree, Place::Root, 0, update, lazy);
    note_eager(tree, known, lazy);
}

/// Applies the events of the update, whose bricks lie in the block of the place of that depth, and
/// closes the groups from there on.
fn touch_within(tree: &mut OccTree, p: Place, depth: u8, update: ScanUpdate, lazy: bool)
    requires linked { IsLinked tree.old }
    requires place { IsPlace tree.old p }
    requires depth { (b : Cube) → block_in tree.old p ≡ Some b → b.depth ≡ depth }
    requires deep { depth ≤ 14 }
    requires bricks { All IsBrick update.bricks.now }
    requires ascend { AreAscending update.bricks.now }
    requires alike { AreAlike depth update.bricks.now }
    requires inside { (b : Cube) → block_in tree.old p ≡ Some b → IsUpdateIn b (listed update) }
    requires room { (b : Cube) → block_in tree.old p ≡ Some b →
        need_in (events_of (listed update)) b ≤ spare tree.old.groups }
    requires hit { IsSmallEvent (Event.Add update.hit) }
    requires miss { IsSmallEvent (Event.Add update.miss) }
    ensures touched { (b : Cube) → block_in tree.old p ≡ Some b →
        IsTouched tree.old tree.new b (events_of (listed update.entry)) lazy }
    ensures room { (b : Cube) → block_in tree.old p ≡ Some b →
        spare tree.old.groups ≤
        spare tree.new.groups + need_in (events_of (listed update.entry)) b }
{
    if depth == BRICK_DEPTH {
        if let Some(brick) = update.bricks.first().copied() {
            touch_brick(tree, p, update.of_brick(brick), lazy);
        }
        return;
    }
    let (hit, miss) = (Event::Add(update.hit), Event::Add(update.miss));
    if is_at_rest(tree, p, update.bricks, hit, miss) {
        return;
    }
    let id = enter(tree, p);
    let mut rest = update;
    while let Some(i) = rest.first_child(depth) {
        let (part, others) = rest.split(depth, i);
        touch_within(tree, Place::Slot(id, i), depth + 1, part, lazy);
        rest = others;
    }
    close(tree, p, id, lazy);
}

/// Applies the events of a brick, which is the block of the place.
fn touch_brick(tree: &mut OccTree, p: Place, update: BrickUpdate, lazy: bool)
    requires { CanApply tree.old p 14 update }
    ensures { IsApplied tree.old tree.new p update lazy }
{
    if let Some(value) = update.plain_brick(tree, p, lazy) {
        plant_brick(tree, p, update, value);
        return;
    }
    if is_at_rest(tree, p, &[update.brick], update.hit, update.miss) {
        return;
    }
    let id = enter(tree, p);
    let mut rest = update;
    while rest.brick.scanned != 0 {
        let i = (rest.brick.scanned.trailing_zeros() / 8) as u8;
        let octet = octet_bits(i);
        touch_octet(tree, Place::Slot(id, i), rest.within(octet), lazy);
        rest = rest.within(!octet);
    }
    close(tree, p, id, lazy);
}

/// Applies the misses of a brick of which nothing is known, and of which something stays unknown:
/// the freed voxels get this value, and so does the node over them.
#[inline(always)]
fn plant_brick(tree: &mut OccTree, p: Place, update: BrickUpdate, value: i32)
    requires can { CanApply tree.old p 14 update }
    requires plain { IsPlain tree.old p update value }
    requires gap { (b : Cube) → b.depth ≡ 14 → IsUpdateIn b (listed_one update)
        → HasGap b (listed_one update) }
    ensures { IsApplied tree.old tree.new p update false }
{
    let id = tree.split_to(p, value);
    let mut rest = update;
    while rest.brick.scanned != 0 {
        let i = (rest.brick.scanned.trailing_zeros() / 8) as u8;
        let octet = octet_bits(i);
        plant_octet(tree, Place::Slot(id, i), rest.within(octet), value);
        rest = rest.within(!octet);
    }
}

/// Applies the events of an octet of a brick, which is the block of the place.
fn touch_octet(tree: &mut OccTree, p: Place, update: BrickUpdate, lazy: bool)
    requires { CanApply tree.old p 15 update }
    ensures { IsApplied tree.old tree.new p update lazy }
{
    if let Some(value) = update.plain_value(tree, p, lazy) {
        plant_octet(tree, p, update, value);
        return;
    }
    if is_at_rest(tree, p, &[update.brick], update.hit, update.miss) {
        return;
    }
    let id = enter(tree, p);
    let mut rest = update;
    while rest.brick.scanned != 0 {
        let place = rest.brick.scanned.trailing_zeros();
        let i = (place % 8) as u8;
        let bit = 1_u64 << place;
        rest.apply_bit(tree, Place::Slot(id, i), bit);
        rest = rest.within(!bit);
    }
    close(tree, p, id, lazy);
}

/// Applies the misses of an octet of which nothing is known: the freed voxels get this value. Where
/// they are all, so does the octet as a whole.
#[inline(always)]
fn plant_octet(tree: &mut OccTree, p: Place, update: BrickUpdate, value: i32)
    requires can { CanApply tree.old p 15 update }
    requires plain { IsPlain tree.old p update value }
    ensures { IsApplied tree.old tree.new p update false }
{
    if update.has_gap() {
        plant_voxels(tree, p, update, value);
    } else {
        tree.set_place(p, Node::Leaf(value));
    }
}

/// The same where something of the octet stays unknown: the node over it gets the value too.
#[inline(always)]
fn plant_voxels(tree: &mut OccTree, p: Place, update: BrickUpdate, value: i32)
    requires can { CanApply tree.old p 15 update }
    requires plain { IsPlain tree.old p update value }
    requires gap { (b : Cube) → b.depth ≡ 15 → IsUpdateIn b (listed_one update)
        → HasGap b (listed_one update) }
    ensures { IsApplied tree.old tree.new p update false }
{
    let id = tree.split_to(p, value);
    let mut rest = update;
    while rest.brick.scanned != 0 {
        let place = rest.brick.scanned.trailing_zeros();
        let i = (place % 8) as u8;
        let bit = 1_u64 << place;
        tree.set_place(Place::Slot(id, i), Node::Leaf(value));
        rest = rest.within(!bit);
    }
}

/// The eight bits of an octet.
fn octet_bits(i: u8) -> u64
    requires { i < 8 }
    ensures { result ≡ 2 ^ (8 * i + 8) - 2 ^ (8 * i) }
{
    255 << (8 * i)
}

impl BrickUpdate {
    /// The part of the voxels whose bits are set in a mask.
    fn within(self, mask: u64) -> BrickUpdate
        ensures { IsPart self result mask }
    {
        BrickUpdate {
            brick: self.brick.within(mask),
            ..self
        }
    }

    /// The value that the freed voxels of a brick get, where its group can be made with it: where
    /// some voxel stays unknown.
    #[inline(always)]
    fn plain_brick(&self, tree: &OccTree, p: Place, lazy: bool) -> Option<i32>
        requires place { IsPlace tree.now p }
        requires brick { IsBrick self.now.brick }
        requires miss { IsSmallEvent self.now.miss }
        ensures plain { IfSome result (IsPlain tree.now p self.now) }
        ensures gap { IfSome result (λ _. (b : Cube) → b.depth ≡ 14
            → IsUpdateIn b (listed_one self.now) → HasGap b (listed_one self.now)) }
        ensures eager { IfSome result (λ _. lazy ≡ false) }
    {
        if !self.brick.scanned == 0 {
            return None;
        }
        self.plain_value(tree, p, lazy)
    }

    /// The value that freed voxels get, where nothing is known at the place and no voxel is hit. A
    /// lazy edit leaves the value of the node over them to a later refresh.
    #[inline(always)]
    fn plain_value(&self, tree: &OccTree, p: Place, lazy: bool) -> Option<i32>
        requires place { IsPlace tree.now p }
        requires miss { IsSmallEvent self.now.miss }
        ensures plain { IfSome result (IsPlain tree.now p self.now) }
        ensures eager { IfSome result (λ _. lazy ≡ false) }
    {
        if lazy {
            return None;
        }
        if self.brick.hits != 0 {
            return None;
        }
        match tree.node(p) {
            Node::Absent => tree.odds().apply(self.miss, None),
            _ => None,
        }
    }

    /// Whether some voxel of the octet isn't among those that change.
    #[inline(always)]
    fn has_gap(&self) -> bool
        requires { IsBrick self.now.brick }
        ensures some { IsTrue result → (b : Cube) → b.depth ≡ 15
            → IsUpdateIn b (listed_one self.now) → HasGap b (listed_one self.now) }
        ensures none { OnFalse result ((b : Cube) → b.depth ≡ 15
            → IsUpdateIn b (listed_one self.now) → FillsBlock b (listed_one self.now)) }
    {
        let octet = octet_bits((self.brick.scanned.trailing_zeros() / 8) as u8);
        octet & !self.brick.scanned != 0
    }

    /// Applies the event of the voxel of a bit at its place, which links no group.
    // Two calls, and not one with the event that is chosen: so each of them has one kind of event.
    fn apply_bit(&self, tree: &mut OccTree, p: Place, bit: u64)
        requires linked { IsLinked tree.old }
        requires place { IsPlace tree.old p }
        requires plain { link_of (node_in tree.old p) ≡ None }
        requires hit { IsSmallEvent self.now.hit }
        requires miss { IsSmallEvent self.now.miss }
        ensures spare { spare tree.new.groups ≡ spare tree.old.groups }
        ensures touched { (k : Voxel) (lazy : Bool) → IsInMap k
            → block_in tree.old p ≡ Some (block_of 16 k)
            → IsTouched tree.old tree.new (block_of 16 k)
            (event_at (Some k) (event_of_bit self.now bit)) lazy }
    {
        if self.brick.hits & bit != 0 {
            apply_at(tree, p, self.hit);
        } else {
            apply_at(tree, p, self.miss);
        }
    }
}

impl<'a> ScanUpdate<'a> {
    /// The update of one of the bricks.
    fn of_brick(&self, brick: Brick) -> BrickUpdate
        ensures brick { result.brick ≡ brick }
        ensures hit { result.hit ≡ Event.Add self.now.hit }
        ensures miss { result.miss ≡ Event.Add self.now.miss }
    {
        BrickUpdate {
            brick,
            hit: Event::Add(self.hit),
            miss: Event::Add(self.miss),
        }
    }

    /// The child with the first brick, where all bricks lie in one block of that depth.
    fn first_child(&self, depth: u8) -> Option<u8>
        requires depth { depth ≤ 13 }
        requires bricks { All IsBrick self.now.bricks.now }
        requires order { IsNonDecreasingBy (λ b. brick_child depth b.code) self.now.bricks.now }
        ensures some { IfSome result
            (λ i. IsFirstChild depth (listed self.now).hits (listed self.now).frees i) }
        ensures brick { IfSome result (λ i. IsFirstBrick depth self.now.bricks.now i) }
        ensures none { IfNone result (self.now.bricks.now ≡ []) }
    {
        match self.bricks.first().copied() {
            Some(brick) => Some(brick.child_index(depth)),
            None => None,
        }
    }

    /// Parts the update where all its bricks lie in one block of that depth: those in child i, the
    /// first one that has some, and those in later ones.
    fn split(self, depth: u8, i: u8) -> (ScanUpdate<'a>, ScanUpdate<'a>)
        requires depth { depth ≤ 13 }
        requires first { IsFirstBrick depth self.bricks.now i }
        requires ascend { AreAscending self.bricks.now }
        requires alike { AreAlike depth self.bricks.now }
        ensures cut { AreCut depth i self.entry.bricks.now result.0.bricks.now result.1.bricks.now }
        ensures hit { (result.0.hit ≡ self.entry.hit) × (result.1.hit ≡ self.entry.hit) }
        ensures miss { (result.0.miss ≡ self.entry.miss) × (result.1.miss ≡ self.entry.miss) }
    {
        let (bricks, later) = split_bricks(self.bricks, depth, i);
        let part = ScanUpdate { bricks, ..self };
        let others = ScanUpdate {
            bricks: later,
            ..self
        };
        (part, others)
    }
}

/// Parts bricks of one block of that depth: those in child i, the first one that has some, and
/// those in later ones.
fn split_bricks<'a>(bricks: &'a [Brick], depth: u8, i: u8) -> (&'a [Brick], &'a [Brick])
    requires depth { depth ≤ 13 }
    requires first { IsFirstBrick depth bricks.now i }
    requires ascend { AreAscending bricks.now }
    requires alike { AreAlike depth bricks.now }
    ensures { AreCut depth i bricks.entry.now result.0.now result.1.now }
{
    if depth == LAST_DEPTH {
        return bricks.split_at(1);
    }
    if depth == LAST_DEPTH - 1 {
        return bricks.split_at(count_front(bricks, depth, i));
    }
    bricks.split_at(bricks.partition_point(|b| b.child_index(depth) <= i))
}

/// How many bricks at the front lie in the children up to i, counted one by one: of few bricks this
/// takes fewer steps than halving, and steps that a processor foresees.
fn count_front(bricks: &[Brick], depth: u8, i: u8) -> usize
    requires depth { depth ≤ 13 }
    requires order { IsNonDecreasingBy (λ b. brick_child depth b.code) bricks.now }
    ensures bound { result ≤ length bricks.now }
    ensures point { IsPartitionPoint (λ b. leb (brick_child depth b.code) i ≡ true)
        (λ b. leb (brick_child depth b.code) i ≡ false) bricks.now result }
{
    let mut count = 0;
    'front: while count < bricks.len() {
        if bricks[count].child_index(depth) > i {
            return count;
        }
        count += 1;
    }
    count
}

/// Whether the value that the place gives its voxels takes nothing from the events of these bricks:
/// the first one on each voxel that is hit, and the other one on each that is freed.
#[inline(always)]
fn is_at_rest(tree: &OccTree, p: Place, bricks: &[Brick], hit: Event, miss: Event) -> bool
    requires place { IsPlace tree.now p }
    requires bricks { All IsBrick bricks.now }
    requires apart { AreDisjoint (hit_voxels bricks.now) (freed_voxels bricks.now) }
    requires some { (k : Voxel) × IsInMap k
        × IsSome (events_of (update_of bricks.now hit miss) k) }
    ensures rests { IsTrue result →
        IsAtRest tree.now.odds (update_of bricks.now hit miss) (value_of (node_in tree.now p)) }
    ensures bounds { tree.now.odds.min ≤ℤ tree.now.odds.max }
    ensures takes { OnFalse result ((k : Voxel) × IsInMap k
        × TakesFrom tree.now.odds (events_of (update_of bricks.now hit miss))
        (λ _. value_of (node_in tree.now p)) k) }
{
    let value = tree.node(p).value();
    let odds = tree.odds();
    value.is_some() && hits_rest(odds, bricks, hit, value) && misses_rest(odds, bricks, miss, value)
}

/// Whether no voxel is hit, or the value takes nothing from a hit.
#[inline(always)]
fn hits_rest(odds: OddsModel, bricks: &[Brick], hit: Event, value: Option<i32>) -> bool
    requires { All IsBrick bricks.now }
    ensures rests { IsTrue result →
        (hit_voxels bricks.now ≡ []) ⊎ IsSaturated (odds_of odds) hit value }
    ensures moved { OnFalse result ((k : Voxel) × IsInMap k ×
        (is_listed (hit_voxels bricks.now) k ≡ true) ×
        (IsSaturated (odds_of odds) hit value → ⊥)) }
{
    stays(odds, hit, value) || !has_hits(bricks)
}

/// Whether no voxel is freed, or the value takes nothing from a miss.
#[inline(always)]
fn misses_rest(odds: OddsModel, bricks: &[Brick], miss: Event, value: Option<i32>) -> bool
    requires { All IsBrick bricks.now }
    ensures rests { IsTrue result →
        (freed_voxels bricks.now ≡ []) ⊎ IsSaturated (odds_of odds) miss value }
    ensures moved { OnFalse result ((k : Voxel) × IsInMap k ×
        (is_listed (freed_voxels bricks.now) k ≡ true) ×
        (IsSaturated (odds_of odds) miss value → ⊥)) }
{
    stays(odds, miss, value) || !has_frees(bricks)
}

/// Whether some voxel of the bricks is hit.
#[inline(always)]
fn has_hits(bricks: &[Brick]) -> bool
    requires { All IsBrick bricks.now }
    ensures none { OnFalse result (hit_voxels bricks.now ≡ []) }
    ensures some { OnTrue result ((k : Voxel) × IsInMap k ×
        (is_listed (hit_voxels bricks.now) k ≡ true)) }
{
    for &brick in bricks {
        if brick.hits != 0 {
            return true;
        }
    }
    false
}

/// Whether some voxel of the bricks is freed.
#[inline(always)]
fn has_frees(bricks: &[Brick]) -> bool
    requires { All IsBrick bricks.now }
    ensures none { OnFalse result (freed_voxels bricks.now ≡ []) }
    ensures some { OnTrue result ((k : Voxel) × IsInMap k ×
        (is_listed (freed_voxels bricks.now) k ≡ true)) }
{
    for &brick in bricks {
        if brick.frees() != 0 {
            return true;
        }
    }
    false
}
