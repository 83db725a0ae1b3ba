//! The map that a robot keeps: edited, scanned into and asked by points, within its limits.
ghost use Rattle.std.specs.Prelude.{◌≡◌, ℕ, ◌+◌, ◌^◌, ◌<◌, ◌≤◌, ◌⊎◌, ◌&&◌, nat_lt, pos, ◌≤ℤ◌, ◌<ℤ◌};
ghost use Rattle.std.specs.Prelude.{true, false, IsTrue, [], All, Some, None, is_some, IsSome};
ghost use Rattle.std.specs.Prelude.{IfSome, Ok, Err, IsOk, OnOk, OnErr, IfOk, IfErr};
ghost use Rattle.oct_key.specs.CubeOf.{cube_of};
ghost use Rattle.oct_key.specs.Voxel.{Voxel, IsInMap, key_at};
ghost use Rattle.oct_key.specs.Values.{SameValues};
ghost use Rattle.oct_odds.specs.Odds.{odds_of};
ghost use Rattle.oct_odds.specs.Update.{IsSmallEvent};
ghost use Rattle.oct_odds.specs.declared.event.Event.{Event};
ghost use Rattle.oct_values.specs.Events.{event_at, updated};
ghost use Rattle.oct_values.specs.Counts.{group_count, node_count};
ghost use Rattle.oct_arena.specs.declared.node.Node.{Node};
ghost use Rattle.oct_arena.specs.Entries.{live, spare};
ghost use Rattle.oct_tree.specs.Shape.{IsFresh, IsPruned};
ghost use Rattle.oct_edit.specs.Saturated.{IsSaturated};
ghost use Rattle.oct_edit.specs.Edits.{IsTidyAlong};
ghost use Rattle.oct_inner.specs.Changes.{IsSameButInner, IsShrunk};
ghost use Rattle.oct_query.specs.Paths.{ArePathsOf};
ghost use Rattle.oct_pose.specs.Reach.{IsInReach};
ghost use Rattle.oct_scan.specs.Beam.{IsTrust, sighting_of};
ghost use Rattle.oct_scan.specs.Outcome.{scan_fault, hit_count, free_count, TakesMemory};
ghost use Rattle.oct_map.specs.declared.fault.MapFault.{MapFault};
ghost use Rattle.oct_map.specs.Asked.{IsToAsk};
ghost use Rattle.oct_map.specs.Answers.{room_answer, edit_answer, edit_need, box_answer, box_fault};
ghost use Rattle.oct_map.specs.Answers.{most_noted, limit_answer, scan_answer, get_answer};
ghost use Rattle.oct_map.specs.Answers.{IsAnswerOrMemory};
ghost use Rattle.oct_map.specs.Outcome.{corner_events, corner_need, corner_box, corner_volume};
ghost use Rattle.oct_map.specs.Outcome.{hit_event, miss_event};
ghost use Rattle.oct_map.specs.Memory.{HasRunOut};
ghost use Rattle.oct_map.specs.Notes.{LacksNotes, NotesFew};
ghost use Rattle.oct_map.specs.Marks.{KeepsMark};
ghost use Rattle.oct_map.specs.Lists.{list_answer};
ghost use Rattle.oct_map.specs.Edits.{outcome_in, scan_need, IsMapEdited, IsMapRefused, IsRoomy};
ghost use Rattle.oct_map.specs.Edits.{IsReadied, KeepsAllElse, LacksEntries, ReservesFew};
ghost use Rattle.oct_map.specs.Edits.{entries_of, IsSureOf};
ghost use Rattle.oct_map.specs.Edits.{fitted_groups};

mod copying;
mod keeping;
mod loading;
mod marking;
mod merging;
mod restoring;
mod saving;
mod shifting;
mod surveying;

use crate::done::ScanDone;
use crate::fault::MapFault;
use crate::limits::Limits;
use crate::mark::Mark;
use oct_edit::{ScanUpdate, box_need, touch, touch_all, touch_box};
use oct_inner::{maximum_likelihood, prune, refresh};
use oct_key::{Block, Point, Res, Window};
use oct_odds::{Event, OddsModel};
use oct_query::{BlockList, Counts, Paths, counts, list, query};
use oct_scan::{Scan, ScanOdds, update_bricks};
use oct_tree::OccTree;
use std::alloc::Global;
use std::marker::Model;

/// The groups that an edit of one voxel may need: one for each depth from 0 to 15.
const EDIT_NEED: u128 = 16;

/// The most blocks, unknown ones among them, that a list may have.
const MOST_LISTED: u64 = 1_000_000;

/// The most voxels of a box that is edited while a mark stands.
const MOST_NOTED: u64 = 1_000_000;

/// The depth of the voxels.
const VOXEL_DEPTH: u32 = 16;

/// An occupancy map: a value for each voxel, or none where nothing is known of it.
#[derive(Drop)]
pub struct OccMap {
    tree: OccTree,
    is_stale: bool,
    /// The update box: what `limit` sets, and none where scans aren't restricted.
    window: Option<Window>,
    limits: Limits,
    mark: Mark,
    alloc: Global,
}

impl Model for OccMap {
    ghost use Rattle.oct_map.specs.Map.{Map, IsMap};

    ghost Value = { Map };

    ghost view = { λ m. record {
      tree = m.tree;
      is_stale = m.is_stale;
      update_box = m.window;
      max_groups = m.limits.max_groups;
      max_cells = m.limits.max_cells;
      mark = m.mark;
    } };

    ghost invariant = { λ m. IsMap (record {
      tree = m.tree;
      is_stale = m.is_stale;
      update_box = m.window;
      max_groups = m.limits.max_groups;
      max_cells = m.limits.max_cells;
      mark = m.mark;
    }) };
}

impl OccMap {
    ghost use Rattle.oct_map.specs.Map.{Map, IsMap, HasRoomFor, values_of, ground_of};

    /// The map of the unknown world, without a mark. Takes no memory.
    pub fn new(alloc: Global, res: Res, odds: OddsModel, limits: Limits) -> OccMap
        ensures exact { result ≡ record {
          tree = record { groups = []; root = Node.Absent; res = res; odds = odds_of odds };
          is_stale = false;
          update_box = None;
          max_groups = limits.max_groups;
          max_cells = limits.max_cells;
          mark = None;
        } }
        ensures unknown { (k : Voxel) → values_of result k ≡ None }
        ensures map { IsMap result }
    {
        OccMap {
            tree: OccTree::new(alloc, res, odds),
            is_stale: false,
            window: None,
            limits,
            mark: Mark::none(),
            alloc,
        }
    }

    /// The tree of the map.
    pub fn tree(&self) -> &OccTree
        ensures exact { result.now ≡ self.now.tree }
        ensures needed { group_count (values_of self.now) ≤ self.now.max_groups }
        ensures map { IsMap self.now }
    {
        &self.tree
    }

    /// Whether inner values may be out of date: a lazy edit or scan came after the last refresh.
    pub fn is_stale(&self) -> bool
        ensures exact { result ≡ self.now.is_stale }
        ensures map { IsMap self.now }
    {
        self.is_stale
    }

    /// Applies the event to the voxel that holds the point.
    ///
    /// A lazy edit leaves inner values and pruning to a later refresh. The map prunes itself only
    /// where its groups and sixteen more are more than it may have, and refuses the edit as full
    /// only where they still are then.
    pub fn edit(&mut self, p: Point, event: Event, lazy: bool) -> Result<(), MapFault>
        requires { IsSmallEvent event }
        ensures answer { IsAnswerOrMemory
            (edit_answer (ground_of self.old) (values_of self.old) p) result }
        ensures memory { result ≡ Err MapFault.Memory
            → IsOk (edit_answer (ground_of self.old) (values_of self.old) p)
            × (LacksEntries self.old edit_need ⊎ LacksNotes self.old.mark 1) }
        ensures edited { OnOk result (IsMapEdited self.old self.new
            (event_at (key_at self.old.tree.res p) event) edit_need lazy) }
        ensures refused { IfErr result (λ fault. IsMapRefused self.old self.new fault edit_need) }
        ensures reserved { ReservesFew self.old self.new edit_need }
        ensures outside { key_at self.old.tree.res p ≡ None → self.new ≡ self.old }
        ensures saturated { (k : Voxel) → key_at self.old.tree.res p ≡ Some k
            → IsSaturated self.old.tree.odds event (values_of self.old k)
            → OnOk result (IsRoomy self.old edit_need self.new.tree) }
        ensures mark { KeepsMark self.old self.new }
        ensures noted { NotesFew self.old.mark self.new.mark
            (event_at (key_at self.old.tree.res p) event) 1 }
        ensures sure { (count : ℕ) → IsSureOf self.old (count + 1)
            → IsSome (key_at self.old.tree.res p) → IsOk result × IsSureOf self.new count }
        ensures setup { ground_of self.new ≡ ground_of self.old }
        ensures map { IsMap self.new }
    {
        let Some(k) = self.tree.res().key_of(p) else {
            return Err(MapFault::Outside { point: 1 });
        };
        self.make_room(EDIT_NEED)?;
        self.mark.reserve(1)?;
        self.mark.note_class(&self.tree, k);
        touch(&mut self.tree, k, event, lazy);
        self.is_stale |= lazy;
        Ok(())
    }

    /// Whether the map is sure of this many edits of one voxel each: one after another, none of
    /// them is refused but for a point outside the map, and none takes memory.
    pub fn is_sure_of(&self, count: u32) -> bool
        ensures sure { result ≡ true → IsSureOf self.now count }
        ensures unsure { result ≡ false → IsSureOf self.now count → ⊥ }
        ensures map { IsMap self.now }
    {
        let need = EDIT_NEED * u128::from(count);
        let arena = self.tree.arena();
        need <= u128::from(arena.spare())
            && u128::from(arena.live()) + need <= u128::from(self.limits.max_groups)
            && self.mark.has_room(u64::from(count))
    }

    /// Applies the event to each voxel of the box whose corners are the voxels that hold the two
    /// points, both included. It isn't lazy.
    ///
    /// An edit is refused for a corner outside the map, then where on some axis the first corner
    /// lies beyond the second, then where a mark stands and the box has more than 1,000,000 voxels,
    /// and then as full where the groups that the values need and those that the box may need are
    /// more than the limit.
    pub fn edit_box(&mut self, lo: Point, hi: Point, event: Event) -> Result<(), MapFault>
        requires { IsSmallEvent event }
        ensures answer { IsAnswerOrMemory
            (box_answer (ground_of self.old) (is_some self.old.mark) (values_of self.old) lo hi)
            result }
        ensures memory { result ≡ Err MapFault.Memory
            → IsOk (box_answer (ground_of self.old) (is_some self.old.mark) (values_of self.old)
            lo hi)
            × (LacksEntries self.old
            (corner_need (key_at self.old.tree.res lo) (key_at self.old.tree.res hi))
            ⊎ LacksNotes self.old.mark (corner_volume (key_at self.old.tree.res lo)
            (key_at self.old.tree.res hi))) }
        ensures edited { OnOk result (IsMapEdited self.old self.new
            (corner_events (key_at self.old.tree.res lo) (key_at self.old.tree.res hi) event)
            (corner_need (key_at self.old.tree.res lo) (key_at self.old.tree.res hi)) false) }
        ensures refused { IfErr result (λ fault. IsMapRefused self.old self.new fault
            (corner_need (key_at self.old.tree.res lo) (key_at self.old.tree.res hi))) }
        ensures reserved { ReservesFew self.old self.new
            (corner_need (key_at self.old.tree.res lo) (key_at self.old.tree.res hi)) }
        ensures faulty { IsSome (box_fault (is_some self.old.mark) (key_at self.old.tree.res lo)
            (key_at self.old.tree.res hi)) → self.new ≡ self.old }
        ensures mark { KeepsMark self.old self.new }
        ensures noted { NotesFew self.old.mark self.new.mark
            (corner_events (key_at self.old.tree.res lo) (key_at self.old.tree.res hi) event)
            (corner_volume (key_at self.old.tree.res lo) (key_at self.old.tree.res hi)) }
        ensures path { (k : Voxel) → IsInMap k → IsSome (corner_events (key_at self.old.tree.res lo)
            (key_at self.old.tree.res hi) event k) → OnOk result (IsTidyAlong self.new.tree k) }
        ensures setup { ground_of self.new ≡ ground_of self.old }
        ensures map { IsMap self.new }
    {
        let Some(low) = self.tree.res().key_of(lo) else {
            return Err(MapFault::Outside { point: 1 });
        };
        let Some(high) = self.tree.res().key_of(hi) else {
            return Err(MapFault::Outside { point: 2 });
        };
        let Some(window) = Window::new(low, high) else {
            return Err(MapFault::BadBox);
        };
        let count = window.volume();
        if self.is_too_wide(count) {
            return Err(MapFault::WideWhileTracked { count });
        }
        self.make_room(box_need(low, high))?;
        self.mark.reserve(count)?;
        self.mark.note_box(&self.tree, low, high);
        touch_box(&mut self.tree, low, high, event);
        Ok(())
    }

    /// Restricts the scans that come to the box whose corners are the voxels that hold the two
    /// points, both included. Nothing else looks at the box, and only `limit`, `no_limit` and a
    /// snapshot of version 2 change it. Takes no memory.
    ///
    /// It is refused for a corner outside the map, and then where on some axis the first corner
    /// lies beyond the second. The box that stood stays then.
    pub fn limit(&mut self, lo: Point, hi: Point) -> Result<(), MapFault>
        ensures answer { result ≡ limit_answer (ground_of self.old) lo hi }
        ensures limited { OnOk result (self.new ≡ record self.old {
          update_box = corner_box (key_at self.old.tree.res lo) (key_at self.old.tree.res hi);
        }) }
        ensures refused { OnErr result (self.new ≡ self.old) }
        ensures map { IsMap self.new }
    {
        let Some(low) = self.tree.res().key_of(lo) else {
            return Err(MapFault::Outside { point: 1 });
        };
        let Some(high) = self.tree.res().key_of(hi) else {
            return Err(MapFault::Outside { point: 2 });
        };
        let Some(window) = Window::new(low, high) else {
            return Err(MapFault::BadBox);
        };
        self.window = Some(window);
        Ok(())
    }

    /// Lifts the restriction of scans to a box.
    pub fn no_limit(&mut self)
        ensures exact { self.new ≡ record self.old { update_box = None } }
        ensures map { IsMap self.new }
    {
        self.window = None;
    }

    /// The box to which scans are restricted, where one stands.
    pub fn window(&self) -> Option<Window>
        ensures exact { result ≡ self.now.update_box }
        ensures map { IsMap self.now }
    {
        self.window
    }

    /// Applies a hit to each voxel that the scan hits, and a miss to each one that it frees, as far
    /// as they lie in the update box, where one stands. What they add are the scan's own log-odds,
    /// where it has them, else those of the map's model.
    ///
    /// A scan is refused before any voxel changes: first for its own fault, and then as full where
    /// the groups that the values need and those that the scan may need are more than the limit.
    /// The map prunes itself only where its own groups and those are. A lazy scan leaves inner
    /// values and pruning to a later refresh. Memory runs out before anything changes, or where
    /// there is room for the scan: no full map tells it once it has pruned itself.
    pub fn scan(&mut self, scan: &Scan, lazy: bool) -> Result<ScanDone, MapFault>
        requires points { All IsInReach scan.now.points }
        requires range { IfSome scan.now.range (λ r. (pos 0 ≤ℤ r) × (r <ℤ pos (10 ^ 16))) }
        requires odds { IfSome scan.now.odds IsTrust }
        ensures answer { IsAnswerOrMemory (scan_answer (ground_of self.old) (values_of self.old)
            (sighting_of scan.now)) result }
        ensures memory { result ≡ Err MapFault.Memory
            → TakesMemory self.old.tree.res (sighting_of scan.now) self.old.max_cells }
        ensures room { result ≡ Err MapFault.Memory
            → HasRunOut self.old self.new (sighting_of scan.now) }
        ensures edited { OnOk result (IsMapEdited self.old self.new
            (outcome_in self.old (sighting_of scan.now))
            (scan_need self.old (sighting_of scan.now)) lazy) }
        ensures refused { IfErr result (λ fault. IsMapRefused self.old self.new fault
            (scan_need self.old (sighting_of scan.now))) }
        ensures reserved { ReservesFew self.old self.new
            (scan_need self.old (sighting_of scan.now)) }
        ensures faulty { IsSome (scan_fault self.old.tree.res (sighting_of scan.now)
            self.old.max_cells) → self.new ≡ self.old }
        ensures path { (IsTrue lazy → ⊥) → (k : Voxel) → IsInMap k
            → IsSome (outcome_in self.old (sighting_of scan.now) k)
            → OnOk result (IsTidyAlong self.new.tree k) }
        ensures mark { KeepsMark self.old self.new }
        ensures noted { NotesFew self.old.mark self.new.mark
            (outcome_in self.old (sighting_of scan.now))
            (hit_count self.old.tree.res self.old.update_box (sighting_of scan.now)
            + free_count self.old.tree.res self.old.update_box (sighting_of scan.now)) }
        ensures setup { ground_of self.new ≡ ground_of self.old }
        ensures map { IsMap self.new }
    {
        let (hit, miss) = odds_of_scan(self.tree.odds(), scan.odds);
        let window = self.window();
        let set = update_bricks(
            self.alloc,
            scan,
            self.tree.res(),
            self.limits.max_cells,
            window,
        )?;
        self.make_room(u128::from(set.need()))?;
        self.mark.reserve(set.hit_count() + set.free_count())?;
        let bricks = set.bricks();
        self.mark.note_bricks(&self.tree, bricks);
        let update = ScanUpdate { bricks, hit, miss };
        touch_all(&mut self.tree, update, lazy);
        self.is_stale |= lazy;
        Ok(ScanDone {
            hits: set.hit_count(),
            frees: set.free_count(),
        })
    }

    /// The largest known value among the voxels of the block of that depth around the point, or
    /// `None` where all of them are unknown.
    ///
    /// It is refused for a point outside the map, then for a depth above 16, and then on a stale
    /// map for a depth below 16.
    pub fn get(&self, p: Point, depth: u32) -> Result<Option<i32>, MapFault>
        ensures answer { result
            ≡ get_answer (ground_of self.now) self.now.is_stale (values_of self.now) p depth }
        ensures map { IsMap self.now }
    {
        let block = self.block_to_ask(p, depth)?;
        Ok(query(self.tree(), block))
    }

    /// Paths for [`get_by`](OccMap::get_by), as long as the map doesn't change.
    pub fn paths(&self) -> Paths
        ensures paths { ArePathsOf self.now.tree result }
        ensures map { IsMap self.now }
    {
        Paths::new(self.tree())
    }

    /// The same as [`get`](OccMap::get), by paths that are kept. Where one point after another is
    /// asked for, it goes down only from where their ways part.
    pub fn get_by(&self, paths: &mut Paths, p: Point, depth: u32) -> Result<Option<i32>, MapFault>
        requires paths { ArePathsOf self.now.tree paths.old }
        ensures answer { result
            ≡ get_answer (ground_of self.now) self.now.is_stale (values_of self.now) p depth }
        ensures paths { ArePathsOf self.now.tree paths.new }
        ensures map { IsMap self.now }
    {
        let block = self.block_to_ask(p, depth)?;
        Ok(paths.query(self.tree(), block))
    }

    /// The block of that depth around the point, where the map answers for it, or why it doesn't.
    fn block_to_ask(&self, p: Point, depth: u32) -> Result<Block, MapFault>
        ensures ok { IfOk result (λ block. IsToAsk self.now p depth (cube_of block)) }
        ensures err { IfErr result (λ fault. Err fault
            ≡ get_answer (ground_of self.now) self.now.is_stale (values_of self.now) p depth) }
        ensures map { IsMap self.now }
    {
        let Some(k) = self.tree.res().key_of(p) else {
            return Err(MapFault::Outside { point: 1 });
        };
        if depth > VOXEL_DEPTH {
            return Err(MapFault::BadDepth);
        }
        if self.is_stale && depth < VOXEL_DEPTH {
            return Err(MapFault::Stale);
        }
        Ok(Block::of(k, depth as u8))
    }

    /// The blocks of that depth that meet the box whose corners hold the two points, both included,
    /// and aren't unknown, each with the largest known value among its voxels. They come by
    /// ascending x, then y, then z.
    ///
    /// It is refused for a corner outside the map, then for a depth above 16, then where on some
    /// axis the first corner lies beyond the second, then on a stale map above the voxels, and then
    /// where more than 1,000,000 blocks meet the box, unknown ones among them. A block that meets
    /// the box answers for all its voxels.
    pub fn list(&self, lo: Point, hi: Point, depth: u32) -> Result<BlockList, MapFault>
        ensures answer { IsAnswerOrMemory (list_answer (ground_of self.now) self.now.is_stale
            (values_of self.now) lo hi depth) result }
        ensures memory { result ≡ Err MapFault.Memory
            → IsOk (list_answer (ground_of self.now) self.now.is_stale (values_of self.now) lo hi
            depth)
            × (list_answer (ground_of self.now) self.now.is_stale (values_of self.now) lo hi depth
            ≡ Ok [] → ⊥) }
        ensures map { IsMap self.now }
    {
        let Some(first) = self.tree.res().key_of(lo) else {
            return Err(MapFault::Outside { point: 1 });
        };
        let Some(last) = self.tree.res().key_of(hi) else {
            return Err(MapFault::Outside { point: 2 });
        };
        if depth > VOXEL_DEPTH {
            return Err(MapFault::BadDepth);
        }
        if Window::new(first, last).is_none() {
            return Err(MapFault::BadBox);
        }
        if self.is_stale() && depth < VOXEL_DEPTH {
            return Err(MapFault::Stale);
        }
        let blocks = list(
            self.alloc,
            &self.tree,
            first,
            last,
            depth as u8,
            MOST_LISTED,
        )?;
        Ok(blocks)
    }

    /// Prunes the map, and answers how many groups and nodes it has: the least that its values
    /// need.
    pub fn counts(&mut self) -> Counts
        ensures groups { result.groups ≡ group_count (values_of self.old) }
        ensures nodes { result.nodes ≡ node_count (values_of self.old) }
        ensures values { SameValues (values_of self.old) (values_of self.new) }
        ensures stale { self.new.is_stale ≡ self.old.is_stale }
        ensures pruned { IsPruned self.new.tree }
        ensures same { IsPruned self.old.tree → self.new ≡ self.old }
        ensures groups_kept { IsShrunk self.old.tree self.new.tree }
        ensures notes { self.new.mark ≡ self.old.mark }
        ensures mark { KeepsMark self.old self.new }
        ensures setup { ground_of self.new ≡ ground_of self.old }
        ensures map { IsMap self.new }
    {
        self.prune();
        counts(&self.tree)
    }

    /// Makes the inner values those of the voxels again, after lazy edits and scans.
    pub fn refresh(&mut self)
        ensures fresh { IsFresh self.new.tree }
        ensures same { IsFresh self.old.tree → self.new.tree ≡ self.old.tree }
        ensures nodes { IsSameButInner self.old.tree self.new.tree }
        ensures values { SameValues (values_of self.old) (values_of self.new) }
        ensures stale { self.new.is_stale ≡ false }
        ensures notes { self.new.mark ≡ self.old.mark }
        ensures mark { KeepsMark self.old self.new }
        ensures pruned { IsPruned self.old.tree → IsPruned self.new.tree }
        ensures setup { ground_of self.new ≡ ground_of self.old }
        ensures map { IsMap self.new }
    {
        refresh(&mut self.tree);
        self.is_stale = false;
    }

    /// Gives back the groups that the values don't need.
    pub fn prune(&mut self)
        ensures pruned { IsPruned self.new.tree }
        ensures same { IsPruned self.old.tree → self.new ≡ self.old }
        ensures groups { IsShrunk self.old.tree self.new.tree }
        ensures fresh { IsFresh self.old.tree → IsFresh self.new.tree }
        ensures values { SameValues (values_of self.old) (values_of self.new) }
        ensures stale { self.new.is_stale ≡ self.old.is_stale }
        ensures notes { self.new.mark ≡ self.old.mark }
        ensures mark { KeepsMark self.old self.new }
        ensures setup { ground_of self.new ≡ ground_of self.old }
        ensures map { IsMap self.new }
    {
        prune(&mut self.tree);
    }

    /// Makes each known voxel as sure as it can be: occupied ones get the upper bound of the
    /// log-odds and free ones the lower. Renews the inner values and prunes the map too.
    pub fn max_likelihood(&mut self)
        ensures values { SameValues
            (updated self.old.tree.odds (λ _. Some Event.Likely) (values_of self.old))
            (values_of self.new) }
        ensures fresh { IsFresh self.new.tree }
        ensures pruned { IsPruned self.new.tree }
        ensures stale { self.new.is_stale ≡ false }
        ensures groups { live self.new.tree.groups ≤ live self.old.tree.groups }
        ensures entries { entries_of self.new ≡ entries_of self.old }
        ensures notes { self.new.mark ≡ self.old.mark }
        ensures mark { KeepsMark self.old self.new }
        ensures setup { ground_of self.new ≡ ground_of self.old }
        ensures map { IsMap self.new }
    {
        // Called for its clauses alone: that the log-odds meet the conditions on a model.
        self.tree.odds();
        maximum_likelihood(&mut self.tree);
        self.is_stale = false;
    }

    /// Makes the map that of the unknown world again, without a mark, and gives back all its
    /// memory.
    pub fn clear(&mut self)
        ensures exact { self.new ≡ record {
          tree = record {
            groups = [];
            root = Node.Absent;
            res = self.old.tree.res;
            odds = self.old.tree.odds;
          };
          is_stale = false;
          update_box = self.old.update_box;
          max_groups = self.old.max_groups;
          max_cells = self.old.max_cells;
          mark = None;
        } }
        ensures unknown { (k : Voxel) → values_of self.new k ≡ None }
        ensures stale { self.new.is_stale ≡ false }
        ensures pruned { IsPruned self.new.tree }
        ensures setup { ground_of self.new ≡ ground_of self.old }
        ensures map { IsMap self.new }
    {
        self.tree = OccTree::new(self.alloc, self.tree.res(), self.tree.odds());
        self.is_stale = false;
        self.mark.unset();
    }

    /// Whether a mark stands, and a box of this many voxels has too many to be noted.
    fn is_too_wide(&self, count: u64) -> bool
        ensures { result ≡ (is_some self.now.mark && nat_lt most_noted count) }
    {
        self.mark.is_set() && count > MOST_NOTED
    }

    /// Makes room for this many groups, or refuses. Prunes the map only where there isn't room
    /// otherwise.
    fn make_room(&mut self, need: u128) -> Result<(), MapFault>
        requires { need < 2 ^ 127 }
        ensures answer { IsAnswerOrMemory
            (room_answer self.old.max_groups (values_of self.old) need) result }
        ensures memory { result ≡ Err MapFault.Memory
            → IsOk (room_answer self.old.max_groups (values_of self.old) need)
            × LacksEntries self.old need }
        ensures room { OnOk result (need ≤ spare self.new.tree.groups) }
        ensures few { OnOk result (live self.new.tree.groups + need ≤ self.new.max_groups) }
        ensures full { (groups more : ℕ) → result ≡ Err (MapFault.Full groups more)
            → IsPruned self.new.tree × IsShrunk self.old.tree self.new.tree }
        ensures readied { IsReadied self.old self.new need }
        ensures map { IsMap self.new }
    {
        self.prune_to_fit(need)?;
        self.tree.reserve(need as u32)?;
        Ok(())
    }

    /// Prunes the map where this many groups more are more than it may have, and refuses where they
    /// still are then.
    fn prune_to_fit(&mut self, need: u128) -> Result<(), MapFault>
        requires { need < 2 ^ 127 }
        ensures answer { result ≡ room_answer self.old.max_groups (values_of self.old) need }
        ensures few { OnOk result (live self.new.tree.groups + need ≤ self.new.max_groups) }
        ensures kept { HasRoomFor self.old need → self.new ≡ self.old }
        ensures shrunk { IsShrunk self.old.tree self.new.tree }
        ensures groups { live self.new.tree.groups ≡ fitted_groups self.old need }
        ensures full { OnErr result (IsPruned self.new.tree) }
        ensures keeps { KeepsAllElse self.old self.new }
        ensures map { IsMap self.new }
    {
        let most = u128::from(self.limits.max_groups);
        if u128::from(self.tree.arena().live()) + need > most {
            self.prune();
            let groups = self.tree.arena().live();
            if u128::from(groups) + need > most {
                return Err(MapFault::Full {
                    groups: u64::from(groups),
                    need,
                });
            }
        }
        Ok(())
    }
}

/// What a hit and a miss of a scan add: its own log-odds, where it has them, else the map's.
fn odds_of_scan(model: OddsModel, own: Option<ScanOdds>) -> (i32, i32)
    requires { IfSome own IsTrust }
    ensures hit { Event.Add result.0 ≡ hit_event (odds_of model) own }
    ensures miss { Event.Add result.1 ≡ miss_event (odds_of model) own }
    ensures small { IsSmallEvent (Event.Add result.0) × IsSmallEvent (Event.Add result.1) }
{
    match own {
        Some(own) => (own.hit, own.miss),
        None => (model.hit, model.miss),
    }
}
