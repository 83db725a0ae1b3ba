//! Maps are made and given back, and tell what they go by.
ghost use Rattle.std.specs.Prelude.{◌≡◌, ◌≢◌, None, Some, Ok, true, false, OnOk, OnErr, IfOk};
ghost use Rattle.std.specs.Prelude.{IfErr, IsOk};
ghost use Rattle.oct_odds.specs.declared.model.OddsField.{OddsField};
ghost use Rattle.oct_odds.specs.Odds.{first_bad_field, odds_of};
ghost use Rattle.octofix.specs.Asked.{IsAnswered, IsCoded, IsReached, asked};
ghost use Rattle.octofix.specs.Changed.{open_code};
ghost use Rattle.octofix.specs.Codes.{answer_value};
ghost use Rattle.octofix.specs.Settings.{IsNew, are_limits, bytes_of, odds_from, odds_told};
ghost use Rattle.octofix.specs.Settings.{copying, opening, settings_in};
ghost use Rattle.octofix.specs.declared.refusal.Refusal.TheVariants.{BadArgument, BadModel};

use crate::answers::{code_of, details_of, tell};
use crate::handle::Octofix;
use crate::refusal::{DONE, Refusal};
use crate::types::{Details, LogOdds, MapLimits, Settings};
use oct_key::Res;
use oct_map::{Limits, OccMap};
use oct_num::Memory;
use oct_odds::OddsModel;
use std::alloc::Global;
use std::mem::replace;

impl LogOdds {
    /// The model of these numbers.
    fn model(self) -> Result<OddsModel, Refusal>
        ensures ok { IfOk result (λ model. odds_of model ≡ odds_from self) }
        ensures none_bad { IfOk result (λ _. first_bad_field (odds_from self) ≡ None) }
        ensures bad { IfErr result (λ refusal. (which : OddsField)
            × (first_bad_field (odds_from self) ≡ Some which) × (refusal ≡ BadModel which)) }
    {
        let LogOdds {
            hit,
            miss,
            min,
            max,
            thr,
        } = self;
        Ok(OddsModel::new(hit, miss, min, max, thr)?)
    }

    /// The numbers of a model.
    fn of(model: OddsModel) -> LogOdds
        ensures { result ≡ odds_told (odds_of model) }
    {
        LogOdds {
            hit: model.hit,
            miss: model.miss,
            min: model.min,
            max: model.max,
            thr: model.thr,
        }
    }
}

impl MapLimits {
    /// The limits of these numbers.
    fn limits(self) -> Result<Limits, Refusal>
        ensures ok { IfOk result (λ limits. (are_limits self ≡ true)
            × (limits.max_groups ≡ self.max_groups) × (limits.max_cells ≡ self.max_cells)) }
        ensures bad { IfErr result (λ refusal. (are_limits self ≡ false)
            × (refusal ≡ BadArgument 0)) }
    {
        let max_cells = self.max_cells;
        if !(16..=1 << 26).contains(&self.max_groups) || !(1..=1 << 27).contains(&max_cells) {
            return Err(Refusal::BadArgument { index: 0 });
        }
        Ok(Limits {
            max_groups: self.max_groups as u32,
            max_cells,
        })
    }

    /// The numbers of limits.
    fn of(limits: Limits) -> MapLimits
        ensures { result ≡ record { max_groups = limits.max_groups; max_cells = limits.max_cells } }
    {
        MapLimits {
            max_groups: u64::from(limits.max_groups),
            max_cells: limits.max_cells,
        }
    }
}

/// Puts the map of the unknown world into a handle that has none.
fn open(
    alloc: Global,
    handle: &mut Octofix,
    res: i64,
    odds: LogOdds,
    limits: MapLimits,
) -> Result<(), Refusal>
    ensures answer { IsReached (opening handle.old.slot.map res odds limits)
        (IsOk (opening handle.old.slot.map res odds limits)) result }
    ensures new { OnOk result (IsNew handle.new.slot.map res odds limits) }
    ensures refused { OnErr result (handle.new ≡ handle.old) }
{
    if handle.is_open() {
        return Err(Refusal::Open);
    }
    let res = Res::new(res)?;
    let map = OccMap::new(alloc, res, odds.model()?, limits.limits()?);
    let map = Box::new(alloc, map).map_err(Memory::from)?;
    replace(handle, Octofix::of(map)).end();
    Ok(())
}

/// Puts the map of the unknown world into a handle that has none: voxels with an edge of this many
/// nanometres, these log-odds, and these limits.
///
/// It is refused where the handle has a map, then for the edge, for the log-odds, for the limits,
/// and where memory runs out.
#[unsafe(no_mangle)]
pub extern "C" fn octofix_open(
    alloc: Global,
    handle: &mut Octofix,
    res: i64,
    odds: &LogOdds,
    limits: &MapLimits,
    details: &mut Details,
) -> u32
    ensures answer { IsAnswered (opening handle.old.slot.map res odds.now limits.now)
        (IsOk (opening handle.old.slot.map res odds.now limits.now)) result details.new }
    ensures new { result ≡ DONE → IsNew handle.new.slot.map res odds.now limits.now }
    ensures refused { result ≢ DONE → handle.new ≡ handle.old }
{
    let answer = open(alloc, handle, res, *odds, *limits);
    *details = details_of(&answer);
    code_of(&answer)
}

/// Puts a copy of the map of a handle into another one that has none.
fn copy(alloc: Global, handle: &mut Octofix, other: &mut Octofix) -> Result<(), Refusal>
    ensures answer { IsReached (copying handle.old.slot.map other.old.slot.map)
        (IsOk (copying handle.old.slot.map other.old.slot.map)) result }
    ensures same { handle.new ≡ handle.old }
    ensures copied { OnOk result (other.new.slot.map ≡ handle.old.slot.map) }
    ensures refused { OnErr result (other.new ≡ other.old) }
{
    let map = handle.map_mut()?;
    if other.is_open() {
        return Err(Refusal::Open);
    }
    let map = Box::new(alloc, map.copy()?).map_err(Memory::from)?;
    replace(other, Octofix::of(map)).end();
    Ok(())
}

/// Puts a copy of the map into another handle, which has none: a map of its own, equal in all that
/// is asked of it, its stale flag, its limits and its mark among that.
///
/// It is refused where the handle has no map, where the other one has a map, and where memory runs
/// out.
#[unsafe(no_mangle)]
pub extern "C" fn octofix_copy(alloc: Global, handle: &mut Octofix, other: &mut Octofix) -> u32
    ensures answer { IsCoded (copying handle.old.slot.map other.old.slot.map)
        (IsOk (copying handle.old.slot.map other.old.slot.map)) result }
    ensures same { handle.new ≡ handle.old }
    ensures copied { result ≡ DONE → other.new.slot.map ≡ handle.old.slot.map }
    ensures refused { result ≢ DONE → other.new ≡ other.old }
{
    code_of(&copy(alloc, handle, other))
}

/// Takes the map out of a handle, and gives its memory back.
fn close(alloc: Global, handle: &mut Octofix) -> Result<(), Refusal>
    ensures answer { result ≡ asked handle.old.slot.map (λ _. Ok tt) }
    ensures none { handle.new.slot.map ≡ None }
    ensures refused { OnErr result (handle.new ≡ handle.old) }
{
    if !handle.is_open() {
        return Err(Refusal::Closed);
    }
    drop(replace(handle, Octofix::closed(alloc)).into_map());
    Ok(())
}

/// Takes the map out of the handle, and gives all its memory back. Refused where there is none.
#[unsafe(no_mangle)]
pub extern "C" fn octofix_close(alloc: Global, handle: &mut Octofix) -> u32
    ensures code { result ≡ open_code handle.old.slot.map }
    ensures none { handle.new.slot.map ≡ None }
    ensures refused { result ≢ DONE → handle.new ≡ handle.old }
{
    code_of(&close(alloc, handle))
}

/// What the map of a handle goes by, and how it stands.
fn settings(handle: &mut Octofix) -> Result<Settings, Refusal>
    ensures answer { result ≡ asked handle.old.slot.map (λ m. Ok (settings_in m)) }
    ensures same { handle.new ≡ handle.old }
{
    let map = handle.map_mut()?;
    Ok(Settings {
        res: map.tree().res().nm(),
        odds: LogOdds::of(map.tree().odds()),
        limits: MapLimits::of(map.limits()),
        is_stale: map.is_stale(),
        is_tracked: map.has_mark(),
    })
}

/// Tells what the map goes by, and how it stands.
#[unsafe(no_mangle)]
pub extern "C" fn octofix_settings_of(handle: &mut Octofix, settings: &mut Settings) -> u32
    ensures same { handle.new ≡ handle.old }
    ensures code { result ≡ open_code handle.old.slot.map }
    ensures settings { settings.new
        ≡ answer_value settings.old (asked handle.old.slot.map (λ m. Ok (settings_in m))) }
{
    let answer = self::settings(handle);
    tell(&answer, settings)
}

/// The bytes that the map of a handle has taken.
fn memory(handle: &mut Octofix) -> Result<u64, Refusal>
    ensures answer { result ≡ asked handle.old.slot.map (λ m. Ok (bytes_of m)) }
    ensures same { handle.new ≡ handle.old }
{
    Ok(handle.map_mut()?.memory())
}

/// Tells the bytes that the map has taken.
#[unsafe(no_mangle)]
pub extern "C" fn octofix_memory(handle: &mut Octofix, bytes: &mut u64) -> u32
    ensures same { handle.new ≡ handle.old }
    ensures code { result ≡ open_code handle.old.slot.map }
    ensures bytes { bytes.new
        ≡ answer_value bytes.old (asked handle.old.slot.map (λ m. Ok (bytes_of m))) }
{
    let answer = memory(handle);
    tell(&answer, bytes)
}
