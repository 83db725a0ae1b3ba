//! One map merged into another.
ghost use Rattle.std.specs.Prelude.{◌≡◌, OnOk};
ghost use Rattle.oct_odds.specs.Odds.{odds_of};
ghost use Rattle.octofix.specs.Merges as merges;
ghost use Rattle.octofix.specs.Merges.{AreMerged, AreMergedTold, IsMerge, alike_answer};

use crate::answers::{code_of, details_of};
use crate::handle::Octofix;
use crate::refusal::Refusal;
use crate::types::Details;
use oct_map::{MapFault, OccMap};
use oct_merge::Rule;
use oct_odds::OddsModel;

/// The rule of this number.
pub(crate) fn rule_of(rule: u32) -> Result<Rule, Refusal>
    ensures { result ≡ merges.rule_of rule }
{
    if rule == 0 {
        return Ok(Rule::First);
    }
    if rule == 1 {
        return Ok(Rule::Greatest);
    }
    if rule == 2 {
        return Ok(Rule::Least);
    }
    Err(Refusal::BadArgument { index: 0 })
}

/// Whether two models have the same numbers.
fn are_same(a: OddsModel, b: OddsModel) -> bool
    ensures { result ≡ merges.are_same (odds_of a) (odds_of b) }
{
    a.hit == b.hit && a.miss == b.miss && a.min == b.min && a.max == b.max && a.thr == b.thr
}

/// Refuses another map of another resolution, and then one of other log-odds.
pub(crate) fn check_alike(map: &OccMap, other: &OccMap) -> Result<(), Refusal>
    ensures answer { result ≡ alike_answer map.now other.now }
    ensures res { OnOk result (map.now.tree.res ≡ other.now.tree.res) }
    ensures odds { OnOk result (map.now.tree.odds ≡ other.now.tree.odds) }
{
    let (map, other) = (map.tree(), other.tree());
    if other.res() != map.res() {
        return Err(Refusal::Map(MapFault::OtherResolution {
            file: other.res().nm(),
            session: map.res().nm(),
        }));
    }
    if !are_same(map.odds(), other.odds()) {
        return Err(Refusal::OtherOdds);
    }
    Ok(())
}

/// Merges a map into another one.
fn merge_maps(map: &mut OccMap, other: &mut OccMap, rule: Rule) -> Result<(), Refusal>
    ensures { IsMerge rule map.old other.old map.new other.new result }
{
    check_alike(map, other)?;
    map.merge(other, rule)?;
    Ok(())
}

/// Merges the map of a handle into that of another one.
fn merge(handle: &mut Octofix, other: &mut Octofix, rule: u32) -> Result<(), Refusal>
    ensures { AreMerged rule handle.old other.old handle.new other.new result }
{
    let map = handle.map_mut()?;
    let theirs = other.map_mut()?;
    let rule = rule_of(rule)?;
    merge_maps(map, theirs, rule)
}

/// Merges the map of another handle into that of this one: each voxel that one of them knows gets
/// its value, and one that both know that of this map (0), the greater one (1) or the lesser (2).
///
/// It is refused where one of the handles has no map, for the rule, for another resolution, for
/// other log-odds, while a mark stands where the least box around what the other map knows has more
/// than 1,000,000 voxels, where the map is full, and where memory runs out. The other map keeps
/// each value.
#[unsafe(no_mangle)]
pub extern "C" fn octofix_merge(
    handle: &mut Octofix,
    other: &mut Octofix,
    rule: u32,
    details: &mut Details,
) -> u32
    ensures { AreMergedTold rule handle.old other.old handle.new other.new result details.new }
{
    let answer = merge(handle, other, rule);
    *details = details_of(&answer);
    code_of(&answer)
}
