//! Calls for the map as a whole.
ghost use Rattle.std.specs.Prelude.{◌≡◌, Ok};
ghost use Rattle.octofix.specs.Asked.{asked};
ghost use Rattle.octofix.specs.Changed.{Left, changed, open_code};
ghost use Rattle.octofix.specs.Codes.{answer_value};
ghost use Rattle.octofix.specs.Whole.{IsPrunedBy, IsRefreshed, IsSurest, IsTrimmed, cleared};
ghost use Rattle.octofix.specs.Whole.{counts_in, least_in};

use crate::answers::{code_of, tell};
use crate::handle::Octofix;
use crate::refusal::Refusal;
use crate::types::{LeastTree, TreeCounts};

/// Renews the inner values of the map of a handle.
fn refresh(handle: &mut Octofix) -> Result<(), Refusal>
    ensures answer { result ≡ asked handle.old.slot.map (λ _. Ok tt) }
    ensures refreshed { Left handle.old handle.new IsRefreshed }
{
    handle.map_mut()?.refresh();
    Ok(())
}

/// Makes the inner values those of the voxels again, after lazy edits and scans.
#[unsafe(no_mangle)]
pub extern "C" fn octofix_refresh(handle: &mut Octofix) -> u32
    ensures code { result ≡ open_code handle.old.slot.map }
    ensures refreshed { Left handle.old handle.new IsRefreshed }
{
    code_of(&refresh(handle))
}

/// Prunes the map of a handle.
fn prune(handle: &mut Octofix) -> Result<(), Refusal>
    ensures answer { result ≡ asked handle.old.slot.map (λ _. Ok tt) }
    ensures pruned { Left handle.old handle.new IsPrunedBy }
{
    handle.map_mut()?.prune();
    Ok(())
}

/// Gives back the groups that the values don't need.
#[unsafe(no_mangle)]
pub extern "C" fn octofix_prune(handle: &mut Octofix) -> u32
    ensures code { result ≡ open_code handle.old.slot.map }
    ensures pruned { Left handle.old handle.new IsPrunedBy }
{
    code_of(&prune(handle))
}

/// Clears the map of a handle.
fn clear(handle: &mut Octofix) -> Result<(), Refusal>
    ensures answer { result ≡ asked handle.old.slot.map (λ _. Ok tt) }
    ensures cleared { handle.new ≡ changed cleared handle.old }
{
    handle.map_mut()?.clear();
    Ok(())
}

/// Makes each voxel unknown, without a mark, and gives the memory of the map back.
#[unsafe(no_mangle)]
pub extern "C" fn octofix_clear(handle: &mut Octofix) -> u32
    ensures code { result ≡ open_code handle.old.slot.map }
    ensures cleared { handle.new ≡ changed cleared handle.old }
{
    code_of(&clear(handle))
}

/// Makes the map of a handle as sure as it can be.
fn max_likelihood(handle: &mut Octofix) -> Result<(), Refusal>
    ensures answer { result ≡ asked handle.old.slot.map (λ _. Ok tt) }
    ensures surest { Left handle.old handle.new IsSurest }
{
    handle.map_mut()?.max_likelihood();
    Ok(())
}

/// Gives each occupied voxel the upper bound of the log-odds, and each free one the lower.
#[unsafe(no_mangle)]
pub extern "C" fn octofix_max_likelihood(handle: &mut Octofix) -> u32
    ensures code { result ≡ open_code handle.old.slot.map }
    ensures surest { Left handle.old handle.new IsSurest }
{
    code_of(&max_likelihood(handle))
}

/// Prunes the map of a handle, and counts its groups and nodes.
fn counts(handle: &mut Octofix) -> Result<TreeCounts, Refusal>
    ensures answer { result ≡ asked handle.old.slot.map (λ m. Ok (counts_in m)) }
    ensures pruned { Left handle.old handle.new IsTrimmed }
{
    let counts = handle.map_mut()?.counts();
    Ok(TreeCounts {
        groups: u64::from(counts.groups),
        nodes: counts.nodes,
    })
}

/// Prunes the map, and tells how many groups and nodes it has: the least that its values need.
#[unsafe(no_mangle)]
pub extern "C" fn octofix_counts_of(handle: &mut Octofix, counts: &mut TreeCounts) -> u32
    ensures code { result ≡ open_code handle.old.slot.map }
    ensures counts { counts.new
        ≡ answer_value counts.old (asked handle.old.slot.map (λ m. Ok (counts_in m))) }
    ensures pruned { Left handle.old handle.new IsTrimmed }
{
    let answer = self::counts(handle);
    tell(&answer, counts)
}

/// Counts the least tree of the values of the map of a handle.
fn least(handle: &mut Octofix) -> Result<LeastTree, Refusal>
    ensures answer { result ≡ asked handle.old.slot.map (λ m. Ok (least_in m)) }
    ensures same { handle.new ≡ handle.old }
{
    let least = handle.map_mut()?.least_tree();
    Ok(LeastTree {
        groups: least.groups,
        nodes: least.nodes,
        leaves: least.leaves,
    })
}

/// Tells how many groups, nodes and leaves the least tree of the map's values has. The map stays as
/// it is.
#[unsafe(no_mangle)]
pub extern "C" fn octofix_least_tree_of(handle: &mut Octofix, least: &mut LeastTree) -> u32
    ensures same { handle.new ≡ handle.old }
    ensures code { result ≡ open_code handle.old.slot.map }
    ensures least { least.new
        ≡ answer_value least.old (asked handle.old.slot.map (λ m. Ok (least_in m))) }
{
    let answer = self::least(handle);
    tell(&answer, least)
}
