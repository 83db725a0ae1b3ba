//! Things of a list in the order of their codes.
ghost use Rattle.std.specs.Prelude.{◌≡◌, ℕ, ◌+◌, ◌*◌, ◌^◌, ◌<◌, ◌≤◌, All, IfOk, OnErr, length};
ghost use Rattle.std.specs.Fn.{FnReturnsAt};
ghost use Rattle.std.specs.List.Sorted.{IsNonDecreasing};
ghost use Rattle.oct_key.specs.PlaceKeys.{AreKeys};

use oct_num::Memory;
use std::alloc::Global;

/// A key for each thing of a list, in order: the code of the thing times `step`, and its place in
/// the list. Std sorts numbers faster than things.
pub fn sorted_keys<T, F: Fn(&T) -> u64>(
    alloc: Global,
    things: &[T],
    step: u64,
    code_of: F,
) -> Result<Vec<u64>, Memory>
    requires callable { F.IsAlwaysCallable code_of }
    requires few { length things.now ≤ step }
    requires below { All (λ x. (code : ℕ) → FnReturnsAt F.Fn code_of x code
        → code * step + step ≤ 2 ^ 64) things.now }
    ensures keys { IfOk result (λ keys.
        AreKeys (FnReturnsAt F.Fn code_of) step things.now keys.items) }
    ensures order { IfOk result (λ keys. IsNonDecreasing keys.items) }
    ensures memory { OnErr result (0 < length things.now) }
{
    let mut keys = Vec::with_capacity(alloc, things.len())?;
    for (place, thing) in things.iter().enumerate() {
        keys.push(code_of(thing) * step + place as u64)?;
    }
    keys.sort_unstable();
    Ok(keys)
}
