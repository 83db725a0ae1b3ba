//! Which numbers make a model, and which of them is the first at fault.
ghost use Rattle.std.specs.Prelude.{◌≡◌};
ghost use Rattle.oct_odds.specs.Odds.{odds, is_small, first_bad_field};

use crate::model::OddsField;

/// The largest magnitude of a log-odds, in thousandths.
const LARGEST: u32 = 1_000_000;

/// The first field, in the order of the parameters, whose own condition fails.
pub(crate) fn first_bad_field(
    hit: i32,
    miss: i32,
    min: i32,
    max: i32,
    thr: i32,
) -> Option<OddsField>
    ensures { result ≡ first_bad_field (odds hit miss min max thr) }
{
    if !is_small(hit) || hit <= 0 {
        Some(OddsField::Hit)
    } else if !is_small(miss) || miss >= 0 {
        Some(OddsField::Miss)
    } else if !is_small(min) || min > 0 {
        Some(OddsField::Min)
    } else if !is_small(max) || max < 0 {
        Some(OddsField::Max)
    } else if !is_small(thr) || thr <= min || thr > max {
        Some(OddsField::Thr)
    } else {
        None
    }
}

#[tactic(auto, unfolding(crate::specs::Odds::is_small))]
fn is_small(n: i32) -> bool
    ensures { result ≡ is_small n }
{
    n.unsigned_abs() <= LARGEST
}
