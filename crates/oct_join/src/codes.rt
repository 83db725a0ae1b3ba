//! The codes of blocks: 0, 1 and 2 for the classes, and 3 for a record.
ghost use Rattle.std.specs.Prelude.{◌≡◌};
ghost use Rattle.oct_odds.specs.declared.event.Class.{Class};
ghost use Rattle.oct_bt.specs.Records.{class_code};
ghost use Rattle.oct_join.specs.Joined.{merged_codes, one_class};

use oct_bt::threes;
use oct_merge::Rule;
use oct_odds::Class;

/// The codes of eight leaves that are all free.
pub(crate) const FREE_LEAVES: u16 = 0x5555;

/// The codes of eight leaves that are all occupied.
pub(crate) const OCCUPIED_LEAVES: u16 = 0xaaaa;

/// The code of a class.
#[inline(always)]
pub(crate) fn class_code(class: Class) -> u16
    ensures { result ≡ class_code class }
{
    match class {
        Class::Unknown => 0,
        Class::Free => 1,
        Class::Occupied => 2,
    }
}

/// The class of a block whose eight children have these codes, where all are of that class.
#[inline(always)]
pub(crate) fn one_class(codes: u16) -> Option<Class>
    ensures { result ≡ one_class codes }
{
    if codes == 0 {
        return Some(Class::Unknown);
    }
    if codes == FREE_LEAVES {
        return Some(Class::Free);
    }
    if codes == OCCUPIED_LEAVES {
        return Some(Class::Occupied);
    }
    None
}

/// The codes of the classes that a rule makes of eight pairs, by their codes. Where one of a pair
/// is 3, some number stands in its place.
#[inline(always)]
pub(crate) fn merged_codes(rule: Rule, a: u16, b: u16) -> u16
    ensures { result ≡ merged_codes 8 rule a b }
{
    let either = a | b;
    let both = threes(either);
    match rule {
        Rule::Greatest => either - both,
        Rule::Least => either - 2 * both,
        Rule::First => either - (b & (3 * both)),
    }
}
