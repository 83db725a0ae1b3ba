//! What more than one of the tests looks at.

ghost use Rattle.oct_odds.specs.Odds.{IsSmall};
ghost use Rattle.oct_odds.specs.Update.{IsSmallEvent};

use oct_odds::Event;
use oct_tree::OccTree;
use std::process::Abort;

/// Expects that the number in an event is of at most a million.
pub(crate) fn expect_small(rt: &impl Abort, event: Event)
    ensures { IsSmallEvent event }
{
    match event {
        Event::Add(n) => expect_small_number(rt, n),
        Event::Set(n) => expect_small_number(rt, n),
        _ => {}
    }
}

/// Expects that a number is of at most a million.
fn expect_small_number(rt: &impl Abort, n: i32)
    ensures { IsSmall n }
{
    assert!(rt; n >= -1_000_000);
    assert!(rt; n <= 1_000_000);
}

/// Expects that the tree is known to be fresh and pruned, or that it isn't.
pub(crate) fn expect_tidy(rt: &impl Abort, tree: &OccTree, want: bool) {
    assert_eq!(rt; tree.tidiness().is_tidy(), want);
}
