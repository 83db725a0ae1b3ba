//! Calls that fail by their numbers.
ghost use Rattle.std.specs.Prelude.{◌≡◌, IsTrue, false};
ghost use Rattle.oct_io.specs.Failing.{fails_next, with_call, failed_of};
ghost use Rattle.oct_io.specs.Told.{Rose};

use oct_num::Items;

/// The numbers of the calls that are to fail.
pub type KeptList = Items<u64>;

/// How many calls there were, and which are to fail.
#[derive(Drop)]
pub(crate) struct Calls {
    fails: KeptList,
    count: u64,
}

impl Calls {
    /// No call yet, and those that are to fail.
    pub fn new(fails: KeptList) -> Self
        ensures { result ≡ record { fails = fails; count = 0 } }
    {
        Calls { fails, count: 0 }
    }

    /// Counts one more call, and answers whether it fails.
    pub fn next_fails(&mut self) -> bool
        ensures exact { result ≡ fails_next self.old }
        ensures counted { self.new ≡ with_call self.old }
        ensures rises { IsTrue result → Rose (failed_of self.old) (failed_of self.new) }
        ensures stays { result ≡ false → failed_of self.new ≡ failed_of self.old }
    {
        if self.count == u64::MAX {
            return false;
        }
        self.count += 1;
        self.fails.as_slice().contains(&self.count)
    }
}
