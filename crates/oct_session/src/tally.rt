//! What the replies of a session come to.
ghost use Rattle.std.specs.Prelude.{◌≡◌};
ghost use Rattle.oct_session.specs.Tally.{capped, counted, no_replies};
ghost use Rattle.oct_session.specs.declared.tally.Tally.{Tally as Sums};

use oct_script::Reply;

/// What the replies of a session come to. Each number stays at `2^64 - 1` where it would be more.
#[derive(Clone, Copy, Debug)]
pub struct Tally {
    /// How many are refusals.
    pub refused: u64,
    /// The sum of the hits of the scans that were done.
    pub hits: u64,
    /// The sum of their frees.
    pub frees: u64,
}

impl Tally {
    /// That of no reply.
    pub fn new() -> Self
        ensures { result ≡ no_replies }
    {
        Tally {
            refused: 0,
            hits: 0,
            frees: 0,
        }
    }

    /// Counts one reply more, if there is one.
    pub fn count(&mut self, reply: &Option<Reply>)
        ensures { (t : Sums) → self.old ≡ capped t → self.new ≡ capped (counted t reply.now) }
    {
        match reply {
            Some(Reply::Refused(_)) => self.refused = self.refused.saturating_add(1),
            Some(Reply::Scanned(done)) => {
                self.hits = self.hits.saturating_add(done.hits);
                self.frees = self.frees.saturating_add(done.frees);
            }
            _ => {}
        }
    }
}
