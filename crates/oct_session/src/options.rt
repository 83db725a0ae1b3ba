//! What a session is set up with.
ghost use Rattle.std.specs.Prelude.{◌≡◌, ◌≤◌, ◌^◌};
ghost use Rattle.oct_odds.specs.Odds.{odds_of};
ghost use Rattle.oct_session.specs.History.{start_state};
ghost use Rattle.oct_session.specs.Leaving.{StandsFor};
ghost use Rattle.oct_session.specs.Setup.{IsLimited};

use oct_key::Res;
use oct_map::{Limits, OccMap};
use oct_odds::OddsModel;
use std::alloc::Global;
use std::marker::Model;

/// The largest number of bytes that a script may have.
pub const MOST_BYTES: u64 = 1 << 40;

/// What a session is set up with.
#[derive(Debug, Drop)]
pub struct Options {
    /// The edge of a voxel.
    pub res: Res,
    /// The log-odds model.
    pub odds: OddsModel,
    /// How large the map may grow, and how much a scan may meet.
    pub limits: Limits,
    /// The most bytes that the script may have.
    pub max_bytes: u64,
}

impl Model for Options {
    ghost use Rattle.std.specs.Prelude.{◌≤◌, ◌^◌};
    ghost use Rattle.oct_odds.specs.Odds.{odds_of};
    ghost use Rattle.oct_session.specs.Setup.{Setup};

    ghost Value = { Setup };

    ghost view = { λ o. record {
      res = o.res;
      odds = odds_of o.odds;
      max_groups = o.limits.max_groups;
      max_cells = o.limits.max_cells;
      max_bytes = o.max_bytes;
    } };

    ghost invariant = { λ o. o.max_bytes ≤ 2 ^ 40 };
}

impl Options {
    /// The most bytes that the script may have, at most `2^40`.
    pub fn max_bytes(&self) -> u64
        ensures exact { result ≡ self.now.max_bytes }
        ensures few { result ≤ 2 ^ 40 }
        ensures limited { IsLimited self.now }
    {
        self.max_bytes
    }

    /// The map of the unknown world. Takes no memory.
    pub fn new_map(&self, alloc: Global) -> OccMap
        ensures { StandsFor result (start_state self.now) }
    {
        OccMap::new(alloc, self.res, self.odds, self.limits)
    }
}
