//! What the bytes of a snapshot say, before a tree is made of them.
ghost use Rattle.oct_odds.specs.Odds.{odds_of};
ghost use Rattle.oct_snap.specs.Reading.{read_snapshot};
ghost use Rattle.oct_snap.specs.Checked.{IsChecked};

use crate::checking::check_node;
use crate::fault::SnapFault;
use crate::head::read_fields;
use oct_key::{Res, Window};
use oct_odds::OddsModel;

/// What a snapshot says of itself.
#[derive(Clone, Copy, Debug, PartialEq, Eq)]
pub struct SnapInfo {
    /// The edge of a voxel.
    pub res: Res,
    /// How many groups its values need.
    pub groups: u64,
    /// The version of its form, 1 or 2.
    pub version: u8,
    /// Its log-odds. A snapshot of version 1 has none, and goes by those that it is checked with.
    pub odds: OddsModel,
    /// Its box, if it has one. A snapshot of version 1 has none.
    pub window: Option<Window>,
}

/// What a snapshot says of itself, or the first fault that its bytes complete. A snapshot of
/// version 1 goes by these log-odds. Reads each byte once, and takes no memory.
pub fn check(bytes: &[u8], odds: OddsModel) -> Result<SnapInfo, SnapFault>
    ensures { IsChecked (read_snapshot (odds_of odds) bytes.now) result }
{
    let fields = read_fields(bytes, odds)?;
    let node = check_node(bytes, fields.start, 0, &fields.odds)?;
    if node.next < bytes.len() {
        return Err(SnapFault::TrailingBytes {
            at: node.next as u64,
        });
    }
    Ok(SnapInfo {
        res: fields.res,
        groups: node.groups,
        version: fields.version,
        odds: fields.odds,
        window: fields.window,
    })
}
