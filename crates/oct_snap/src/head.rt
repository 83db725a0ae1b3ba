//! The fields of a snapshot before its nodes, as they are read.
ghost use Rattle.std.specs.Prelude.{◌≡◌, ◌+◌, ◌≤◌, length, slice_index, Some};
ghost use Rattle.std.specs.Prelude.{None, IfOk, IfErr, IfSome, IfNone, true, false};
ghost use Rattle.oct_odds.specs.Odds.{Odds, odds_of, first_bad_field};
ghost use Rattle.oct_snap.specs.Reading as reading;
ghost use Rattle.oct_snap.specs.Checked.{AreFieldsRead};

use crate::checking::number_at;
use crate::fault::SnapFault;
use oct_key::{Key, Res, Window};
use oct_odds::{BadModel, OddsField, OddsModel};

/// The fields of a snapshot, and the place after them.
#[derive(Drop)]
pub(crate) struct FieldsRead {
    pub(crate) res: Res,
    pub(crate) version: u8,
    pub(crate) odds: OddsModel,
    pub(crate) window: Option<Window>,
    pub(crate) start: usize,
}

/// The number in two bytes at a place.
fn axis_at(bytes: &[u8], at: usize) -> u16
    requires { at + 2 ≤ length bytes.now }
    ensures { result ≡ reading.axis_at bytes.now at }
{
    u16::from_be_bytes([bytes[at], bytes[at + 1]])
}

/// The voxel at a place.
fn voxel_at(bytes: &[u8], at: usize) -> Key
    requires { at + 6 ≤ length bytes.now }
    ensures { result ≡ reading.voxel_at bytes.now at }
{
    Key {
        x: axis_at(bytes, at),
        y: axis_at(bytes, at + 2),
        z: axis_at(bytes, at + 4),
    }
}

/// The resolution, where the number is one.
fn res_at(bytes: &[u8]) -> Option<Res>
    requires { 16 ≤ length bytes.now }
    ensures some { IfSome result (λ res. (res ≡ reading.res_at bytes.now)
        × (reading.is_resolution (reading.res_at bytes.now) ≡ true)) }
    ensures none { IfNone result (reading.is_resolution (reading.res_at bytes.now) ≡ false) }
{
    let nm = u64::from_be_bytes([
        bytes[8], bytes[9], bytes[10], bytes[11], bytes[12], bytes[13], bytes[14], bytes[15],
    ]);
    if nm > 100_000_000_000 {
        return None;
    }
    Res::new(nm as i64).ok()
}

/// The log-odds, where the five numbers are some.
fn odds_at(bytes: &[u8]) -> Result<OddsModel, BadModel>
    requires { 36 ≤ length bytes.now }
    ensures ok { IfOk result (λ model. (odds_of model ≡ reading.odds_at bytes.now)
        × (first_bad_field (reading.odds_at bytes.now) ≡ None)) }
    ensures bad { IfErr result
        (λ e. first_bad_field (reading.odds_at bytes.now) ≡ Some e.which) }
{
    OddsModel::new(
        number_at(bytes, 16),
        number_at(bytes, 20),
        number_at(bytes, 24),
        number_at(bytes, 28),
        number_at(bytes, 32),
    )
}

/// The place of a number of the log-odds.
fn field_place(field: OddsField) -> u64
    ensures { result ≡ reading.field_place field }
{
    match field {
        OddsField::Hit => 16,
        OddsField::Miss => 20,
        OddsField::Min => 24,
        OddsField::Max => 28,
        OddsField::Thr => 32,
    }
}

/// The fields of a snapshot of version 2 from the byte on that says whether there is a box.
fn read_window(bytes: &[u8], res: Res, odds: OddsModel) -> Result<FieldsRead, SnapFault>
    requires { 37 ≤ length bytes.now }
    ensures { AreFieldsRead bytes.now
        (reading.read_window bytes.now res (odds_of odds) (slice_index bytes.now 36)) result }
{
    if bytes[36] == 0 {
        return Ok(FieldsRead {
            res,
            version: 2,
            odds,
            window: None,
            start: 37,
        });
    }
    if bytes[36] > 1 {
        return Err(SnapFault::BadSnapshot { at: 36 });
    }
    if bytes.len() < 49 {
        return Err(SnapFault::Truncated {
            at: bytes.len() as u64,
        });
    }
    let Some(window) = Window::new(voxel_at(bytes, 37), voxel_at(bytes, 43)) else {
        return Err(SnapFault::BadSnapshot { at: 37 });
    };
    Ok(FieldsRead {
        res,
        version: 2,
        odds,
        window: Some(window),
        start: 49,
    })
}

/// The fields of a snapshot of version 2 from the log-odds on.
fn read_odds(bytes: &[u8], res: Res) -> Result<FieldsRead, SnapFault>
    ensures { (o : Odds) → AreFieldsRead bytes.now
        (reading.read_version o bytes.now res false) result }
{
    if bytes.len() < 36 {
        return Err(SnapFault::Truncated {
            at: bytes.len() as u64,
        });
    }
    let odds = match odds_at(bytes) {
        Ok(odds) => odds,
        Err(bad) => {
            return Err(SnapFault::BadSnapshot {
                at: field_place(bad.which),
            });
        }
    };
    if bytes.len() < 37 {
        return Err(SnapFault::Truncated {
            at: bytes.len() as u64,
        });
    }
    read_window(bytes, res, odds)
}

/// The fields of a snapshot from the resolution on.
fn read_res(bytes: &[u8], odds: OddsModel, old: bool) -> Result<FieldsRead, SnapFault>
    ensures { AreFieldsRead bytes.now (reading.read_res (odds_of odds) bytes.now old) result }
{
    if bytes.len() < 16 {
        return Err(SnapFault::Truncated {
            at: bytes.len() as u64,
        });
    }
    let Some(res) = res_at(bytes) else {
        return Err(SnapFault::BadSnapshot { at: 8 });
    };
    if !old {
        return read_odds(bytes, res);
    }
    Ok(FieldsRead {
        res,
        version: 1,
        odds,
        window: None,
        start: 16,
    })
}

/// The fields of a snapshot, or the first fault in them.
pub(crate) fn read_fields(bytes: &[u8], odds: OddsModel) -> Result<FieldsRead, SnapFault>
    ensures { AreFieldsRead bytes.now (reading.read_fields (odds_of odds) bytes.now) result }
{
    if bytes.starts_with(b"OCTSNAP1") {
        return read_res(bytes, odds, true);
    }
    if bytes.starts_with(b"OCTSNAP2") {
        return read_res(bytes, odds, false);
    }
    Err(SnapFault::BadMagic)
}
