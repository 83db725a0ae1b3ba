//! The fields of a snapshot before its nodes, as they are written.
ghost use Rattle.std.specs.Prelude.{◌≡◌, ◌+◌, ◌≤◌, ◌++◌, length};
ghost use Rattle.oct_odds.specs.Odds.{odds_of};
ghost use Rattle.oct_snap.specs.Texts.{odds_bytes, voxel_bytes, window_bytes, head_bytes};

use arrayvec::ArrayVec;
use oct_key::{Key, Res, Window};
use oct_odds::OddsModel;

/// The bytes of the fields: at most those of a snapshot with a box.
pub(crate) type HeadBytes = ArrayVec<u8, 49>;

/// Adds bytes, for which there is room.
fn put(head: &mut HeadBytes, bytes: &[u8])
    requires { length head.old.items + length bytes.now ≤ 49 }
    ensures { head.new.items ≡ head.old.items ++ bytes.now }
{
    let _fits = head.try_extend_from_slice(bytes);
}

/// Adds the five numbers of log-odds.
fn put_odds(head: &mut HeadBytes, odds: OddsModel)
    requires { length head.old.items + 20 ≤ 49 }
    ensures { head.new.items ≡ head.old.items ++ odds_bytes (odds_of odds) }
{
    put(head, &odds.hit.to_be_bytes());
    put(head, &odds.miss.to_be_bytes());
    put(head, &odds.min.to_be_bytes());
    put(head, &odds.max.to_be_bytes());
    put(head, &odds.thr.to_be_bytes());
}

/// Adds the three numbers of a voxel.
fn put_voxel(head: &mut HeadBytes, k: Key)
    requires { length head.old.items + 6 ≤ 49 }
    ensures { head.new.items ≡ head.old.items ++ voxel_bytes k }
{
    put(head, &k.x.to_be_bytes());
    put(head, &k.y.to_be_bytes());
    put(head, &k.z.to_be_bytes());
}

/// Adds whether there is a box, and its corners.
fn put_window(head: &mut HeadBytes, window: Option<Window>)
    requires { length head.old.items + 13 ≤ 49 }
    ensures { head.new.items ≡ head.old.items ++ window_bytes window }
{
    let Some(window) = window else {
        put(head, &[0]);
        return;
    };
    put(head, &[1]);
    put_voxel(head, window.lo());
    put_voxel(head, window.hi());
}

/// The fields of a snapshot.
pub(crate) fn head_of(res: Res, odds: OddsModel, window: Option<Window>) -> HeadBytes
    ensures { result.items ≡ head_bytes res (odds_of odds) window }
{
    let mut head = ArrayVec::new();
    put(&mut head, b"OCTSNAP2");
    put(&mut head, &res.nm().to_be_bytes());
    put_odds(&mut head, odds);
    put_window(&mut head, window);
    head
}
