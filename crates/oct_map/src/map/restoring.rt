//! A map whose world is that of a snapshot.
ghost use Rattle.std.specs.Prelude.{◌≡◌, Ok, Err, IsOk, OnOk, OnErr};
ghost use Rattle.oct_snap.specs.Reading.{Snapshot, read_snapshot};
ghost use Rattle.oct_map.specs.declared.fault.MapFault.{MapFault};
ghost use Rattle.oct_map.specs.Answers.{IsAnswerOrMemory};
ghost use Rattle.oct_map.specs.Restores.{restore_answer, IsMapRestored};
ghost use Rattle.oct_map.specs.Restores as restores;

use super::OccMap;
use crate::fault::MapFault;
use oct_key::Window;
use oct_snap::{SnapInfo, check, fill};
use oct_tree::OccTree;

impl OccMap {
    ghost use Rattle.oct_map.specs.Map.{IsMap, ground_of};

    /// Makes the map that of a snapshot, and answers how many groups its values need. A snapshot of
    /// version 2 sets the log-odds, and sets the update box or takes it away; one of version 1
    /// leaves both, and goes by the log-odds that stand. Nothing else of the old map stays but its
    /// resolution and limits: the map isn't stale and has no mark.
    ///
    /// It is refused for the first fault of the snapshot, then for another resolution, and then
    /// where the values need more groups than the map may have. The old map goes only when the new
    /// one is there, so that a snapshot that is refused, also because memory ran out, leaves the
    /// map as it was. Until then both take memory, the new one for at most 1,023 entries more than
    /// its groups.
    pub fn restore(&mut self, bytes: &[u8]) -> Result<u64, MapFault>
        ensures answer { IsAnswerOrMemory (restore_answer (ground_of self.old)
            (read_snapshot self.old.tree.odds bytes.now)) result }
        ensures memory { result ≡ Err MapFault.Memory
            → IsOk (restore_answer (ground_of self.old)
            (read_snapshot self.old.tree.odds bytes.now))
            × (restore_answer (ground_of self.old)
            (read_snapshot self.old.tree.odds bytes.now) ≡ Ok 0 → ⊥) }
        ensures restored { OnOk result ((s : Snapshot)
            → read_snapshot self.old.tree.odds bytes.now ≡ Ok s
            → IsMapRestored self.old self.new s) }
        ensures refused { OnErr result (self.new ≡ self.old) }
        ensures map { IsMap self.new }
    {
        let session = self.tree.res();
        let info = check(bytes, self.tree.odds())?;
        if info.res != session {
            return Err(MapFault::OtherResolution {
                file: info.res.nm(),
                session: session.nm(),
            });
        }
        if info.groups > u64::from(self.limits.max_groups) {
            return Err(MapFault::Full {
                groups: 0,
                need: u128::from(info.groups),
            });
        }
        let mut tree = OccTree::new(self.alloc, session, info.odds);
        tree.reserve(info.groups as u32)?;
        fill(bytes, &mut tree);
        // Called for its clauses alone: it computes nothing.
        tree.shape();
        self.tree = tree;
        self.is_stale = false;
        self.window = box_after(self.window, &info);
        self.mark.unset();
        Ok(info.groups)
    }
}

/// The update box after a snapshot that says this of itself.
fn box_after(standing: Option<Window>, info: &SnapInfo) -> Option<Window>
    ensures { result ≡ restores.box_after standing info.now.version info.now.window }
{
    if info.version == 1 {
        standing
    } else {
        info.window
    }
}
