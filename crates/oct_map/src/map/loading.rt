//! A map whose world is that of a file.
ghost use Rattle.std.specs.Prelude.{◌≡◌, ◌<◌, Err, IsOk, OnOk, OnErr};
ghost use Rattle.oct_bt.specs.Records.{record_total};
ghost use Rattle.oct_map.specs.declared.fault.MapFault.{MapFault};
ghost use Rattle.oct_map.specs.Answers.{IsAnswerOrMemory};
ghost use Rattle.oct_map.specs.Loads.{load_answer, IsMapLoaded};

use super::OccMap;
use crate::fault::MapFault;
use oct_bt::{BtFile, fill};
use oct_tree::OccTree;

impl OccMap {
    ghost use Rattle.oct_map.specs.Map.{IsMap, ground_of};

    /// Makes the map that of the classes of a file: free voxels get the lower bound of the
    /// log-odds, occupied ones the upper, and all others are unknown. Nothing of the old map stays
    /// but its resolution, log-odds, update box and limits: the map isn't stale and has no mark.
    ///
    /// A file of another resolution is refused, and then one that has more records than the map may
    /// have groups. The old map goes only when the new one is there, so that one that is refused,
    /// also because memory ran out, leaves the map as it was. Until then both take memory, the new
    /// one for at most 1,023 entries more than the file has records.
    pub fn load(&mut self, file: &BtFile) -> Result<(), MapFault>
        ensures answer { IsAnswerOrMemory (load_answer (ground_of self.old) file.now.res
            (record_total file.now.codes)) result }
        ensures memory { result ≡ Err MapFault.Memory
            → IsOk (load_answer (ground_of self.old) file.now.res (record_total file.now.codes))
            × (0 < record_total file.now.codes) }
        ensures loaded { OnOk result (IsMapLoaded self.old self.new file.now.codes) }
        ensures refused { OnErr result (self.new ≡ self.old) }
        ensures setup { ground_of self.new ≡ ground_of self.old }
        ensures map { IsMap self.new }
    {
        let session = self.tree.res();
        if file.res() != session {
            return Err(MapFault::OtherResolution {
                file: file.res().nm(),
                session: session.nm(),
            });
        }
        let records = file.records();
        if records > u64::from(self.limits.max_groups) {
            return Err(MapFault::Full {
                groups: 0,
                need: u128::from(records),
            });
        }
        let mut tree = OccTree::new(self.alloc, session, self.tree.odds());
        tree.reserve(records as u32)?;
        // The calls of `codes` and `shape` are made for their clauses alone: they compute nothing.
        file.codes();
        fill(file, &mut tree);
        tree.shape();
        self.tree = tree;
        self.is_stale = false;
        self.mark.unset();
        Ok(())
    }
}
