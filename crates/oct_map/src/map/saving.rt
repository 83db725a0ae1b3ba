//! A map as the bytes of a file.
ghost use Rattle.std.specs.Prelude.{◌≡◌, length, IfOk};
ghost use Rattle.oct_map.specs.Files.{file_of, snapshot_of};

use super::OccMap;
use crate::vec_sink::VecSink;
use oct_num::Memory;

impl OccMap {
    ghost use Rattle.oct_map.specs.Map.{IsMap};

    /// The binary file of the map's classes.
    pub fn to_bt(&self) -> Result<Vec<u8>, Memory>
        ensures file { IfOk result (λ bytes. bytes.items ≡ file_of self.now) }
        ensures map { IsMap self.now }
    {
        let mut sink = VecSink::new(self.alloc);
        if oct_bt::write(&self.tree, &mut sink).is_err() {
            return Err(Memory);
        }
        Ok(sink.into_vec())
    }

    /// How long this file is. Takes no memory.
    pub fn bt_len(&self) -> u64
        ensures exact { result ≡ length (file_of self.now) }
        ensures map { IsMap self.now }
    {
        oct_bt::encoded_len(&self.tree)
    }

    /// The snapshot of the map's values, with its log-odds and its update box.
    pub fn to_snapshot(&self) -> Result<Vec<u8>, Memory>
        ensures snapshot { IfOk result (λ bytes. bytes.items ≡ snapshot_of self.now) }
        ensures map { IsMap self.now }
    {
        let mut sink = VecSink::new(self.alloc);
        if oct_snap::write(&self.tree, self.window, &mut sink).is_err() {
            return Err(Memory);
        }
        Ok(sink.into_vec())
    }

    /// How long this snapshot is. Takes no memory.
    pub fn snapshot_len(&self) -> u64
        ensures exact { result ≡ length (snapshot_of self.now) }
        ensures map { IsMap self.now }
    {
        oct_snap::encoded_len(&self.tree, self.window)
    }
}
