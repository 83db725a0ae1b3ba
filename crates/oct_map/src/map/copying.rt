//! A map as another one.
ghost use Rattle.std.specs.Prelude.{◌≡◌, IfOk, IsOk};
ghost use Rattle.oct_map.specs.Memory.{memory_of};

use super::OccMap;
use oct_num::Memory;

impl OccMap {
    ghost use Rattle.oct_map.specs.Map.{IsMap};

    /// A map of its own that is equal in all that is asked of it and done with it: its tree, its
    /// stale flag, its update box, its limits, its mark with the notes, and the room that it holds.
    /// One pass over its memory.
    ///
    /// `Memory` comes only where this map holds memory.
    pub fn copy(&self) -> Result<OccMap, Memory>
        ensures exact { IfOk result (λ copy. copy ≡ self.now) }
        ensures none { memory_of self.now ≡ 0 → IsOk result }
        ensures map { IsMap self.now }
    {
        Ok(OccMap {
            tree: self.tree.copy()?,
            is_stale: self.is_stale,
            window: self.window,
            limits: self.limits,
            mark: self.mark.copy()?,
            alloc: self.alloc,
        })
    }
}
