//! The known blocks of a box in a list, each with its value.
ghost use Rattle.std.specs.Prelude.{◌≡◌, ◌++◌, ◌∷◌, [], map, OnErr, OnOk};
ghost use Rattle.oct_query.specs.Shown.{shown_as};

use crate::found::Found;
use oct_num::Memory;
use std::alloc::Global;
use std::marker::Model;

/// Blocks with their values. Contracts see them as a list.
#[derive(Debug, Drop)]
pub struct BlockList {
    found: Vec<Found>,
}

impl Model for BlockList {
    ghost use Rattle.std.specs.Prelude.{List, map};
    ghost use Rattle.oct_query.specs.Shown.{Shown, shown_as};

    ghost Value = { List Shown };

    ghost view = { λ list. map shown_as list.found.items };
}

impl BlockList {
    /// No blocks.
    pub fn new(alloc: Global) -> Self
        ensures { result ≡ [] }
    {
        BlockList {
            found: Vec::new(alloc),
        }
    }

    /// The blocks in order.
    pub fn as_slice(&self) -> &[Found]
        ensures { map shown_as result.now ≡ self.now }
    {
        self.found.as_slice()
    }

    /// Adds a block at the end. Where memory runs out, the list stays as it is.
    pub fn push(&mut self, found: Found) -> Result<(), Memory>
        ensures ok { OnOk result (self.new ≡ self.old ++ shown_as found ∷ []) }
        ensures err { OnErr result (self.new ≡ self.old) }
    {
        self.found.push(found)?;
        Ok(())
    }
}
