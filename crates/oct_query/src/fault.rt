//! Why blocks aren't listed.
ghost use Rattle.std.specs.Prelude.{◌≡◌};
ghost use Rattle.oct_query.specs.declared.fault.ListFault.TheVariants.{Memory};

use oct_num::Memory;
use thiserror::Error;

/// Why a list of blocks was refused.
#[derive(Clone, Copy, Debug, PartialEq, Eq, Error)]
pub enum ListFault {
    /// This many blocks of the depth meet the box, unknown ones among them, and that is more than
    /// are allowed.
    #[error("{count} blocks meet the box, more than are allowed")]
    TooManyBlocks { count: u64 },

    /// Memory ran out.
    #[error("out of memory")]
    Memory,
}

impl From<Memory> for ListFault {
    ghost from_gives = { λ _ e. e ≡ Memory };

    fn from(_: Memory) -> Self {
        ListFault::Memory
    }
}
