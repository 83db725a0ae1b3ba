//! Why a map isn't moved.
ghost use Rattle.std.specs.Prelude.{◌≡◌};
ghost use Rattle.oct_shift.specs.declared.fault.ShiftFault.TheVariants as fault;

use oct_num::Memory;
use thiserror::Error;

/// Why a map isn't moved.
#[derive(Clone, Copy, Debug, PartialEq, Eq, Error)]
pub enum ShiftFault {
    /// The moved map needs this many groups, more than are allowed.
    #[error("the moved map needs {groups} groups, more than are allowed")]
    TooMany { groups: u64 },
    /// Memory ran out.
    #[error("out of memory")]
    Memory,
}

impl From<Memory> for ShiftFault {
    ghost from_gives = { λ _ e. e ≡ fault.Memory };

    fn from(_: Memory) -> Self {
        ShiftFault::Memory
    }
}
