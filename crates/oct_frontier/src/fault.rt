//! Why a frontier isn't listed.
ghost use Rattle.std.specs.Prelude.{◌≡◌};
ghost use Rattle.oct_frontier.specs.declared.fault.FrontierFault.TheVariants.{Memory};

use oct_num::Memory;
use thiserror::Error;

/// Why a frontier was refused.
#[derive(Clone, Copy, Debug, PartialEq, Eq, Error)]
pub enum FrontierFault {
    /// It has more voxels than are allowed.
    #[error("the frontier has more voxels than are allowed")]
    TooManyFrontiers,

    /// Memory ran out.
    #[error("out of memory")]
    Memory,
}

impl From<Memory> for FrontierFault {
    ghost from_gives = { λ _ e. e ≡ Memory };

    fn from(_: Memory) -> Self {
        FrontierFault::Memory
    }
}
