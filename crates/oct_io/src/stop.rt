//! Why a run stops before its end.
ghost use Rattle.std.specs.Prelude.{◌≡◌};
ghost use Rattle.oct_io.specs.Stops.{stop_of_sink, stop_of_store, status_of};
ghost use Rattle.oct_io.specs.declared.stop.Stop.TheVariants as stop;

use crate::sink::SinkFault;
use crate::source::Failed;
use crate::status::Status;
use crate::store::StoreFault;
use oct_num::Memory;
use thiserror::Error;

/// Why a session stopped before the end of its script.
#[derive(Clone, Copy, Debug, PartialEq, Eq, Error)]
pub enum Stop {
    /// The script has more bytes than it may have.
    #[error("input too long")]
    TooLong,
    /// The source failed.
    #[error("read fault")]
    ReadFault,
    /// The sink failed.
    #[error("write fault")]
    WriteFault,
    /// Memory ran out.
    #[error("out of memory")]
    Memory,
    /// The store failed.
    #[error("store fault")]
    StoreFault,
}

impl From<Memory> for Stop {
    ghost from_gives = { λ _ e. e ≡ stop.Memory };

    fn from(_: Memory) -> Self {
        Stop::Memory
    }
}

impl From<Failed> for Stop {
    ghost from_gives = { λ _ e. e ≡ stop.ReadFault };

    fn from(_: Failed) -> Self {
        Stop::ReadFault
    }
}

impl From<SinkFault> for Stop {
    ghost from_gives = { λ fault e. e ≡ stop_of_sink fault };

    fn from(fault: SinkFault) -> Self {
        match fault {
            SinkFault::Failed => Stop::WriteFault,
            SinkFault::Memory => Stop::Memory,
        }
    }
}

impl From<StoreFault> for Stop {
    ghost from_gives = { λ fault e. e ≡ stop_of_store fault };

    fn from(fault: StoreFault) -> Self {
        match fault {
            StoreFault::Failed => Stop::StoreFault,
            StoreFault::Memory => Stop::Memory,
        }
    }
}

impl From<Stop> for Status {
    ghost from_gives = { λ e status. status ≡ status_of e };

    fn from(stop: Stop) -> Self {
        match stop {
            Stop::TooLong => Status::TooLong,
            Stop::ReadFault => Status::ReadFault,
            Stop::WriteFault => Status::WriteFault,
            Stop::Memory => Status::Memory,
            Stop::StoreFault => Status::StoreFault,
        }
    }
}
