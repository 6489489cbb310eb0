//! Why a circuit is refused.
ghost use Rattle.std.specs.Prelude.{◌≡◌};

use aig_bytes::{Io, Memory};
use std::alloc::{AllocError, AllocFailed};
use thiserror::Error;

/// The change would close a cycle of gates.
#[derive(Clone, Copy, PartialEq, Eq, Debug, Error)]
#[error("cycle")]
pub struct WouldCycle;

/// Why a circuit file or its parts are refused. The faults stand in the order in which they are tried; each names the
/// least variable that has it.
#[derive(Clone, Copy, PartialEq, Eq, Debug, Error)]
pub enum Fault {
    /// A token that the format does not want here; `at` counts bytes from 0.
    #[error("text at {at}")]
    Text { at: u64 },
    /// A number over its limit.
    #[error("limit")]
    Limit,
    /// Counts of the header that do not go together.
    #[error("counts")]
    Counts,
    /// A literal other than a reset over `2M + 1`.
    #[error("range")]
    Range,
    /// An input, a latch or a left side that is odd or 0.
    #[error("definition")]
    Definition,
    /// A variable that is defined more than once.
    #[error("redefined {0}")]
    Redefined(u32),
    /// A variable that is used, not 0 and not defined.
    #[error("undefined {0}")]
    Undefined(u32),
    /// A latch whose reset is not 0, 1 or its own literal.
    #[error("reset {0}")]
    Reset(u32),
    /// A gate that is on a cycle of gates, or reads one directly or through other gates.
    #[error("cycle {0}")]
    Cycle(u32),
    /// No memory was found.
    #[error("memory")]
    Memory,
    /// A read or a write failed.
    #[error("input or output")]
    Io,
}

impl From<AllocError> for Fault {
    ghost use Rattle.aig_parts.specs.declared.fault.Fault.TheVariants as faults;

    ghost from_gives = { λ _ fault. fault ≡ faults.Memory };

    fn from(_error: AllocError) -> Fault {
        Fault::Memory
    }
}

impl<T: Drop> From<AllocFailed<T>> for Fault {
    ghost use Rattle.aig_parts.specs.declared.fault.Fault.TheVariants as faults;

    ghost from_gives = { λ _ fault. fault ≡ faults.Memory };

    fn from(_error: AllocFailed<T>) -> Fault {
        Fault::Memory
    }
}

impl From<Memory> for Fault {
    ghost use Rattle.aig_parts.specs.declared.fault.Fault.TheVariants as faults;

    ghost from_gives = { λ _ fault. fault ≡ faults.Memory };

    fn from(_error: Memory) -> Fault {
        Fault::Memory
    }
}

impl From<Io> for Fault {
    ghost use Rattle.aig_parts.specs.declared.fault.Fault.TheVariants as faults;

    ghost from_gives = { λ _ fault. fault ≡ faults.Io };

    fn from(_error: Io) -> Fault {
        Fault::Io
    }
}
