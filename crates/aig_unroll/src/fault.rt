//! Why a circuit is not unrolled.
ghost use Rattle.std.specs.Prelude.{◌≡◌};

use aig_base::Memory;
use thiserror::Error;

/// Why a circuit is not unrolled. The faults stand in the order in which they are tried.
#[derive(Clone, Copy, PartialEq, Eq, Debug, Error)]
pub enum UnrollFault {
    /// Fault 9: no frame is asked for.
    #[error("no frames")]
    NoFrames,
    /// Fault 12: the circuit has justice properties or fairness constraints.
    #[error("liveness")]
    Liveness,
    /// Fault 10: more than 65,536 frames, or a variable or a section of the unrolled circuit over its limit.
    #[error("limit")]
    Limit,
    /// Fault 11: no memory was found.
    #[error("memory")]
    Memory,
}

impl From<Memory> for UnrollFault {
    ghost use Rattle.aig_unroll.specs.declared.fault.UnrollFault.TheVariants as faults;

    ghost from_gives = { λ _ fault. fault ≡ faults.Memory };

    fn from(_error: Memory) -> UnrollFault {
        UnrollFault::Memory
    }
}
