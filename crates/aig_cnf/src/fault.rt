//! Why there is no formula.
ghost use Rattle.std.specs.Prelude.{◌≡◌};

use aig_base::Memory;
use thiserror::Error;

/// Why there is no formula of a bad state. The faults stand in the order in which they are tried.
#[derive(Clone, Copy, PartialEq, Eq, Debug, Error)]
pub enum CnfFault {
    /// No frame is asked for.
    #[error("no frames")]
    NoFrames,
    /// The circuit has no bad state property at this position.
    #[error("property")]
    Property,
    /// More than 65,536 frames, or a variable or a section of the unrolled circuit over its limit.
    #[error("limit")]
    Limit,
    /// No memory was found.
    #[error("memory")]
    Memory,
}

impl From<Memory> for CnfFault {
    ghost use Rattle.aig_cnf.specs.declared.fault.CnfFault.TheVariants as faults;

    ghost from_gives = { λ _ fault. fault ≡ faults.Memory };

    fn from(_error: Memory) -> CnfFault {
        CnfFault::Memory
    }
}
