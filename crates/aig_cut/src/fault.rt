//! Why a circuit is not cut.
ghost use Rattle.std.specs.Prelude.{◌≡◌};

use aig_base::Memory;
use thiserror::Error;

/// Why a circuit is not cut. The faults are in the order in which they are tried.
#[derive(Clone, Copy, PartialEq, Eq, Debug, Error)]
pub enum CutFault {
    /// The first line, counted from 1, that names nothing which the circuit has.
    #[error("cuts: line {0}")]
    Line(u64),
    /// The cut circuit is over a limit of circuits.
    #[error("cut: limit")]
    Limit,
    /// No memory was found.
    #[error("cut: memory")]
    Memory,
}

impl From<Memory> for CutFault {
    ghost use Rattle.aig_cut.specs.declared.fault.CutFault.TheVariants as faults;

    ghost from_gives = { λ _ fault. fault ≡ faults.Memory };

    fn from(_error: Memory) -> CutFault {
        CutFault::Memory
    }
}
