//! Why a bench is not made.
use aig_base::Memory as NoMemory;
use thiserror::Error;

/// Why a circuit and a stimulus make no bench, in the order in which the faults are tried.
#[derive(Clone, Copy, PartialEq, Eq, Debug, Error)]
pub enum BenchFault {
    /// The stimulus has not a value for each input.
    #[error("width")]
    Width,
    /// More than 67,108,864 cells: `M + 1` a frame.
    #[error("limit")]
    Limit,
    /// No memory was found.
    #[error("memory")]
    Memory,
}

impl From<NoMemory> for BenchFault {
    ghost use Rattle.std.specs.Prelude.{◌≡◌};
    ghost use Rattle.aig_bench.specs.declared.bench.fault.BenchFault.TheVariants as faults;

    ghost from_gives = { λ _ fault. fault ≡ faults.Memory };

    fn from(_error: NoMemory) -> BenchFault {
        BenchFault::Memory
    }
}
