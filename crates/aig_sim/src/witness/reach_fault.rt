//! Why there is no witness of a run.
use aig_base::Memory as NoMemory;
use thiserror::Error;

/// Why there is no witness that a run reaches a bad state property.
#[derive(Clone, Copy, PartialEq, Eq, Debug, Error)]
pub enum ReachFault {
    /// The circuit has no bad state property at the position that is asked for.
    #[error("property")]
    Property,
    /// No frame of the run reaches the property.
    #[error("no run")]
    NoRun,
    /// No memory was found.
    #[error("memory")]
    Memory,
}

impl From<NoMemory> for ReachFault {
    ghost use Rattle.std.specs.Prelude.{◌≡◌};
    ghost use Rattle.aig_sim.specs.declared.witness.reach_fault.ReachFault.TheVariants as faults;

    ghost from_gives = { λ _ fault. fault ≡ faults.Memory };

    fn from(_error: NoMemory) -> ReachFault {
        ReachFault::Memory
    }
}
