//! Why a witness is refused.
use aig_base::Memory as NoMemory;
use thiserror::Error;

/// Why a witness is refused: the fault of the least number that applies.
#[derive(Clone, Copy, PartialEq, Eq, Debug, Error)]
pub enum WitnessFault {
    /// 1: the bytes are no witness's text.
    #[error("text")]
    Text,
    /// 2: the circuit has no bad state property at the position.
    #[error("property")]
    Property,
    /// 3: more than 65,536 frames.
    #[error("limit")]
    Limit,
    /// 4: no memory was found.
    #[error("memory")]
    Memory,
}

impl From<NoMemory> for WitnessFault {
    ghost use Rattle.std.specs.Prelude.{◌≡◌};
    ghost use Rattle.aig_sim.specs.declared.witness.fault.WitnessFault.TheVariants as faults;

    ghost from_gives = { λ _ fault. fault ≡ faults.Memory };

    fn from(_error: NoMemory) -> WitnessFault {
        WitnessFault::Memory
    }
}
