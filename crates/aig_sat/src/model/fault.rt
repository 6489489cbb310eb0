//! Why a model is refused.
ghost use Rattle.std.specs.Prelude.{◌≡◌};

use aig_bytes::Memory as NoMemory;
use thiserror::Error;

/// Why the text of a model is refused.
#[derive(Clone, Copy, PartialEq, Eq, Debug, Error)]
pub enum ModelFault {
    /// No model goes on with the word that begins at this place, or the text ends there without a 0. It counts bytes
    /// from 0.
    #[error("text at {0}")]
    Text(u64),
    /// The text says that there is no model.
    #[error("unsatisfiable")]
    Unsatisfiable,
    /// The text says that the solver found no answer.
    #[error("unknown")]
    Unknown,
    /// No memory was found.
    #[error("memory")]
    Memory,
}

impl From<NoMemory> for ModelFault {
    ghost use Rattle.aig_sat.specs.declared.model.fault.ModelFault.TheVariants as faults;

    ghost from_gives = { λ _ fault. fault ≡ faults.Memory };

    fn from(_error: NoMemory) -> ModelFault {
        ModelFault::Memory
    }
}
