//! Why a model is not strengthened.
ghost use Rattle.std.specs.Prelude.{◌≡◌};

use aig_base::{Fault, Kind, Memory};
use std::alloc::{AllocError, AllocFailed};
use thiserror::Error;

/// Why a model is not strengthened by a certificate. The faults stand in the order in which they are tried. Each text
/// begins with the part of the run that it is about.
#[derive(Clone, Copy, PartialEq, Eq, Debug, Error)]
pub enum StrengthenFault {
    /// The certificate's comment has a mapping whose lines are no pairs, and no symbol says what an entry stands for.
    #[error("certificate: comment")]
    Comment,
    /// The symbol of this input or latch begins with `= `, and names no literal of the model.
    #[error("certificate: symbol {}{position}", char::from(.kind.letter()))]
    Symbol { kind: Kind, position: u32 },
    /// The model has no bad state property at this position.
    #[error("strengthen: property")]
    Property,
    /// The strengthened circuit is over a limit of circuits.
    #[error("strengthen: limit")]
    Limit,
    /// The strengthened circuit has this fault. It never comes: both files are circuits.
    #[error("certificate: {0}")]
    Circuit(Fault),
    /// No memory was found.
    #[error("strengthen: memory")]
    Memory,
}

impl From<Memory> for StrengthenFault {
    ghost use Rattle.aig_certificate.specs.declared.fault.StrengthenFault.TheVariants as faults;

    ghost from_gives = { λ _ fault. fault ≡ faults.Memory };

    fn from(_error: Memory) -> StrengthenFault {
        StrengthenFault::Memory
    }
}

impl From<AllocError> for StrengthenFault {
    ghost use Rattle.aig_certificate.specs.declared.fault.StrengthenFault.TheVariants as faults;

    ghost from_gives = { λ _ fault. fault ≡ faults.Memory };

    fn from(_error: AllocError) -> StrengthenFault {
        StrengthenFault::Memory
    }
}

impl<T: Drop> From<AllocFailed<T>> for StrengthenFault {
    ghost use Rattle.aig_certificate.specs.declared.fault.StrengthenFault.TheVariants as faults;

    ghost from_gives = { λ _ fault. fault ≡ faults.Memory };

    fn from(_error: AllocFailed<T>) -> StrengthenFault {
        StrengthenFault::Memory
    }
}
