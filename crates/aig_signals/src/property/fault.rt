//! Why properties get no names, and why a text names no property.
use aig_base::Memory;
use std::alloc::{AllocError, AllocFailed};
use thiserror::Error;

/// Why properties get no names. The faults are in the order in which they are tried.
#[derive(Clone, Copy, PartialEq, Eq, Debug, Error)]
pub enum NamesFault {
    /// The text is not one line per property, with an LF at the end of each.
    #[error("lines")]
    Lines,
    /// No memory was found.
    #[error("memory")]
    Memory,
}

impl From<Memory> for NamesFault {
    ghost use Rattle.std.specs.Prelude.{◌≡◌};
    ghost use Rattle.aig_signals.specs.declared.property.fault.NamesFault.TheVariants as faults;

    ghost from_gives = { λ _ fault. fault ≡ faults.Memory };

    fn from(_error: Memory) -> NamesFault {
        NamesFault::Memory
    }
}

impl From<AllocError> for NamesFault {
    ghost use Rattle.std.specs.Prelude.{◌≡◌};
    ghost use Rattle.aig_signals.specs.declared.property.fault.NamesFault.TheVariants as faults;

    ghost from_gives = { λ _ fault. fault ≡ faults.Memory };

    fn from(_error: AllocError) -> NamesFault {
        NamesFault::Memory
    }
}

/// Why a text names no property.
#[derive(Clone, Copy, PartialEq, Eq, Debug, Error)]
pub enum PropertyFault {
    /// No property has this name.
    #[error("name")]
    Name,
    /// The properties at these two positions have it, and none before the second has it but the first.
    #[error("twice {first} {second}")]
    Twice { first: u32, second: u32 },
}
