//! Why a proof is refused.
ghost use Rattle.std.specs.Prelude.{◌≡◌};

use aig_bytes::{Failed, Memory};
use aig_parts::Lit;
use std::alloc::AllocFailed;
use thiserror::Error;

/// Why the next step of a proof is not read.
#[derive(Clone, Copy, PartialEq, Eq, Debug, Error)]
pub enum ReadFault {
    /// The format does not want it here; `at` counts bytes from 0.
    #[error("text at {at}")]
    Text { at: u64 },
    /// No memory was found.
    #[error("memory")]
    Memory,
    /// A read failed.
    #[error("input or output")]
    Io,
}

impl From<Failed> for ReadFault {
    ghost use Rattle.aig_sat.specs.declared.proof.fault.ReadFault.TheVariants as faults;

    ghost from_gives = { λ _ fault. fault ≡ faults.Io };

    fn from(_failed: Failed) -> ReadFault {
        ReadFault::Io
    }
}

impl From<Memory> for ReadFault {
    ghost use Rattle.aig_sat.specs.declared.proof.fault.ReadFault.TheVariants as faults;

    ghost from_gives = { λ _ fault. fault ≡ faults.Memory };

    fn from(_memory: Memory) -> ReadFault {
        ReadFault::Memory
    }
}

impl From<AllocFailed<Lit>> for ReadFault {
    ghost use Rattle.aig_sat.specs.declared.proof.fault.ReadFault.TheVariants as faults;

    ghost from_gives = { λ _ fault. fault ≡ faults.Memory };

    fn from(_failed: AllocFailed<Lit>) -> ReadFault {
        ReadFault::Memory
    }
}

/// Why a proof is refused: a step is not read, or the caller that checks the steps refuses one.
#[derive(Clone, Copy, PartialEq, Eq, Debug, Error)]
pub enum ProofFault {
    /// The format does not want it here; `at` counts bytes from 0.
    #[error("text at {at}")]
    Text { at: u64 },
    /// This step adds a clause that does not follow; steps count from 1.
    #[error("step {number}")]
    Step { number: u64 },
    /// The proof ends before the empty clause follows.
    #[error("no refutation")]
    NoRefutation,
    /// No memory was found.
    #[error("memory")]
    Memory,
    /// A read failed.
    #[error("input or output")]
    Io,
}

impl From<ReadFault> for ProofFault {
    ghost use Rattle.aig_sat.specs.proof.Reads.{proof_fault_of};

    ghost from_gives = { λ read fault. fault ≡ proof_fault_of read };

    fn from(read: ReadFault) -> ProofFault {
        match read {
            ReadFault::Text { at } => ProofFault::Text { at },
            ReadFault::Memory => ProofFault::Memory,
            ReadFault::Io => ProofFault::Io,
        }
    }
}

impl From<Memory> for ProofFault {
    ghost use Rattle.aig_sat.specs.declared.proof.fault.ProofFault.TheVariants as faults;

    ghost from_gives = { λ _ fault. fault ≡ faults.Memory };

    fn from(_memory: Memory) -> ProofFault {
        ProofFault::Memory
    }
}
