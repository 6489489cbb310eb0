//! Why the run of a witness was not written.
ghost use Rattle.std.specs.Prelude.{◌≡◌};

use crate::witness::fault::WitnessFault;
use aig_base::{Io, Memory};
use thiserror::Error;

/// Why the run of a witness was not written, or not to its end.
#[derive(Clone, Copy, PartialEq, Eq, Debug, Error)]
pub enum ReplayFault {
    /// The witness is refused, or no memory was found: nothing was written.
    #[error("{0}")]
    Witness(WitnessFault),
    /// A write failed.
    #[error("input or output")]
    Io,
}

impl From<WitnessFault> for ReplayFault {
    ghost use Rattle.aig_sim.specs.declared.witness.replay_fault.ReplayFault.TheVariants as faults;

    ghost from_gives = { λ why fault. fault ≡ faults.Witness why };

    fn from(why: WitnessFault) -> ReplayFault {
        ReplayFault::Witness(why)
    }
}

impl From<Memory> for ReplayFault {
    ghost use Rattle.aig_sim.specs.declared.witness.replay_fault.ReplayFault.TheVariants as faults;
    ghost use Rattle.aig_sim.specs.declared.witness.fault.WitnessFault.TheVariants as witness_faults;

    ghost from_gives = { λ _ fault. fault ≡ faults.Witness witness_faults.Memory };

    fn from(_error: Memory) -> ReplayFault {
        ReplayFault::Witness(WitnessFault::Memory)
    }
}

impl From<Io> for ReplayFault {
    ghost use Rattle.aig_sim.specs.declared.witness.replay_fault.ReplayFault.TheVariants as faults;

    ghost from_gives = { λ _ fault. fault ≡ faults.Io };

    fn from(_error: Io) -> ReplayFault {
        ReplayFault::Io
    }
}
