//! Why a stimulus is refused.
ghost use Rattle.std.specs.Prelude.{◌≡◌};

use aig_base::{Failed, Io, Memory};
use thiserror::Error;

/// Why the text of a stimulus is refused. Lines count from 1, and `u64::MAX` stands for any greater number; the first
/// faulty line decides.
#[derive(Clone, Copy, PartialEq, Eq, Debug, Error)]
pub enum StimFault {
    /// A byte other than `0`, `1` and `x` in this line.
    #[error("character in line {0}")]
    Char(u64),
    /// A line that has not a character for each input.
    #[error("length of line {0}")]
    Length(u64),
    /// A last line with bytes that no LF ends.
    #[error("unfinished")]
    Unfinished,
    /// More than 65,536 rows.
    #[error("limit")]
    Limit,
    /// No memory was found.
    #[error("memory")]
    Memory,
    /// A read or a write failed.
    #[error("input or output")]
    Io,
}

impl From<Memory> for StimFault {
    ghost use Rattle.aig_sim.specs.declared.stimulus.fault.StimFault.TheVariants as faults;

    ghost from_gives = { λ _ fault. fault ≡ faults.Memory };

    fn from(_error: Memory) -> StimFault {
        StimFault::Memory
    }
}

impl From<Io> for StimFault {
    ghost use Rattle.aig_sim.specs.declared.stimulus.fault.StimFault.TheVariants as faults;

    ghost from_gives = { λ _ fault. fault ≡ faults.Io };

    fn from(_error: Io) -> StimFault {
        StimFault::Io
    }
}

impl From<Failed> for StimFault {
    ghost use Rattle.aig_sim.specs.declared.stimulus.fault.StimFault.TheVariants as faults;

    ghost from_gives = { λ _ fault. fault ≡ faults.Io };

    fn from(_error: Failed) -> StimFault {
        StimFault::Io
    }
}
