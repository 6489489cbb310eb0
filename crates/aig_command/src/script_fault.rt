//! Why a script is not run to its end.
use aig_base::Io;
use thiserror::Error;

/// Why a script is not run to its end.
#[derive(Clone, Copy, PartialEq, Eq, Debug, Error)]
pub enum ScriptFault {
    /// A read or a write failed.
    #[error("input or output")]
    Io,
    /// No memory was found for a row; then nothing was read.
    #[error("memory")]
    Memory,
}

impl From<Io> for ScriptFault {
    ghost use Rattle.std.specs.Prelude.{◌≡◌};
    ghost use Rattle.aig_command.specs.declared.script_fault.ScriptFault.TheVariants as faults;

    ghost from_gives = { λ _ fault. fault ≡ faults.Io };

    fn from(_failed: Io) -> ScriptFault {
        ScriptFault::Io
    }
}
