//! What an edit answers.

pub(crate) mod allowed;
pub(crate) mod laws;

use aig_base::Memory as NoMemory;
use thiserror::Error;

/// How many gates' cells an accepted edit evaluated, and how many of them changed.
#[derive(Clone, Copy, PartialEq, Eq, Debug)]
pub struct EditReport {
    pub evaluated: u64,
    pub changed: u64,
}

/// Why an edit or a question is refused: the fault of the least number that applies. Then nothing has changed.
#[derive(Clone, Copy, PartialEq, Eq, Debug, Error)]
pub enum EditFault {
    /// 1: the literal is not the even literal of a gate.
    #[error("not a gate")]
    NotAGate,
    /// 2: the literal is not the even literal of a latch.
    #[error("not a latch")]
    NotALatch,
    /// 3: a literal over `2M + 1`.
    #[error("range")]
    Range,
    /// 4: a variable that is neither 0 nor defined.
    #[error("undefined")]
    Undefined,
    /// 5: the gates would close a cycle.
    #[error("cycle")]
    Cycle,
    /// 6: a frame that is not there.
    #[error("no frame")]
    NoFrame,
    /// 7: an input that is not there.
    #[error("no input")]
    NoInput,
    /// 8: a row that has not a value for each input.
    #[error("length")]
    Length,
    /// 9: there is no frame to take off.
    #[error("empty")]
    Empty,
    /// 10: more variables, frames or cells than a bench may have.
    #[error("limit")]
    Limit,
    /// 11: no memory was found.
    #[error("memory")]
    Memory,
    /// 13: an output that is not there.
    #[error("no output")]
    NoOutput,
}

impl From<NoMemory> for EditFault {
    ghost use Rattle.std.specs.Prelude.{◌≡◌};
    ghost use Rattle.aig_bench.specs.declared.edit.EditFault.TheVariants as faults;

    ghost from_gives = { λ _ fault. fault ≡ faults.Memory };

    fn from(_error: NoMemory) -> EditFault {
        EditFault::Memory
    }
}
