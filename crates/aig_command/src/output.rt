//! What a run writes: to the end, or up to a write that failed.
ghost use Rattle.std.specs.Prelude.{◌≡◌};
ghost use Rattle.aig_bytes.specs.Flow.{flow};
ghost use Rattle.aig_command.specs.Faults.{output_of};
ghost use Rattle.aig_command.specs.Flushed.{IsFlushed};

use crate::run_fault::RunFault;
use aig_base::{Failed, Fault, Write};

/// A failing write is the output's.
pub fn as_output(done: Result<(), Fault>) -> Result<(), RunFault>
    ensures { result ≡ output_of done }
{
    match done {
        Ok(()) => Ok(()),
        Err(_) => Err(RunFault::Output),
    }
}

/// Flushes the writer after a run, and gives the run's answer; where the flush fails, the fault of the part that
/// writes. Where it does not fail, the writer and those below it hold nothing back.
pub fn flushed<T: Drop, W: Write>(
    answer: Result<T, RunFault>,
    out: &mut W,
    part: RunFault,
) -> Result<T, RunFault>
    ensures answer { IsFlushed (flow W.written W.failures out.old out.new) part answer result }
    ensures flushed { W.failures out.new ≡ W.failures out.old → W.is_flushed out.new }
{
    match out.flush() {
        Ok(()) => answer,
        Err(Failed) => Err(part),
    }
}
