//! How the program ends for a command's answer. What the command wrote is flushed first.
ghost use Rattle.std.specs.Prelude.{◌≡◌, IfErr};
ghost use Rattle.aig_bytes.specs.Flow.{flow};
ghost use Rattle.aig_program.specs.Ends.{EndsFlushed, IsUnwritten, end_of, end_of_alive, end_of_streamed};
ghost use Rattle.aig_program.specs.Ends.{end_of_verdict};

use crate::kept::Failure;
use aig_base::{Fault, Write};
use aig_command::{RunFault, flushed};
use aig_files::{Exit, OUTPUT, Part, Unwritten};
use aig_sim::{Break, Verdict};

/// Without a fault it ends well. If the flush fails, it ends with `part`.
pub fn ended<T: Drop, W: Write>(
    answer: Result<T, RunFault>,
    out: &mut W,
    part: RunFault,
) -> Result<(), Exit>
    ensures ends { EndsFlushed (flow W.written W.failures out.old out.new) part end_of answer result }
    ensures flushed { W.failures out.new ≡ W.failures out.old → W.is_flushed out.new }
{
    match flushed(answer, out, part) {
        Ok(_) => Ok(()),
        Err(fault) => Err(Exit::Run(fault)),
    }
}

/// Where a read of a circuit that is streamed failed, it ends as for a file that is read whole. If the flush fails, it
/// ends with `part`.
pub(crate) fn streamed<T: Drop, W: Write>(
    answer: Result<T, RunFault>,
    out: &mut W,
    part: RunFault,
) -> Result<(), Exit>
    ensures ends { EndsFlushed (flow W.written W.failures out.old out.new) part end_of_streamed answer result }
    ensures flushed { W.failures out.new ≡ W.failures out.old → W.is_flushed out.new }
{
    let told = flushed(answer, out, part);
    match told {
        Err(RunFault::Circuit(Fault::Io)) => Err(Exit::Unread(Part::Circuit)),
        Err(fault) => Err(Exit::Run(fault)),
        Ok(_) => Ok(()),
    }
}

/// For a verdict other than `confirmed` it ends with another status, as the verdict is printed already.
pub(crate) fn confirmed<W: Write>(
    answer: Result<Verdict, RunFault>,
    out: &mut W,
) -> Result<(), Exit>
    ensures ends { EndsFlushed (flow W.written W.failures out.old out.new) RunFault.Output end_of_verdict answer
        result }
    ensures flushed { W.failures out.new ≡ W.failures out.old → W.is_flushed out.new }
{
    match flushed(answer, out, RunFault::Output) {
        Ok(Verdict::Confirmed) => Ok(()),
        Ok(Verdict::Initial(_) | Verdict::Constraint(..) | Verdict::NotBad) => {
            Err(Exit::NotConfirmed)
        }
        Err(fault) => Err(Exit::Run(fault)),
    }
}

/// For a run that something breaks it ends with another status, as the reason is printed already.
pub(crate) fn alive<W: Write>(
    answer: Result<Option<Break>, RunFault>,
    out: &mut W,
) -> Result<(), Exit>
    ensures ends { EndsFlushed (flow W.written W.failures out.old out.new) RunFault.Output end_of_alive answer result }
    ensures flushed { W.failures out.new ≡ W.failures out.old → W.is_flushed out.new }
{
    match flushed(answer, out, RunFault::Output) {
        Ok(None) => Ok(()),
        Ok(Some(_)) => Err(Exit::NotConfirmed),
        Err(fault) => Err(Exit::Run(fault)),
    }
}

/// For a file of an option that was not written it ends as for a failed write, or for missing memory.
pub(crate) fn written<T: Drop>(done: Result<T, Failure>) -> Result<T, Exit>
    ensures fails { IfErr result IsUnwritten }
{
    match done {
        Ok(value) => Ok(value),
        Err(failure) => match failure.why {
            Unwritten::Memory => Err(Exit::Run(RunFault::Memory)),
            _ => Err(OUTPUT),
        },
    }
}
