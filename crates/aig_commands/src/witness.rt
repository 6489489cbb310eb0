//! `witness`: the witness that a run reaches a bad state.
ghost use Rattle.std.specs.Prelude.{◌≡◌, ◌+◌, ◌<◌, ◌≤◌, ℕ, [], decimal, length, take, Some, Err, IfErr, IfOk, OnOk};
ghost use Rattle.aig_base.specs.Value.{start_of};
ghost use Rattle.aig_bytes.specs.Bytes.{Writes};
ghost use Rattle.aig_bytes.specs.Flow.{flow};
ghost use Rattle.aig_sim.specs.Reached.{IsFirstReached, ReachesNone};
ghost use Rattle.aig_sim.specs.StimulusText.{SpellsRows};
ghost use Rattle.aig_sim.specs.WitnessText.{IsDecimal, witness_text};
ghost use Rattle.aig_command.specs.Command.{CommandEnds, OfFile};
ghost use Rattle.aig_commands.specs.Witness.{HasAsked, WritesWitness};

use aig_base::{Circuit, Io, Tern, Write};
use aig_command::{RunFault, read_circuit, read_rows};
use aig_sim::{ReachFault, Reached, Stimulus, first_reached, first_states, write_witness};
use std::alloc::Global;

/// A run, and the first frame of it that reaches a property.
#[derive(Drop)]
pub(crate) struct FoundRun {
    pub(crate) start: Vec<Tern>,
    pub(crate) rows: Stimulus,
    pub(crate) reached: Reached,
}

impl FoundRun {
    /// Writes the witness of it.
    pub(crate) fn write<W: Write>(&self, out: &mut W) -> Result<(), RunFault>
        requires { self.now.reached.frame < length self.now.rows.rows }
        ensures written { Writes W.written W.failures out.old out.new (witness_text (decimal self.now.reached.property)
            self.now.start.items (take (self.now.reached.frame + 1) self.now.rows.rows)) result }
        ensures output { IfErr result (λ fault. fault ≡ RunFault.Output) }
        ensures position { IsDecimal (decimal self.now.reached.property) self.now.reached.property }
    {
        // Its contract says that a frame's number has a next one.
        self.rows.frames();
        let frames = self.reached.frame + 1;
        match write_witness(out, self.reached.property, &self.start, &self.rows, frames) {
            Ok(()) => Ok(()),
            Err(Io) => Err(RunFault::Output),
        }
    }
}

/// Refuses a property that the circuit does not have.
fn check_property(circuit: &Circuit, asked: Option<u32>) -> Result<(), ReachFault>
    ensures property { OnOk result (HasAsked circuit.now asked) }
    ensures none { IfErr result (λ fault. (fault ≡ ReachFault.Property)
        × ((p : ℕ) × (asked ≡ Some p) × (length circuit.now.bad ≤ p))) }
{
    match asked {
        Some(property) if property as usize >= circuit.bad().len() => Err(ReachFault::Property),
        _ => Ok(()),
    }
}

/// The start by the resets.
pub(crate) fn start_by_resets(alloc: Global, circuit: &Circuit) -> Result<Vec<Tern>, ReachFault>
    ensures start { IfOk result (λ start. start.items ≡ start_of circuit.now) }
    ensures memory { IfErr result (λ fault. fault ≡ ReachFault.Memory) }
{
    Ok(first_states(alloc, circuit)?)
}

/// The first frame of a run that reaches a property.
pub(crate) fn find(
    alloc: Global,
    circuit: &Circuit,
    start: &[Tern],
    rows: &Stimulus,
    asked: Option<u32>,
) -> Result<Reached, ReachFault>
    requires start { length start.now ≡ length circuit.now.latches }
    requires width { rows.now.width ≡ length circuit.now.inputs }
    requires property { HasAsked circuit.now asked }
    ensures some { IfOk result (λ at. IsFirstReached circuit.now start.now rows.now.rows asked at.frame at.property) }
    ensures none { result ≡ Err ReachFault.NoRun → ReachesNone circuit.now start.now rows.now.rows asked }
    ensures property { result ≡ Err ReachFault.Property → ⊥ }
{
    match first_reached(alloc, circuit, start, rows, asked)? {
        Some(reached) => Ok(reached),
        None => Err(ReachFault::NoRun),
    }
}

/// The run over the rows of a stimulus, from the start by the resets.
fn find_in_stimulus(
    alloc: Global,
    circuit: &Circuit,
    stimulus: &[u8],
    asked: Option<u32>,
) -> Result<FoundRun, RunFault>
    ensures start { IfOk result (λ run. run.start.items ≡ start_of circuit.now) }
    ensures rows { IfOk result (λ run. SpellsRows (length circuit.now.inputs) stimulus.now run.rows.rows) }
    ensures reached { IfOk result (λ run. IsFirstReached circuit.now run.start.items run.rows.rows asked
        run.reached.frame run.reached.property) }
    ensures refused { IfErr result (λ fault. WritesWitness asked stimulus.now circuit.now (Err fault) []) }
{
    check_property(circuit, asked)?;
    circuit.facts();
    let rows = read_rows(alloc, circuit, stimulus)?;
    let start = start_by_resets(alloc, circuit)?;
    let reached = find(alloc, circuit, &start, &rows, asked)?;
    Ok(FoundRun {
        start,
        rows,
        reached,
    })
}

/// Writes the witness that the run over a stimulus reaches a property.
fn find_and_write<W: Write>(
    alloc: Global,
    circuit: &Circuit,
    stimulus: &[u8],
    asked: Option<u32>,
    out: &mut W,
) -> Result<(), RunFault>
    ensures { CommandEnds (flow W.written W.failures out.old out.new) RunFault.Output
        (WritesWitness asked stimulus.now circuit.now) result }
{
    let run = find_in_stimulus(alloc, circuit, stimulus, asked)?;
    run.write(out)
}

/// The command `witness`: runs a circuit from the start by its resets over the rows of a stimulus, and writes the
/// witness that the property at this position is reached: its frames up to the first at which the property is 1 and all
/// constraints were 1 so far. Where no property is named, that is the first frame at which any is reached, and of it
/// the least property. `check` confirms what is written. Nothing is written where the circuit or the stimulus is
/// refused, the circuit lacks the property, or no frame reaches it.
pub fn witness<W: Write>(
    alloc: Global,
    file: &[u8],
    stimulus: &[u8],
    asked: Option<u32>,
    out: &mut W,
) -> Result<(), RunFault>
    ensures ends { CommandEnds (flow W.written W.failures out.old out.new) RunFault.Output
        (OfFile file.now (WritesWitness asked stimulus.now)) result }
{
    let circuit = read_circuit(alloc, file)?;
    find_and_write(alloc, &circuit, stimulus, asked, out)
}
