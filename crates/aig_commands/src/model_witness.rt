//! `witness --model`: the witness of the run that a solver's model names; with `--step` the run by which an induction
//! step fails, with `--certificate` the one by which a certificate does.
ghost use Rattle.std.specs.Prelude.{◌≡◌, ◌<◌, ◌≤◌, Err, IfOk, IfErr, Some, length};
ghost use Rattle.aig_base.specs.Part.{latch_marks};
ghost use Rattle.aig_base.specs.Part as spec;
ghost use Rattle.aig_bytes.specs.Flow.{flow};
ghost use Rattle.aig_cnf.specs.ReadFormula.{marked};
ghost use Rattle.aig_command.specs.Command.{CommandEnds};
ghost use Rattle.aig_parts.specs.Limits.{frame_limit};
ghost use Rattle.aig_refute.specs.PartialModels.{named_rows, named_start};
ghost use Rattle.aig_refute.specs.SpreadRun.{spread_rows};
ghost use Rattle.aig_sim.specs.Reached.{IsFirstReached, ReachesNone};
ghost use Rattle.aig_unroll.specs.FrameLiteral.{input_count};
ghost use Rattle.aig_commands.specs.ModelWitness.{RefusesModel, WritesModel};
ghost use Rattle.aig_commands.specs.Questions.{NamesFor, NamesQuestion, asked_of, heading_of};
ghost use Rattle.aig_sat.specs.model.ModelText.{IsModelOf};

use crate::alive_witness;
use crate::named_run::named_run;
use crate::question::{INDUCTION, Question, circuit_of, heading_of};
use crate::spread::spread_run;
use crate::witness::{FoundRun, find, start_by_resets};
use aig_base::{Circuit, Tern, Write};
use aig_cnf::{Heading, Query, ReadFormula};
use aig_command::RunFault;
use aig_sat::{Assignment, ModelFault, read_model};
use aig_sim::{ReachFault, Reached, Run};
use std::alloc::Global;

/// Reads a model of a formula.
pub(crate) fn read_values(
    alloc: Global,
    model: &[u8],
    variables: u32,
) -> Result<Assignment, ModelFault>
    requires { variables ≤ 2147483648 }
    ensures values { IfOk result (IsModelOf variables model.now) }
    ensures refused { IfErr result (RefusesModel variables model.now) }
{
    read_model(alloc, model, variables)
}

/// The first frame at which a run reaches the one property of a circuit.
fn first_frame(alloc: Global, circuit: &Circuit, run: &Run) -> Result<u32, ReachFault>
    requires start { length run.now.start.items ≡ length circuit.now.latches }
    requires width { run.now.rows.width ≡ length circuit.now.inputs }
    requires property { 0 < length circuit.now.bad }
    ensures some { IfOk result (λ frame.
        IsFirstReached circuit.now run.now.start.items run.now.rows.rows (Some 0) frame 0) }
    ensures none { result ≡ Err ReachFault.NoRun →
        ReachesNone circuit.now run.now.start.items run.now.rows.rows (Some 0) }
    ensures property { result ≡ Err ReachFault.Property → ⊥ }
{
    let reached = find(alloc, circuit, &run.start, &run.rows, Some(0))?;
    Ok(reached.frame)
}

/// The run of the circuit that the values of the formula's variables name: that of the part, with these resets at
/// latches that are not read. It is there if the run of the part reaches the property.
fn found_run(
    alloc: Global,
    circuit: &Circuit,
    read: &ReadFormula,
    resets: &[Tern],
    property: u32,
    values: &[Tern],
) -> Result<FoundRun, ReachFault>
    requires resets { length resets.now ≡ length circuit.now.latches }
    requires property { 0 < length read.now.small.bad }
    requires frames { length read.now.cnf.goals ≤ frame_limit }
    requires values { input_count read.now.small (length read.now.cnf.goals) < length values.now }
    ensures start { IfOk result (λ run. run.start.items ≡ spec.spread (latch_marks (marked read.now.marks) circuit.now)
        resets.now (named_start read.now.small (length read.now.cnf.goals) values.now)) }
    ensures rows { IfOk result (λ run. run.rows.rows ≡ spread_rows (marked read.now.marks) circuit.now
        (named_rows read.now.small (length read.now.cnf.goals) values.now)) }
    ensures reached { IfOk result (λ run. IsFirstReached read.now.small
        (named_start read.now.small (length read.now.cnf.goals) values.now)
        (named_rows read.now.small (length read.now.cnf.goals) values.now) (Some 0) run.reached.frame 0) }
    ensures asked { IfOk result (λ run. run.reached.property ≡ property) }
    ensures none { result ≡ Err ReachFault.NoRun → ReachesNone read.now.small
        (named_start read.now.small (length read.now.cnf.goals) values.now)
        (named_rows read.now.small (length read.now.cnf.goals) values.now) (Some 0) }
    ensures there { result ≡ Err ReachFault.Property → ⊥ }
{
    let part = read.part();
    part.facts();
    let run = named_run(alloc, part, read.formula().depth(), values)?;
    let frame = first_frame(alloc, part, &run)?;
    let whole = spread_run(alloc, circuit, read.marks(), resets, &run)?;
    Ok(FoundRun {
        start: whole.start,
        rows: whole.rows,
        reached: Reached { frame, property },
    })
}

/// Writes the witness of the run that a model's text names.
fn read_model_and_write<W: Write>(
    alloc: Global,
    circuit: &mut Circuit,
    query: Query,
    model: &[u8],
    out: &mut W,
) -> Result<(), RunFault>
    ensures { CommandEnds (flow W.written W.failures out.old out.new) RunFault.Output
        (WritesModel query model.now circuit.old) result }
{
    circuit.facts();
    let resets = start_by_resets(alloc, circuit);
    let read = ReadFormula::of(alloc, circuit, query)?;
    let values = read_values(alloc, model, read.formula().variables())?;
    let resets = resets?;
    let run = found_run(
        alloc,
        circuit,
        &read,
        &resets,
        query.property,
        values.as_slice(),
    )?;
    run.write(out)
}

/// Writes the witness of the run that a model of a question's formula names.
fn answer<W: Write>(
    alloc: Global,
    circuit: &mut Circuit,
    question: Question<&[u8]>,
    model: &[u8],
    out: &mut W,
) -> Result<(), RunFault>
    ensures { CommandEnds (flow W.written W.failures out.old out.new) RunFault.Output
        (NamesFor (heading_of (asked_of question.entry)) model.now circuit.old) result }
{
    match heading_of(question) {
        Heading::Runs(query) => read_model_and_write(alloc, circuit, query, model, out),
        Heading::Alive(frames) => {
            alive_witness::read_model_and_write(alloc, circuit, frames, model, out)
        }
        Heading::Certified(_) => read_model_and_write(alloc, circuit, INDUCTION, model, out),
    }
}

/// The command `witness --model`: reads a circuit and a SAT solver's model of the formula that `cnf` writes for a
/// question. The model names a run: a start, where an uninitialised latch has the value of its variable, for a step or
/// a certificate each latch; and rows. What no literal names is x, and what the property does not read: but a latch that it
/// does not read starts by its reset. It writes the witness of the first frame at which
/// this run reaches the property. `check` confirms it, but where it does not start as the resets allow: then it is the
/// run by which an induction fails. For a certificate it is one of the strengthened circuit, which has one property.
/// Nothing is written if a file or the model is rejected, there is no such formula, or no frame reaches the property.
/// One does if the model makes a literal of each clause of the formula of `Question::Within` true
/// (`law_of_read_models` of `aig_refute`).
///
/// For `Question::Alive` it is the witness of property 0 with all frames of the run, if that keeps all constraints:
/// `check_alive` accepts it. Otherwise nothing is written.
pub fn model_witness<W: Write>(
    alloc: Global,
    file: &[u8],
    question: Question<&[u8]>,
    model: &[u8],
    out: &mut W,
) -> Result<(), RunFault>
    ensures ends { CommandEnds (flow W.written W.failures out.old out.new) RunFault.Output
        (NamesQuestion (asked_of question.entry) model.now file.now) result }
{
    let mut circuit = circuit_of(alloc, question, file)?;
    answer(alloc, &mut circuit, question, model, out)
}
