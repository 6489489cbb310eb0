//! The formula of a query over the part of a circuit that its property reads.
ghost use Rattle.std.specs.Prelude.{◌≡◌, ◌<◌, IfErr, IfOk, OnOk};
ghost use Rattle.aig_parts.specs.Literal.{variable};
ghost use Rattle.aig_base.specs.Sections.{IsDefined};
ghost use Rattle.aig_bytes.specs.Bytes.{Writes};
ghost use Rattle.aig_cnf.specs.CnfText.{read_text};
ghost use Rattle.aig_cnf.specs.Query.{subject};
ghost use Rattle.aig_cnf.specs.ReadFormula.{HasReadAliveFormula, HasReadFormula, IsReadAliveOf, IsReadOf};
ghost use Rattle.aig_cnf.specs.ReadFormula.{RefusesReadAlive, RefusesReadFormula};
ghost use Rattle.aig_cnf.specs.state.Over.{IsOver, IsPropertyOf, RefusesOver};

use crate::fault::CnfFault;
use crate::formula::{Formula, set_start};
use crate::heading::Heading;
use crate::part::part_of;
use crate::query::{Goal, Query};
use aig_base::{Circuit, Io, Lit, Memory, Write, read_marks};
use aig_unroll::write_input_lines;
use std::alloc::Global;
use std::marker::Model;

/// The formula of a query over the part of a circuit that its property reads. Contracts see the formula, the part where
/// the goal starts, and which variables are read.
pub struct ReadFormula {
    formula: Formula,
    part: Circuit,
    marks: Vec<bool>,
}

// By hand: a value then ends in one call, which is one step of a proof (docs/PROOFS.md, Habits).
impl Drop for ReadFormula {
    fn drop(self) {
        let ReadFormula {
            formula: _,
            part: _,
            marks: _,
        } = self;
    }
}

impl Model for ReadFormula {
    ghost use Rattle.aig_cnf.specs.ReadFormula.{ReadCnf};

    ghost Value = { ReadCnf };

    ghost view = { λ f. record { cnf = f.formula; small = f.part; marks = f.marks.items } };

    ghost invariant = { λ f. Unit };
}

// The formula over the part that is read for this bad literal.
fn over_part(
    alloc: Global,
    circuit: &Circuit,
    bad: Lit,
    goal: Goal,
    frames: u32,
) -> Result<ReadFormula, CnfFault>
    requires bad { IsDefined circuit.now (variable bad) }
    requires frames { 0 < frames }
    ensures formula { IfOk result (IsOver circuit.now bad goal frames) }
    ensures refused { IfErr result (RefusesOver circuit.now bad goal frames) }
{
    let marks = read_marks(alloc, circuit, bad)?;
    let mut part = part_of(alloc, circuit, bad, &marks)?;
    let query = Query {
        goal,
        frames,
        property: 0,
    };
    let formula = Formula::of(alloc, &mut part, query)?;
    Ok(ReadFormula {
        formula,
        part,
        marks,
    })
}

// The bad literal of a query, if there is a frame and such a property.
fn property_of(circuit: &Circuit, query: Query) -> Result<Lit, CnfFault>
    ensures { IsPropertyOf circuit.now query result }
{
    if query.frames == 0 {
        return Err(CnfFault::NoFrames);
    }
    match circuit.bad().get(query.property as usize) {
        Some(bad) => Ok(*bad),
        None => Err(CnfFault::Property),
    }
}

// The formula of a query. The circuit stays as it is.
fn formula_of(alloc: Global, circuit: &Circuit, query: Query) -> Result<ReadFormula, CnfFault>
    ensures formula { IfOk result (IsReadOf circuit.now query) }
    ensures accepted { OnOk result (HasReadFormula circuit.now query) }
    ensures refused { IfErr result (RefusesReadFormula circuit.now query) }
{
    circuit.facts();
    let bad = property_of(circuit, query)?;
    over_part(alloc, circuit, bad, query.goal, query.frames)
}

impl ReadFormula {
    /// Makes the formula of a query over the part of a circuit that its property reads, and lets the circuit start where
    /// the goal of the query does, also where it refuses. It ignores justice and fairness. It refuses 0 frames, then a
    /// property that is not there, then what is over a limit of `unroll`, which is asked of the part. Memory may run out
    /// before the limit is asked.
    pub fn of(alloc: Global, circuit: &mut Circuit, query: Query) -> Result<ReadFormula, CnfFault>
        ensures formula { IfOk result (IsReadOf circuit.old query) }
        ensures accepted { OnOk result (HasReadFormula circuit.old query) }
        ensures refused { IfErr result (RefusesReadFormula circuit.old query) }
        ensures circuit { circuit.new ≡ subject query.goal circuit.old }
    {
        let made = formula_of(alloc, circuit, query);
        set_start(circuit, query.goal);
        made
    }

    /// Makes the formula that some run from a start that the resets allow keeps all constraints of a circuit at each of
    /// the first so many frames, over the part that the constraints read. Where no assignment satisfies it, a bad state
    /// is unreachable at the last of them only because no run gets there. Bad states need not be there, and are ignored.
    /// It refuses 0 frames, then what is over a limit of `unroll`, and memory may run out before the limit is asked.
    pub fn alive(alloc: Global, circuit: &Circuit, frames: u32) -> Result<ReadFormula, CnfFault>
        ensures formula { IfOk result (IsReadAliveOf circuit.now frames) }
        ensures accepted { OnOk result (HasReadAliveFormula circuit.now frames) }
        ensures refused { IfErr result (RefusesReadAlive circuit.now frames) }
    {
        if frames == 0 {
            return Err(CnfFault::NoFrames);
        }
        over_part(alloc, circuit, Lit::new(1), Goal::Last, frames)
    }

    /// The formula.
    pub fn formula(&self) -> &Formula
        ensures { result.now ≡ self.now.cnf }
    {
        &self.formula
    }

    /// The part, where the goal starts.
    pub fn part(&self) -> &Circuit
        ensures { result.now ≡ self.now.small }
    {
        &self.part
    }

    /// For each variable of the circuit whether it is read.
    pub fn marks(&self) -> &[bool]
        ensures { result.now ≡ self.now.marks }
    {
        &self.marks
    }

    /// Writes the formula in DIMACS, with comment lines that say what was asked for and what its variables are, for the
    /// circuit that it was made of: names and positions are those of the circuit, and an input that is not read has no
    /// line. The literal of a literal `l` of the unrolled part is `l / 2 + 1`, negative where `l` is odd; variable 1 is
    /// false. `law_of_dimacs` says what a reader finds in the text. It takes no memory, and writes the comment lines in
    /// small pieces: pass a writer that buffers them.
    pub fn write<W: Write>(&self, circuit: &Circuit, asked: Heading, out: &mut W) -> Result<(), Io>
        ensures { Writes W.written W.failures out.old out.new (read_text circuit.now asked self.now) result }
    {
        asked.write(circuit, out)?;
        // The constant is variable 1, so the variable of the first input is 2.
        write_input_lines(
            b"c ",
            circuit,
            Some(&self.marks),
            2,
            self.formula.depth(),
            out,
        )?;
        self.formula.write_goals_and_clauses(out)
    }
}
