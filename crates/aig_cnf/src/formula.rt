//! Formulas: what a solver is asked, over the circuit that is unrolled for it.
ghost use Rattle.std.specs.Prelude.{◌≡◌, ◌+◌, ◌*◌, ◌^◌, ◌<◌, ◌≤◌, All, IfErr, IfOk, OnOk, length, slice_index};
ghost use Rattle.aig_parts.specs.Limits.{frame_limit};
ghost use Rattle.aig_parts.specs.Literal.{variable};
ghost use Rattle.aig_unroll.specs.Answers.{IsUnrolled};
ghost use Rattle.aig_unroll.specs.Unrollable.{FitsLimits};
ghost use Rattle.aig_cnf.specs.Answers.{HasFormula, RefusesFormula};
ghost use Rattle.aig_cnf.specs.Formula.{IsFormulaOf, goals, last_alone};
ghost use Rattle.aig_cnf.specs.Query.{depth, subject};
ghost use Rattle.aig_cnf.specs.state.Kept.{kept_latches};
ghost use Rattle.aig_cnf.specs.state.Made.{IsAnswered};

use crate::any_state::start_in_any_state;
use crate::cone::cone_of;
use crate::fault::CnfFault;
use crate::query::{Goal, Query};
use crate::resets::reset_literals;
use aig_base::{Circuit, Gate, Latch, Levels, Lit, Memory};
use aig_unroll::{fits_limits, unrolled_circuit};
use std::alloc::Global;
use std::marker::Model;

/// The greatest number of frames that a circuit is unrolled for.
const FRAMES: u32 = 65_536;

/// The formula of a query about a circuit. Contracts see its variables, the bad literals of its frames and its clauses.
pub struct Formula {
    pub(crate) goal: Goal,
    /// The literals that are true where the latches have their resets, for an induction.
    pub(crate) starts: Vec<Lit>,
    /// The bad literal of each frame.
    pub(crate) goals: Vec<Lit>,
    /// How many variables it has: that of the constant, and those of the unrolled circuit.
    variables: u32,
    /// The gates that the bad literals depend on.
    pub(crate) gates: Vec<Gate>,
}

// By hand: a value then ends in one call, which is one step of a proof (docs/PROOFS.md, Habits).
impl Drop for Formula {
    fn drop(self) {
        let Formula {
            goal: _,
            starts: _,
            goals: _,
            variables: _,
            gates: _,
        } = self;
    }
}

impl Model for Formula {
    ghost use Rattle.aig_cnf.specs.Formula.{Cnf, clauses};
    ghost use Rattle.aig_cnf.specs.state.Kept.{Keeps};

    ghost Value = { Cnf };

    ghost view = { λ f. record {
      variables = f.variables;
      goals = f.goals.items;
      clauses = clauses f.goal f.starts.items f.goals.items f.gates.items;
    } };

    ghost invariant = { λ f. Keeps f.variables f.starts.items f.goals.items f.gates.items };
}

// For how many frames a circuit is unrolled.
fn depth_of(query: Query) -> u32
    requires { query.frames ≤ frame_limit }
    ensures { result ≡ depth query }
{
    match query.goal {
        Goal::Within | Goal::Last => query.frames,
        Goal::Step | Goal::Induction => query.frames + 1,
    }
}

// Lets the circuit start where the goal does.
pub(crate) fn set_start(circuit: &mut Circuit, goal: Goal)
    ensures { circuit.new ≡ subject goal circuit.old }
{
    match goal {
        Goal::Within | Goal::Last => {}
        Goal::Step | Goal::Induction => start_in_any_state(circuit),
    }
}

// The latches whose resets the formula is about: those of an induction.
fn latches_for(alloc: Global, circuit: &Circuit, goal: Goal) -> Result<Vec<Latch>, Memory>
    ensures { IfOk result (λ found. found.items ≡ kept_latches goal circuit.now) }
{
    match goal {
        Goal::Within | Goal::Last | Goal::Step => Ok(Vec::new(alloc)),
        Goal::Induction => Ok(Vec::from_slice(alloc, circuit.latches())?),
    }
}

// The variable of the first latch, where a circuit that starts in any state is unrolled.
fn first_latch(circuit: &Circuit, depth: u32) -> u32
    requires { FitsLimits circuit.now depth }
    ensures { result ≡ depth * length circuit.now.inputs + 1 }
{
    circuit.facts();
    depth * circuit.inputs().len() as u32 + 1
}

// The first fault that applies, and else the number of frames to unroll a circuit for that starts where the goal does.
fn check_query(circuit: &Circuit, query: Query) -> Result<u32, CnfFault>
    ensures { IsAnswered circuit.now query result }
{
    if query.frames == 0 {
        return Err(CnfFault::NoFrames);
    }
    if query.property as usize >= circuit.bad().len() {
        return Err(CnfFault::Property);
    }
    if query.frames > FRAMES {
        return Err(CnfFault::Limit);
    }
    let depth = depth_of(query);
    if !fits_limits(circuit, depth) {
        return Err(CnfFault::Limit);
    }
    Ok(depth)
}

// The circuit unrolled for so many frames. The levels end here: they take more memory than a small part.
fn unrolled_for(alloc: Global, circuit: &Circuit, frames: u32) -> Result<Circuit, Memory>
    requires { FitsLimits circuit.now frames }
    ensures { IfOk result (IsUnrolled circuit.now frames) }
{
    let levels = Levels::of(alloc, circuit)?;
    unrolled_circuit(alloc, circuit, &levels, frames)
}

// A bad literal of a frame, where a circuit of `bads` bad literals was unrolled.
fn goal_at(circuit: &Circuit, bads: u32, frame: u32, property: u32) -> Lit
    requires { frame * bads + property < length circuit.now.bad }
    ensures { result ≡ slice_index circuit.now.bad (frame * bads + property) }
{
    circuit.bad()[frame as usize * bads as usize + property as usize]
}

// That of each frame.
fn goals_of(
    alloc: Global,
    circuit: &Circuit,
    bads: u32,
    frames: u32,
    property: u32,
) -> Result<Vec<Lit>, Memory>
    requires property { property < bads }
    requires bad { length circuit.now.bad ≡ frames * bads }
    ensures { IfOk result (λ found. found.items ≡ goals circuit.now bads frames property) }
{
    let mut found = Vec::new(alloc);
    for frame in 0..frames {
        found.push(goal_at(circuit, bads, frame, property))?;
    }
    Ok(found)
}

// The last of the bad literals.
pub(crate) fn last_of(goals: &[Lit]) -> &[Lit]
    ensures { result.now ≡ last_alone goals.now }
{
    &goals[goals.len().saturating_sub(1)..]
}

impl Formula {
    /// Makes the formula of a query about a circuit, and lets the circuit start where the goal of the query does, also
    /// where it refuses. It ignores justice and fairness. It refuses 0 frames, then a property that is not there, then
    /// what is over a limit of `unroll`. Before that it takes no memory, but for the latches of an induction.
    pub fn of(alloc: Global, circuit: &mut Circuit, query: Query) -> Result<Formula, CnfFault>
        ensures formula { IfOk result (IsFormulaOf circuit.old query) }
        ensures accepted { OnOk result (HasFormula circuit.old query) }
        ensures refused { IfErr result (RefusesFormula circuit.old query) }
        ensures circuit { circuit.new ≡ subject query.goal circuit.old }
    {
        let latches = latches_for(alloc, circuit, query.goal);
        set_start(circuit, query.goal);
        let depth = check_query(circuit, query)?;
        circuit.facts();
        let latches = latches?;
        let first = first_latch(circuit, depth);
        let starts = reset_literals(alloc, &latches, first)?;
        let bads = circuit.bad().len() as u32;
        let unrolled = unrolled_for(alloc, circuit, depth)?;
        let goals = goals_of(alloc, &unrolled, bads, depth, query.property)?;
        unrolled.facts();
        let gates = cone_of(alloc, &unrolled, &goals)?;
        Ok(Formula {
            goal: query.goal,
            starts,
            goals,
            variables: unrolled.max_var() + 1,
            gates,
        })
    }

    /// How many variables the formula has: that of the constant, and those of the unrolled circuit. There are so few
    /// that a literal of DIMACS has 32 bits with its sign.
    pub fn variables(&self) -> u32
        ensures count { result ≡ self.now.variables }
        ensures few { result < 2 ^ 31 }
    {
        self.variables
    }

    /// For how many frames the circuit is unrolled.
    pub fn depth(&self) -> u32
        ensures { result ≡ length self.now.goals }
    {
        self.goals.len() as u32
    }
}
