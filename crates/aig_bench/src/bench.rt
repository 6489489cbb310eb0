//! The workbench: event-driven, levelized, three-valued simulation of a circuit that is edited.
ghost use Rattle.std.specs.Prelude.{◌≡◌, ◌≢◌, ℕ, ◌+◌, ◌*◌, ◌<◌, ◌≤◌, ◌↔◌, List, length, IsErrOf, IfOk};
ghost use Rattle.aig_bytes.specs.Bytes.{Writes};
ghost use Rattle.aig_base.specs.Circuit.{IsCircuit};
ghost use Rattle.aig_parts.specs.Limits.{cell_limit};
ghost use Rattle.aig_base.specs.Renumbered.{IsBinaryReady};
ghost use Rattle.aig_bench.specs.CurrentCells.{HasCurrentCells};
ghost use Rattle.aig_bench.specs.BenchState.{HasTrace};
ghost use Rattle.aig_bench.specs.Question.{AnswersValue};
ghost use Rattle.aig_values.specs.InputRows.{HaveWidth};
ghost use Rattle.aig_unroll.specs.Answers.{AnswersUnrolling};

mod edits;
pub(crate) mod fault;
mod rows;
pub(crate) mod sizes;
mod trace;
mod value;

use crate::bench::fault::BenchFault;
use crate::bench::sizes::check_sizes;
use crate::bench::trace::write_frames;
use crate::bench::value::literal_at;
use crate::edit::EditFault;
use crate::edit::allowed::is_defined;
use crate::engine::Engine;
use crate::engine::driven_circuit::DrivenCircuit;
use aig_base::{Circuit, Io, Lit, Tern, Write};
use aig_unroll::{UnrollFault, unroll};
use aig_values::{Grid, Stimulus};
use std::alloc::Global;
use std::marker::Model;

/// A circuit and a stimulus whose values are current, also after edits. Contracts see the pair, and how many gates were
/// evaluated.
#[derive(Drop)]
pub struct Bench<G: Grid> {
    pub(crate) engine: Engine<G>,
}

impl<G: Grid> Model for Bench<G> {
    ghost use Rattle.aig_bench.specs.BenchState.{BenchState};

    ghost Value = { BenchState };

    ghost use Rattle.aig_bench.specs.state.Engine.{IsSettled};

    ghost view = { λ b. record { pair = b.engine.pair; evaluations = b.engine.evaluations } };

    ghost invariant = { λ b. IsSettled b.engine };
}

impl<G: Grid> Bench<G> {
    /// A bench of a circuit and a stimulus with a value for each input, of at most 67,108,864 cells: `M + 1` a frame
    /// (our own choice). It evaluates each gate once a frame, and takes memory for the cells.
    pub fn new(alloc: Global, circuit: Circuit, stimulus: Stimulus) -> Result<Bench<G>, BenchFault>
        ensures width { IsErrOf result BenchFault.Width ↔ (stimulus.width ≢ length circuit.inputs) }
        ensures limit { IsErrOf result BenchFault.Limit ↔ (stimulus.width ≡ length circuit.inputs)
            × (cell_limit < (circuit.max_var + 1) * length stimulus.rows) }
        ensures made { IfOk result (λ bench. bench.pair ≡ record { circuit = circuit; rows = stimulus.rows }) }
        ensures evaluations { IfOk result (λ bench.
            bench.evaluations ≡ length circuit.gates * length stimulus.rows) }
    {
        check_sizes(&circuit, &stimulus)?;
        let engine = Engine::new(alloc, DrivenCircuit { circuit, stimulus })?;
        Ok(Bench { engine })
    }

    /// The number of inputs. Its contract also says that the pair is a circuit and rows of that width.
    pub fn width(&self) -> u32
        ensures width { result ≡ length self.now.pair.circuit.inputs }
        ensures circuit { IsCircuit self.now.pair.circuit }
        ensures rows { HaveWidth (length self.now.pair.circuit.inputs) self.now.pair.rows }
    {
        let engine = &self.engine;
        engine.driven.stimulus.width()
    }

    /// The number of frames.
    pub fn frames(&self) -> u32
        ensures { result ≡ length self.now.pair.rows }
    {
        let engine = &self.engine;
        engine.driven.stimulus.frames()
    }

    /// The circuit as it is now: with all edits that were done.
    pub fn circuit(&self) -> &Circuit
        ensures { result.now ≡ self.now.pair.circuit }
    {
        let engine = &self.engine;
        &engine.driven.circuit
    }

    /// The stimulus as it is now. Its contract also says that its cells are within the limit of a bench.
    pub fn stimulus(&self) -> &Stimulus
        ensures rows { result.now.rows ≡ self.now.pair.rows }
        ensures width { result.now.width ≡ length self.now.pair.circuit.inputs }
        ensures limit { (self.now.pair.circuit.max_var + 1) * length self.now.pair.rows ≤ cell_limit }
    {
        let engine = &self.engine;
        &engine.driven.stimulus
    }

    /// The grid: a row a frame, where the cell of each defined variable is its value, and the count of all evaluations.
    pub fn grid(&self) -> &G
        ensures cells { HasCurrentCells self.now.pair (G.cells result.now) }
        ensures variables { length (G.gate_flags result.now) ≡ self.now.pair.circuit.max_var + 1 }
        ensures evaluations { G.evaluations result.now ≡ self.now.evaluations }
    {
        let engine = &self.engine;
        &engine.grid
    }

    /// The value of a literal at a frame, counted from 0: what the grid has for it, and nothing is evaluated. Refused
    /// are a literal over `2M + 1`, a variable that is neither 0 nor defined, and a frame that is not there, in this
    /// order (our own choice).
    pub fn value(&self, frame: u32, literal: Lit) -> Result<Tern, EditFault>
        ensures { AnswersValue self.now.pair frame literal result }
    {
        let engine = &self.engine;
        let variable = literal.var();
        if variable > engine.driven.circuit.max_var() {
            return Err(EditFault::Range);
        }
        if !is_defined(&engine.driven.circuit, variable) {
            return Err(EditFault::Undefined);
        }
        if frame >= engine.driven.stimulus.frames() {
            return Err(EditFault::NoFrame);
        }
        Ok(literal_at(&engine.grid, frame, literal))
    }

    /// Writes the trace: a line a frame, with the characters of state, inputs, outputs and next state (our own choice).
    pub fn write_trace<W: Write>(&self, out: &mut W) -> Result<(), Io>
        ensures { (text : List ℕ) × HasTrace self.now.pair text
            × Writes W.written W.failures out.old out.new text result }
    {
        let engine = &self.engine;
        write_frames(out, &engine.grid, &engine.driven)
    }

    /// The current circuit unrolled for as many frames as there are, as `unroll` gives it: with the gates of a frame in
    /// the canonical order of the circuit as it is now. It takes memory (our own choice).
    pub fn unrolled(&self, alloc: Global) -> Result<Circuit, UnrollFault>
        ensures answers { AnswersUnrolling self.now.pair.circuit (length self.now.pair.rows) result }
        ensures ready { IfOk result IsBinaryReady }
    {
        let engine = &self.engine;
        unroll(
            alloc,
            &engine.driven.circuit,
            &engine.fanouts.levels,
            self.frames(),
        )
    }
}
