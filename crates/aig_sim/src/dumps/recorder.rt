//! What a dump writes of the frames of a simulation.
ghost use Rattle.std.specs.Prelude.{◌≡◌, ◌++◌, length, map, replicate, IfOk, OnOk};
ghost use Rattle.aig_sim.specs.Dump.{signals};

use crate::dumps::text::write_frame;
use crate::simulation::machine::Machine;
use crate::simulation::recorder::Recorder;
use aig_base::{Circuit, Io, Latch, Lit, Memory, Write};
use aig_values::trace_line::{TraceBlock, spell_literals};
use std::alloc::Global;

/// Writes the values that change from frame to frame: one literal per signal, and its characters at the last frame and
/// at the current one.
#[derive(Drop)]
pub struct DumpRecorder {
    block: TraceBlock,
    literals: Vec<Lit>,
    last: Vec<u8>,
    characters: Vec<u8>,
}

// Adds the literals of latches.
fn push_latches(literals: &mut Vec<Lit>, latches: &[Latch]) -> Result<(), Memory>
    ensures { OnOk result (literals.new.items ≡ literals.old.items ++ map (λ x. x.lit) latches.now) }
{
    for latch in latches {
        literals.push(latch.lit)?;
    }
    Ok(())
}

// The literals of the signals in order.
fn signal_literals(alloc: Global, circuit: &Circuit) -> Result<Vec<Lit>, Memory>
    ensures { IfOk result (λ literals. literals.items ≡ signals circuit.now) }
{
    let mut literals = Vec::new(alloc);
    literals.extend_from_slice(circuit.inputs())?;
    push_latches(&mut literals, circuit.latches())?;
    literals.extend_from_slice(circuit.outputs())?;
    literals.extend_from_slice(circuit.bad())?;
    literals.extend_from_slice(circuit.constraints())?;
    Ok(literals)
}

// Room for so many characters; none of them is one.
fn no_characters(alloc: Global, size: usize) -> Result<Vec<u8>, Memory>
    ensures { IfOk result (λ characters. characters.items ≡ replicate size 0) }
{
    let mut characters = Vec::with_capacity(alloc, size)?;
    characters.resize(size, 0)?;
    Ok(characters)
}

impl DumpRecorder {
    /// Before the first frame no signal has a character. All memory that it takes is reserved here.
    pub fn new(alloc: Global, circuit: &Circuit) -> Result<DumpRecorder, Memory>
        ensures literals { IfOk result (λ r. r.literals.items ≡ signals circuit.now) }
        ensures last { IfOk result (λ r. r.last.items ≡ replicate (length (signals circuit.now)) 0) }
        ensures size { IfOk result (λ r. length r.characters.items ≡ length (signals circuit.now)) }
    {
        let literals = signal_literals(alloc, circuit)?;
        let count = literals.len();
        Ok(DumpRecorder {
            block: TraceBlock::new(),
            literals,
            last: no_characters(alloc, count)?,
            characters: no_characters(alloc, count)?,
        })
    }
}

impl Recorder for DumpRecorder {
    ghost use Rattle.std.specs.Prelude.{◌≡◌, length};
    ghost use Rattle.aig_sim.specs.Dump.{signals};
    ghost use Rattle.aig_sim.specs.state.Dumping.{dumped_text, characters_of, AreLast, AreDumped};

    ghost is_text = { λ raw start rows text. AreDumped raw start rows text };

    ghost fits = { λ r raw. (r.literals.items ≡ signals raw) × (length r.last.items ≡ length (signals raw))
        × (length r.characters.items ≡ length (signals raw)) };

    ghost has_recorded = { λ r raw start rows. AreLast raw start rows (length rows) r.last.items };

    ghost frame_text = { λ r raw t cells. dumped_text t r.last.items (characters_of raw cells) };

    fn record<W: Write>(
        &mut self,
        out: &mut W,
        machine: &Machine<'_>,
        frame: u64,
    ) -> Result<(), Io> {
        // Its contract says that the circuit is one.
        let _circuit = machine.circuit();
        spell_literals(&mut self.characters, machine, &self.literals);
        write_frame(out, &mut self.block, frame, &self.last, &self.characters)?;
        self.last.copy_from_slice(&self.characters);
        Ok(())
    }
}
