//! Reducing a witness.
ghost use Rattle.std.specs.Prelude.{◌≡◌, ◌↔◌, [], length, IfOk, IfErr, IsTrue};
ghost use Rattle.std.specs.Fmt.{decimal};
ghost use Rattle.aig_bytes.specs.Bytes.{Writes};
ghost use Rattle.aig_base.specs.Circuit.{IsCircuit};
ghost use Rattle.aig_sim.specs.Verdict.{IsVerdict};
ghost use Rattle.aig_sim.specs.WitnessText.{IsAdmitted, IsDecimal, SpellsWitness, witness_text};
ghost use Rattle.aig_reduce.specs.Answers.{AnswersReduction, RefusesReduction};

use crate::fault::ReduceFault;
use crate::needed::{Known, Needed};
use crate::pace::ROOM;
use crate::place::Cleared;
use crate::reducer::Reducer;
use crate::spread::Spread;
use aig_base::{Circuit, Io, Latch, Memory, Readers, Write, start_at};
use aig_bench::{Bench, BenchFault};
use aig_sim::{Verdict, Witness, check_witness, read_witness, write_witness};
use std::alloc::Global;
use std::marker::Model;

/// A witness that was reduced. Contracts see the witness.
#[derive(Drop)]
pub struct ReducedWitness {
    reducer: Reducer,
}

impl Model for ReducedWitness {
    ghost use Rattle.aig_sim.specs.WitnessText.{Witness};

    ghost Value = { Witness };

    ghost view = { λ r. record {
      property = r.reducer.property;
      start = r.reducer.start.items;
      rows = r.reducer.bench.pair.rows;
    } };
}

impl ReducedWitness {
    /// Writes the text of the witness. It takes no memory, and writes the first lines in small pieces: pass a writer
    /// that buffers them.
    pub fn write<W: Write>(&self, out: &mut W) -> Result<(), Io>
        ensures written { Writes W.written W.failures out.old out.new
            (witness_text (decimal self.now.property) self.now.start self.now.rows) result }
        ensures position { IsDecimal (decimal self.now.property) self.now.property }
    {
        let reducer = &self.reducer;
        let bench = &reducer.bench;
        write_witness(
            out,
            reducer.property,
            &reducer.start,
            bench.stimulus(),
            bench.frames(),
        )
    }
}

/// What a reduction answers.
#[derive(Drop)]
pub enum Reduction {
    /// The reduced witness of one that is confirmed.
    Reduced(ReducedWitness),
    /// The verdict on one that is not.
    Refused(Verdict),
}

// A witness that was read, its verdict, and the latches of its circuit.
#[derive(Drop)]
struct Given {
    verdict: Verdict,
    witness: Witness,
    latches: Vec<Latch>,
}

fn is_confirmed(verdict: Verdict) -> bool
    ensures { IsTrue result ↔ (verdict ≡ Verdict.Confirmed) }
{
    matches!(verdict, Verdict::Confirmed)
}

// Copies the latches of a circuit.
fn copy_latches(alloc: Global, circuit: &Circuit) -> Result<Vec<Latch>, Memory>
    ensures { IfOk result (λ latches. latches.items ≡ circuit.now.latches) }
{
    Ok(Vec::from_slice(alloc, circuit.latches())?)
}

// Room for the values that are tried at once.
fn make_room(alloc: Global) -> Result<Vec<Cleared>, Memory>
    ensures { IfOk result (λ cleared. cleared.items ≡ []) }
{
    Ok(Vec::with_capacity(alloc, ROOM)?)
}

impl Given {
    // Reads a witness and checks it.
    fn read(alloc: Global, circuit: &Circuit, text: &[u8]) -> Result<Given, ReduceFault>
        ensures spelled { IfOk result (λ given. SpellsWitness circuit.now text.now (record {
          property = given.witness.property;
          start = given.witness.start.items;
          rows = given.witness.rows.rows;
        })) }
        ensures admitted { IfOk result (λ given. IsAdmitted circuit.now (record {
          property = given.witness.property;
          start = given.witness.start.items;
          rows = given.witness.rows.rows;
        })) }
        ensures verdict { IfOk result (λ given. IsVerdict circuit.now (record {
          property = given.witness.property;
          start = given.witness.start.items;
          rows = given.witness.rows.rows;
        })
            given.verdict) }
        ensures width { IfOk result (λ given. given.witness.rows.width ≡ length circuit.now.inputs) }
        ensures latches { IfOk result (λ given. given.latches.items ≡ circuit.now.latches) }
        ensures circuit { IsCircuit circuit.now }
        ensures fault { IfErr result (RefusesReduction circuit.now text.now) }
    {
        // Its contract says that it is a circuit.
        circuit.facts();
        let verdict = check_witness(alloc, circuit, text)?;
        let witness = read_witness(alloc, circuit, text)?;
        let latches = copy_latches(alloc, circuit)?;
        Ok(Given {
            verdict,
            witness,
            latches,
        })
    }
}

/// Reduces a witness of a circuit: x in place of each input's value, and of each start of an uninitialised latch, that
/// can be x while the witness is confirmed. The order is the starts in the order of the latches, and then frame by
/// frame, input by input. Each value stays x where the run is still confirmed with all that stayed so before (our own
/// choice). A witness that is not confirmed has its verdict as the answer. `law_of_reduction` says what is known of a
/// reduced witness.
///
/// Refused are, in this order, what `check_witness` refuses and more than 67,108,864 cells, `M + 1` a frame. All memory
/// is taken before the first value is tried. One look back over the run, in the time of its cells, finds values that
/// are needed, and these are not tried. Nor is a value whose x makes x of what is needed at its frame, by the values so
/// far: the gates that become x there are followed. Values that can all go are tried together, up to 65,536 at once.
/// Between two other values that are needed there are about as many looks as the logarithm of their distance. A look
/// costs the constraints from the frame of the first of its values on, up to one that is not 1. Each value that is put
/// costs the cells that it changes.
pub fn reduce_witness(
    alloc: Global,
    circuit: Circuit,
    text: &[u8],
) -> Result<Reduction, ReduceFault>
    ensures reduced { IfOk result (AnswersReduction circuit text.now) }
    ensures fault { IfErr result (RefusesReduction circuit text.now) }
{
    let Given {
        verdict,
        witness,
        latches,
    } = Given::read(alloc, &circuit, text)?;
    let Witness {
        property,
        start,
        rows,
    } = witness;
    let mut circuit = circuit;
    start_at(&mut circuit, &start);
    let bench = Bench::new(alloc, circuit, rows)?;
    if !is_confirmed(verdict) {
        return Ok(Reduction::Refused(verdict));
    }
    let needed = Needed::of(alloc, &bench, property)?;
    let readers = Readers::of(alloc, bench.circuit())?;
    let spread = Spread::new(alloc, bench.circuit().max_var() as usize + 1)?;
    let known = Known {
        latches,
        readers,
        needed,
    };
    let mut cleared = make_room(alloc)?;
    let mut reducer = Reducer {
        bench,
        property,
        start,
        spread,
    };
    reducer.try_all(&known, &mut cleared);
    Ok(Reduction::Reduced(ReducedWitness { reducer }))
}
