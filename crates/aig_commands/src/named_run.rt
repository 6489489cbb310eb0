//! The run that the values of a formula's variables name.
ghost use Rattle.std.specs.Prelude.{◌≡◌, ◌*◌, ◌<◌, ◌≤◌, IfOk, drop, length, slice_index_or};
ghost use Rattle.aig_base.specs.Circuit.{IsCircuit};
ghost use Rattle.aig_parts.specs.Limits.{frame_limit};
ghost use Rattle.aig_parts.specs.declared.ternary.Tern.TheVariants.{X};
ghost use Rattle.aig_refute.specs.PartialModels.{named_rows, named_start};
ghost use Rattle.aig_refute.specs.UnrolledWitness.{cut, filled};
ghost use Rattle.aig_unroll.specs.FrameLiteral.{input_count};

use aig_base::{Circuit, Latch, Memory, Tern};
use aig_sim::{Run, Stimulus, first_value};
use aig_unroll::uninitialised;
use std::alloc::Global;

/// The first value, x where there is none, and those after it.
fn split_first(values: &[Tern]) -> (Tern, &[Tern])
    ensures first { result.0 ≡ slice_index_or values.now 0 X }
    ensures rest { result.1.now ≡ drop 1 values.now }
{
    match values.split_first() {
        Some((first, rest)) => (*first, rest),
        None => (Tern::X, values),
    }
}

/// A start: the uninitialised latches take the values in turn, the others start by their resets.
fn fill_start(alloc: Global, latches: &[Latch], values: &[Tern]) -> Result<Vec<Tern>, Memory>
    ensures { IfOk result (λ start. start.items ≡ filled latches.now values.now) }
{
    let mut start = Vec::with_capacity(alloc, latches.len())?;
    let mut rest = values;
    for latch in latches {
        if latch.reset.value() == latch.lit.value() {
            let (value, later) = split_first(rest);
            start.push(value)?;
            rest = later;
        } else {
            start.push(first_value(*latch))?;
        }
    }
    Ok(start)
}

/// The values, cut into rows of a width, one after the other.
fn cut_rows(alloc: Global, values: &[Tern], width: u32, frames: u32) -> Result<Stimulus, Memory>
    requires frames { frames ≤ frame_limit }
    requires enough { frames * width ≤ length values.now }
    ensures width { IfOk result (λ rows. rows.width ≡ width) }
    ensures rows { IfOk result (λ rows. rows.rows ≡ cut width frames values.now) }
{
    let mut rows = Stimulus::new(alloc, width);
    let mut rest = values;
    for frame in 0..frames {
        let (row, later) = rest.split_at(width as usize);
        rows.push(row)?;
        rest = later;
    }
    Ok(rows)
}

/// The run of so many frames that the values of a formula's variables name, where that is over this circuit.
pub(crate) fn named_run(
    alloc: Global,
    circuit: &Circuit,
    frames: u32,
    values: &[Tern],
) -> Result<Run, Memory>
    requires circuit { IsCircuit circuit.now }
    requires frames { frames ≤ frame_limit }
    requires values { input_count circuit.now frames < length values.now }
    ensures start { IfOk result (λ run. run.start.items ≡ named_start circuit.now frames values.now) }
    ensures rows { IfOk result (λ run. run.rows.rows ≡ named_rows circuit.now frames values.now) }
    ensures width { IfOk result (λ run. run.rows.width ≡ length circuit.now.inputs) }
{
    let width = circuit.inputs().len();
    let in_rows = frames as usize * width;
    let (_false, rest) = values.split_at(1);
    let (row, _gates) = rest.split_at(in_rows + uninitialised(circuit));
    let rows = cut_rows(alloc, row, width as u32, frames)?;
    let (_rows, free) = row.split_at(in_rows);
    let start = fill_start(alloc, circuit.latches(), free)?;
    Ok(Run { start, rows })
}
