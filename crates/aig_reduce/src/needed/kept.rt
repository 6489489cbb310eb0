//! The values that marked variables have, and x at all other places.
ghost use Rattle.std.specs.Prelude.{◌≡◌, ℕ, ◌<◌, ◌≤◌, length, replicate, Some, slice_get, IfOk};
ghost use Rattle.aig_parts.specs.Limits.{frame_limit};
ghost use Rattle.aig_parts.specs.declared.ternary.Tern.{Tern};
ghost use Rattle.aig_values.specs.InputRows.{row_at};
ghost use Rattle.aig_reduce.specs.state.Needed.{AreNeeded, AreNeededCells, AreNeededInputs, AreNeededStarts};

use crate::needed::marking::is_marked;
use aig_base::{Memory, Tern};
use aig_bench::Bench;
use aig_sim::{Grid, Stimulus, first_value};
use std::alloc::Global;

/// So many values of x.
pub fn all_x(alloc: Global, size: usize) -> Result<Vec<Tern>, Memory>
    ensures { IfOk result (λ values. values.items ≡ replicate size Tern.X) }
{
    let values = vec![in alloc; Tern::X; size]?;
    Ok(values)
}

/// So many rows of x.
pub fn rows_of_x(alloc: Global, width: u32, frames: u32) -> Result<Stimulus, Memory>
    requires { frames ≤ frame_limit }
    ensures width { IfOk result (λ rows. rows.width ≡ width) }
    ensures rows { IfOk result (λ rows. length rows.rows ≡ frames) }
    ensures unknown { IfOk result (λ rows. (t i : ℕ) (w : Tern) →
        slice_get (row_at rows.rows t) i ≡ Some w → w ≡ Tern.X) }
{
    let row = all_x(alloc, width as usize)?;
    let mut rows = Stimulus::new(alloc, width);
    for frame in 0..frames {
        rows.push(&row)?;
    }
    Ok(rows)
}

/// Takes over the values of the marked inputs of a frame.
pub fn keep_inputs<G: Grid>(bench: &Bench<G>, frame: u32, marks: &[bool], rows: &mut Stimulus)
    requires frame { frame < length bench.now.pair.rows }
    requires width { rows.old.width ≡ length bench.now.pair.circuit.inputs }
    requires rows { length rows.old.rows ≡ length bench.now.pair.rows }
    ensures width { rows.new.width ≡ rows.old.width }
    ensures rows { length rows.new.rows ≡ length rows.old.rows }
    ensures needed { (property : ℕ) → AreNeeded bench.now.pair property frame marks.now →
        AreNeededInputs bench.now.pair property rows.old.rows →
        AreNeededInputs bench.now.pair property rows.new.rows }
{
    for position in 0..bench.width() {
        let input = bench.circuit().inputs()[position as usize];
        if !is_marked(marks, input.var()) {
            continue;
        }
        rows.set(frame, position, bench.stimulus().get(frame, position));
    }
}

/// Notes the marked variables of a frame.
pub fn keep_cells<G: Grid>(bench: &Bench<G>, frame: u32, marks: &[bool], cells: &mut Stimulus)
    requires frame { frame < length bench.now.pair.rows }
    requires rows { length cells.old.rows ≡ length bench.now.pair.rows }
    ensures rows { length cells.new.rows ≡ length cells.old.rows }
    ensures needed { (property : ℕ) → AreNeeded bench.now.pair property frame marks.now →
        AreNeededCells bench.now.pair property cells.old.rows →
        AreNeededCells bench.now.pair property cells.new.rows }
{
    for variable in 0..cells.width() {
        if !is_marked(marks, variable) {
            continue;
        }
        cells.set(frame, variable, Tern::One);
    }
}

/// Takes over the starts of the marked latches.
pub fn keep_starts<G: Grid>(bench: &Bench<G>, marks: &[bool], start: &mut Vec<Tern>)
    requires { length start.old.items ≡ length bench.now.pair.circuit.latches }
    ensures { (property : ℕ) → AreNeeded bench.now.pair property 0 marks.now →
        AreNeededStarts bench.now.pair property start.old.items →
        AreNeededStarts bench.now.pair property start.new.items }
{
    // Its contract says that it is a circuit.
    bench.width();
    for position in 0..start.len() {
        let latch = bench.circuit().latches()[position];
        if !is_marked(marks, latch.lit.var()) {
            continue;
        }
        start[position] = first_value(latch);
    }
}
