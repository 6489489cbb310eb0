//! Many values of inputs at once.
ghost use Rattle.std.specs.Prelude.{◌≡◌, ◌∷◌, [], ◌-◌, ◌<◌, ◌≤◌, All, OnErr, OnOk, length};
ghost use Rattle.aig_bench.specs.Edit.{set_bit};
ghost use Rattle.aig_shell.specs.State.{AreSettable, Leads, row_edits, set_edits};
ghost use Rattle.aig_shell.specs.Written.{RowsBecome};

use crate::session::run_kept::copy_of;
use aig_base::{Memory, Tern};
use aig_bench::Bench;
use aig_sim::{PlaneGrid, Stimulus};
use std::alloc::Global;

/// Gives an input a value at a frame.
fn write_value(stimulus: &mut Stimulus, frame: u32, position: u32, value: Tern)
    requires frame { frame < length stimulus.old.rows }
    requires position { position < stimulus.old.width }
    ensures { RowsBecome stimulus.old (set_bit frame position value ∷ []) stimulus.new }
{
    stimulus.set(frame, position, value);
}

/// Gives inputs their values at a frame.
fn write_row(stimulus: &mut Stimulus, frame: u32, positions: &[u32], values: &[Tern])
    requires frame { frame < length stimulus.old.rows }
    requires positions { All (λ p. p < stimulus.old.width) positions.now }
    requires size { length values.now ≡ length positions.now }
    ensures { RowsBecome stimulus.old (row_edits frame positions.now values.now) stimulus.new }
{
    for place in 0..positions.len() {
        write_value(stimulus, frame, positions[place], values[place]);
    }
}

/// Gives inputs their values at the frames from the first up to the end, which is none of them.
fn write_rows(stimulus: &mut Stimulus, first: u32, end: u32, positions: &[u32], values: &[Tern])
    requires order { first ≤ end }
    requires within { end ≤ length stimulus.old.rows }
    requires positions { All (λ p. p < stimulus.old.width) positions.now }
    requires size { length values.now ≡ length positions.now }
    ensures { RowsBecome stimulus.old (set_edits first (end - first) positions.now values.now) stimulus.new }
{
    for frame in first..end {
        write_row(stimulus, frame, positions, values);
    }
}

/// Gives inputs their values at the frames from the first up to the end, in a copy of the rows. The bench then
/// evaluates each gate once a frame, however many values there are. Without memory for the copy nothing changes.
pub(crate) fn set_at_once(
    alloc: Global,
    bench: &mut Bench<PlaneGrid>,
    first: u32,
    end: u32,
    positions: &[u32],
    values: &[Tern],
) -> Result<(), Memory>
    requires { AreSettable bench.old.pair first end positions.now values.now }
    ensures done { OnOk result
        (Leads bench.old.pair (set_edits first (end - first) positions.now values.now) bench.new.pair) }
    ensures kept { OnErr result (bench.new ≡ bench.old) }
{
    let mut rows = copy_of(alloc, bench.stimulus())?;
    write_rows(&mut rows, first, end, positions, values);
    bench.replace_rows(rows)?;
    Ok(())
}
