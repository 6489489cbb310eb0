//! A run of the part of a circuit that a property reads, as a run of the circuit.
ghost use Rattle.std.specs.Prelude.{◌≡◌, ◌∷◌, ◌<◌, Bool, IfOk, List, length, map};
ghost use Rattle.aig_base.specs.Part as spec;
ghost use Rattle.aig_base.specs.Part.{input_marks, latch_marks};
ghost use Rattle.aig_cnf.specs.ReadFormula.{marked};
ghost use Rattle.aig_parts.specs.Literal.{variable};
ghost use Rattle.aig_parts.specs.declared.ternary.Tern.{Tern};
ghost use Rattle.aig_refute.specs.SpreadRun.{spread_rows};

use aig_base::{Circuit, Lit, Memory, Tern};
use aig_sim::{Run, Stimulus};
use std::alloc::Global;

/// Whether a literal is read.
fn is_read(marks: &[bool], lit: Lit) -> bool
    ensures { result ≡ marked marks.now (variable lit) }
{
    match marks.get(lit.var() as usize) {
        Some(mark) => *mark,
        None => false,
    }
}

/// Which inputs are read.
fn read_inputs(alloc: Global, circuit: &Circuit, marks: &[bool]) -> Result<Vec<bool>, Memory>
    ensures { IfOk result (λ read. read.items ≡ input_marks (marked marks.now) circuit.now) }
{
    let mut read = Vec::with_capacity(alloc, circuit.inputs().len())?;
    for input in circuit.inputs() {
        read.push(is_read(marks, *input))?;
    }
    Ok(read)
}

/// Which latches are read.
fn read_latches(alloc: Global, circuit: &Circuit, marks: &[bool]) -> Result<Vec<bool>, Memory>
    ensures { IfOk result (λ read. read.items ≡ latch_marks (marked marks.now) circuit.now) }
{
    let mut read = Vec::with_capacity(alloc, circuit.latches().len())?;
    for latch in circuit.latches() {
        read.push(is_read(marks, latch.lit))?;
    }
    Ok(read)
}

/// The next value of what is read, and those after it; else the other value.
fn next_value(read: bool, other: Tern, values: &[Tern]) -> (Tern, &[Tern])
    ensures { (reads : List Bool) (others : List Tern) →
        spec.spread (read ∷ reads) (other ∷ others) values.now ≡ result.0 ∷ spec.spread reads others result.1.now }
{
    match values.split_first() {
        Some((first, rest)) => {
            if read {
                (*first, rest)
            } else {
                (other, values)
            }
        }
        None => (other, values),
    }
}

/// The values in turn of what is read, and the other ones elsewhere.
fn spread(
    alloc: Global,
    reads: &[bool],
    others: &[Tern],
    values: &[Tern],
) -> Result<Vec<Tern>, Memory>
    requires { length reads.now ≡ length others.now }
    ensures { IfOk result (λ all. all.items ≡ spec.spread reads.now others.now values.now) }
{
    let mut all = Vec::with_capacity(alloc, others.len())?;
    let mut rest = values;
    for place in 0..others.len() {
        let (value, later) = next_value(reads[place], others[place], rest);
        all.push(value)?;
        rest = later;
    }
    Ok(all)
}

/// Rows of the part as rows of the circuit: x at inputs that are not read.
fn spread_all(
    alloc: Global,
    reads: &[bool],
    unread: &[Tern],
    rows: &Stimulus,
) -> Result<Stimulus, Memory>
    requires marks { length reads.now ≡ length unread.now }
    requires few { length unread.now < 4294967296 }
    ensures width { IfOk result (λ all. all.width ≡ length unread.now) }
    ensures rows { IfOk result (λ all.
        all.rows ≡ map (λ row. spec.spread reads.now unread.now row) rows.now.rows) }
{
    let mut all = Stimulus::new(alloc, unread.len() as u32);
    for frame in 0..rows.frames() {
        let row = spread(alloc, reads, unread, rows.row(frame))?;
        all.push(&row)?;
    }
    Ok(all)
}

/// The run of a circuit that a run of the part is, of which the marks say what is read: latches that are not read start
/// by these resets, and inputs that are not read are x.
pub(crate) fn spread_run(
    alloc: Global,
    circuit: &Circuit,
    marks: &[bool],
    resets: &[Tern],
    run: &Run,
) -> Result<Run, Memory>
    requires { length resets.now ≡ length circuit.now.latches }
    ensures start { IfOk result (λ whole. whole.start.items
        ≡ spec.spread (latch_marks (marked marks.now) circuit.now) resets.now run.now.start.items) }
    ensures rows { IfOk result (λ whole. whole.rows.rows
        ≡ spread_rows (marked marks.now) circuit.now run.now.rows.rows) }
{
    circuit.facts();
    let latches = read_latches(alloc, circuit, marks)?;
    let start = spread(alloc, &latches, resets, &run.start)?;
    let inputs = read_inputs(alloc, circuit, marks)?;
    let unread = vec![in alloc; Tern::X; circuit.inputs().len()]?;
    let rows = spread_all(alloc, &inputs, &unread, &run.rows)?;
    Ok(Run { start, rows })
}
