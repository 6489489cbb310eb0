//! Runs that were read or written.
ghost use Rattle.std.specs.Prelude.{◌≡◌, ◌↔◌, ℕ, ◌+◌, ◌*◌, ◌<◌, ◌≤◌, IfNone, IfOk, IfSome, IsTrue, Some, length};
ghost use Rattle.std.specs.Prelude.{slice_get};
ghost use Rattle.aig_parts.specs.Literal.{variable};
ghost use Rattle.aig_parts.specs.declared.ternary.Tern.{Tern};
ghost use Rattle.aig_base.specs.Sections.{IsDefined};
ghost use Rattle.aig_base.specs.Value.{start_of};
ghost use Rattle.aig_bench.specs.BenchState.{CircuitAndRows, HasValue};
ghost use Rattle.aig_shell.specs.Session.{KeepsFirst, KeepsRun};

use aig_base::{Circuit, Lit, Memory, Tern};
use aig_bench::Bench;
use aig_sim::{PlaneGrid, Stimulus, first_states};
use std::alloc::Global;

/// The values of all variables at all frames of the run that was read, and its outputs.
pub(crate) struct FirstRun {
    frames: u32,
    rows: Vec<Vec<Tern>>,
    outputs: Vec<Lit>,
}

// By hand: a value then ends in one call, which is one step of a proof (docs/PROOFS.md, Habits).
impl Drop for FirstRun {
    fn drop(self) {
        let FirstRun {
            frames: _,
            rows: _,
            outputs: _,
        } = self;
    }
}

/// The value of a variable at a frame; x where nothing defines it.
fn value_of(bench: &Bench<PlaneGrid>, frame: u32, variable: u32) -> Tern
    requires frame { frame < length bench.now.pair.rows }
    requires range { variable ≤ bench.now.pair.circuit.max_var }
    ensures { IsDefined bench.now.pair.circuit variable → HasValue bench.now.pair frame (2 * variable) result }
{
    // Its contract says that it is a circuit.
    bench.circuit().facts();
    match bench.value(frame, Lit::new(2 * variable)) {
        Ok(value) => value,
        Err(_) => Tern::X,
    }
}

/// The values of all variables at a frame.
fn values_at(alloc: Global, bench: &Bench<PlaneGrid>, frame: u32) -> Result<Vec<Tern>, Memory>
    requires frame { frame < length bench.now.pair.rows }
    ensures size { IfOk result (λ row. length row.items ≡ bench.now.pair.circuit.max_var + 1) }
    ensures values { IfOk result (λ row. (v : ℕ) (w : Tern) → IsDefined bench.now.pair.circuit v → slice_get row.items v
        ≡ Some w →
        HasValue bench.now.pair frame (2 * v) w) }
{
    let mut values = Vec::new(alloc);
    for variable in 0..=bench.circuit().max_var() {
        values.push(value_of(bench, frame, variable))?;
    }
    Ok(values)
}

impl FirstRun {
    /// Of a bench as it is.
    pub(crate) fn of(alloc: Global, bench: &Bench<PlaneGrid>) -> Result<FirstRun, Memory>
        ensures { IfOk result (λ first. KeepsFirst first bench.now.pair) }
    {
        // Its contract says that the pair is a circuit and rows that fit it.
        bench.width();
        let mut rows = Vec::new(alloc);
        for frame in 0..bench.frames() {
            rows.push(values_at(alloc, bench, frame)?)?;
        }
        let outputs = Vec::from_slice(alloc, bench.circuit().outputs())?;
        Ok(FirstRun {
            frames: bench.frames(),
            rows,
            outputs,
        })
    }

    /// How many frames it has.
    pub(crate) fn frames(&self) -> u32
        ensures { (p : CircuitAndRows) → KeepsFirst self.now p → result ≡ length p.rows }
    {
        self.frames
    }

    /// The literal of an output.
    pub(crate) fn output(&self, position: u32) -> Option<Lit>
        ensures { (p : CircuitAndRows) → KeepsFirst self.now p → result ≡ slice_get p.circuit.outputs position }
    {
        self.outputs.get(position as usize).copied()
    }

    /// The value of a literal at a frame; none where there is no such frame.
    pub(crate) fn value(&self, frame: u32, literal: Lit) -> Option<Tern>
        ensures some { IfSome result (λ w. (p : CircuitAndRows) → KeepsFirst self.now p
            → IsDefined p.circuit (variable literal) →
            HasValue p frame literal w) }
        ensures none { IfNone result ((p : CircuitAndRows) → KeepsFirst self.now p
            → IsDefined p.circuit (variable literal) →
            length p.rows ≤ frame) }
    {
        let row = self.rows.get(frame as usize)?;
        let value = row.get(literal.var() as usize).copied()?;
        if literal.is_neg() {
            Some(value.not())
        } else {
            Some(value)
        }
    }
}

/// A start and rows that were read or written last.
pub(crate) struct KeptRun {
    start: Vec<Tern>,
    rows: Stimulus,
}

// By hand: a value then ends in one call, which is one step of a proof (docs/PROOFS.md, Habits).
impl Drop for KeptRun {
    fn drop(self) {
        let KeptRun { start: _, rows: _ } = self;
    }
}

/// A copy of rows.
pub(crate) fn copy_of(alloc: Global, rows: &Stimulus) -> Result<Stimulus, Memory>
    ensures { IfOk result (λ copy. copy ≡ rows.now) }
{
    let mut copy = Stimulus::new(alloc, rows.width());
    for frame in 0..rows.frames() {
        copy.push(rows.row(frame))?;
    }
    Ok(copy)
}

/// Whether a circuit starts with these values.
fn starts_at(circuit: &Circuit, start: &[Tern]) -> bool
    ensures { IsTrue result ↔ (start_of circuit.now ≡ start.now) }
{
    let latches = circuit.latches();
    if latches.len() != start.len() {
        return false;
    }
    for place in 0..latches.len() {
        if aig_sim::first_value(latches[place]) != start[place] {
            return false;
        }
    }
    true
}

/// Whether two lists of values are the same.
fn are_same_values(one: &[Tern], other: &[Tern]) -> bool
    ensures { IsTrue result ↔ (one.now ≡ other.now) }
{
    if one.len() != other.len() {
        return false;
    }
    for place in 0..one.len() {
        if one[place] != other[place] {
            return false;
        }
    }
    true
}

/// Whether two lists of rows are the same.
fn are_same(one: &Stimulus, other: &Stimulus) -> bool
    ensures { IsTrue result ↔ (one.now.rows ≡ other.now.rows) }
{
    if one.frames() != other.frames() {
        return false;
    }
    for frame in 0..one.frames() {
        let given = one.row(frame);
        let wanted = other.row(frame);
        if !are_same_values(given, wanted) {
            return false;
        }
    }
    true
}

impl KeptRun {
    /// Of a bench as it is.
    pub(crate) fn of(alloc: Global, bench: &Bench<PlaneGrid>) -> Result<KeptRun, Memory>
        ensures { IfOk result (λ kept. KeepsRun kept bench.now.pair) }
    {
        Ok(KeptRun {
            start: first_states(alloc, bench.circuit())?,
            rows: copy_of(alloc, bench.stimulus())?,
        })
    }

    /// Whether a bench has the same start and the same rows.
    pub(crate) fn is_of(&self, bench: &Bench<PlaneGrid>) -> bool
        ensures { IsTrue result ↔ KeepsRun self.now bench.now.pair }
    {
        starts_at(bench.circuit(), self.start.as_slice()) && are_same(&self.rows, bench.stimulus())
    }
}
