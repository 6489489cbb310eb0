//! Edits of the run and of the circuit.
ghost use Rattle.std.specs.Prelude.{◌≡◌, ◌≢◌, ℕ, ◌∷◌, List, [], None, Some, ◌+◌, ◌-◌, ◌*◌, ◌<◌, ◌≤◌, ◌↔◌, All, IfErr};
ghost use Rattle.std.specs.Prelude.{IfOk, IsTrue, OnErr, OnOk, length, map, option_map, replicate, take};
ghost use Rattle.aig_parts.specs.Limits.{cell_limit, frame_limit};
ghost use Rattle.aig_parts.specs.declared.symbols.Kind.TheVariants as kinds;
ghost use Rattle.aig_parts.specs.declared.ternary.Tern.{Tern};
ghost use Rattle.aig_base.specs.Sections.{IsLatchLiteral};
ghost use Rattle.aig_bench.specs.Edit.{add_frame, edited, drop_frame, set_bit, set_reset};
ghost use Rattle.aig_signals.specs.Lookup.{entry_in};
ghost use Rattle.aig_shell.specs.Edits.{EndsEdit, IsCount, IsValue, has_edited};
ghost use Rattle.aig_shell.specs.Request as request;
ghost use Rattle.aig_shell.specs.Session.{KeepsRest};
ghost use Rattle.aig_shell.specs.State.{AreSettable, Leads, drop_edits, row_edits, set_edits, start_edits};

use crate::refusal::{Refusal, Wanted};
use crate::session::Session;
use crate::session::at_once::set_at_once;
use aig_base::{Circuit, Kind, Lit, Tern};
use aig_bench::{Bench, EditFault};
use aig_prompt::{ValueFault, value_of};
use aig_signals::{decimal_of, entry_named};
use aig_sim::{FRAMES, PlaneGrid};
use std::alloc::Global;

/// The most cells of a bench: a cell for each variable at each frame.
const CELLS: u64 = 67_108_864;

/// How many values a line sets one by one.
const FEW: usize = 64;

/// The value that a word is, of so many bits.
fn bits_of(alloc: Global, word: &[u8], bits: usize) -> Result<Vec<Tern>, Refusal<'_>>
    ensures ok { IfOk result (λ values. IsValue word.now bits values.items) }
    ensures err { IfErr result (λ refusal. refusal ≢ Refusal.Memory → (values : List Tern) →
        IsValue word.now bits values → ⊥) }
{
    match value_of(alloc, word, bits) {
        Ok(values) => Ok(values),
        Err(ValueFault::Malformed) => Err(Refusal::NoValue { word, bits }),
        Err(ValueFault::OtherWidth) => Err(Refusal::OtherWidth { word, bits }),
        Err(ValueFault::Wide) => Err(Refusal::Wide { word, bits }),
        Err(ValueFault::Memory) => Err(Refusal::Memory),
    }
}

/// The number of frames that a word is; 1 where there is no word.
fn count_of<'a>(word: Option<&'a [u8]>) -> Result<u32, Refusal<'a>>
    ensures ok { IfOk result (IsCount (option_map (λ w. w.now) word.entry)) }
    ensures some { IfOk result (λ count. 0 < count) }
    ensures err { IfErr result (λ _. (n : ℕ) → IsCount (option_map (λ w. w.now) word.entry) n → ⊥) }
{
    let Some(word) = word else {
        return Ok(1);
    };
    match decimal_of(word) {
        Some(count) if count > 0 => Ok(count),
        _ => Err(Refusal::NotACount(word)),
    }
}

/// Gives an input a value at a frame.
fn set_input(bench: &mut Bench<PlaneGrid>, frame: u32, position: u32, value: Tern)
    requires frame { frame < length bench.old.pair.rows }
    requires position { position < length bench.old.pair.circuit.inputs }
    ensures leads { Leads bench.old.pair (set_bit frame position value ∷ []) bench.new.pair }
    ensures frames { length bench.new.pair.rows ≡ length bench.old.pair.rows }
    ensures circuit { bench.new.pair.circuit ≡ bench.old.pair.circuit }
{
    let Ok(_report) = bench.set_bit(frame, position, value) else {
        unreachable!()
    };
}

/// Gives inputs their values at a frame.
fn set_inputs(bench: &mut Bench<PlaneGrid>, frame: u32, positions: &[u32], values: &[Tern])
    requires frame { frame < length bench.old.pair.rows }
    requires positions { All (λ p. p < length bench.old.pair.circuit.inputs) positions.now }
    requires size { length values.now ≡ length positions.now }
    ensures leads { Leads bench.old.pair (row_edits frame positions.now values.now) bench.new.pair }
    ensures frames { length bench.new.pair.rows ≡ length bench.old.pair.rows }
    ensures circuit { bench.new.pair.circuit ≡ bench.old.pair.circuit }
{
    for place in 0..positions.len() {
        set_input(bench, frame, positions[place], values[place]);
    }
}

/// Gives inputs their values at the frames from the first up to the end, which is none of them, one by one.
fn set_one_by_one(
    bench: &mut Bench<PlaneGrid>,
    first: u32,
    end: u32,
    positions: &[u32],
    values: &[Tern],
)
    requires { AreSettable bench.old.pair first end positions.now values.now }
    ensures { Leads bench.old.pair (set_edits first (end - first) positions.now values.now) bench.new.pair }
{
    for frame in first..end {
        set_inputs(bench, frame, positions, values);
    }
}

/// Whether so many values at so many frames are set at once. One by one, each might evaluate all frames.
fn are_many(values: usize, frames: u32) -> bool {
    values.saturating_mul(frames as usize) > FEW
}

/// Gives inputs their values at the frames from the first up to the end at once, if they are many. Returns whether it
/// did: with few values, or without memory for a copy of the rows, nothing changes.
fn set_many(
    alloc: Global,
    bench: &mut Bench<PlaneGrid>,
    first: u32,
    end: u32,
    positions: &[u32],
    values: &[Tern],
) -> bool
    requires { AreSettable bench.old.pair first end positions.now values.now }
    ensures done { IsTrue result →
        Leads bench.old.pair (set_edits first (end - first) positions.now values.now) bench.new.pair }
    ensures kept { (IsTrue result → ⊥) → bench.new ≡ bench.old }
{
    if !are_many(values.len(), end - first) {
        return false;
    }
    match set_at_once(alloc, bench, first, end, positions, values) {
        Ok(()) => true,
        Err(_) => false,
    }
}

/// Gives inputs their values at the frames from the first up to the end, which is none of them.
fn set_frames(
    alloc: Global,
    bench: &mut Bench<PlaneGrid>,
    first: u32,
    end: u32,
    positions: &[u32],
    values: &[Tern],
)
    requires { AreSettable bench.old.pair first end positions.now values.now }
    ensures { Leads bench.old.pair (set_edits first (end - first) positions.now values.now) bench.new.pair }
{
    if set_many(alloc, bench, first, end, positions, values) {
        return;
    }
    set_one_by_one(bench, first, end, positions, values);
}

/// Lets a latch start at a value.
fn start_latch(bench: &mut Bench<PlaneGrid>, latch: Lit, value: Tern)
    requires { IsLatchLiteral bench.old.pair.circuit latch }
    ensures leads { Leads bench.old.pair (set_reset latch value ∷ []) bench.new.pair }
    ensures latches { map (λ x. x.lit) bench.new.pair.circuit.latches
        ≡ map (λ x. x.lit) bench.old.pair.circuit.latches }
{
    let Ok(_report) = bench.set_reset(latch, value) else {
        unreachable!()
    };
}

/// Lets latches start at their values.
fn start_latches(bench: &mut Bench<PlaneGrid>, latches: &[Lit], values: &[Tern])
    requires latches { All (IsLatchLiteral bench.old.pair.circuit) latches.now }
    requires size { length values.now ≡ length latches.now }
    ensures { Leads bench.old.pair (start_edits latches.now values.now) bench.new.pair }
{
    for place in 0..latches.len() {
        start_latch(bench, latches[place], values[place]);
    }
}

/// Takes the last frame off.
fn drop_frame(bench: &mut Bench<PlaneGrid>)
    requires { 0 < length bench.old.pair.rows }
    ensures { bench.new.pair ≡ edited bench.old.pair drop_frame }
{
    let Ok(_report) = bench.drop_frame() else {
        unreachable!()
    };
}

/// Takes frames off the end.
fn drop_frames(bench: &mut Bench<PlaneGrid>, count: u32)
    requires { count ≤ length bench.old.pair.rows }
    ensures leads { Leads bench.old.pair (drop_edits count) bench.new.pair }
    ensures circuit { bench.new.pair.circuit ≡ bench.old.pair.circuit }
    ensures rows { bench.new.pair.rows ≡ take (length bench.old.pair.rows - count) bench.old.pair.rows }
{
    for dropped in 0..count {
        drop_frame(bench);
    }
}

/// Appends frames with this row, or none.
fn add_frames(bench: &mut Bench<PlaneGrid>, row: &[Tern], count: u32) -> Result<(), EditFault>
    requires width { length row.now ≡ length bench.old.pair.circuit.inputs }
    requires frames { length bench.old.pair.rows + count ≤ frame_limit }
    requires cells { (bench.old.pair.circuit.max_var + 1) * (length bench.old.pair.rows + count) ≤ cell_limit }
    ensures done { OnOk result (Leads bench.old.pair (replicate count (add_frame row.now)) bench.new.pair) }
    ensures kept { OnErr result (bench.new.pair ≡ bench.old.pair) }
    ensures memory { IfErr result (λ fault. fault ≡ EditFault.Memory) }
{
    for added in 0..count {
        if let Err(fault) = bench.add_frame(row) {
            drop_frames(bench, added);
            return Err(fault);
        }
    }
    Ok(())
}

/// How many frames a run of a circuit may have.
fn most_frames(circuit: &Circuit) -> u32 {
    let most = CELLS / (u64::from(circuit.max_var()) + 1);
    most.min(u64::from(FRAMES)) as u32
}

/// Whether a run of a circuit may have so many frames more.
fn fits(circuit: &Circuit, frames: u32, count: u32) -> bool
    ensures { IsTrue result ↔ (frames + count ≤ frame_limit)
        × ((circuit.now.max_var + 1) * (frames + count) ≤ cell_limit) }
{
    let frames = u64::from(frames) + u64::from(count);
    frames <= u64::from(FRAMES) && (u64::from(circuit.max_var()) + 1) * frames <= CELLS
}

impl Session {
    /// Gives inputs a value at some frames.
    pub(crate) fn set<'a>(
        &mut self,
        frames: &'a [u8],
        name: &'a [u8],
        value: &'a [u8],
    ) -> Result<(), Refusal<'a>>
        ensures edits { EndsEdit self.old.run.bench.pair (request.set frames.now name.now value.now) result
            self.new.run.bench.pair }
        ensures rest { KeepsRest self.old self.old.has_edited_circuit self.new }
    {
        let frames = self.frames(frames)?;
        let positions = self.inputs(name)?;
        // Its contract says that it is a circuit.
        self.circuit().facts();
        let values = bits_of(self.alloc, value, positions.len())?;
        set_frames(
            self.alloc,
            &mut self.run.bench,
            frames.first,
            frames.last + 1,
            positions.as_slice(),
            values.as_slice(),
        );
        Ok(())
    }

    /// Gives latches a value at frame 0, in this run alone.
    pub(crate) fn start<'a>(&mut self, name: &'a [u8], value: &'a [u8]) -> Result<(), Refusal<'a>>
        ensures edits { EndsEdit self.old.run.bench.pair (request.start name.now value.now) result
            self.new.run.bench.pair }
        ensures rest { KeepsRest self.old self.old.has_edited_circuit self.new }
    {
        let latches = self.latches(name)?;
        // Its contract says that it is a circuit.
        self.circuit().facts();
        let values = bits_of(self.alloc, value, latches.len())?;
        start_latches(&mut self.run.bench, latches.as_slice(), values.as_slice());
        Ok(())
    }

    /// Appends frames with x at each input.
    pub(crate) fn add<'a>(&mut self, count: Option<&'a [u8]>) -> Result<(), Refusal<'a>>
        ensures edits { EndsEdit self.old.run.bench.pair (request.add (option_map (λ w. w.now) count.entry)) result
            self.new.run.bench.pair }
        ensures rest { KeepsRest self.old self.old.has_edited_circuit self.new }
    {
        let count = count_of(count)?;
        if !fits(self.circuit(), self.bench().frames(), count) {
            return Err(Refusal::ManyFrames(most_frames(self.circuit())));
        }
        let row = vec![in self.alloc; Tern::X; self.bench().width() as usize]?;
        add_frames(&mut self.run.bench, row.as_slice(), count)?;
        Ok(())
    }

    /// Takes frames off the end.
    pub(crate) fn drop_last<'a>(&mut self, count: Option<&'a [u8]>) -> Result<(), Refusal<'a>>
        ensures edits { EndsEdit self.old.run.bench.pair (request.drop (option_map (λ w. w.now) count.entry)) result
            self.new.run.bench.pair }
        ensures rest { KeepsRest self.old self.old.has_edited_circuit self.new }
    {
        let count = count_of(count)?;
        let frames = self.bench().frames();
        if count > frames {
            return Err(Refusal::FewFrames(frames));
        }
        drop_frames(&mut self.run.bench, count);
        Ok(())
    }

    /// How many bits the vector of outputs has that a word names.
    fn output_vector(&self, word: &[u8]) -> Option<usize> {
        for signal in self.signals.as_slice() {
            if signal.kind == Kind::Output && signal.name.as_slice() == word {
                return Some(signal.end.saturating_sub(signal.first) as usize);
            }
        }
        None
    }

    /// The position of the output that a word names.
    fn output<'a>(&self, word: &'a [u8]) -> Result<u32, Refusal<'a>>
        ensures ok { IfOk result (λ position.
            entry_in self.now.run.bench.pair.circuit word.now kinds.Output ≡ Some position) }
        ensures err { IfErr result (λ refusal. refusal ≢ Refusal.Memory →
            entry_in self.now.run.bench.pair.circuit word.now kinds.Output ≡ None) }
    {
        let found = entry_named(self.alloc, self.circuit(), Kind::Output, word)?;
        if let Some(position) = found {
            return Ok(position);
        }
        // Its refusal says that there is no such name.
        self.literals(word)?;
        Err(match self.output_vector(word) {
            Some(bits) => Refusal::Vector { word, bits },
            None => Refusal::No {
                word,
                wanted: Wanted::Output,
            },
        })
    }

    /// Gives an output another literal.
    pub(crate) fn set_output<'a>(
        &mut self,
        name: &'a [u8],
        literal: &'a [u8],
    ) -> Result<(), Refusal<'a>>
        ensures edits { EndsEdit self.old.run.bench.pair (request.out name.now literal.now) result
            self.new.run.bench.pair }
        ensures rest { KeepsRest self.old (has_edited self.old.has_edited_circuit result) self.new }
    {
        let position = self.output(name)?;
        let literal = self.literal(literal)?;
        // Its contract says that it is a circuit.
        self.circuit().facts();
        self.run.bench.set_output(position, literal)?;
        self.has_edited_circuit = true;
        Ok(())
    }
}
