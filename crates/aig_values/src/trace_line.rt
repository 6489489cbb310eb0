//! The lines of a trace, by the values of their frames.
ghost use Rattle.std.specs.Prelude.{◌≡◌, ℕ, ◌+◌, ◌<◌, ◌≤◌, [], ◌∷◌, ◌++◌, length, map, take, drop, All};
ghost use Rattle.aig_bytes.specs.Bytes.{Writes};
ghost use Rattle.aig_base.specs.Circuit.{IsCircuit};
ghost use Rattle.aig_parts.specs.Literal.{variable};
ghost use Rattle.aig_bytes.specs.Gathered.{Gathers};
ghost use Rattle.aig_values.specs.TraceText.{fields_text, literal_character, line_text, property_line_text, trace_text};
ghost use Rattle.aig_values.specs.state.Fields.{literals_of};

mod short_line;

use crate::grid::Grid;
use crate::row::{GridRow, Row};
use crate::trace_line::short_line::{has_short_lines, spell_at, write_short_line};
use aig_base::{Circuit, Io, Latch, Lit, Write};
use aig_bytes::ByteBlock;

/// How many characters are put at a time, and how many literals of latches are listed.
const PIECE: usize = 256;

/// A field of fewer literals than this is spelled one by one.
const FEW: usize = 32;

/// The bytes of a trace or a dump that wait, 4,096 at most: a new one costs little, and a script makes one for each
/// trace that it asks for.
pub type TraceBlock = ByteBlock<4_096>;

/// The literals that a field of a line shows.
#[derive(Clone, Copy, Drop)]
pub(crate) enum Field<'a> {
    /// Those of inputs or outputs.
    Literals(&'a [Lit]),
    /// Those that latches define.
    States(&'a [Latch]),
    /// Those that latches read.
    NextStates(&'a [Latch]),
}

/// Writes a character for each literal.
pub fn spell_literals<R: Row>(text: &mut [u8], row: &R, literals: &[Lit])
    requires row { All (λ l. R.has row.now (variable l)) literals.now }
    requires room { length text.old ≡ length literals.now }
    ensures { text.new ≡ map (literal_character (R.cells row.now)) literals.now }
{
    row.spell(text, literals);
}

// Lists the literals of latches.
fn list_states(literals: &mut [Lit], latches: &[Latch])
    requires { length literals.old ≡ length latches.now }
    ensures { literals.new ≡ map (λ x. x.lit) latches.now }
{
    for (place, latch) in latches.iter().enumerate() {
        literals[place] = latch.lit;
    }
}

// Lists the next literals of latches.
fn list_next_states(literals: &mut [Lit], latches: &[Latch])
    requires { length literals.old ≡ length latches.now }
    ensures { literals.new ≡ map (λ x. x.next) latches.now }
{
    for (place, latch) in latches.iter().enumerate() {
        literals[place] = latch.next;
    }
}

// Writes a character for each latch.
fn spell_states<R: Row>(text: &mut [u8], row: &R, latches: &[Latch])
    requires few { length latches.now ≤ 256 }
    requires row { All (λ x. R.has row.now (variable x.lit)) latches.now }
    requires room { length text.old ≡ length latches.now }
    ensures { text.new ≡ map (λ x. literal_character (R.cells row.now) x.lit) latches.now }
{
    let mut literals = [Lit::new(0); PIECE];
    let listed = &mut literals[..];
    let listed = &mut listed[..latches.len()];
    list_states(listed, latches);
    row.spell(text, listed);
}

// Writes a character for each latch's next literal.
fn spell_next_states<R: Row>(text: &mut [u8], row: &R, latches: &[Latch])
    requires few { length latches.now ≤ 256 }
    requires row { All (λ x. R.has row.now (variable x.next)) latches.now }
    requires room { length text.old ≡ length latches.now }
    ensures { text.new ≡ map (λ x. literal_character (R.cells row.now) x.next) latches.now }
{
    let mut literals = [Lit::new(0); PIECE];
    let listed = &mut literals[..];
    let listed = &mut listed[..latches.len()];
    list_next_states(listed, latches);
    row.spell(text, listed);
}

/// How many literals a field shows.
pub(crate) fn literal_count(field: Field<'_>) -> usize
    ensures { result ≡ length (literals_of field.entry) }
{
    match field {
        Field::Literals(literals) => literals.len(),
        Field::States(latches) | Field::NextStates(latches) => latches.len(),
    }
}

// Writes a character for each literal of a field from a place on, as many as there is room for.
fn spell_field<R: Row>(text: &mut [u8], row: &R, field: Field<'_>, at: usize)
    requires few { length text.old ≤ 256 }
    requires row { All (λ l. R.has row.now (variable l)) (literals_of field) }
    requires room { at + length text.old ≤ length (literals_of field) }
    ensures { text.new ≡ map (literal_character (R.cells row.now))
        (take (length text.old) (drop at (literals_of field.entry))) }
{
    let size = text.len();
    match field {
        Field::Literals(literals) => spell_literals(text, row, &literals[at..][..size]),
        Field::States(latches) => spell_states(text, row, &latches[at..][..size]),
        Field::NextStates(latches) => spell_next_states(text, row, &latches[at..][..size]),
    }
}

// The same for a field of few literals: no list of them is made.
fn put_few<R: Row, W: Write>(
    out: &mut W,
    block: &mut TraceBlock,
    row: &R,
    field: Field<'_>,
    end: u8,
) -> Result<(), Io>
    requires few { length (literals_of field) < 32 }
    requires row { All (λ l. R.has row.now (variable l)) (literals_of field) }
    ensures { Gathers W.written W.failures out.old out.new block.old block.new
        (map (literal_character (R.cells row.now)) (literals_of field.entry) ++ end ∷ []) result }
{
    let mut text = [0; FEW];
    let size = spell_at(&mut text, 0, row, field, end);
    block.put_all(out, &text[..size])
}

// Puts a character for each literal of a field, and the byte that ends it.
fn put_field<R: Row, W: Write>(
    out: &mut W,
    block: &mut TraceBlock,
    text: &mut [u8],
    row: &R,
    field: Field<'_>,
    end: u8,
) -> Result<(), Io>
    requires row { All (λ l. R.has row.now (variable l)) (literals_of field) }
    requires text { length text.old ≡ 256 }
    ensures { Gathers W.written W.failures out.old out.new block.old block.new
        (map (literal_character (R.cells row.now)) (literals_of field.entry) ++ end ∷ []) result }
{
    let size = literal_count(field);
    if size < FEW {
        return put_few(out, block, row, field, end);
    }
    let mut at = 0;
    while at < size {
        let count = PIECE.min(size - at);
        spell_field(&mut text[..count], row, field, at);
        block.put_all(out, &text[..count])?;
        at += count;
    }
    block.put(out, end)
}

// Puts the fields of a frame, and the byte that ends them: state, inputs, outputs, next state.
fn put_fields<R: Row, W: Write>(
    out: &mut W,
    block: &mut TraceBlock,
    text: &mut [u8],
    circuit: &Circuit,
    row: &R,
    end: u8,
) -> Result<(), Io>
    requires text { length text.old ≡ 256 }
    requires row { (v : ℕ) → v ≤ circuit.now.max_var → R.has row.now v }
    ensures { Gathers W.written W.failures out.old out.new block.old block.new
        (fields_text circuit.now (R.cells row.now) end) result }
{
    circuit.facts();
    put_field(
        out,
        block,
        text,
        row,
        Field::States(circuit.latches()),
        b' ',
    )?;
    put_field(
        out,
        block,
        text,
        row,
        Field::Literals(circuit.inputs()),
        b' ',
    )?;
    put_field(
        out,
        block,
        text,
        row,
        Field::Literals(circuit.outputs()),
        b' ',
    )?;
    put_field(
        out,
        block,
        text,
        row,
        Field::NextStates(circuit.latches()),
        end,
    )
}

// Puts the two fields that end a line with properties: bad state properties, constraints.
fn put_properties<R: Row, W: Write>(
    out: &mut W,
    block: &mut TraceBlock,
    text: &mut [u8],
    circuit: &Circuit,
    row: &R,
) -> Result<(), Io>
    requires text { length text.old ≡ 256 }
    requires row { (v : ℕ) → v ≤ circuit.now.max_var → R.has row.now v }
    ensures { Gathers W.written W.failures out.old out.new block.old block.new
        ((map (literal_character (R.cells row.now)) circuit.now.bad ++ 32 ∷ [])
        ++ (map (literal_character (R.cells row.now)) circuit.now.constraints ++ 10 ∷ [])) result }
{
    circuit.facts();
    put_field(out, block, text, row, Field::Literals(circuit.bad()), b' ')?;
    put_field(
        out,
        block,
        text,
        row,
        Field::Literals(circuit.constraints()),
        b'\n',
    )
}

/// Writes the trace line of a frame: the characters of state, inputs, outputs and next state (our own choice). The
/// block is room for them, whatever it holds.
pub fn write_line<R: Row, W: Write>(
    out: &mut W,
    block: &mut TraceBlock,
    circuit: &Circuit,
    row: &R,
) -> Result<(), Io>
    requires circuit { IsCircuit circuit.now }
    requires row { (v : ℕ) → v ≤ circuit.now.max_var → R.has row.now v }
    ensures { Writes W.written W.failures out.old out.new (line_text circuit.now (R.cells row.now)) result }
{
    if has_short_lines(circuit) {
        return write_short_line(out, circuit, row);
    }
    block.clear();
    put_fields(out, block, &mut [0; PIECE], circuit, row, b'\n')?;
    block.forward(out)
}

/// Writes the trace line of a frame with properties: the characters of state, inputs, outputs, next state, bad state
/// properties and constraints (our own choice). The block is room for them, whatever it holds.
pub fn write_property_line<R: Row, W: Write>(
    out: &mut W,
    block: &mut TraceBlock,
    circuit: &Circuit,
    row: &R,
) -> Result<(), Io>
    requires circuit { IsCircuit circuit.now }
    requires row { (v : ℕ) → v ≤ circuit.now.max_var → R.has row.now v }
    ensures { Writes W.written W.failures out.old out.new (property_line_text circuit.now (R.cells row.now)) result }
{
    let mut piece = [0; PIECE];
    let text = &mut piece[..];
    block.clear();
    put_fields(out, block, text, circuit, row, b' ')?;
    put_properties(out, block, text, circuit, row)?;
    block.forward(out)
}

// Puts the lines of all frames of a grid.
fn put_lines<G: Grid, W: Write>(
    out: &mut W,
    block: &mut TraceBlock,
    circuit: &Circuit,
    grid: &G,
) -> Result<(), Io>
    requires grid { length (G.gate_flags grid.now) ≡ circuit.now.max_var + 1 }
    ensures { Gathers W.written W.failures out.old out.new block.old block.new
        (trace_text circuit.now (G.cells grid.now)) result }
{
    let mut piece = [0; PIECE];
    let text = &mut piece[..];
    for frame in 0..grid.rows() {
        put_fields(out, block, text, circuit, &GridRow { grid, frame }, b'\n')?;
    }
    Ok(())
}

/// Writes the trace of a grid with a cell for each variable of the circuit: a line a frame, with the characters of
/// state, inputs, outputs and next state (our own choice). It takes no memory.
pub fn write_trace<G: Grid, W: Write>(out: &mut W, circuit: &Circuit, grid: &G) -> Result<(), Io>
    requires circuit { IsCircuit circuit.now }
    requires grid { length (G.gate_flags grid.now) ≡ circuit.now.max_var + 1 }
    ensures { Writes W.written W.failures out.old out.new (trace_text circuit.now (G.cells grid.now)) result }
{
    let mut block = TraceBlock::new();
    put_lines(out, &mut block, circuit, grid)?;
    block.forward(out)
}
