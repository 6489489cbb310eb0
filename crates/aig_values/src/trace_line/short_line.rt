//! Trace lines of few characters, spelled one by one into a text on the stack.
ghost use Rattle.std.specs.Prelude.{◌≡◌, ℕ, ◌+◌, ◌*◌, ◌<◌, ◌≤◌, [], ◌∷◌, ◌++◌, length, map, take, All, IsTrue, Some};
ghost use Rattle.std.specs.Prelude.{slice_get};
ghost use Rattle.aig_bytes.specs.Bytes.{Writes};
ghost use Rattle.aig_parts.specs.Literal.{variable};
ghost use Rattle.aig_values.specs.TraceText.{literal_character, line_text};
ghost use Rattle.aig_values.specs.state.Fields.{literals_of};

use crate::row::Row;
use crate::trace_line::{Field, literal_count};
use aig_base::{Circuit, Io, Lit, Write, write_all};

/// How many bytes a short line has at most, with its LF.
const SHORT: usize = 64;

// The literal at a place of a field.
#[inline(always)]
fn literal_of(field: Field<'_>, place: usize) -> Lit
    requires { place < length (literals_of field) }
    ensures { slice_get (literals_of field.entry) place ≡ Some result }
{
    match field {
        Field::Literals(literals) => literals[place],
        Field::States(latches) => latches[place].lit,
        Field::NextStates(latches) => latches[place].next,
    }
}

/// Puts a character for each literal of a field into a text, from a place on, and the byte that ends the field. Returns
/// the place after that.
#[inline(always)]
pub(crate) fn spell_at<R: Row>(
    text: &mut [u8],
    at: usize,
    row: &R,
    field: Field<'_>,
    end: u8,
) -> usize
    requires row { All (λ l. R.has row.now (variable l)) (literals_of field) }
    requires room { at + length (literals_of field) < length text.old }
    ensures text { take result text.new ≡ take at text.old
        ++ (map (literal_character (R.cells row.now)) (literals_of field.entry) ++ end ∷ []) }
    ensures place { result ≡ at + length (literals_of field.entry) + 1 }
    ensures size { length text.new ≡ length text.old }
{
    let size = literal_count(field);
    for place in 0..size {
        text[at + place] = row.character(literal_of(field, place));
    }
    text[at + size] = end;
    at + size + 1
}

/// Whether the trace lines of a circuit are short.
pub(crate) fn has_short_lines(circuit: &Circuit) -> bool
    ensures { IsTrue result → 2 * length circuit.now.latches + length circuit.now.inputs + length circuit.now.outputs
        ≤ 60 }
{
    let shown = 2 * circuit.latches().len() + circuit.inputs().len() + circuit.outputs().len();
    shown <= SHORT - 4
}

// Spells the line of a frame, and returns how many bytes it has.
fn spell_line<R: Row>(text: &mut [u8], circuit: &Circuit, row: &R) -> usize
    requires text { length text.old ≡ 64 }
    requires short { 2 * length circuit.now.latches + length circuit.now.inputs + length circuit.now.outputs ≤ 60 }
    requires row { (v : ℕ) → v ≤ circuit.now.max_var → R.has row.now v }
    ensures line { take result text.new ≡ line_text circuit.now (R.cells row.now) }
    ensures bound { result ≤ length text.new }
{
    circuit.facts();
    let at = spell_at(text, 0, row, Field::States(circuit.latches()), b' ');
    let at = spell_at(text, at, row, Field::Literals(circuit.inputs()), b' ');
    let at = spell_at(text, at, row, Field::Literals(circuit.outputs()), b' ');
    spell_at(text, at, row, Field::NextStates(circuit.latches()), b'\n')
}

/// Writes the trace line of a frame, where it is short, by one call of the writer.
pub(crate) fn write_short_line<R: Row, W: Write>(
    out: &mut W,
    circuit: &Circuit,
    row: &R,
) -> Result<(), Io>
    requires short { 2 * length circuit.now.latches + length circuit.now.inputs + length circuit.now.outputs ≤ 60 }
    requires row { (v : ℕ) → v ≤ circuit.now.max_var → R.has row.now v }
    ensures { Writes W.written W.failures out.old out.new (line_text circuit.now (R.cells row.now)) result }
{
    let mut text = [0; SHORT];
    let size = spell_line(&mut text, circuit, row);
    write_all(out, &text[..size])
}
