//! The text of a witness.
ghost use Rattle.std.specs.Prelude.{◌≡◌, ◌≢◌, ℕ, ◌+◌, ◌<◌, ◌≤◌, ◌↔◌, min, List, [], ◌∷◌, ◌++◌, length, map, take};
ghost use Rattle.std.specs.Prelude.{All, IsTrue, IfSome, IfNone, slice_index_or};
ghost use Rattle.aig_parts.specs.Formed.{limit};
ghost use Rattle.aig_parts.specs.declared.ternary.Tern.{Tern};
ghost use Rattle.aig_parts.specs.declared.raw.Raw.{Raw};
ghost use Rattle.aig_values.specs.Characters.{character};
ghost use Rattle.aig_values.specs.InputRows.{HaveWidth};
ghost use Rattle.aig_sim.specs.StimulusText.{row_line, IsCharacter};
ghost use Rattle.aig_sim.specs.WitnessText.{Witness, SpellsWitness, IsDecimal, witness_rows_text};
ghost use Rattle.aig_sim.specs.state.Checking.{BeginsWithRow, SpellsFrames, ArePartsOf};

use crate::stimulus::row_parser::are_characters;
use aig_base::Circuit;

/// No circuit has a property at this position or after it.
const NO_PROPERTY: u32 = 4_194_304;

/// The line that ends a witness.
const END: &[u8] = b".\n";

/// The parts of a witness's text.
#[derive(Clone, Copy, Drop)]
pub struct WitnessParts<'a> {
    /// The position of the property; 4,194,304 stands for any greater.
    pub property: u32,
    /// The text from the line of latches' values on.
    pub start: &'a [u8],
    /// The text from the first frame's line on.
    pub rows: &'a [u8],
    /// The number of frames.
    pub frames: usize,
}

// The text after a line of so many values.
fn after_row(text: &[u8], width: usize) -> Option<&[u8]>
    ensures some { IfSome result (λ rest. (row : List Tern) × (length row ≡ width)
        × (text.now ≡ map character row ++ (10 ∷ rest.now))) }
    ensures none { IfNone result (BeginsWithRow width text.now → ⊥) }
{
    if text.len() <= width {
        return None;
    }
    if text[width] != b'\n' {
        return None;
    }
    if !are_characters(&text[..width]) {
        return None;
    }
    Some(&text[width + 1..])
}

// How many lines of so many values there are before the line `.`, which ends the text.
fn count_rows(text: &[u8], width: usize) -> Option<usize>
    ensures some { IfSome result (λ frames. (rows : List (List Tern)) × (length rows ≡ frames)
        × SpellsFrames width text.now rows) }
    ensures none { IfNone result ((rows : List (List Tern)) → SpellsFrames width text.now rows → ⊥) }
{
    let mut rest = text;
    let mut frames = 0;
    while rest != END {
        rest = after_row(rest, width)?;
        frames += 1;
    }
    Some(frames)
}

// The value of a digit.
fn digit_of(byte: u8) -> Option<u32>
    ensures some { IfSome result (λ digit. (digit < 10) × (byte ≡ 48 + digit)) }
    ensures none { IfNone result ((48 ≤ byte) × (byte ≤ 57) → ⊥) }
{
    if byte < b'0' || byte > b'9' {
        return None;
    }
    Some(u32::from(byte - b'0'))
}

// Whether a zero stands before other bytes.
fn has_leading_zero(digits: &[u8]) -> bool
    ensures { IsTrue result ↔ ((1 < length digits.now) × (slice_index_or digits.now 0 0 ≡ 48)) }
{
    digits.len() > 1 && digits[0] == b'0'
}

// The number that these digits are in decimal; 4,194,304 stands for any greater.
fn position_of(digits: &[u8]) -> Option<u32>
    ensures some { IfSome result (λ position. (n : ℕ) × IsDecimal digits.now n × (position ≡ min n (limit + 1))) }
    ensures none { IfNone result ((n : ℕ) → IsDecimal digits.now n → ⊥) }
{
    if digits.is_empty() {
        return None;
    }
    if has_leading_zero(digits) {
        return None;
    }
    let mut position = 0u32;
    for digit in digits {
        let Some(value) = digit_of(*digit) else {
            return None;
        };
        position = (position * 10 + value).min(NO_PROPERTY);
    }
    Some(position)
}

// How many bytes there are before the first LF.
fn line_end(text: &[u8]) -> Option<usize>
    ensures some { IfSome result (λ size. (size < length text.now) × (slice_index_or text.now size 0 ≡ 10)
        × All (λ b. b ≢ 10) (take size text.now)) }
    ensures none { IfNone result (All (λ b. b ≢ 10) text.now) }
{
    for (place, byte) in text.iter().enumerate() {
        if *byte == b'\n' {
            return Some(place);
        }
    }
    None
}

// The parts of the text after the position's line.
fn body_of(text: &[u8], property: u32, latches: usize, inputs: usize) -> Option<WitnessParts<'_>>
    ensures some { IfSome result (λ parts. (parts.property ≡ property) × (parts.start.now ≡ text.now)
        × ((start : List Tern) × (rows : List (List Tern)) × (length start ≡ latches) × (rows ≢ [])
        × (length rows ≡ parts.frames) × (text.now ≡ map character start ++ (10 ∷ parts.rows.now))
        × SpellsFrames inputs parts.rows.now rows)) }
    ensures none { IfNone result ((start : List Tern) (rows : List (List Tern)) → length start ≡ latches → rows ≢ [] →
        HaveWidth inputs rows → text.now ≡ row_line start ++ witness_rows_text rows → ⊥) }
{
    let rows = after_row(text, latches)?;
    let frames = count_rows(rows, inputs)?;
    if frames == 0 {
        return None;
    }
    Some(WitnessParts {
        property,
        start: text,
        rows,
        frames,
    })
}

/// The parts of a witness's text, for so many latches and inputs; none where the bytes are no such text. It takes no
/// memory.
pub fn read_parts<'a>(circuit: &Circuit, text: &'a [u8]) -> Option<WitnessParts<'a>>
    ensures some { IfSome result (λ parts. (w : Witness) × SpellsWitness circuit.now text.now w
        × ArePartsOf circuit.now parts w) }
    ensures none { IfNone result ((w : Witness) → SpellsWitness circuit.now text.now w → ⊥) }
{
    let position = text.strip_prefix(b"1\nb")?;
    let size = line_end(position)?;
    let property = position_of(&position[..size])?;
    let body = &position[size + 1..];
    let parts = body_of(
        body,
        property,
        circuit.latches().len(),
        circuit.inputs().len(),
    )?;
    Some(parts)
}
