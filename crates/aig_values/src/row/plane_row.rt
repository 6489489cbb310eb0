//! Rows of two planes of bits: which cells are 1, and which are 0. A cell of neither is x.
ghost use Rattle.std.specs.Prelude.{◌≡◌, ℕ, ◌+◌, ◌-◌, ◌*◌, ◌<◌, ◌≤◌, IfOk, IsTrue, All, length, map, vec_len};
ghost use Rattle.std.specs.Prelude.{slice_index, slice_index_or};
ghost use Rattle.aig_parts.specs.declared.ternary.Tern.TheVariants.{X};
ghost use Rattle.aig_parts.specs.Formed.{limit};
ghost use Rattle.aig_parts.specs.Literal.{variable};
ghost use Rattle.aig_values.specs.Cells.{fresh_row};
ghost use Rattle.aig_values.specs.Characters.{character};
ghost use Rattle.aig_values.specs.TraceText.{literal_character};
ghost use Rattle.aig_values.specs.state.Padded.{IsRowSize};
ghost use Rattle.aig_values.specs.state.Words.{spelled, value_in, group_value, AreWhole};

use crate::code::Code;
use crate::row::cell_row::CellRow;
use crate::row::first_of_contiguous;
use crate::row::literal_codes::{CODES, sweep_words};
use crate::row::planes::{
    CELLS, ZERO, bits_from, change, code_of, flip, group_of, literal_bits, spread, word_bits,
};
use aig_parts::{Gate, Lit, Tern};
use std::alloc::{AllocError, Global};
use std::marker::Model;

/// How many gates a sweep has at least, in all and a word, where unpacking the row is faster.
const GATES: usize = 16;

const WORD_GATES: usize = 8;

/// How many cells are spelled at once.
const GROUP: usize = 4;

/// The characters of four cells by four bits of ones and four of zeros.
const CHARACTERS: [u8; 1024] = [
    120, 120, 120, 120, 49, 120, 120, 120, 120, 49, 120, 120, 49, 49, 120, 120, 120, 120, 49, 120,
    49, 120, 49, 120, 120, 49, 49, 120, 49, 49, 49, 120, 120, 120, 120, 49, 49, 120, 120, 49, 120,
    49, 120, 49, 49, 49, 120, 49, 120, 120, 49, 49, 49, 120, 49, 49, 120, 49, 49, 49, 49, 49, 49,
    49, 48, 120, 120, 120, 49, 120, 120, 120, 48, 49, 120, 120, 49, 49, 120, 120, 48, 120, 49, 120,
    49, 120, 49, 120, 48, 49, 49, 120, 49, 49, 49, 120, 48, 120, 120, 49, 49, 120, 120, 49, 48, 49,
    120, 49, 49, 49, 120, 49, 48, 120, 49, 49, 49, 120, 49, 49, 48, 49, 49, 49, 49, 49, 49, 49,
    120, 48, 120, 120, 49, 48, 120, 120, 120, 49, 120, 120, 49, 49, 120, 120, 120, 48, 49, 120, 49,
    48, 49, 120, 120, 49, 49, 120, 49, 49, 49, 120, 120, 48, 120, 49, 49, 48, 120, 49, 120, 49,
    120, 49, 49, 49, 120, 49, 120, 48, 49, 49, 49, 48, 49, 49, 120, 49, 49, 49, 49, 49, 49, 49, 48,
    48, 120, 120, 49, 48, 120, 120, 48, 49, 120, 120, 49, 49, 120, 120, 48, 48, 49, 120, 49, 48,
    49, 120, 48, 49, 49, 120, 49, 49, 49, 120, 48, 48, 120, 49, 49, 48, 120, 49, 48, 49, 120, 49,
    49, 49, 120, 49, 48, 48, 49, 49, 49, 48, 49, 49, 48, 49, 49, 49, 49, 49, 49, 49, 120, 120, 48,
    120, 49, 120, 48, 120, 120, 49, 48, 120, 49, 49, 48, 120, 120, 120, 49, 120, 49, 120, 49, 120,
    120, 49, 49, 120, 49, 49, 49, 120, 120, 120, 48, 49, 49, 120, 48, 49, 120, 49, 48, 49, 49, 49,
    48, 49, 120, 120, 49, 49, 49, 120, 49, 49, 120, 49, 49, 49, 49, 49, 49, 49, 48, 120, 48, 120,
    49, 120, 48, 120, 48, 49, 48, 120, 49, 49, 48, 120, 48, 120, 49, 120, 49, 120, 49, 120, 48, 49,
    49, 120, 49, 49, 49, 120, 48, 120, 48, 49, 49, 120, 48, 49, 48, 49, 48, 49, 49, 49, 48, 49, 48,
    120, 49, 49, 49, 120, 49, 49, 48, 49, 49, 49, 49, 49, 49, 49, 120, 48, 48, 120, 49, 48, 48,
    120, 120, 49, 48, 120, 49, 49, 48, 120, 120, 48, 49, 120, 49, 48, 49, 120, 120, 49, 49, 120,
    49, 49, 49, 120, 120, 48, 48, 49, 49, 48, 48, 49, 120, 49, 48, 49, 49, 49, 48, 49, 120, 48, 49,
    49, 49, 48, 49, 49, 120, 49, 49, 49, 49, 49, 49, 49, 48, 48, 48, 120, 49, 48, 48, 120, 48, 49,
    48, 120, 49, 49, 48, 120, 48, 48, 49, 120, 49, 48, 49, 120, 48, 49, 49, 120, 49, 49, 49, 120,
    48, 48, 48, 49, 49, 48, 48, 49, 48, 49, 48, 49, 49, 49, 48, 49, 48, 48, 49, 49, 49, 48, 49, 49,
    48, 49, 49, 49, 49, 49, 49, 49, 120, 120, 120, 48, 49, 120, 120, 48, 120, 49, 120, 48, 49, 49,
    120, 48, 120, 120, 49, 48, 49, 120, 49, 48, 120, 49, 49, 48, 49, 49, 49, 48, 120, 120, 120, 49,
    49, 120, 120, 49, 120, 49, 120, 49, 49, 49, 120, 49, 120, 120, 49, 49, 49, 120, 49, 49, 120,
    49, 49, 49, 49, 49, 49, 49, 48, 120, 120, 48, 49, 120, 120, 48, 48, 49, 120, 48, 49, 49, 120,
    48, 48, 120, 49, 48, 49, 120, 49, 48, 48, 49, 49, 48, 49, 49, 49, 48, 48, 120, 120, 49, 49,
    120, 120, 49, 48, 49, 120, 49, 49, 49, 120, 49, 48, 120, 49, 49, 49, 120, 49, 49, 48, 49, 49,
    49, 49, 49, 49, 49, 120, 48, 120, 48, 49, 48, 120, 48, 120, 49, 120, 48, 49, 49, 120, 48, 120,
    48, 49, 48, 49, 48, 49, 48, 120, 49, 49, 48, 49, 49, 49, 48, 120, 48, 120, 49, 49, 48, 120, 49,
    120, 49, 120, 49, 49, 49, 120, 49, 120, 48, 49, 49, 49, 48, 49, 49, 120, 49, 49, 49, 49, 49,
    49, 49, 48, 48, 120, 48, 49, 48, 120, 48, 48, 49, 120, 48, 49, 49, 120, 48, 48, 48, 49, 48, 49,
    48, 49, 48, 48, 49, 49, 48, 49, 49, 49, 48, 48, 48, 120, 49, 49, 48, 120, 49, 48, 49, 120, 49,
    49, 49, 120, 49, 48, 48, 49, 49, 49, 48, 49, 49, 48, 49, 49, 49, 49, 49, 49, 49, 120, 120, 48,
    48, 49, 120, 48, 48, 120, 49, 48, 48, 49, 49, 48, 48, 120, 120, 49, 48, 49, 120, 49, 48, 120,
    49, 49, 48, 49, 49, 49, 48, 120, 120, 48, 49, 49, 120, 48, 49, 120, 49, 48, 49, 49, 49, 48, 49,
    120, 120, 49, 49, 49, 120, 49, 49, 120, 49, 49, 49, 49, 49, 49, 49, 48, 120, 48, 48, 49, 120,
    48, 48, 48, 49, 48, 48, 49, 49, 48, 48, 48, 120, 49, 48, 49, 120, 49, 48, 48, 49, 49, 48, 49,
    49, 49, 48, 48, 120, 48, 49, 49, 120, 48, 49, 48, 49, 48, 49, 49, 49, 48, 49, 48, 120, 49, 49,
    49, 120, 49, 49, 48, 49, 49, 49, 49, 49, 49, 49, 120, 48, 48, 48, 49, 48, 48, 48, 120, 49, 48,
    48, 49, 49, 48, 48, 120, 48, 49, 48, 49, 48, 49, 48, 120, 49, 49, 48, 49, 49, 49, 48, 120, 48,
    48, 49, 49, 48, 48, 49, 120, 49, 48, 49, 49, 49, 48, 49, 120, 48, 49, 49, 49, 48, 49, 49, 120,
    49, 49, 49, 49, 49, 49, 49, 48, 48, 48, 48, 49, 48, 48, 48, 48, 49, 48, 48, 49, 49, 48, 48, 48,
    48, 49, 48, 49, 48, 49, 48, 48, 49, 49, 48, 49, 49, 49, 48, 48, 48, 48, 49, 49, 48, 48, 49, 48,
    49, 48, 49, 49, 49, 48, 49, 48, 48, 49, 49, 49, 48, 49, 49, 48, 49, 49, 49, 49, 49, 49, 49,
];

// Writes the characters of four cells, from a place on.
fn spell_group(text: &mut [u8], at: usize, group: usize)
    requires group { group < 256 }
    requires room { at + 4 ≤ length text.old }
    ensures there { (k : ℕ) → k < 4 → slice_index text.new (at + k) ≡ character (group_value group k) }
    ensures before { (k : ℕ) → k < at → slice_index text.new k ≡ slice_index text.old k }
{
    let first = GROUP * group;
    text[at] = CHARACTERS[first];
    text[at + 1] = CHARACTERS[first + 1];
    text[at + 2] = CHARACTERS[first + 2];
    text[at + 3] = CHARACTERS[first + 3];
}

// The character of the first of the cells whose bits these are.
fn character_of(bits: u64) -> u8
    ensures { result ≡ character (value_in bits 0) }
{
    CHARACTERS[GROUP * group_of(bits)]
}

// Writes the characters of the cells whose bits these are, from a place up to another one, four at a time.
fn spell_word(text: &mut [u8], from: usize, end: usize, bits: u64)
    requires range { from ≤ end }
    requires room { end ≤ length text.old }
    ensures there { (k : ℕ) → from + k < end → slice_index text.new (from + k) ≡ character (value_in bits k) }
    ensures before { (k : ℕ) → k < from → slice_index text.new k ≡ slice_index text.old k }
{
    let mut rest = bits;
    let mut at = from;
    while end - at >= GROUP {
        spell_group(text, at, group_of(rest));
        rest /= 16;
        at += GROUP;
    }
    while at < end {
        text[at] = character_of(rest);
        rest /= 2;
        at += 1;
    }
}

// Writes the characters of the cells from a variable on, word by word.
fn spell_cells(text: &mut [u8], words: &[u64], first: usize)
    requires { first + length text.old ≤ 32 * length words.now }
    ensures { (k : ℕ) → k < length text.old →
        slice_index text.new k ≡ character (slice_index_or (spelled words.now) (first + k) X) }
{
    let mut index = first / CELLS;
    let mut place = first % CELLS;
    let mut at = 0;
    while at < text.len() {
        let end = text.len().min(at + (CELLS - place));
        spell_word(text, at, end, word_bits(words, index, place));
        at = end;
        index += 1;
        place = 0;
    }
}

// The character of the value of a literal.
fn character_at(words: &[u64], literal: Lit) -> u8
    requires cells { variable literal < 32 * length words.now }
    requires whole { AreWhole words.now }
    ensures { result ≡ literal_character (spelled words.now) literal }
{
    character_of(literal_bits(words, literal))
}

// Writes the characters of literals, one by one.
fn spell_each(text: &mut [u8], words: &[u64], literals: &[Lit])
    requires cells { All (λ l. variable l < 32 * length words.now) literals.now }
    requires room { length text.old ≡ length literals.now }
    requires whole { AreWhole words.now }
    ensures { text.new ≡ map (literal_character (spelled words.now)) literals.now }
{
    for (place, literal) in literals.iter().enumerate() {
        text[place] = character_at(words, *literal);
    }
}

/// A row of cells, as many as its words have room for. Contracts see the values.
#[derive(Drop)]
pub struct PlaneRow {
    words: Vec<u64>,
}

impl Model for PlaneRow {
    ghost use Rattle.std.specs.Prelude.{List};
    ghost use Rattle.aig_parts.specs.declared.ternary.Tern.{Tern};

    ghost Value = { List Tern };

    ghost use Rattle.aig_values.specs.state.Words.{spelled, AreWhole};

    ghost view = { λ row. spelled row.words.items };

    ghost invariant = { λ row. AreWhole row.words.items };
}

// Makes codes for so many words, where there are fewer. Answers whether there are enough.
fn make_codes(codes: &mut Vec<Code>, words: usize) -> bool
    ensures { IsTrue result → 64 * words ≤ vec_len codes.new }
{
    match words.checked_mul(CODES) {
        Some(size) => codes.len() >= size || codes.resize(size, Code::of(Tern::X)).is_ok(),
        None => false,
    }
}

// How many words have room for this many cells.
fn word_count(size: usize) -> usize
    requires { size ≤ limit + 1 }
    ensures least { size ≤ 32 * result }
    ensures most { 32 * result < size + 32 }
{
    (size + (CELLS - 1)) / CELLS
}

// A row with room for this many cells at least, in this memory: 0 at variable 0, x everywhere else.
fn fresh(mut words: Vec<u64>, size: usize) -> Result<PlaneRow, AllocError>
    requires { IsRowSize size }
    ensures { IfOk result (λ row. (room : ℕ) × (size ≤ room) × (row ≡ fresh_row room)) }
{
    words.clear();
    words.resize(word_count(size), 0)?;
    words[0] = ZERO;
    Ok(PlaneRow { words })
}

impl CellRow for PlaneRow {
    ghost cells = { λ row. row };

    fn new(alloc: Global, size: usize) -> Result<PlaneRow, AllocError> {
        fresh(Vec::with_capacity(alloc, word_count(size))?, size)
    }

    fn renewed(self, _alloc: Global, size: usize) -> Result<PlaneRow, AllocError> {
        fresh(self.words, size)
    }

    fn make_room(&mut self, size: usize) -> Result<(), AllocError> {
        if self.words.len() < word_count(size) {
            self.words.push(0)?;
        }
        Ok(())
    }

    fn get(&self, variable: usize) -> Code {
        code_of(bits_from(&self.words, variable))
    }

    fn literal(&self, literal: Lit) -> Code {
        code_of(literal_bits(&self.words, literal))
    }

    fn set(&mut self, variable: usize, code: Code) {
        let bits = spread(code);
        let changed = change(bits_from(&self.words, variable), bits, bits);
        flip(&mut self.words, variable, changed);
    }

    fn evaluate(&mut self, gate: Gate) -> bool {
        let first = literal_bits(&self.words, gate.rhs0);
        let second = literal_bits(&self.words, gate.rhs1);
        let variable = gate.lhs.var() as usize;
        let changed = change(
            bits_from(&self.words, variable),
            first & second,
            first | second,
        );
        if changed == 0 {
            return false;
        }
        flip(&mut self.words, variable, changed);
        true
    }

    fn spell(&self, text: &mut [u8], literals: &[Lit]) {
        match first_of_contiguous(literals) {
            Some(first) => spell_cells(text, &self.words, first),
            None => spell_each(text, &self.words, literals),
        }
    }

    fn sweep_at_once(&mut self, codes: &mut Vec<Code>, gates: &[Gate]) -> bool {
        let words = self.words.len();
        let are_many = gates.len() >= GATES && gates.len() / WORD_GATES >= words;
        let is_faster = are_many && make_codes(codes, words);
        if is_faster {
            sweep_words(&mut self.words, &mut codes[..CODES * words], gates);
        }
        is_faster
    }
}
