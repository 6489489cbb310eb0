//! The codes of a row by literal, in which gates are evaluated without a look at a sign.
ghost use Rattle.std.specs.Prelude.{◌≡◌, ℕ, ◌+◌, ◌*◌, ◌/◌, ◌<◌, ◌≤◌, List, length, fold, All, slice_index_or};
ghost use Rattle.std.specs.Int.{bit_at};
ghost use Rattle.aig_parts.specs.declared.ternary.Tern.{Tern};
ghost use Rattle.aig_parts.specs.declared.ternary.Tern.TheVariants.{X};
ghost use Rattle.aig_values.specs.Cells.{with_gate_value, HasVariablesBelow};
ghost use Rattle.aig_values.specs.state.LiteralCodes.{by_literal, signed_value, WritesCodes};
ghost use Rattle.aig_values.specs.state.Words.{spelled, value_in, group_value, one_of, zero_of, AreWhole};

use crate::code::Code;
use crate::row::planes::{CELLS, bits_from, group_of, spread};
use aig_parts::{Gate, Tern};

/// How many codes a word has: of each cell its own and that of its negation.
pub const CODES: usize = 64;

/// How many codes four cells have.
const GROUP: usize = 8;

/// The codes of four cells by four bits of ones and four of zeros: of each cell its own and that of its negation.
const GROUP_CODES: [u8; 2048] = [
    1, 1, 1, 1, 1, 1, 1, 1, 3, 0, 1, 1, 1, 1, 1, 1, 1, 1, 3, 0, 1, 1, 1, 1, 3, 0, 3, 0, 1, 1, 1, 1,
    1, 1, 1, 1, 3, 0, 1, 1, 3, 0, 1, 1, 3, 0, 1, 1, 1, 1, 3, 0, 3, 0, 1, 1, 3, 0, 3, 0, 3, 0, 1, 1,
    1, 1, 1, 1, 1, 1, 3, 0, 3, 0, 1, 1, 1, 1, 3, 0, 1, 1, 3, 0, 1, 1, 3, 0, 3, 0, 3, 0, 1, 1, 3, 0,
    1, 1, 1, 1, 3, 0, 3, 0, 3, 0, 1, 1, 3, 0, 3, 0, 1, 1, 3, 0, 3, 0, 3, 0, 3, 0, 3, 0, 3, 0, 3, 0,
    0, 3, 1, 1, 1, 1, 1, 1, 3, 0, 1, 1, 1, 1, 1, 1, 0, 3, 3, 0, 1, 1, 1, 1, 3, 0, 3, 0, 1, 1, 1, 1,
    0, 3, 1, 1, 3, 0, 1, 1, 3, 0, 1, 1, 3, 0, 1, 1, 0, 3, 3, 0, 3, 0, 1, 1, 3, 0, 3, 0, 3, 0, 1, 1,
    0, 3, 1, 1, 1, 1, 3, 0, 3, 0, 1, 1, 1, 1, 3, 0, 0, 3, 3, 0, 1, 1, 3, 0, 3, 0, 3, 0, 1, 1, 3, 0,
    0, 3, 1, 1, 3, 0, 3, 0, 3, 0, 1, 1, 3, 0, 3, 0, 0, 3, 3, 0, 3, 0, 3, 0, 3, 0, 3, 0, 3, 0, 3, 0,
    1, 1, 0, 3, 1, 1, 1, 1, 3, 0, 0, 3, 1, 1, 1, 1, 1, 1, 3, 0, 1, 1, 1, 1, 3, 0, 3, 0, 1, 1, 1, 1,
    1, 1, 0, 3, 3, 0, 1, 1, 3, 0, 0, 3, 3, 0, 1, 1, 1, 1, 3, 0, 3, 0, 1, 1, 3, 0, 3, 0, 3, 0, 1, 1,
    1, 1, 0, 3, 1, 1, 3, 0, 3, 0, 0, 3, 1, 1, 3, 0, 1, 1, 3, 0, 1, 1, 3, 0, 3, 0, 3, 0, 1, 1, 3, 0,
    1, 1, 0, 3, 3, 0, 3, 0, 3, 0, 0, 3, 3, 0, 3, 0, 1, 1, 3, 0, 3, 0, 3, 0, 3, 0, 3, 0, 3, 0, 3, 0,
    0, 3, 0, 3, 1, 1, 1, 1, 3, 0, 0, 3, 1, 1, 1, 1, 0, 3, 3, 0, 1, 1, 1, 1, 3, 0, 3, 0, 1, 1, 1, 1,
    0, 3, 0, 3, 3, 0, 1, 1, 3, 0, 0, 3, 3, 0, 1, 1, 0, 3, 3, 0, 3, 0, 1, 1, 3, 0, 3, 0, 3, 0, 1, 1,
    0, 3, 0, 3, 1, 1, 3, 0, 3, 0, 0, 3, 1, 1, 3, 0, 0, 3, 3, 0, 1, 1, 3, 0, 3, 0, 3, 0, 1, 1, 3, 0,
    0, 3, 0, 3, 3, 0, 3, 0, 3, 0, 0, 3, 3, 0, 3, 0, 0, 3, 3, 0, 3, 0, 3, 0, 3, 0, 3, 0, 3, 0, 3, 0,
    1, 1, 1, 1, 0, 3, 1, 1, 3, 0, 1, 1, 0, 3, 1, 1, 1, 1, 3, 0, 0, 3, 1, 1, 3, 0, 3, 0, 0, 3, 1, 1,
    1, 1, 1, 1, 3, 0, 1, 1, 3, 0, 1, 1, 3, 0, 1, 1, 1, 1, 3, 0, 3, 0, 1, 1, 3, 0, 3, 0, 3, 0, 1, 1,
    1, 1, 1, 1, 0, 3, 3, 0, 3, 0, 1, 1, 0, 3, 3, 0, 1, 1, 3, 0, 0, 3, 3, 0, 3, 0, 3, 0, 0, 3, 3, 0,
    1, 1, 1, 1, 3, 0, 3, 0, 3, 0, 1, 1, 3, 0, 3, 0, 1, 1, 3, 0, 3, 0, 3, 0, 3, 0, 3, 0, 3, 0, 3, 0,
    0, 3, 1, 1, 0, 3, 1, 1, 3, 0, 1, 1, 0, 3, 1, 1, 0, 3, 3, 0, 0, 3, 1, 1, 3, 0, 3, 0, 0, 3, 1, 1,
    0, 3, 1, 1, 3, 0, 1, 1, 3, 0, 1, 1, 3, 0, 1, 1, 0, 3, 3, 0, 3, 0, 1, 1, 3, 0, 3, 0, 3, 0, 1, 1,
    0, 3, 1, 1, 0, 3, 3, 0, 3, 0, 1, 1, 0, 3, 3, 0, 0, 3, 3, 0, 0, 3, 3, 0, 3, 0, 3, 0, 0, 3, 3, 0,
    0, 3, 1, 1, 3, 0, 3, 0, 3, 0, 1, 1, 3, 0, 3, 0, 0, 3, 3, 0, 3, 0, 3, 0, 3, 0, 3, 0, 3, 0, 3, 0,
    1, 1, 0, 3, 0, 3, 1, 1, 3, 0, 0, 3, 0, 3, 1, 1, 1, 1, 3, 0, 0, 3, 1, 1, 3, 0, 3, 0, 0, 3, 1, 1,
    1, 1, 0, 3, 3, 0, 1, 1, 3, 0, 0, 3, 3, 0, 1, 1, 1, 1, 3, 0, 3, 0, 1, 1, 3, 0, 3, 0, 3, 0, 1, 1,
    1, 1, 0, 3, 0, 3, 3, 0, 3, 0, 0, 3, 0, 3, 3, 0, 1, 1, 3, 0, 0, 3, 3, 0, 3, 0, 3, 0, 0, 3, 3, 0,
    1, 1, 0, 3, 3, 0, 3, 0, 3, 0, 0, 3, 3, 0, 3, 0, 1, 1, 3, 0, 3, 0, 3, 0, 3, 0, 3, 0, 3, 0, 3, 0,
    0, 3, 0, 3, 0, 3, 1, 1, 3, 0, 0, 3, 0, 3, 1, 1, 0, 3, 3, 0, 0, 3, 1, 1, 3, 0, 3, 0, 0, 3, 1, 1,
    0, 3, 0, 3, 3, 0, 1, 1, 3, 0, 0, 3, 3, 0, 1, 1, 0, 3, 3, 0, 3, 0, 1, 1, 3, 0, 3, 0, 3, 0, 1, 1,
    0, 3, 0, 3, 0, 3, 3, 0, 3, 0, 0, 3, 0, 3, 3, 0, 0, 3, 3, 0, 0, 3, 3, 0, 3, 0, 3, 0, 0, 3, 3, 0,
    0, 3, 0, 3, 3, 0, 3, 0, 3, 0, 0, 3, 3, 0, 3, 0, 0, 3, 3, 0, 3, 0, 3, 0, 3, 0, 3, 0, 3, 0, 3, 0,
    1, 1, 1, 1, 1, 1, 0, 3, 3, 0, 1, 1, 1, 1, 0, 3, 1, 1, 3, 0, 1, 1, 0, 3, 3, 0, 3, 0, 1, 1, 0, 3,
    1, 1, 1, 1, 3, 0, 0, 3, 3, 0, 1, 1, 3, 0, 0, 3, 1, 1, 3, 0, 3, 0, 0, 3, 3, 0, 3, 0, 3, 0, 0, 3,
    1, 1, 1, 1, 1, 1, 3, 0, 3, 0, 1, 1, 1, 1, 3, 0, 1, 1, 3, 0, 1, 1, 3, 0, 3, 0, 3, 0, 1, 1, 3, 0,
    1, 1, 1, 1, 3, 0, 3, 0, 3, 0, 1, 1, 3, 0, 3, 0, 1, 1, 3, 0, 3, 0, 3, 0, 3, 0, 3, 0, 3, 0, 3, 0,
    0, 3, 1, 1, 1, 1, 0, 3, 3, 0, 1, 1, 1, 1, 0, 3, 0, 3, 3, 0, 1, 1, 0, 3, 3, 0, 3, 0, 1, 1, 0, 3,
    0, 3, 1, 1, 3, 0, 0, 3, 3, 0, 1, 1, 3, 0, 0, 3, 0, 3, 3, 0, 3, 0, 0, 3, 3, 0, 3, 0, 3, 0, 0, 3,
    0, 3, 1, 1, 1, 1, 3, 0, 3, 0, 1, 1, 1, 1, 3, 0, 0, 3, 3, 0, 1, 1, 3, 0, 3, 0, 3, 0, 1, 1, 3, 0,
    0, 3, 1, 1, 3, 0, 3, 0, 3, 0, 1, 1, 3, 0, 3, 0, 0, 3, 3, 0, 3, 0, 3, 0, 3, 0, 3, 0, 3, 0, 3, 0,
    1, 1, 0, 3, 1, 1, 0, 3, 3, 0, 0, 3, 1, 1, 0, 3, 1, 1, 3, 0, 1, 1, 0, 3, 3, 0, 3, 0, 1, 1, 0, 3,
    1, 1, 0, 3, 3, 0, 0, 3, 3, 0, 0, 3, 3, 0, 0, 3, 1, 1, 3, 0, 3, 0, 0, 3, 3, 0, 3, 0, 3, 0, 0, 3,
    1, 1, 0, 3, 1, 1, 3, 0, 3, 0, 0, 3, 1, 1, 3, 0, 1, 1, 3, 0, 1, 1, 3, 0, 3, 0, 3, 0, 1, 1, 3, 0,
    1, 1, 0, 3, 3, 0, 3, 0, 3, 0, 0, 3, 3, 0, 3, 0, 1, 1, 3, 0, 3, 0, 3, 0, 3, 0, 3, 0, 3, 0, 3, 0,
    0, 3, 0, 3, 1, 1, 0, 3, 3, 0, 0, 3, 1, 1, 0, 3, 0, 3, 3, 0, 1, 1, 0, 3, 3, 0, 3, 0, 1, 1, 0, 3,
    0, 3, 0, 3, 3, 0, 0, 3, 3, 0, 0, 3, 3, 0, 0, 3, 0, 3, 3, 0, 3, 0, 0, 3, 3, 0, 3, 0, 3, 0, 0, 3,
    0, 3, 0, 3, 1, 1, 3, 0, 3, 0, 0, 3, 1, 1, 3, 0, 0, 3, 3, 0, 1, 1, 3, 0, 3, 0, 3, 0, 1, 1, 3, 0,
    0, 3, 0, 3, 3, 0, 3, 0, 3, 0, 0, 3, 3, 0, 3, 0, 0, 3, 3, 0, 3, 0, 3, 0, 3, 0, 3, 0, 3, 0, 3, 0,
    1, 1, 1, 1, 0, 3, 0, 3, 3, 0, 1, 1, 0, 3, 0, 3, 1, 1, 3, 0, 0, 3, 0, 3, 3, 0, 3, 0, 0, 3, 0, 3,
    1, 1, 1, 1, 3, 0, 0, 3, 3, 0, 1, 1, 3, 0, 0, 3, 1, 1, 3, 0, 3, 0, 0, 3, 3, 0, 3, 0, 3, 0, 0, 3,
    1, 1, 1, 1, 0, 3, 3, 0, 3, 0, 1, 1, 0, 3, 3, 0, 1, 1, 3, 0, 0, 3, 3, 0, 3, 0, 3, 0, 0, 3, 3, 0,
    1, 1, 1, 1, 3, 0, 3, 0, 3, 0, 1, 1, 3, 0, 3, 0, 1, 1, 3, 0, 3, 0, 3, 0, 3, 0, 3, 0, 3, 0, 3, 0,
    0, 3, 1, 1, 0, 3, 0, 3, 3, 0, 1, 1, 0, 3, 0, 3, 0, 3, 3, 0, 0, 3, 0, 3, 3, 0, 3, 0, 0, 3, 0, 3,
    0, 3, 1, 1, 3, 0, 0, 3, 3, 0, 1, 1, 3, 0, 0, 3, 0, 3, 3, 0, 3, 0, 0, 3, 3, 0, 3, 0, 3, 0, 0, 3,
    0, 3, 1, 1, 0, 3, 3, 0, 3, 0, 1, 1, 0, 3, 3, 0, 0, 3, 3, 0, 0, 3, 3, 0, 3, 0, 3, 0, 0, 3, 3, 0,
    0, 3, 1, 1, 3, 0, 3, 0, 3, 0, 1, 1, 3, 0, 3, 0, 0, 3, 3, 0, 3, 0, 3, 0, 3, 0, 3, 0, 3, 0, 3, 0,
    1, 1, 0, 3, 0, 3, 0, 3, 3, 0, 0, 3, 0, 3, 0, 3, 1, 1, 3, 0, 0, 3, 0, 3, 3, 0, 3, 0, 0, 3, 0, 3,
    1, 1, 0, 3, 3, 0, 0, 3, 3, 0, 0, 3, 3, 0, 0, 3, 1, 1, 3, 0, 3, 0, 0, 3, 3, 0, 3, 0, 3, 0, 0, 3,
    1, 1, 0, 3, 0, 3, 3, 0, 3, 0, 0, 3, 0, 3, 3, 0, 1, 1, 3, 0, 0, 3, 3, 0, 3, 0, 3, 0, 0, 3, 3, 0,
    1, 1, 0, 3, 3, 0, 3, 0, 3, 0, 0, 3, 3, 0, 3, 0, 1, 1, 3, 0, 3, 0, 3, 0, 3, 0, 3, 0, 3, 0, 3, 0,
    0, 3, 0, 3, 0, 3, 0, 3, 3, 0, 0, 3, 0, 3, 0, 3, 0, 3, 3, 0, 0, 3, 0, 3, 3, 0, 3, 0, 0, 3, 0, 3,
    0, 3, 0, 3, 3, 0, 0, 3, 3, 0, 0, 3, 3, 0, 0, 3, 0, 3, 3, 0, 3, 0, 0, 3, 3, 0, 3, 0, 3, 0, 0, 3,
    0, 3, 0, 3, 0, 3, 3, 0, 3, 0, 0, 3, 0, 3, 3, 0, 0, 3, 3, 0, 0, 3, 3, 0, 3, 0, 3, 0, 0, 3, 3, 0,
    0, 3, 0, 3, 3, 0, 3, 0, 3, 0, 0, 3, 3, 0, 3, 0, 0, 3, 3, 0, 3, 0, 3, 0, 3, 0, 3, 0, 3, 0, 3, 0,
];

// Writes the codes of four cells from a place on.
fn unpack_group(codes: &mut [Code], from: usize, group: usize)
    requires group { group < 256 }
    requires room { from + 8 ≤ length codes.old }
    ensures { WritesCodes from 8 (λ k. signed_value (group_value group (k / 2)) k) codes.old codes.new }
{
    for place in 0..GROUP {
        codes[from + place] = Code::of_bits(GROUP_CODES[GROUP * group + place]);
    }
}

// Writes the codes of 32 cells from a place on, four cells at a time.
fn unpack_known(codes: &mut [Code], from: usize, bits: u64)
    requires { from + 64 ≤ length codes.old }
    ensures { WritesCodes from 64 (λ k. signed_value (value_in bits (k / 2)) k) codes.old codes.new }
{
    let mut rest = bits;
    for group in 0..GROUP {
        unpack_group(codes, from + GROUP * group, group_of(rest));
        rest /= 16;
    }
}

// Writes the codes of 32 cells of x from a place on.
fn unpack_unknown(codes: &mut [Code], from: usize)
    requires { from + 64 ≤ length codes.old }
    ensures { WritesCodes from 64 (λ k. X) codes.old codes.new }
{
    for place in 0..CODES {
        codes[from + place] = Code::of(Tern::X);
    }
}

// Writes the codes of 32 cells from a place on. In a new frame most words have x alone.
fn unpack_word(codes: &mut [Code], from: usize, bits: u64)
    requires { from + 64 ≤ length codes.old }
    ensures { WritesCodes from 64 (λ k. signed_value (value_in bits (k / 2)) k) codes.old codes.new }
{
    if bits == 0 {
        unpack_unknown(codes, from);
    } else {
        unpack_known(codes, from, bits);
    }
}

// Writes the codes of words.
fn unpack(codes: &mut [Code], words: &[u64])
    requires { length codes.old ≡ 64 * length words.now }
    ensures { codes.new ≡ by_literal (spelled words.now) }
{
    for place in 0..words.len() {
        unpack_word(codes, CODES * place, bits_from(words, CELLS * place));
    }
}

// Evaluates gates one after the other.
fn sweep_codes(codes: &mut [Code], gates: &[Gate])
    requires { All (HasVariablesBelow (length codes.old / 2)) gates.now }
    ensures { (row : List Tern) → codes.old ≡ by_literal row
        → codes.new ≡ by_literal (fold with_gate_value row gates.now) }
{
    for gate in gates {
        let code = codes[gate.rhs0.value() as usize].and(codes[gate.rhs1.value() as usize]);
        let place = 2 * gate.lhs.var() as usize;
        codes[place] = code;
        codes[place + 1] = code.with_sign(true);
    }
}

// The bits of 32 cells by their codes from a place on.
fn packed(codes: &[Code], from: usize) -> u64
    requires { from + 64 ≤ length codes.now }
    ensures one { (k : ℕ) → k < 32 → bit_at result k ≡ one_of (slice_index_or codes.now (from + 2 * k) X) }
    ensures zero { (k : ℕ) → k < 32 → bit_at result (32 + k) ≡ zero_of (slice_index_or codes.now (from + 2 * k) X) }
{
    let mut word = 0;
    for place in 0..CELLS {
        word = 2 * word + spread(codes[from + 2 * (CELLS - 1 - place)]);
    }
    word
}

// Writes the words of codes.
fn pack(words: &mut [u64], codes: &[Code])
    requires { length codes.now ≡ 64 * length words.old }
    ensures whole { AreWhole words.new }
    ensures cells { (row : List Tern) → codes.now ≡ by_literal row → spelled words.new ≡ row }
{
    for place in 0..words.len() {
        words[place] = packed(codes, CODES * place).rotate_right((CELLS * (place % 2)) as u32);
    }
}

/// Evaluates gates one after the other, in the order of the slice: in codes by literal, which are memory to work in.
pub fn sweep_words(words: &mut [u64], codes: &mut [Code], gates: &[Gate])
    requires room { length codes.old ≡ 64 * length words.old }
    requires gates { All (HasVariablesBelow (32 * length words.old)) gates.now }
    ensures whole { AreWhole words.new }
    ensures cells { spelled words.new ≡ fold with_gate_value (spelled words.old) gates.now }
{
    unpack(codes, words);
    sweep_codes(codes, gates);
    pack(words, codes);
}
