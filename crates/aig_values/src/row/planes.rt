//! Words of two planes of bits: of ones, which cells are 1, and of zeros, which are 0. Read over two words, each plane is
//! a word of 64; a word of memory has half of each, so that one load and one rotation give both bits of a cell.
ghost use Rattle.std.specs.Prelude.{◌≡◌, ◌≢◌, ℕ, ◌+◌, ◌*◌, ◌/◌, ◌%◌, ◌^◌, ◌<◌, length};
ghost use Rattle.std.specs.Int.{bit_at};
ghost use Rattle.aig_parts.specs.Literal.{variable};
ghost use Rattle.aig_values.specs.state.Words.{ones, zeros, bit_in, value_in, one_of, zero_of, one_bit, zero_bit};

use crate::code::Code;
use aig_parts::Lit;

/// How many cells a word has.
pub const CELLS: usize = 32;

/// The bit of zeros of a cell whose bit of ones is lowest.
pub const ZERO: u64 = 4_294_967_296;

/// Both bits of a code: that of ones lowest, that of zeros 32 bits above.
const SPREAD: [u64; 4] = [ZERO, 0, 0, 1];

/// The bits of the cells from a variable on, as far as they are in one word: those of ones from the lowest bit on, those
/// of zeros 32 bits above.
pub fn bits_from(words: &[u64], variable: usize) -> u64
    requires { variable < 32 * length words.now }
    ensures one { (k : ℕ) → variable % 32 + k < 32 → bit_at result k ≡ bit_in (ones words.now) (variable + k) }
    ensures zero { (k : ℕ) → variable % 32 + k < 32
        → bit_at result (32 + k) ≡ bit_in (zeros words.now) (variable + k) }
{
    words[variable / CELLS].rotate_right((variable % 64) as u32)
}

/// The bits of the cells of a word from a place on, as `bits_from` gives them.
pub fn word_bits(words: &[u64], index: usize, place: usize) -> u64
    requires index { index < length words.now }
    requires place { place < 32 }
    ensures one { (k : ℕ) → place + k < 32 → bit_at result k ≡ bit_in (ones words.now) (32 * index + place + k) }
    ensures zero { (k : ℕ) → place + k < 32
        → bit_at result (32 + k) ≡ bit_in (zeros words.now) (32 * index + place + k) }
{
    words[index].rotate_right((CELLS * (index % 2) + place) as u32)
}

/// Both bits of a literal's value: that of ones lowest, that of zeros 32 bits above. Other bits are of other cells.
pub fn literal_bits(words: &[u64], literal: Lit) -> u64
    requires { variable literal < 32 * length words.now }
    ensures one { bit_at result 0 ≡ one_bit words.now literal }
    ensures zero { bit_at result 32 ≡ zero_bit words.now literal }
{
    let value = literal.value();
    words[value as usize / 64].rotate_right((value / 2).wrapping_add(value.wrapping_mul(32)))
}

/// The code of the cell whose bits these are.
pub fn code_of(bits: u64) -> Code
    requires { bit_at bits 0 + bit_at bits 32 < 2 }
    ensures { result ≡ value_in bits 0 }
{
    Code::of_bits((1 + 2 * (bits % 2) - bits / ZERO % 2) as u8)
}

/// Both bits of a code.
pub fn spread(code: Code) -> u64
    ensures { result ≡ zero_of code * 2 ^ 32 + one_of code }
{
    SPREAD[code.bits() as usize]
}

/// Four bits of ones, and above them four of zeros.
pub fn group_of(bits: u64) -> usize
    ensures small { result < 256 }
    ensures one { (k : ℕ) → k < 4 → bit_at result k ≡ bit_at bits k }
    ensures zero { (k : ℕ) → k < 4 → bit_at result (4 + k) ≡ bit_at bits (32 + k) }
{
    (bits % 16 + 16 * (bits / ZERO % 16)) as usize
}

/// The bits of a cell that change, where its bit of ones becomes that of one word and its bit of zeros that of another.
pub fn change(before: u64, for_one: u64, for_zero: u64) -> u64
    ensures one { bit_at result 0 ≡ (bit_at for_one 0 + bit_at before 0) % 2 }
    ensures zero { bit_at result 32 ≡ (bit_at for_zero 32 + bit_at before 32) % 2 }
    ensures alone { (i : ℕ) → i ≢ 0 → i ≢ 32 → bit_at result i ≡ 0 }
{
    (for_zero ^ before) / ZERO % 2 * ZERO + (for_one ^ before) % 2
}

/// Changes bits of a cell.
pub fn flip(words: &mut [u64], variable: usize, change: u64)
    requires within { variable < 32 * length words.old }
    requires alone { (i : ℕ) → i ≢ 0 → i ≢ 32 → bit_at change i ≡ 0 }
    ensures one { bit_in (ones words.new) variable ≡ (bit_in (ones words.old) variable + bit_at change 0) % 2 }
    ensures zero { bit_in (zeros words.new) variable ≡ (bit_in (zeros words.old) variable + bit_at change 32) % 2 }
    ensures other_ones { (v : ℕ) → v < 32 * length words.old → v ≢ variable
        → bit_in (ones words.new) v ≡ bit_in (ones words.old) v }
    ensures other_zeros { (v : ℕ) → v < 32 * length words.old → v ≢ variable
        → bit_in (zeros words.new) v ≡ bit_in (zeros words.old) v }
{
    words[variable / CELLS] ^= change.rotate_left((variable % 64) as u32);
}
