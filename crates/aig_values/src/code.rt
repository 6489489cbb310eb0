//! Values in two bits, for circuits that are simulated row by row.
ghost use Rattle.std.specs.Prelude.{◌≡◌, ◌≢◌, ◌<◌, ◌↔◌, IsTrue, List, length, map, All};
ghost use Rattle.aig_parts.specs.Literal.{variable};
ghost use Rattle.aig_parts.specs.Ternary.{kleene_and, kleene_not};
ghost use Rattle.aig_values.specs.Cells.{literal_value};
ghost use Rattle.aig_values.specs.Codes.{code_value, bits_of, IsCode};
ghost use Rattle.aig_values.specs.Characters.{character};
ghost use Rattle.aig_values.specs.TraceText.{literal_character};

use crate::row::first_of_contiguous;
use aig_parts::{Lit, Tern};
use std::marker::Model;

/// A value in two bits: 0 is 00, 1 is 11 and x is 01, so that the bits of an AND are the AND of the bits. Contracts see
/// the value.
#[derive(Clone, Copy)]
pub struct Code {
    bits: u8,
}

impl Model for Code {
    ghost use Rattle.std.proofs.Common.{ap};
    ghost use Rattle.aig_parts.specs.declared.ternary.Tern.{Tern};
    ghost use Rattle.aig_values.specs.Codes.{code_value, bits_of, IsCode};

    ghost Value = { Tern };

    ghost view = { λ a. code_value a.bits };

    ghost inverse = { λ v. record { bits = bits_of v } };

    ghost inverse_ok = { λ a h. ap (λ n. record { bits = n }) h };

    ghost invariant = { λ a. IsCode a.bits };
}

/// The bits of a value by its own bits, and after the fourth those of its negation. None are 10.
const SIGNED: [u8; 8] = [0b00, 0b01, 0b00, 0b11, 0b11, 0b01, 0b00, 0b00];

/// The character of a value by its bits, and after the fourth that of its negation.
const CHARACTERS: [u8; 8] = [b'0', b'x', b'x', b'1', b'1', b'x', b'x', b'0'];

impl Code {
    /// The code of a value.
    pub fn of(value: Tern) -> Code
        ensures { result ≡ value }
    {
        Code {
            bits: match value {
                Tern::Zero => 0b00,
                Tern::One => 0b11,
                Tern::X => 0b01,
            },
        }
    }

    /// The code that has these bits.
    pub(crate) fn of_bits(bits: u8) -> Code
        requires { IsCode bits }
        ensures { result ≡ code_value bits }
    {
        Code { bits }
    }

    /// The bits of the code.
    pub(crate) fn bits(self) -> u8
        ensures { result ≡ bits_of self }
    {
        self.bits
    }

    /// The value of the code.
    pub fn value(self) -> Tern
        ensures { result ≡ self }
    {
        match self.bits {
            0b00 => Tern::Zero,
            0b01 => Tern::X,
            _ => Tern::One,
        }
    }

    /// The negation where `is_negated`, else the value itself. No jump depends on either.
    pub fn with_sign(self, is_negated: bool) -> Code
        ensures negated { IsTrue is_negated → result ≡ kleene_not self }
        ensures same { (IsTrue is_negated → ⊥) → result ≡ self }
    {
        Code {
            bits: SIGNED[4 * (is_negated as usize) + self.bits as usize],
        }
    }

    // The character of the value: `0`, `1` or `x`. Many are made at a time, as no table is read.
    fn plain_character(self) -> u8
        ensures { result ≡ character self }
    {
        if self.bits == 0b01 {
            b'x'
        } else {
            b'0' + (self.bits >> 1)
        }
    }

    /// The character of the negation where `is_negated`, else that of the value itself: `0`, `1` or `x`.
    pub fn character(self, is_negated: bool) -> u8
        ensures negated { IsTrue is_negated → result ≡ character (kleene_not self) }
        ensures same { (IsTrue is_negated → ⊥) → result ≡ character self }
    {
        CHARACTERS[4 * (is_negated as usize) + self.bits as usize]
    }

    /// Whether two values differ.
    pub fn differs(self, other: Code) -> bool
        ensures { IsTrue result ↔ (self ≢ other) }
    {
        self.bits != other.bits
    }

    /// The AND of two values.
    pub fn and(self, other: Code) -> Code
        ensures { result ≡ kleene_and self other }
    {
        Code {
            bits: self.bits & other.bits,
        }
    }
}

/// The value of a literal by the code of its variable.
pub fn code_in(cells: &[Code], literal: Lit) -> Code
    requires { variable literal < length cells.now }
    ensures { result ≡ literal_value cells.now literal }
{
    cells[literal.var() as usize].with_sign(literal.is_neg())
}

/// The character of the value of a literal.
pub fn character_in(cells: &[Code], literal: Lit) -> u8
    requires { variable literal < length cells.now }
    ensures { result ≡ literal_character cells.now literal }
{
    cells[literal.var() as usize].character(literal.is_neg())
}

// Writes the characters of codes.
fn spell_codes(text: &mut [u8], codes: &[Code])
    requires { length text.old ≡ length codes.now }
    ensures { text.new ≡ map character codes.now }
{
    for (place, code) in codes.iter().enumerate() {
        text[place] = code.plain_character();
    }
}

/// Writes the characters of literals: those of neighbours are those of a piece of the cells.
pub fn spell_in(text: &mut [u8], cells: &[Code], literals: &[Lit])
    requires cells { All (λ l. variable l < length cells.now) literals.now }
    requires room { length text.old ≡ length literals.now }
    ensures { text.new ≡ map (literal_character cells.now) literals.now }
{
    match first_of_contiguous(literals) {
        Some(first) => spell_codes(text, &cells[first..first + literals.len()]),
        None => {
            for (place, literal) in literals.iter().enumerate() {
                text[place] = character_in(cells, *literal);
            }
        }
    }
}
