//! The values of one frame, wherever they are kept.
ghost use Rattle.std.specs.Prelude.{◌≡◌, ℕ, ◌+◌, ◌<◌, ◌≤◌, List, Some, slice_get, length, map, All, IsTrue, IfSome};
ghost use Rattle.aig_parts.specs.declared.ternary.Tern.{Tern};
ghost use Rattle.aig_parts.specs.Literal.{variable};
ghost use Rattle.aig_values.specs.Cells.{literal_value};
ghost use Rattle.aig_values.specs.Contiguous.{AreContiguous};
ghost use Rattle.aig_values.specs.TraceText.{literal_character};

pub(crate) mod byte_row;
pub(crate) mod cell_row;
mod literal_codes;
pub(crate) mod plane_row;
mod planes;

use crate::grid::Grid;
use aig_parts::{Lit, Tern};

/// A value a variable.
pub trait Row {
    /// The values.
    ghost cells: { Self → List Tern };

    /// Whether the variable has one.
    ghost has: { Self → ℕ → Type 0 };

    /// The value of a variable.
    fn value(&self, variable: u32) -> Tern
        requires { has self.now variable }
        ensures { slice_get (cells self.now) variable ≡ Some result };

    /// The character of the value of a literal: `0`, `1` or `x`.
    fn character(&self, literal: Lit) -> u8
        requires { has self.now (variable literal) }
        ensures { result ≡ literal_character (cells self.now) literal };

    /// Writes the characters of the values of literals.
    fn spell(&self, text: &mut [u8], literals: &[Lit])
        requires row { All (λ l. has self.now (variable l)) literals.now }
        requires room { length text.old ≡ length literals.now }
        ensures { text.new ≡ map (literal_character (cells self.now)) literals.now }
    {
        for (place, literal) in literals.iter().enumerate() {
            text[place] = self.character(*literal);
        }
    }
}

/// The value of a literal by the cell of its variable.
pub fn literal_in<R: Row>(row: &R, literal: Lit) -> Tern
    requires { R.has row.now (variable literal) }
    ensures { result ≡ literal_value (R.cells row.now) literal }
{
    let value = row.value(literal.var());
    if literal.is_neg() { value.not() } else { value }
}

/// The row of a grid at a frame.
#[derive(Clone, Copy, Drop)]
pub struct GridRow<'a, G> {
    pub grid: &'a G,
    pub frame: u32,
}

impl<'a, G: Grid> Row for GridRow<'a, G> {
    ghost use Rattle.std.specs.Prelude.{◌<◌, length};
    ghost use Rattle.aig_values.specs.InputRows.{row_at};

    ghost cells = { λ r. row_at (G.cells r.grid.now) r.frame };

    ghost has = { λ r v. (r.frame < length (G.cells r.grid.now)) × (v < length (G.gate_flags r.grid.now)) };

    fn value(&self, variable: u32) -> Tern {
        self.grid.get(self.frame, variable)
    }

    fn character(&self, literal: Lit) -> u8 {
        self.grid.character(self.frame, literal)
    }

    fn spell(&self, text: &mut [u8], literals: &[Lit]) {
        // Where there is no literal, no frame need be there.
        if !literals.is_empty() {
            self.grid.spell(self.frame, text, literals);
        }
    }
}

// Whether these are the even literals of neighbouring variables from this one on. All are looked at, many at a time.
fn are_contiguous(literals: &[Lit], first: u32) -> bool
    requires { first + length literals.now ≤ 2147483648 }
    ensures { IsTrue result → AreContiguous first literals.now }
{
    let mut all = true;
    for (place, literal) in literals.iter().enumerate() {
        all &= literal.value() == 2 * (first + place as u32);
    }
    all
}

/// The variable of the first literal, where these are the even literals of neighbouring variables, each one more than
/// the one before.
pub fn first_of_contiguous(literals: &[Lit]) -> Option<usize>
    ensures contiguous { IfSome result (λ first. AreContiguous first literals.now) }
    ensures some { IfSome result (λ first. 0 < length literals.now) }
{
    if literals.is_empty() {
        return None;
    }
    let first = literals[0].value() / 2;
    let last = literals[literals.len() - 1].value() / 2;
    // The last byte shows it for most that are none.
    if last < first || (last - first) as usize != literals.len() - 1 {
        return None;
    }
    if are_contiguous(literals, first) {
        Some(first as usize)
    } else {
        None
    }
}
