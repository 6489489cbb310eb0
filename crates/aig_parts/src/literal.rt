//! Literals.
ghost use Rattle.std.specs.Prelude.{◌≡◌, ◌↔◌, IsTrue};
ghost use Rattle.aig_parts.specs.Literal.{variable, negation, IsNegated};

use std::marker::Model;

/// A literal of an and-inverter graph: twice its variable, plus one where it is negated. Literal 0 is false, literal 1
/// is true (AIGER 1.0, ASCII format).
#[derive(Clone, Copy, PartialEq, Eq, Debug)]
pub struct Lit {
    code: u32,
}

impl Model for Lit {
    ghost use Rattle.std.specs.Prelude.{ℕ};

    ghost Value = { ℕ };

    ghost view = { λ a. a.code };

    ghost inverse = { λ n. record { code = n } };
}

impl Lit {
    /// The literal of this number.
    pub fn new(code: u32) -> Lit
        ensures { result ≡ code }
    {
        Lit { code }
    }

    /// The number of the literal.
    pub fn value(self) -> u32
        ensures { result ≡ self }
    {
        self.code
    }

    /// The variable, 0 for the two constants.
    pub fn var(self) -> u32
        ensures { result ≡ variable self }
    {
        self.value() / 2
    }

    /// Whether the literal is odd, the negation of the one below it.
    pub fn is_neg(self) -> bool
        ensures { IsTrue result ↔ IsNegated self }
    {
        self.value() % 2 == 1
    }

    /// The same variable with the other sign.
    pub fn not(self) -> Lit
        ensures { result ≡ negation self }
    {
        if self.code % 2 == 0 {
            Lit {
                code: self.code + 1,
            }
        } else {
            Lit {
                code: self.code - 1,
            }
        }
    }
}
