//! Values of variables.
ghost use Rattle.std.specs.Prelude.{◌≡◌, ◌<◌, ℕ, List, [], ◌∷◌, ◌++◌, length, Contains, IfOk, IsTrue, false};
ghost use Rattle.aig_parts.specs.Literal.{negation, variable};
ghost use Rattle.aig_sat.specs.model.Named.{AreNamed};

use aig_bytes::Memory;
use aig_parts::{Lit, Tern};
use std::alloc::Global;
use std::marker::Model;

/// A value for each variable below some number, a byte each: 0, 1, or x where none is known.
#[derive(Drop)]
pub struct Assignment {
    values: Vec<Tern>,
}

impl Model for Assignment {
    ghost use Rattle.std.specs.Prelude.{List};
    ghost use Rattle.aig_parts.specs.declared.ternary.Tern.{Tern};

    ghost Value = { List Tern };

    ghost view = { λ a. a.values.items };
}

impl Assignment {
    /// No value for any of so many variables.
    pub fn new(alloc: Global, variables: u32) -> Result<Assignment, Memory>
        ensures named { IfOk result (AreNamed [] variables) }
    {
        let values = vec![in alloc; Tern::X; variables as usize]?;
        Ok(Assignment { values })
    }

    /// The values, from variable 0 on.
    pub fn as_slice(&self) -> &[Tern]
        ensures { result.now ≡ self.now }
    {
        &self.values
    }

    /// Makes a literal true, and answers whether its negation was not.
    pub fn name(&mut self, literal: Lit) -> bool
        requires { variable literal < length self.old }
        ensures named { IsTrue result → (literals : List ℕ) → AreNamed literals (length self.old) self.old →
            AreNamed (literals ++ literal ∷ []) (length self.old) self.new }
        ensures refused { result ≡ false → (literals : List ℕ) → AreNamed literals (length self.old) self.old →
            Contains literals (negation literal) }
        ensures length { length self.new ≡ length self.old }
    {
        let place = literal.var() as usize;
        let before = self.values[place];
        if literal.is_neg() {
            self.values[place] = Tern::Zero;
            before != Tern::One
        } else {
            self.values[place] = Tern::One;
            before != Tern::Zero
        }
    }
}
