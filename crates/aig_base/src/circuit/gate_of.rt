//! The gate that defines a variable.
ghost use Rattle.std.specs.Prelude.{◌≡◌, ℕ, Some, slice_get, IfSome, IfNone};
ghost use Rattle.aig_parts.specs.Literal as literal;
ghost use Rattle.aig_base.specs.Renumbered.{gate_of};
ghost use Rattle.aig_base.specs.Sections.{IsGate};

use crate::circuit::Circuit;
use crate::circuit::definition::Definition;
use aig_parts::Gate;

impl Circuit {
    /// The gate with this variable on its left side, if there is one. It takes constant time.
    pub fn gate_of(&self, variable: u32) -> Option<Gate>
        ensures is { result ≡ gate_of self.now variable }
        ensures found { IfSome result
            (λ g. (q : ℕ) × (slice_get self.now.gates q ≡ Some g) × (literal.variable g.lhs ≡ variable)) }
        ensures none { IfNone result (IsGate self.now variable → ⊥) }
    {
        self.facts();
        match self.definition(variable) {
            Some(Definition::Gate(position)) => Some(self.gates()[position as usize]),
            Some(Definition::Input(_)) => None,
            Some(Definition::Latch(_)) => None,
            None => None,
        }
    }
}
