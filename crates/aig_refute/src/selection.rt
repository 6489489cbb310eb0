//! What a selection of properties keeps. A law is a function that does nothing: its contract is the law.
ghost use Rattle.std.specs.Prelude.{◌≡◌, ℕ, List, Some, slice_get, length};
ghost use Rattle.aig_parts.specs.declared.raw.Raw.{Raw};
ghost use Rattle.aig_base.specs.declared.select.PropertySection.{PropertySection};
ghost use Rattle.aig_base.specs.Selected.{properties_in, selected, selected_positions, AreProperties};
ghost use Rattle.aig_sim.specs.WitnessText.{Witness};
ghost use Rattle.aig_refute.specs.Unreachable.{IsUnreachable};
ghost use Rattle.aig_refute.specs.Selection.{HaveSameVerdictsOf, with_bad};

/// A run has the verdict for a property that was selected that it has for the named one: property q of the circuit that
/// keeps properties is the one at the q-th position that was named. A section is judged as bad state properties are
/// (AIGER 1.9): of outputs that is our own choice.
pub fn law_of_selection()
    ensures verdicts { (raw : Raw) (from into : PropertySection) (named : List ℕ) (p q : ℕ) (w : Witness) →
        AreProperties raw from named →
        slice_get (selected_positions (length (properties_in from raw)) named) q ≡ Some p →
        HaveSameVerdictsOf p q (with_bad from raw) (with_bad into (selected raw from into named)) w }
    ensures unreachable { (raw : Raw) (from into : PropertySection) (named : List ℕ) (p q : ℕ) →
        AreProperties raw from named →
        slice_get (selected_positions (length (properties_in from raw)) named) q ≡ Some p →
        IsUnreachable (with_bad into (selected raw from into named)) q → IsUnreachable (with_bad from raw) p }
{}
