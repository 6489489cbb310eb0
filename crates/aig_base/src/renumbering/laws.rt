//! What holds of all renumbered circuits: a law is a function that does nothing, and its contract is the law.
ghost use Rattle.std.specs.Prelude.{◌≡◌, ℕ, List};
ghost use Rattle.aig_parts.specs.declared.raw.Raw.{Raw};
ghost use Rattle.aig_parts.specs.declared.ternary.Tern.{Tern};
ghost use Rattle.aig_base.specs.Circuit.{IsCircuit};
ghost use Rattle.aig_base.specs.Order.{IsCanonicalOrder};
ghost use Rattle.aig_base.specs.Renumbered.{renumbered, IsBinaryReady};
ghost use Rattle.aig_base.specs.RenumberedValues.{RenumberingKeepsValues, RenumberingAddsNoValues};
ghost use Rattle.aig_base.specs.Sound.{IsSound};
ghost use Rattle.aig_base.specs.Value.{Fits, start_of};

/// A renumbered circuit is a circuit that a binary file can hold, and from the same start and rows each literal's
/// counterpart has its value at every frame, and no other. Its start by resets is the circuit's (our own choice).
pub fn law_of_renumbering()
    ensures circuit { (raw : Raw) (order : List ℕ) →
        IsCircuit raw → IsCanonicalOrder raw order → IsCircuit (renumbered raw order) }
    ensures ready { (raw : Raw) (order : List ℕ) →
        IsCircuit raw → IsCanonicalOrder raw order → IsBinaryReady (renumbered raw order) }
    ensures values { (raw : Raw) (order : List ℕ) (start : List Tern) (rows : List (List Tern)) →
        IsSound raw → IsCanonicalOrder raw order → RenumberingKeepsValues raw order start rows }
    ensures no_other { (raw : Raw) (order : List ℕ) (start : List Tern) (rows : List (List Tern)) →
        IsCircuit raw → IsCanonicalOrder raw order → Fits raw start rows
        → RenumberingAddsNoValues raw order start rows }
    ensures start { (raw : Raw) (order : List ℕ) →
        IsCircuit raw → IsCanonicalOrder raw order → start_of (renumbered raw order) ≡ start_of raw }
{}
