//! What is written is a cut, and a circuit. The law is a function that does nothing: its contract is the law.
ghost use Rattle.std.specs.Prelude.{ℕ, List};
ghost use Rattle.aig_parts.specs.declared.raw.Raw.{Raw};
ghost use Rattle.aig_base.specs.Circuit.{IsCircuit};
ghost use Rattle.aig_cut.specs.Cut.{IsCut};
ghost use Rattle.aig_cut.specs.Lines.{IsCutBy, IsOverLimit};

/// The parts that are cut as a text says are a cut of the circuit, whatever the text names, and within the limits they
/// are a circuit.
pub fn law_of_what_is_written()
    ensures cut { (raw x : Raw) (text : List ℕ) → IsCircuit raw → IsCutBy raw text x → IsCut raw x }
    ensures circuit { (raw x : Raw) (text : List ℕ) → IsCircuit raw → IsCutBy raw text x → (IsOverLimit x → ⊥) →
        IsCircuit x }
{}
