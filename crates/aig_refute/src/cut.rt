//! What a cut circuit says of the circuit that it was made of. The law is a function that does nothing: its contract is
//! the law.
ghost use Rattle.std.specs.Prelude.{ℕ};
ghost use Rattle.aig_parts.specs.declared.raw.Raw.{Raw};
ghost use Rattle.aig_base.specs.Circuit.{IsCircuit};
ghost use Rattle.aig_cut.specs.Cut.{IsCut};
ghost use Rattle.aig_refute.specs.Unreachable.{HasNoRun, IsUnreachable, IsUnreachableWithin};

/// Where no run of a cut circuit reaches a property, at any frame or within some, none of the circuit does; and where
/// none keeps all constraints for some frames, none of the circuit does. Each run of the circuit is one of the cut
/// circuit, with the values of what was cut as its new inputs.
pub fn law_of_cut()
    ensures ever { (raw x : Raw) (p : ℕ) → IsCircuit raw → IsCut raw x → IsUnreachable x p → IsUnreachable raw p }
    ensures within { (raw x : Raw) (k p : ℕ) → IsCircuit raw → IsCut raw x →
        IsUnreachableWithin x k p → IsUnreachableWithin raw k p }
    ensures alive { (raw x : Raw) (k : ℕ) → IsCircuit raw → IsCut raw x → HasNoRun x k → HasNoRun raw k }
{}
