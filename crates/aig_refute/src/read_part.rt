//! The part of a circuit that a property and the constraints read. The law is a function that does nothing: its contract
//! is the law.
ghost use Rattle.std.specs.Prelude.{◌≡◌, ◌↔◌, ℕ, Bool, Some, slice_get};
ghost use Rattle.aig_parts.specs.declared.raw.Raw.{Raw};
ghost use Rattle.aig_base.specs.Circuit.{IsCircuit};
ghost use Rattle.aig_base.specs.Part.{TestsRead, part};
ghost use Rattle.aig_refute.specs.Satisfiable.{HasBrokenStep, IsReachedWithin};
ghost use Rattle.aig_refute.specs.Unreachable.{IsUnreachable};

/// The part of a circuit that a property and the constraints read, in this frame or through latches in the frames
/// before, is a circuit. Some run of it reaches the property within k frames, or breaks the step of an induction, exactly
/// where a run of the circuit does. So where no run of the part reaches it, none of the circuit does.
pub fn law_of_read_part()
    ensures circuit { (raw : Raw) (p bad : ℕ) (test : ℕ → Bool) → IsCircuit raw → slice_get raw.bad p ≡ Some bad →
        TestsRead raw bad test → IsCircuit (part raw bad test) }
    ensures reached { (raw : Raw) (p bad k : ℕ) (test : ℕ → Bool) → slice_get raw.bad p ≡ Some bad →
        TestsRead raw bad test → IsReachedWithin raw k p ↔ IsReachedWithin (part raw bad test) k 0 }
    ensures step { (raw : Raw) (p bad k : ℕ) (test : ℕ → Bool) → slice_get raw.bad p ≡ Some bad →
        TestsRead raw bad test → HasBrokenStep raw k p ↔ HasBrokenStep (part raw bad test) k 0 }
    ensures unreachable { (raw : Raw) (p bad : ℕ) (test : ℕ → Bool) → slice_get raw.bad p ≡ Some bad →
        TestsRead raw bad test → IsUnreachable (part raw bad test) 0 → IsUnreachable raw p }
{}
