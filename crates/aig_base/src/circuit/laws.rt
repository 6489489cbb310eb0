//! What holds of all circuits. Each law is a function that does nothing: its contract is the law.
ghost use Rattle.std.specs.Prelude.{◌≡◌, ℕ, List};
ghost use Rattle.aig_parts.specs.declared.raw.Raw.{Raw};
ghost use Rattle.aig_parts.specs.declared.ternary.Tern.{Tern};
ghost use Rattle.aig_base.specs.Completion.{IsCompletion};
ghost use Rattle.aig_base.specs.Grounded.{IsAcyclic, Grounded, Level};
ghost use Rattle.aig_base.specs.Laws.{KnownValuesStay, HasNoFault};
ghost use Rattle.aig_base.specs.Order.{IsCanonicalOrder};
ghost use Rattle.aig_base.specs.Sound.{IsSound};
ghost use Rattle.aig_base.specs.Value.{Fits, HaveOneValue};

/// In sound and acyclic parts, with a start value for each latch and rows with a value for each input, each defined
/// literal has exactly one value at each frame that has a row (AIGER 1.0 and 1.9, semantics).
pub fn law_of_one_value()
    ensures one { (raw : Raw) (start : List Tern) (rows : List (List Tern)) →
        IsSound raw → IsAcyclic raw → Fits raw start rows → HaveOneValue raw start rows }
{}

/// A value that is not x is the value under every completion: whatever the x of the start and the rows turn out to be,
/// it stays (our own choice). It holds of any parts, sound or not.
pub fn law_of_completion()
    ensures stays { (raw : Raw) (start start' : List Tern) (rows rows' : List (List Tern)) →
        IsCompletion start rows start' rows' → KnownValuesStay raw start rows start' rows' }
{}

/// A variable has a level exactly where it is grounded. In sound parts it has one level, and there is at most one
/// canonical order of the gates (our own choice).
pub fn law_of_levels()
    ensures level { (raw : Raw) (v : ℕ) → Grounded raw v → (n : ℕ) × Level raw v n }
    ensures grounded { (raw : Raw) (v n : ℕ) → Level raw v n → Grounded raw v }
    ensures one { (raw : Raw) (v m n : ℕ) → IsSound raw → Level raw v m → Level raw v n → m ≡ n }
    ensures order { (raw : Raw) (a b : List ℕ) →
        IsSound raw → IsCanonicalOrder raw a → IsCanonicalOrder raw b → a ≡ b }
{}

/// Sound and acyclic parts have no fault, and parts that have none are sound and acyclic (our own choice).
pub fn law_of_faults()
    ensures circuit { (raw : Raw) → IsSound raw → IsAcyclic raw → HasNoFault raw }
    ensures sound { (raw : Raw) → HasNoFault raw → IsSound raw }
    ensures acyclic { (raw : Raw) → HasNoFault raw → IsAcyclic raw }
{}
