//! What a formula that no assignment satisfies says of runs. A law is a function that does nothing: its contract is the
//! law.
ghost use Rattle.std.specs.Prelude.{◌≡◌, ◌↔◌, ℕ, ◌<◌, Contains, List, Some, length, slice_get};
ghost use Rattle.aig_parts.specs.declared.raw.Raw.{Raw};
ghost use Rattle.aig_parts.specs.declared.ternary.Tern.{Tern};
ghost use Rattle.aig_parts.specs.declared.ternary.Tern.TheVariants.{One};
ghost use Rattle.aig_base.specs.Circuit.{IsCircuit};
ghost use Rattle.aig_base.specs.Value.{Fits, Value};
ghost use Rattle.aig_cnf.specs.Alive.{IsAliveFormulaOf};
ghost use Rattle.aig_cnf.specs.Formula.{Cnf, IsFormulaOf};
ghost use Rattle.aig_certificate.specs.Extension.{IsExtension};
ghost use Rattle.aig_certificate.specs.Strengthened.{IsStrengthened};
ghost use Rattle.aig_cnf.specs.Query.{induction, step, within};
ghost use Rattle.aig_sat.specs.checker.Consequence.{IsUnsatisfiable};
ghost use Rattle.aig_refute.specs.Unreachable.{HasNoRun, IsUnreachable, IsUnreachableWithin};

/// Where no assignment satisfies the formula that a bad state property is reached within k frames, no run from a start
/// that the resets allow reaches it within them.
pub fn law_of_refutation()
    ensures { (raw : Raw) (formula : Cnf) (k p : ℕ) → IsCircuit raw → IsFormulaOf raw (within k p) formula →
        IsUnsatisfiable formula.clauses → IsUnreachableWithin raw k p }
{}

/// Where no assignment satisfies that formula, and none satisfies the one of the step of k frames, no run of any length
/// from a start that the resets allow reaches the property (k-induction). In the step, a run of k + 1 frames from any
/// state reaches the property at its last frame and at none before.
pub fn law_of_induction()
    ensures { (raw : Raw) (base later : Cnf) (k p : ℕ) → IsCircuit raw →
        IsFormulaOf raw (within k p) base → IsFormulaOf raw (step k p) later →
        IsUnsatisfiable base.clauses → IsUnsatisfiable later.clauses → IsUnreachable raw p }
{}

/// Where no assignment satisfies the formula of an induction over k frames, no run of any length from a start that the
/// resets allow reaches the property. It is one formula in place of the two of `law_of_induction`.
pub fn law_of_one_formula()
    ensures { (raw : Raw) (formula : Cnf) (k p : ℕ) → IsCircuit raw → IsFormulaOf raw (induction k p) formula →
        IsUnsatisfiable formula.clauses → IsUnreachable raw p }
{}

/// Where no run of a circuit reaches its one bad state property, none reaches a property of the circuit that it
/// extends: each run of that one is a run of the extension, with further inputs and latches.
pub fn law_of_extension()
    ensures { (raw x : Raw) (p b : ℕ) → IsCircuit x → slice_get raw.bad p ≡ Some b → IsExtension raw x b →
        IsUnreachable x 0 → IsUnreachable raw p }
{}

/// Where no run of a circuit that is strengthened by a certificate reaches its one bad state property, none of the model
/// reaches the property that it was strengthened for, whatever the certificate claims.
pub fn law_of_strengthening()
    ensures { (raw certificate x : Raw) (p : ℕ) → IsCircuit x → IsStrengthened raw p certificate x →
        IsUnreachable x 0 → IsUnreachable raw p }
{}

/// The bad state property of a strengthened circuit is 1 at a frame exactly where one of its parts is, the outputs: the
/// property of the model, or a claim of the certificate that is broken.
pub fn law_of_parts()
    ensures { (raw certificate x : Raw) (p bad t : ℕ) (start : List Tern) (rows : List (List Tern)) →
        IsCircuit x → IsStrengthened raw p certificate x → slice_get x.bad 0 ≡ Some bad →
        Fits x start rows → t < length rows →
        Value x start rows t bad One ↔ ((part : ℕ) × Contains x.outputs part × Value x start rows t part One) }
{}

/// Where no assignment satisfies the formula of `Formula::alive` over k frames, no run from a start that the resets
/// allow keeps all constraints at its first k frames, whatever values are unknown.
pub fn law_of_alive()
    ensures { (raw : Raw) (formula : Cnf) (k : ℕ) → IsCircuit raw → 0 < k → IsAliveFormulaOf raw k formula →
        IsUnsatisfiable formula.clauses → HasNoRun raw k }
{}
