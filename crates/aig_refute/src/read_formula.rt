//! What a formula over the part of a circuit that its property reads says of the circuit. Each law is a function that
//! does nothing: its contract is the law. The formulas, and x where nothing is read, are our own choice.
ghost use Rattle.std.specs.Prelude.{◌≡◌, ◌↔◌, ◌⊎◌, ℕ, ◌-◌, ◌<◌, Bool, List, Some, length, slice_get};
ghost use Rattle.aig_parts.specs.declared.raw.Raw.{Raw};
ghost use Rattle.aig_parts.specs.declared.ternary.Tern.{Tern};
ghost use Rattle.aig_base.specs.Circuit.{IsCircuit};
ghost use Rattle.aig_base.specs.Order.{IsCanonicalOrder};
ghost use Rattle.aig_base.specs.Part.{TestsRead, part};
ghost use Rattle.aig_cnf.specs.Formula.{Cnf, formula_of};
ghost use Rattle.aig_cnf.specs.Query.{from_any_state, induction, last, step, within};
ghost use Rattle.aig_cnf.specs.ReadFormula.{IsReadAliveFormulaOf, IsReadFormulaOf};
ghost use Rattle.aig_sat.specs.checker.Clause.{Satisfies};
ghost use Rattle.aig_sat.specs.checker.Consequence.{IsUnsatisfiable};
ghost use Rattle.aig_refute.specs.Models.{values_of};
ghost use Rattle.aig_refute.specs.PartialModels.{SatisfiesInPart, inputs_in};
ghost use Rattle.aig_refute.specs.Satisfiable.{BreaksStep, DisprovesInduction, HasBrokenStep, HasRun, IsReachedAt};
ghost use Rattle.aig_refute.specs.Satisfiable.{IsReachedWithin, IsSatisfiable};
ghost use Rattle.aig_refute.specs.SpreadRun.{CompletesSpread, NamesSpreadRun};
ghost use Rattle.aig_refute.specs.Unreachable.{HasNoRun, IsUnreachable, IsUnreachableWithin};
ghost use Rattle.aig_unroll.specs.FrameLiteral.{input_count};

/// Some assignment satisfies the formula over the part that a property reads exactly where the whole circuit has a run
/// as the query asks for. It reaches the property within k frames, or at the last of them, or it breaks the step of k
/// frames. For an induction it does the first or the last of these. Or it keeps all constraints at k frames.
pub fn law_of_read_formula()
    ensures within { (raw : Raw) (formula : Cnf) (k p : ℕ) →
        IsCircuit raw → IsReadFormulaOf raw (within k p) formula →
        IsSatisfiable formula.clauses ↔ IsReachedWithin raw k p }
    ensures last { (raw : Raw) (formula : Cnf) (k p : ℕ) →
        IsCircuit raw → IsReadFormulaOf raw (last k p) formula → 0 < k →
        IsSatisfiable formula.clauses ↔ IsReachedAt raw (k - 1) p }
    ensures step { (raw : Raw) (formula : Cnf) (k p : ℕ) →
        IsCircuit raw → IsReadFormulaOf raw (step k p) formula →
        IsSatisfiable formula.clauses ↔ HasBrokenStep raw k p }
    ensures induction { (raw : Raw) (formula : Cnf) (k p : ℕ) →
        IsCircuit raw → IsReadFormulaOf raw (induction k p) formula →
        IsSatisfiable formula.clauses ↔ (IsReachedWithin raw k p ⊎ HasBrokenStep raw k p) }
    ensures alive { (raw : Raw) (formula : Cnf) (k : ℕ) →
        IsCircuit raw → IsReadAliveFormulaOf raw k formula → 0 < k →
        IsSatisfiable formula.clauses ↔ HasRun raw k }
{}

/// Where no assignment satisfies it, the whole circuit has no such run. So the property is unreachable within k frames,
/// or at any frame by an induction, of two formulas or of one. Or no run keeps all constraints at k frames.
pub fn law_of_read_refutation()
    ensures within { (raw : Raw) (formula : Cnf) (k p : ℕ) → IsCircuit raw → IsReadFormulaOf raw (within k p) formula →
        IsUnsatisfiable formula.clauses → IsUnreachableWithin raw k p }
    ensures induction { (raw : Raw) (base later : Cnf) (k p : ℕ) → IsCircuit raw →
        IsReadFormulaOf raw (within k p) base → IsReadFormulaOf raw (step k p) later →
        IsUnsatisfiable base.clauses → IsUnsatisfiable later.clauses → IsUnreachable raw p }
    ensures one_formula { (raw : Raw) (formula : Cnf) (k p : ℕ) → IsCircuit raw →
        IsReadFormulaOf raw (induction k p) formula → IsUnsatisfiable formula.clauses → IsUnreachable raw p }
    ensures alive { (raw : Raw) (formula : Cnf) (k : ℕ) → IsCircuit raw → 0 < k →
        IsReadAliveFormulaOf raw k formula → IsUnsatisfiable formula.clauses → HasNoRun raw k }
{}

/// Values, unknown ones included, that make a literal of each clause within k frames 1 name a run of the whole circuit.
/// It reaches the property. A latch that nothing reads starts by its reset, and an input that nothing reads is x. Values
/// whose inputs are those of an assignment that satisfies the formula name such a run too. An assignment that satisfies
/// the formula of a step names a run that breaks it, whatever 0 or 1 is in place of each x. One that satisfies the
/// formula of an induction names a run that disproves it.
pub fn law_of_read_models()
    ensures partial { (raw : Raw) (k p bad : ℕ) (test : ℕ → Bool) (order : List ℕ) (values : List Tern) →
        IsCircuit raw → slice_get raw.bad p ≡ Some bad → TestsRead raw bad test →
        IsCanonicalOrder (part raw bad test) order →
        SatisfiesInPart values (formula_of (part raw bad test) order (within k 0)).clauses →
        input_count (part raw bad test) k < length values → NamesSpreadRun raw k p bad test values }
    ensures whole { (raw : Raw) (k p bad : ℕ) (test : ℕ → Bool) (order : List ℕ) (values : List Tern)
        (whole : ℕ → Bool) →
        IsCircuit raw → slice_get raw.bad p ≡ Some bad → TestsRead raw bad test →
        IsCanonicalOrder (part raw bad test) order →
        Satisfies whole (formula_of (part raw bad test) order (within k 0)).clauses →
        inputs_in (part raw bad test) k values ≡ values_of (part raw bad test) k whole →
        NamesSpreadRun raw k p bad test values }
    ensures step { (raw : Raw) (k p bad : ℕ) (test : ℕ → Bool) (order : List ℕ) (values : ℕ → Bool)
        (start : List Tern) (rows : List (List Tern)) →
        IsCircuit raw → slice_get raw.bad p ≡ Some bad → TestsRead raw bad test →
        IsCanonicalOrder (from_any_state (part raw bad test)) order →
        Satisfies values (formula_of (part raw bad test) order (step k 0)).clauses →
        CompletesSpread raw k bad test values start rows → BreaksStep raw k p start rows }
    ensures induction { (raw : Raw) (k p bad : ℕ) (test : ℕ → Bool) (order : List ℕ) (values : ℕ → Bool)
        (start : List Tern) (rows : List (List Tern)) →
        IsCircuit raw → slice_get raw.bad p ≡ Some bad → TestsRead raw bad test →
        IsCanonicalOrder (from_any_state (part raw bad test)) order →
        Satisfies values (formula_of (part raw bad test) order (induction k 0)).clauses →
        CompletesSpread raw k bad test values start rows → DisprovesInduction raw k p start rows }
{}
