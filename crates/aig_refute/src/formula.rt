//! From an assignment that satisfies a formula to a run, and back. Each law is a function that does nothing: its
//! contract is the law. The formulas are our own choice.
ghost use Rattle.std.specs.Prelude.{◌≡◌, ◌↔◌, ◌⊎◌, ℕ, ◌-◌, ◌<◌, Bool, List, length};
ghost use Rattle.aig_parts.specs.declared.raw.Raw.{Raw};
ghost use Rattle.aig_parts.specs.declared.ternary.Tern.{Tern};
ghost use Rattle.aig_base.specs.Circuit.{IsCircuit};
ghost use Rattle.aig_base.specs.Order.{IsCanonicalOrder};
ghost use Rattle.aig_cnf.specs.Alive.{IsAliveFormulaOf};
ghost use Rattle.aig_cnf.specs.Formula.{Cnf, IsFormulaOf, formula_of};
ghost use Rattle.aig_cnf.specs.Query.{from_any_state, induction, last, step, within};
ghost use Rattle.aig_sat.specs.checker.Clause.{Satisfies};
ghost use Rattle.aig_sim.specs.WitnessText.{Witness};
ghost use Rattle.aig_refute.specs.Models.{AreKnown, IsInModel, NamesWitness};
ghost use Rattle.aig_refute.specs.Satisfiable.{HasKnownWitness, HasRun, IsKnownWitness, IsNamedWitness, IsReachedAt};
ghost use Rattle.aig_refute.specs.Satisfiable.{IsReachedWithin};
ghost use Rattle.aig_refute.specs.Satisfiable.{BreaksStep, DisprovesInduction, HasBrokenStep, IsNamedInduction};
ghost use Rattle.aig_refute.specs.Satisfiable.{IsNamedStep, IsSatisfiable, step_rows, step_start};
ghost use Rattle.aig_refute.specs.UnrolledWitness.{MakesBad};
ghost use Rattle.aig_unroll.specs.FrameLiteral.{input_count};

/// Some assignment satisfies the formula of a bad state within k frames exactly where a run from a start that the
/// resets allow reaches it within them, and exactly where there is a confirmed witness of at most k frames without
/// unknown values. Each assignment that satisfies the formula names such a witness: its start and rows, up to some
/// frame. Each such witness is named by one. Each row of known input values that makes the bad literal of a frame 1 is
/// in an assignment that satisfies the formula.
pub fn law_of_formula()
    ensures reached { (raw : Raw) (formula : Cnf) (k p : ℕ) →
        IsCircuit raw → IsFormulaOf raw (within k p) formula → p < length raw.bad →
        IsSatisfiable formula.clauses ↔ IsReachedWithin raw k p }
    ensures witnessed { (raw : Raw) (formula : Cnf) (k p : ℕ) →
        IsCircuit raw → IsFormulaOf raw (within k p) formula → p < length raw.bad →
        IsSatisfiable formula.clauses ↔ HasKnownWitness raw k p }
    ensures model { (raw : Raw) (order : List ℕ) (k p : ℕ) (values : ℕ → Bool) →
        IsCircuit raw → IsCanonicalOrder raw order → p < length raw.bad →
        Satisfies values (formula_of raw order (within k p)).clauses → NamesWitness raw k p values }
    ensures each { (raw : Raw) (order : List ℕ) (k p : ℕ) (w : Witness) →
        IsCircuit raw → IsCanonicalOrder raw order → IsKnownWitness raw k p w → IsNamedWitness raw order k w }
    ensures complete { (raw : Raw) (order : List ℕ) (k t p : ℕ) (row : List Tern) →
        IsCircuit raw → IsCanonicalOrder raw order → t < k → p < length raw.bad → length row ≡ input_count raw k →
        AreKnown row → MakesBad raw order k row t p → IsInModel raw order k p row }
{}

/// Some assignment satisfies the formula of a bad state at the last of k frames exactly where a run from a start that
/// the resets allow reaches it there. So some assignment satisfies the formula of `Formula::alive` exactly where such a
/// run keeps all constraints at k frames.
pub fn law_of_last()
    ensures reached { (raw : Raw) (formula : Cnf) (k p : ℕ) →
        IsCircuit raw → IsFormulaOf raw (last k p) formula → 0 < k → p < length raw.bad →
        IsSatisfiable formula.clauses ↔ IsReachedAt raw (k - 1) p }
    ensures alive { (raw : Raw) (formula : Cnf) (k : ℕ) →
        IsCircuit raw → IsAliveFormulaOf raw k formula → 0 < k →
        IsSatisfiable formula.clauses ↔ HasRun raw k }
{}

/// Some assignment satisfies the formula of the step of k frames exactly where a run of k + 1 frames from any state,
/// without unknown values, reaches the bad state at frame k and at no frame before. Each assignment that satisfies it
/// names such a run, its start and its rows, and each such run is named by one.
pub fn law_of_step()
    ensures reached { (raw : Raw) (formula : Cnf) (k p : ℕ) →
        IsCircuit raw → IsFormulaOf raw (step k p) formula → p < length raw.bad →
        IsSatisfiable formula.clauses ↔ HasBrokenStep raw k p }
    ensures model { (raw : Raw) (order : List ℕ) (k p : ℕ) (values : ℕ → Bool) →
        IsCircuit raw → IsCanonicalOrder (from_any_state raw) order → p < length raw.bad →
        Satisfies values (formula_of raw order (step k p)).clauses →
        BreaksStep raw k p (step_start raw k values) (step_rows raw k values) }
    ensures each { (raw : Raw) (order : List ℕ) (k p : ℕ) (start : List Tern) (rows : List (List Tern)) →
        IsCircuit raw → IsCanonicalOrder (from_any_state raw) order → BreaksStep raw k p start rows →
        IsNamedStep raw order k p start rows }
{}

/// Some assignment satisfies the formula of an induction over k frames exactly where a run from a start that the resets
/// allow reaches the bad state within them, or a run breaks the step. Each assignment that satisfies it names such a
/// run of k + 1 frames, its start and its rows, and each such run without unknown values is named by one.
pub fn law_of_induction_formula()
    ensures reached { (raw : Raw) (formula : Cnf) (k p : ℕ) →
        IsCircuit raw → IsFormulaOf raw (induction k p) formula → p < length raw.bad →
        IsSatisfiable formula.clauses ↔ (IsReachedWithin raw k p ⊎ HasBrokenStep raw k p) }
    ensures model { (raw : Raw) (order : List ℕ) (k p : ℕ) (values : ℕ → Bool) →
        IsCircuit raw → IsCanonicalOrder (from_any_state raw) order → p < length raw.bad →
        Satisfies values (formula_of raw order (induction k p)).clauses →
        DisprovesInduction raw k p (step_start raw k values) (step_rows raw k values) }
    ensures each { (raw : Raw) (order : List ℕ) (k p : ℕ) (start : List Tern) (rows : List (List Tern)) →
        IsCircuit raw → IsCanonicalOrder (from_any_state raw) order → DisprovesInduction raw k p start rows →
        IsNamedInduction raw order k p start rows }
{}
