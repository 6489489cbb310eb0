//! From a model of the formula that leaves variables open to a run. The law is a function that does nothing: its
//! contract is the law. Where the standard is silent, as about x, this is our own choice.
ghost use Rattle.std.specs.Prelude.{◌≡◌, ℕ, ◌<◌, Bool, List, length};
ghost use Rattle.aig_parts.specs.declared.raw.Raw.{Raw};
ghost use Rattle.aig_parts.specs.declared.ternary.Tern.{Tern};
ghost use Rattle.aig_base.specs.Circuit.{IsCircuit};
ghost use Rattle.aig_base.specs.Order.{IsCanonicalOrder};
ghost use Rattle.aig_cnf.specs.Formula.{formula_of};
ghost use Rattle.aig_cnf.specs.Query.{within};
ghost use Rattle.aig_sat.specs.checker.Clause.{Satisfies};
ghost use Rattle.aig_refute.specs.Models.{values_of};
ghost use Rattle.aig_refute.specs.PartialModels.{IsFilling, NamesRun, SatisfiesInPart, inputs_in};
ghost use Rattle.aig_unroll.specs.FrameLiteral.{input_count};

/// Values, unknown ones included, that make a literal of each clause of the formula of a bad state within k frames 1
/// name a run that reaches it, with x where a value is unknown. So do values whose inputs are those of an assignment
/// that satisfies the formula, whatever the other values are. Each filling of values that make a literal of each clause
/// 1 satisfies the clauses.
pub fn law_of_partial_models()
    ensures partial { (raw : Raw) (order : List ℕ) (k p : ℕ) (values : List Tern) →
        IsCircuit raw → IsCanonicalOrder raw order → p < length raw.bad → input_count raw k < length values →
        SatisfiesInPart values (formula_of raw order (within k p)).clauses → NamesRun raw k p values }
    ensures whole { (raw : Raw) (order : List ℕ) (k p : ℕ) (values : List Tern) (whole : ℕ → Bool) →
        IsCircuit raw → IsCanonicalOrder raw order → p < length raw.bad →
        Satisfies whole (formula_of raw order (within k p)).clauses →
        inputs_in raw k values ≡ values_of raw k whole → NamesRun raw k p values }
    ensures filling { (clauses : List (List ℕ)) (values : List Tern) (whole : ℕ → Bool) →
        IsFilling values whole → SatisfiesInPart values clauses → Satisfies whole clauses }
{}
