//! What conversion keeps. A law is a function that does nothing: its contract is the law. Where the standard is silent,
//! unknown values are our own choice.
ghost use Rattle.std.specs.Prelude.{◌≢◌, ℕ, List, []};
ghost use Rattle.aig_parts.specs.declared.raw.Raw.{Raw};
ghost use Rattle.aig_parts.specs.declared.ternary.Tern.{Tern};
ghost use Rattle.aig_base.specs.Circuit.{IsCircuit};
ghost use Rattle.aig_base.specs.Order.{IsCanonicalOrder};
ghost use Rattle.aig_base.specs.Renumbered.{renumbered};
ghost use Rattle.aig_base.specs.Value.{Fits};
ghost use Rattle.aig_sim.specs.WitnessText.{Witness};
ghost use Rattle.aig_refute.specs.Unreachable.{IsUnreachable, IsUnreachableWithin};
ghost use Rattle.aig_refute.specs.Conversion.{HaveSameTraces, HaveSameDumps, HaveSameWitnesses, HaveSameVerdicts};

/// A renumbered circuit has the traces and the dumps of the circuit, from any start and with any rows that fit. It has
/// the same witnesses, those with unknown values included, and each has the same verdict.
/// `law_of_renumbering` says that its start by resets is the circuit's.
pub fn law_of_conversion()
    ensures traces { (raw : Raw) (order : List ℕ) (start : List Tern) (rows : List (List Tern)) →
        IsCircuit raw → IsCanonicalOrder raw order → Fits raw start rows →
        HaveSameTraces raw (renumbered raw order) start rows }
    ensures dumps { (raw : Raw) (order : List ℕ) (start : List Tern) (rows : List (List Tern)) →
        IsCircuit raw → IsCanonicalOrder raw order → Fits raw start rows →
        HaveSameDumps raw (renumbered raw order) start rows }
    ensures witnesses { (raw : Raw) (order : List ℕ) → HaveSameWitnesses raw (renumbered raw order) }
    ensures verdicts { (raw : Raw) (order : List ℕ) (w : Witness) →
        IsCircuit raw → IsCanonicalOrder raw order → Fits raw w.start w.rows → w.rows ≢ [] →
        HaveSameVerdicts raw (renumbered raw order) w }
    ensures within { (raw : Raw) (order : List ℕ) (k p : ℕ) → IsCircuit raw → IsCanonicalOrder raw order →
        IsUnreachableWithin (renumbered raw order) k p → IsUnreachableWithin raw k p }
    ensures unreachable { (raw : Raw) (order : List ℕ) (p : ℕ) → IsCircuit raw → IsCanonicalOrder raw order →
        IsUnreachable (renumbered raw order) p → IsUnreachable raw p }
{}
