//! From input values of an unrolled circuit to a witness, and back. Each law is a function that does nothing: its
//! contract is the law. Where the standard is silent, unrolling is our own choice.
ghost use Rattle.std.specs.Prelude.{◌≡◌, ℕ, ◌≤◌, List, length};
ghost use Rattle.aig_parts.specs.Limits.{frame_limit};
ghost use Rattle.aig_parts.specs.declared.raw.Raw.{Raw};
ghost use Rattle.aig_parts.specs.declared.ternary.Tern.{Tern};
ghost use Rattle.aig_base.specs.Circuit.{IsCircuit};
ghost use Rattle.aig_base.specs.Order.{IsCanonicalOrder};
ghost use Rattle.aig_sim.specs.WitnessText.{Witness};
ghost use Rattle.aig_unroll.specs.FrameLiteral.{input_count};
ghost use Rattle.aig_unroll.specs.UnrolledValues.{unrolled_row};
ghost use Rattle.aig_refute.specs.UnrolledWitness.{rows_in, start_in, IsRun, HoldsRun, ConfirmsReached};
ghost use Rattle.aig_refute.specs.UnrolledWitness.{ReachesInRow, ConfirmsRow, ChecksRow, IsConfirmedWithin, IsInRow};

/// In a run from a start that the resets allow, a bad literal is reached at a frame exactly where the frames up to that
/// one are a witness whose verdict is confirmed. It is reached where it is 1 and all constraints are 1 up to there.
pub fn law_of_reached()
    ensures confirmed { (raw : Raw) (k : ℕ) (start : List Tern) (rows : List (List Tern)) →
        IsCircuit raw → IsRun raw k start rows → ConfirmsReached raw start rows }
{}

/// A row with a value for each input of a circuit unrolled for k frames is the row of one run of k frames from a start
/// that the resets allow. Each such run has one such row.
pub fn law_of_unrolled_rows()
    ensures run { (raw : Raw) (k : ℕ) (row : List Tern) → length row ≡ input_count raw k →
        IsRun raw k (start_in raw k row) (rows_in raw k row) }
    ensures row { (raw : Raw) (k : ℕ) (row : List Tern) → length row ≡ input_count raw k →
        HoldsRun raw k row (start_in raw k row) (rows_in raw k row) }
    ensures width { (raw : Raw) (k : ℕ) (start : List Tern) (rows : List (List Tern)) → IsRun raw k start rows →
        length (unrolled_row raw start rows) ≡ input_count raw k }
    ensures back { (raw : Raw) (k : ℕ) (start : List Tern) (rows : List (List Tern)) → IsRun raw k start rows →
        HoldsRun raw k (unrolled_row raw start rows) start rows }
{}

/// A row makes bad literal p of frame t of the unrolled circuit 1 exactly where the run that is in the row reaches the
/// property at frame t. Then bad literal p is 1 there, and all constraints are 1 up to it. That is exactly where the
/// witness in the row, the frames up to t, is confirmed. `check_witness` confirms a text of this witness, unless memory
/// runs out. Each confirmed witness of at most k frames is in such a row.
pub fn law_of_unrolled_witnesses()
    ensures reached { (raw : Raw) (order : List ℕ) (k : ℕ) (row : List Tern) →
        IsCircuit raw → IsCanonicalOrder raw order → length row ≡ input_count raw k → ReachesInRow raw order k row }
    ensures confirmed { (raw : Raw) (order : List ℕ) (k : ℕ) (row : List Tern) →
        IsCircuit raw → IsCanonicalOrder raw order → length row ≡ input_count raw k → ConfirmsRow raw order k row }
    ensures checked { (raw : Raw) (order : List ℕ) (k : ℕ) (row : List Tern) →
        IsCircuit raw → IsCanonicalOrder raw order → length row ≡ input_count raw k → k ≤ frame_limit →
        ChecksRow raw order k row }
    ensures each { (raw : Raw) (order : List ℕ) (k : ℕ) (w : Witness) →
        IsCircuit raw → IsCanonicalOrder raw order → IsConfirmedWithin raw k w → IsInRow raw order k w }
{}
