//! What holds of all unrolled circuits. Each law is a function that does nothing: its contract is the law. Where the
//! standard is silent, the unrolled circuit and its map are our own choice.
ghost use Rattle.std.specs.Prelude.{ℕ, List};
ghost use Rattle.aig_parts.specs.declared.raw.Raw.{Raw};
ghost use Rattle.aig_parts.specs.declared.ternary.Tern.{Tern};
ghost use Rattle.aig_base.specs.Circuit.{IsCircuit};
ghost use Rattle.aig_base.specs.Order.{IsCanonicalOrder};
ghost use Rattle.aig_base.specs.Runs.{IsAllowed};
ghost use Rattle.aig_base.specs.Value.{Fits};
ghost use Rattle.aig_unroll.specs.InputMap.{ReportsInputs};
ghost use Rattle.aig_unroll.specs.Unrolled.{unrolled};
ghost use Rattle.aig_unroll.specs.UnrolledValues.{UnrollingKeepsValues, UnrollingAddsNoValues, GuardsBad};

/// From every start that the resets allow, and for any rows, a literal's frame literal has the value that the literal
/// has at its frame, and no other. The circuit is unrolled for as many frames as there are rows, and then has one row.
/// An uninitialised latch may start with any of the three values. The one row is the rows in turn, and then the initial
/// values of the uninitialised latches in order.
pub fn law_of_frame_literals()
    ensures values { (raw : Raw) (order : List ℕ) (start : List Tern) (rows : List (List Tern)) →
        IsCircuit raw → IsCanonicalOrder raw order → Fits raw start rows → IsAllowed raw start →
        UnrollingKeepsValues raw order start rows }
    ensures no_other { (raw : Raw) (order : List ℕ) (start : List Tern) (rows : List (List Tern)) →
        IsCircuit raw → IsCanonicalOrder raw order → Fits raw start rows → IsAllowed raw start →
        UnrollingAddsNoValues raw order start rows }
{}

/// A bad literal of a frame of the unrolled circuit is 1 exactly where the bad literal is 1 at that frame and every
/// constraint is 1 at every frame up to it. It is 0 exactly where one of these values is 0. Else it is x. This is so
/// for the starts and rows of `law_of_frame_literals`, and for each bad literal at its place in the bad section.
pub fn law_of_guards()
    ensures { (raw : Raw) (order : List ℕ) (start : List Tern) (rows : List (List Tern)) →
        IsCircuit raw → IsCanonicalOrder raw order → Fits raw start rows → IsAllowed raw start →
        GuardsBad raw order start rows }
{}

/// The inputs of a circuit unrolled for some frames are, in order, the frame literals of the inputs at the frames and
/// those of the uninitialised latches at frame 0 that the lines of its map name.
pub fn law_of_input_map()
    ensures { (raw : Raw) (order : List ℕ) (frames : ℕ) → IsCircuit raw → IsCanonicalOrder raw order →
        ReportsInputs raw order frames (unrolled raw order frames).inputs }
{}
