//! What holds of lines frame by frame. A law is a function that does nothing: its contract is the law.
ghost use Rattle.std.specs.Prelude.{ℕ, List, [], All};
ghost use Rattle.aig_parts.specs.declared.raw.Raw.{Raw};
ghost use Rattle.aig_base.specs.Circuit.{IsCircuit};
ghost use Rattle.aig_causes.specs.Causes.{Explain, Moment, Sources};
ghost use Rattle.aig_causes.specs.Explanation.{ComesDown, LineState, inputs_after, named_at};
ghost use Rattle.aig_causes.specs.Lines.{ExplainTogether, GoesDown};

/// What explains a literal at the last frame explains it there together. One frame further down, what explains each
/// latch that is named explains all, together with the inputs that were named so far (our own choice).
pub fn law_of_lines()
    ensures last { (raw : Raw) (m : Moment) (sources : Sources) (l : ℕ) →
        Explain raw m sources l → ExplainTogether raw m sources [] l }
    ensures down { (raw : Raw) → IsCircuit raw → GoesDown raw }
{}

/// All lines together: what an explanation names at the frame that it has come down to explains each literal that was
/// asked for, together with the inputs that it names at the frames after it (our own choice).
pub fn law_of_explanations()
    ensures { (raw : Raw) (literals : List ℕ) (asked : Sources) (m : Moment) (frames : List (List LineState)) →
        IsCircuit raw → ComesDown raw literals asked m frames →
        All (ExplainTogether raw m (named_at asked frames) (inputs_after asked frames)) literals }
{}
