//! What a witness shows. Where the standard is silent, the order of the verdicts is our own choice.

/// What a witness shows of a circuit: the first that applies. Positions and frames count from 0.
#[derive(Clone, Copy, PartialEq, Eq, Debug)]
pub enum Verdict {
    /// The latch at this position starts at a value that its reset does not allow.
    Initial(u32),
    /// At this frame the constraint at this position is not 1.
    Constraint(u32, u32),
    /// The property is not 1 at the last frame.
    NotBad,
    /// The run reaches the bad state, whatever the x of the witness turn out to be.
    Confirmed,
}
