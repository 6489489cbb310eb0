//! What a step of a proof does.

/// What a step of a proof does with its clause.
#[derive(Clone, Copy, PartialEq, Eq)]
pub enum StepKind {
    /// It adds the clause, which has to follow from those that stand.
    Add,
    /// It deletes the clause.
    Delete,
}
