//! What the standard streams of a run are.

/// Which of the standard streams are terminals.
#[derive(Clone, Copy)]
pub struct Terminals {
    /// Standard input, where a person types.
    pub input: bool,
    /// Standard output.
    pub output: bool,
}
