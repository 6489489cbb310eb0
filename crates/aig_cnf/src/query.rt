//! What is asked of a circuit.

/// What a formula says of a bad state property.
#[derive(Clone, Copy, PartialEq, Eq, Debug)]
pub enum Goal {
    /// A run from a start that the resets allow reaches the property within the frames.
    Within,
    /// A run from a start that the resets allow reaches the property at the last of these frames.
    Last,
    /// A run from any state reaches the property at the frame after these, and at none of them: the step of an
    /// induction over frames.
    Step,
    /// A run disproves an induction over these frames: one from a start that the resets allow reaches the property
    /// within them, or one from any state reaches it at the frame after them and at none of them.
    Induction,
}

/// A question about a bad state property, over some frames.
#[derive(Clone, Copy, PartialEq, Eq, Debug)]
pub struct Query {
    pub goal: Goal,
    /// How many frames: from 1 to 65,536, for an induction and its step to 65,535.
    pub frames: u32,
    /// The position of the property, from 0.
    pub property: u32,
}
