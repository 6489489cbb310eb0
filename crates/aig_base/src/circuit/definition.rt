//! What defines a variable.

/// The place that defines a variable: a position in the inputs, the latches or the gates, counted from 0.
#[derive(Clone, Copy, PartialEq, Eq)]
pub enum Definition {
    Input(u32),
    Latch(u32),
    Gate(u32),
}
