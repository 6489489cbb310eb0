//! Why nothing is explained.
use thiserror::Error;

/// Why no value of a run is explained.
#[derive(Clone, Copy, PartialEq, Eq, Debug, Error)]
pub enum WhyFault {
    /// Nothing has the name, and it is the number of no literal.
    #[error("name")]
    Name,
    /// The run has no such frame.
    #[error("frame")]
    Frame,
}
