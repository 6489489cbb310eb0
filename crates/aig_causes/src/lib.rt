//! Causes: which inputs and latches make a literal of a run what it is at a frame.
#![tactic(auto)]

mod asked;
mod causes;
mod explainer;
mod explanation;
mod kept;
mod latch_set;
mod latches;
mod line;
mod line_laws;
mod sides;
mod values;
mod visited;
mod walker;
mod weights;

pub use causes::Causes;
pub use explainer::Explainer;
pub use explanation::Explanation;
pub use line::Line;
pub use line_laws::{law_of_explanations, law_of_lines};
