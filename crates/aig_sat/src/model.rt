//! The text of a solver's model, and the values that it gives to variables. It knows no circuit.

mod assignment;
mod fault;
mod law;
mod number;
mod place;
mod progress;
mod reader;

pub use assignment::Assignment;
pub use fault::ModelFault;
pub use law::law_of_model_text;
pub use reader::{Phase, read_model};
