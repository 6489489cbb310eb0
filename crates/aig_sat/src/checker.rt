//! Checking refutations of formulas by reverse unit propagation.

mod checker;
mod clauses;
mod credit;
mod finder;
mod first;
mod hints;
mod ids;
mod known;
mod marks;
mod places;
mod propagator;
mod refutation;
mod walk;
mod watches;

pub use refutation::Refutation;
