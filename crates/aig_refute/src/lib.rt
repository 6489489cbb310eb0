//! The check of a solver's proof that no assignment satisfies a formula, step by step, and what that says of runs: bad
//! states that none reaches.
#![tactic(auto)]

mod conversion;
mod cut;
mod formula;
mod laws;
mod partial_models;
mod proof;
mod read_formula;
mod read_part;
mod selection;
mod unrolled_witnesses;

pub use conversion::law_of_conversion;
pub use cut::law_of_cut;
pub use formula::{law_of_formula, law_of_induction_formula, law_of_last, law_of_step};
pub use laws::{
    law_of_alive, law_of_extension, law_of_induction, law_of_one_formula, law_of_parts,
    law_of_refutation, law_of_strengthening,
};
pub use partial_models::law_of_partial_models;
pub use proof::check;
pub use read_formula::{law_of_read_formula, law_of_read_models, law_of_read_refutation};
pub use read_part::law_of_read_part;
pub use selection::law_of_selection;
pub use unrolled_witnesses::{law_of_reached, law_of_unrolled_rows, law_of_unrolled_witnesses};
