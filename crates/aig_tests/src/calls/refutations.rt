//! Steps on variables that a formula does not have. A proof that is read names none.
use aig_base::Lit;
use aig_sat::Refutation;
use std::alloc::Global;

// Whether a step follows from clauses of two literals, in a formula of two variables.
fn follows(alloc: Global, clauses: &[[u32; 2]], step: [u32; 2]) -> Option<bool> {
    let mut formula = Refutation::new(alloc, 2).ok()?;
    for [first, second] in clauses {
        formula
            .add_clause(&[Lit::new(*first), Lit::new(*second)])
            .ok()?;
    }
    let [first, second] = step;
    formula
        .add_step(&[Lit::new(first), Lit::new(second)], None)
        .ok()
}

/// A variable that the formula does not have, as number 2 here, is never found to be true.
pub fn know_no_other(alloc: Global) -> bool {
    follows(alloc, &[[4, 4]], [4, 4]) == Some(false)
        && follows(alloc, &[[4, 0], [5, 0]], [0, 0]) == Some(false)
        && follows(alloc, &[[0, 0], [1, 1]], [2, 4]) == Some(true)
}
