//! How many looks the steps on a first literal may take, all steps of a proof together. Without a limit a few bytes could
//! take as long as the square of the formula. Nothing is proved of it: a step without looks left is refused.
use aig_parts::Lit;

/// The looks that there are at first.
const AT_FIRST: u64 = 1 << 24;

/// The looks that a clause of the formula gives beside those of its literals: one for each other word of it.
const FOR_A_CLAUSE: u64 = 3;

/// The looks that each literal and each hint of a step gives.
const FOR_A_LITERAL: u64 = 256;

/// The looks that are left.
#[derive(Drop)]
pub(crate) struct Credit {
    pub(crate) looks: u64,
}

impl Credit {
    /// The looks that there are at first.
    pub(crate) fn new() -> Credit {
        Credit { looks: AT_FIRST }
    }

    /// Adds what a clause gives.
    pub(crate) fn add_clause(&mut self, clause: &[Lit]) {
        let words = FOR_A_CLAUSE.saturating_add(clause.len() as u64);
        self.looks = self.looks.saturating_add(words);
    }

    /// Adds what a step gives.
    pub(crate) fn add_step(&mut self, clause: &[Lit], hints: Option<&[Lit]>) {
        let hints = match hints {
            Some(hints) => hints.len() as u64,
            None => 0,
        };
        let literals = hints.saturating_add(clause.len() as u64);
        let looks = literals.saturating_mul(FOR_A_LITERAL);
        self.looks = self.looks.saturating_add(looks);
    }
}
