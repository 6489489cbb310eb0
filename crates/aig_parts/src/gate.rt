//! Gates.
use crate::literal::Lit;

/// An AND gate: in each frame `lhs` is the AND of the two right sides (AIGER 1.0, ASCII format).
#[derive(Clone, Copy, PartialEq, Eq, Debug)]
pub struct Gate {
    pub lhs: Lit,
    pub rhs0: Lit,
    pub rhs1: Lit,
}
