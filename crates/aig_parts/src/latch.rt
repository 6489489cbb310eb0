//! Latches.
use crate::literal::Lit;

/// A latch: at frame 0 it is `reset`, afterwards what `next` was a frame before. A reset is 0, 1, or `lit` itself,
/// which means uninitialised (AIGER 1.9, resets).
#[derive(Clone, Copy, PartialEq, Eq, Debug)]
pub struct Latch {
    pub lit: Lit,
    pub next: Lit,
    pub reset: Lit,
}
