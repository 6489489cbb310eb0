//! Counts that contracts alone see.
ghost use Rattle.std.specs.Prelude.{◌≡◌, ℕ, ◌+◌};
ghost use Rattle.std.specs.Borrow.{ftrue};

use std::marker::Model;

/// A whole number without bound, as of calls that failed or of gates that were evaluated. It takes no bytes.
#[derive(Drop)]
pub struct Count {
    pub ghost number: { ℕ },
}

impl Model for Count {
    ghost also_owns = { λ _. ftrue };
}

impl Count {
    /// The count at the beginning.
    pub fn zero() -> Count
        ensures { result.number ≡ 0 }
    {
        Count {}
    }

    /// The count after one more.
    pub fn one_more(_before: &Count) -> Count
        ensures { result.number ≡ _before.now.number + 1 }
    {
        Count {}
    }
}
