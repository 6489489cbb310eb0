//! A copy of levels that a rewire keeps current.
ghost use Rattle.std.specs.Prelude.{◌≡◌, ℕ, ◌<◌, ◌≤◌, List, length, slice_set};
ghost use Rattle.aig_parts.specs.Formed.{limit};

/// Something that keeps a copy of a circuit's levels. `Levels::rewire_with` reports each level that it changes to it.
pub trait LevelCopy {
    /// The copy has these levels.
    ghost has: { Self → List ℕ → Type 0 };

    /// What is kept besides the copy.
    ghost Rest: { Type 0 };

    /// What else there is.
    ghost rest: { Self → Rest };

    /// Replaces the level of a variable.
    fn set_level(&mut self, variable: u32, level: u32)
        requires copy { (levels : List ℕ) × has self.old levels × (variable < length levels) }
        requires level { level ≤ limit }
        ensures copy { (levels : List ℕ) → has self.old levels → has self.new (slice_set levels variable level) }
        ensures rest { rest self.new ≡ rest self.old };
}

/// Keeps no copy of the levels.
#[derive(Drop)]
pub(crate) struct NoCopy;

impl LevelCopy for NoCopy {
    ghost has = { λ c levels. Unit {0} };

    ghost Rest = { Unit {0} };

    ghost rest = { λ c. tt };

    fn set_level(&mut self, _variable: u32, _level: u32) {}
}
