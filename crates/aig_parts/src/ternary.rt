//! Values of a simulation.
ghost use Rattle.std.specs.Prelude.{◌≡◌};
ghost use Rattle.aig_parts.specs.Ternary.{kleene_and, kleene_not};

/// 0, 1 or unknown, with Kleene's tables (AIGER 1.9, resets; our own choice).
#[derive(Clone, Copy, PartialEq, Eq, Debug)]
pub enum Tern {
    Zero,
    One,
    X,
}

impl Tern {
    /// 0 if either side is 0, 1 if both are 1, else x. Nothing is folded: `x AND NOT x` is x.
    pub fn and(self, other: Tern) -> Tern
        ensures { result ≡ kleene_and self other }
    {
        // Both sides are looked at, so that no jump depends on values.
        let has_zero = matches!(self, Tern::Zero) | matches!(other, Tern::Zero);
        let are_ones = matches!(self, Tern::One) & matches!(other, Tern::One);
        if has_zero {
            Tern::Zero
        } else if are_ones {
            Tern::One
        } else {
            Tern::X
        }
    }

    /// 0 and 1 change places, x stays.
    pub fn not(self) -> Tern
        ensures { result ≡ kleene_not self }
    {
        match self {
            Tern::Zero => Tern::One,
            Tern::One => Tern::Zero,
            Tern::X => Tern::X,
        }
    }
}
