//! The sides by which a gate has its value.
ghost use Rattle.aig_parts.specs.declared.gate.Gate.{Gate};
ghost use Rattle.aig_parts.specs.Ternary.{kleene_and};
ghost use Rattle.aig_causes.specs.state.Walk.{IsSide, Needs};

use aig_base::Tern;

/// Sides of a gate.
#[derive(Clone, Copy, PartialEq, Eq, Debug)]
pub enum Sides {
    /// The first side.
    First,
    /// The second side.
    Second,
    /// Both.
    Both,
}

/// The sides by which a gate with these sides' values has its own: both where it is 1, one that is 0 where it is 0, and
/// each that is x where it is x. Where both are 0 it is the chosen one.
pub fn sides_of(first: Tern, second: Tern, chosen: Sides) -> Sides
    ensures { (g : Gate) → Needs (IsSide g result) g first second (kleene_and first second) }
{
    match first {
        Tern::Zero => match second {
            Tern::Zero => chosen,
            Tern::One => Sides::First,
            Tern::X => Sides::First,
        },
        Tern::One => match second {
            Tern::Zero => Sides::Second,
            Tern::One => Sides::Both,
            Tern::X => Sides::Second,
        },
        Tern::X => match second {
            Tern::Zero => Sides::Second,
            Tern::One => Sides::First,
            Tern::X => Sides::Both,
        },
    }
}
