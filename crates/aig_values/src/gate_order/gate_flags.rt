//! Gate flags that contracts alone see.
ghost use Rattle.std.specs.Prelude.{◌≡◌, ◌∷◌, ◌++◌, [], Bool, true, List};
ghost use Rattle.std.specs.Borrow.{ftrue};

use std::marker::Model;

/// Which variables are gates, in the circuit that a grid was made for. It takes no bytes.
#[derive(Drop)]
pub struct GateFlags {
    pub ghost flags: { List Bool },
}

impl Model for GateFlags {
    ghost also_owns = { λ _. ftrue };
}

impl GateFlags {
    /// The flags of a slice.
    pub fn of(_gates: &[bool]) -> GateFlags
        ensures { result.flags ≡ _gates.now }
    {
        GateFlags {}
    }

    /// The flags with one more variable, which is a gate.
    pub fn one_more(_before: &GateFlags) -> GateFlags
        ensures { result.flags ≡ _before.now.flags ++ true ∷ [] }
    {
        GateFlags {}
    }
}
