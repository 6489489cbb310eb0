//! The values that latches begin with.
ghost use Rattle.std.specs.Prelude.{◌≡◌};
ghost use Rattle.aig_base.specs.Value.{reset_value};

use aig_base::{Latch, Tern};

/// The value that a latch begins with by its reset; an uninitialised one begins with x (AIGER 1.9, resets).
pub fn first_value(latch: Latch) -> Tern
    ensures { result ≡ reset_value latch.reset }
{
    match latch.reset.value() {
        0 => Tern::Zero,
        1 => Tern::One,
        _ => Tern::X,
    }
}
