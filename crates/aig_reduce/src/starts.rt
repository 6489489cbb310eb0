//! Latches that a witness may start.
ghost use Rattle.std.specs.Prelude.{◌≡◌, ◌<◌, ◌↔◌, length, Some, slice_get, IsTrue};
ghost use Rattle.aig_parts.specs.declared.latch.Latch.{Latch};

use crate::place::ValuePlace;
use aig_base::Latch;

/// Whether a latch has no reset of 0 or 1.
pub fn is_uninitialised(latch: Latch) -> bool
    ensures { IsTrue result ↔ (1 < latch.reset) }
{
    latch.reset.value() > 1
}

/// Whether a place is the start of a latch with a reset of 0 or 1.
pub fn is_fixed(latches: &[Latch], place: ValuePlace) -> bool
    requires { place.list ≡ 0 → place.position < length latches.now }
    ensures fixed { IsTrue result → (place.list ≡ 0)
        × ((x : Latch) → slice_get latches.now place.position ≡ Some x → 1 < x.reset → ⊥) }
    ensures free { (IsTrue result → ⊥) → place.list ≡ 0
        → (x : Latch) × (slice_get latches.now place.position ≡ Some x) × (1 < x.reset) }
{
    if place.list != 0 {
        return false;
    }
    !is_uninitialised(latches[place.position])
}
