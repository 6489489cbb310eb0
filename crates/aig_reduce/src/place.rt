//! Places of the values of a witness.
ghost use Rattle.std.specs.Prelude.{◌≡◌, ◌-◌, ◌^◌, ◌≤◌, ◌↔◌, IsTrue};
ghost use Rattle.aig_reduce.specs.state.Places.{IsBefore};

use aig_base::Tern;

/// A place of a value: position `position` of the starts, where `list` is 0, or of the inputs of frame `list - 1`.
#[derive(Clone, Copy)]
pub struct ValuePlace {
    pub list: usize,
    pub position: usize,
}

/// A value that became x, and its place.
#[derive(Clone, Copy)]
pub struct Cleared {
    pub place: ValuePlace,
    pub value: Tern,
}

/// Whether a place comes before another.
pub fn is_before(one: ValuePlace, other: ValuePlace) -> bool
    ensures { IsTrue result ↔ IsBefore one.list one.position other.list other.position }
{
    one.list < other.list || one.list == other.list && one.position < other.position
}

/// The first frame that a value at a place can change.
pub fn frame_of(place: ValuePlace) -> u32
    requires { place.list ≤ 2 ^ 32 }
    ensures { result ≡ place.list - 1 }
{
    place.list.saturating_sub(1) as u32
}
