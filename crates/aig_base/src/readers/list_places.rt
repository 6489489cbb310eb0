//! Where gates stand in long lists.
ghost use Rattle.std.specs.Prelude.{◌≡◌, ◌≢◌, ◌⊎◌, ◌↔◌, ℕ, ◌*◌, ◌^◌, ◌<◌, ◌≤◌, length, Some, slice_get};
ghost use Rattle.std.specs.Prelude.{slice_index_or, IsTrue, IfNone, IfSome, OnErr, OnOk};
ghost use Rattle.aig_base.specs.state.ListPlaces.{Extends, HasPlace, RenewsPlace, WritesPlaces, short};

use aig_bytes::Memory;

/// Places from this one on are kept; those before it are looked at one by one.
const SHORT: u32 = 64;

/// The places of a gate in the lists of the two variables that it reads, in any order. One below `SHORT` is not kept.
#[derive(Clone, Copy)]
pub(crate) struct Places {
    pub(crate) first: u32,
    pub(crate) second: u32,
}

/// Makes places for so many variables; those that are there stay.
pub(crate) fn cover(places: &mut Vec<Places>, variables: usize) -> Result<(), Memory>
    ensures extends { Extends places.old.items places.new.items }
    ensures covers { OnOk result (variables ≤ length places.new.items) }
{
    if places.len() < variables {
        places.resize(
            variables,
            Places {
                first: 0,
                second: 0,
            },
        )?;
    }
    Ok(())
}

/// Makes places for so many variables, if a list of this length may get long when it doubles.
pub(crate) fn cover_for_list(
    places: &mut Vec<Places>,
    len: usize,
    variables: usize,
) -> Result<(), Memory>
    ensures extends { Extends places.old.items places.new.items }
    ensures covers { OnOk result (short < 2 * len → variables ≤ length places.new.items) }
    ensures refused { OnErr result (short < 2 * len) }
{
    if len <= SHORT as usize / 2 {
        return Ok(());
    }
    cover(places, variables)
}

/// Makes places for so many variables, if there are any places.
pub(crate) fn cover_more(places: &mut Vec<Places>, variables: usize) -> Result<(), Memory>
    ensures extends { Extends places.old.items places.new.items }
    ensures covers { OnOk result (0 < length places.new.items → variables ≤ length places.new.items) }
{
    if places.is_empty() {
        return Ok(());
    }
    cover(places, variables)
}

/// Writes the places of a gate, unless none is to be kept.
pub(crate) fn write_places(places: &mut [Places], gate: u32, new: Places)
    requires first { short ≤ new.first → gate < length places.old }
    requires second { short ≤ new.second → gate < length places.old }
    ensures { WritesPlaces gate new places.old places.new }
{
    if new.first >= SHORT || new.second >= SHORT {
        places[gate as usize] = new;
    }
}

// Replaces one of the places of a gate.
fn renew(places: &mut [Places], gate: u32, from: u32, to: u32)
    requires { gate < length places.old }
    ensures { RenewsPlace gate from to places.old places.new }
{
    let old = places[gate as usize];
    places[gate as usize] = if old.first == from {
        Places {
            first: to,
            second: old.second,
        }
    } else {
        Places {
            first: old.first,
            second: to,
        }
    };
}

/// Renews the place of the gate that came from the end of a list to this place, in place of one that was taken out.
pub(crate) fn renew_moved(list: &[u32], places: &mut [Places], place: usize)
    requires narrow { length list.now < 2 ^ 32 }
    requires within { short ≤ place → place < length list.now → slice_index_or list.now place 0 < length places.old }
    ensures moved { short ≤ place → place < length list.now
        → RenewsPlace (slice_index_or list.now place 0) (length list.now) place places.old places.new }
    ensures first { place < short → places.new ≡ places.old }
    ensures last { length list.now ≤ place → places.new ≡ places.old }
{
    if SHORT as usize <= place && place < list.len() {
        renew(places, list[place], list.len() as u32, place as u32);
    }
}

// Whether a gate stands at this place of a list.
fn stands_at(list: &[u32], place: u32, gate: u32) -> bool
    ensures { IsTrue result ↔ (slice_get list.now place ≡ Some gate) }
{
    (place as usize) < list.len() && list[place as usize] == gate
}

// The place of a gate among the first ones of a list.
fn place_in_front(list: &[u32], gate: u32) -> Option<usize>
    ensures found { IfSome result (λ i. slice_get list.now i ≡ Some gate) }
    ensures none { IfNone result ((i : ℕ) → i < short → slice_get list.now i ≢ Some gate) }
{
    for place in 0..list.len().min(SHORT as usize) {
        if list[place] == gate {
            return Some(place);
        }
    }
    None
}

/// The place of a gate in a list, if it stands there, in constant time.
pub(crate) fn place_of(list: &[u32], places: &[Places], gate: u32) -> Option<usize>
    requires { (i : ℕ) → short ≤ i → slice_get list.now i ≡ Some gate → HasPlace places.now gate i }
    ensures found { IfSome result (λ i. slice_get list.now i ≡ Some gate) }
    ensures none { IfNone result ((i : ℕ) → slice_get list.now i ≢ Some gate) }
{
    if let Some(kept) = places.get(gate as usize) {
        if stands_at(list, kept.first, gate) {
            return Some(kept.first as usize);
        }
        if stands_at(list, kept.second, gate) {
            return Some(kept.second as usize);
        }
    }
    place_in_front(list, gate)
}
