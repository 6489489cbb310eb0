//! Numbers that are buffered whole, in one loop over bytes. What is refused here, or goes beyond the buffered bytes, is
//! left to the readers of tokens, which report the fault and its place.
ghost use Rattle.std.specs.Prelude.{◌≡◌, ℕ, ◌+◌, ◌-◌, ◌<◌, ◌≤◌, List, length, drop, Ok, IfSome};
ghost use Rattle.aig_format.specs.Spells.{greatest};
ghost use Rattle.aig_format.specs.state.Reading.{number_at, field_at, optional_at, groups_at, delta_at};

use crate::reader::token::BODY;

/// What a digit counts, and more than 9 for any other byte.
fn digit_of(byte: u8) -> u32
    ensures digit { result ≤ 9 → (48 ≤ byte) × (byte ≤ 57) × (result ≡ byte - 48) }
{
    (byte as u32).wrapping_sub(b'0' as u32)
}

/// A number of a body, of seven digits at most, from a place on with the byte that ends it, and the place after that.
pub(crate) fn field_in(bytes: &[u8], from: usize, end: u8) -> Option<(u32, usize)>
    requires room { from + 8 ≤ length bytes.now }
    requires end { end < 48 }
    ensures field { IfSome result (λ f. field_at greatest end (drop from bytes.now) ≡ Ok (f.0, drop f.1 bytes.now)) }
    ensures within { IfSome result (λ f. f.1 ≤ from + 8) }
{
    let first = digit_of(bytes[from]);
    if first > 9 {
        return None;
    }
    // No digit follows a 0.
    if first == 0 {
        if bytes[from + 1] != end {
            return None;
        }
        return Some((0, from + 2));
    }
    let mut value = first;
    for count in 1..8 {
        let byte = bytes[from + count];
        let digit = digit_of(byte);
        if digit > 9 {
            if byte != end {
                return None;
            }
            return Some((value, from + count + 1));
        }
        value = value * 10 + digit;
        if value > BODY {
            return None;
        }
    }
    None
}

/// The two last numbers of a latch's line from a place on, of which the second is 0 where it is left out, and the place
/// after the line.
pub(crate) fn next_in(bytes: &[u8], from: usize) -> Option<(u32, u32, usize)>
    requires room { from + 16 ≤ length bytes.now }
    ensures numbers { IfSome result (λ n. (reset : List ℕ) × (number_at greatest (drop from bytes.now) ≡ Ok (n.0, reset))
        × (optional_at greatest reset ≡ Ok (n.1, drop n.2 bytes.now))) }
    ensures within { IfSome result (λ n. n.2 ≤ from + 16) }
{
    if let Some((next, at)) = field_in(bytes, from, b'\n') {
        return Some((next, 0, at));
    }
    let (next, at) = field_in(bytes, from, b' ')?;
    let (reset, at) = field_in(bytes, at, b'\n')?;
    Some((next, reset, at))
}

/// A number of at most four groups of seven bits from a place on, and the place after it.
fn groups_in(bytes: &[u8], from: usize) -> Option<(u32, usize)>
    requires { from + 4 ≤ length bytes.now }
    ensures groups { IfSome result (λ g. groups_at 3 (drop from bytes.now) ≡ Ok (g.0, drop g.1 bytes.now)) }
    ensures within { IfSome result (λ g. g.1 ≤ from + 4) }
{
    let first = bytes[from] as u32;
    if first < 128 {
        return Some((first, from + 1));
    }
    let second = bytes[from + 1] as u32;
    if second == 0 {
        return None;
    }
    if second < 128 {
        return Some((first - 128 + 128 * second, from + 2));
    }
    let third = bytes[from + 2] as u32;
    if third == 0 {
        return None;
    }
    if third < 128 {
        let high = second - 128 + 128 * third;
        return Some((first - 128 + 128 * high, from + 3));
    }
    let fourth = bytes[from + 3] as u32;
    if fourth == 0 || fourth > 127 {
        return None;
    }
    let high = second - 128 + 128 * (third - 128 + 128 * fourth);
    Some((first - 128 + 128 * high, from + 4))
}

/// A delta from `low` to `high` from a place on, and the place after it.
#[tactic(auto, unfolding(crate::specs::state::Reading::delta_at))]
pub(crate) fn delta_in(bytes: &[u8], from: usize, low: u32, high: u32) -> Option<(u32, usize)>
    requires { from + 4 ≤ length bytes.now }
    ensures delta { IfSome result (λ d. delta_at low high (drop from bytes.now) ≡ Ok (d.0, drop d.1 bytes.now)) }
    ensures least { IfSome result (λ d. low ≤ d.0) }
    ensures bound { IfSome result (λ d. d.0 ≤ high) }
    ensures within { IfSome result (λ d. d.1 ≤ from + 4) }
{
    let (number, after) = groups_in(bytes, from)?;
    if number < low || number > high {
        return None;
    }
    Some((number, after))
}
