//! The tokens: single bytes and numbers.
ghost use Rattle.std.specs.Prelude.{◌≡◌, ℕ, ◌+◌, ◌<◌, ◌≤◌, ◌^◌, List, IfOk, IfSome};
ghost use Rattle.aig_format.specs.state.Reading.{digit_at, is_next_at, byte_at, digits_at};
ghost use Rattle.aig_format.specs.state.Reading.{number_at, field_at, more_at};
ghost use Rattle.aig_format.specs.state.Reading.{optional_at};
ghost use Rattle.aig_format.specs.state.Reads.{IsBound, ReadsToken};

use crate::reader::source::Source;
use crate::reader::token_fault::TokenFault;

/// The greatest count of a header.
pub(crate) const HEAD: u32 = 4_194_303;

/// The greatest number of a body.
pub(crate) const BODY: u32 = 8_388_607;

/// The digit at the front, taken if there is one.
#[inline]
#[tactic(auto, unfolding(crate::specs::state::Reading::digit_at))]
pub(crate) fn digit<S: Source>(s: &mut S) -> Result<Option<u8>, TokenFault>
    ensures reads { ReadsToken S.Source s.old s.new result digit_at }
    ensures small { IfOk result (λ digit. IfSome digit (λ d. d < 10)) }
{
    match s.peek()? {
        Some(byte @ b'0'..=b'9') => {
            s.next()?;
            Ok(Some(byte - b'0'))
        }
        _ => Ok(None),
    }
}

/// Whether the byte is at the front, taken if it is.
#[inline]
#[tactic(auto, unfolding(crate::specs::state::Reading::is_next_at))]
pub(crate) fn is_next<S: Source>(s: &mut S, byte: u8) -> Result<bool, TokenFault>
    ensures reads { ReadsToken S.Source s.old s.new result (is_next_at byte) }
{
    match s.peek()? {
        Some(front) => {
            if front == byte {
                s.next()?;
                Ok(true)
            } else {
                Ok(false)
            }
        }
        None => Ok(false),
    }
}

/// Takes the byte, which has to be at the front.
#[inline]
#[tactic(auto, unfolding(crate::specs::state::Reading::byte_at))]
pub(crate) fn byte<S: Source>(s: &mut S, byte: u8) -> Result<(), TokenFault>
    ensures reads { ReadsToken S.Source s.old s.new result (byte_at byte) }
{
    let at = s.at();
    if is_next(s, byte)? {
        Ok(())
    } else {
        Err(TokenFault::Text { at })
    }
}

/// The number whose first digits are those of `first`.
#[inline]
fn digits<S: Source>(s: &mut S, bound: u32, first: u32) -> Result<u32, TokenFault>
    requires some { 0 < first }
    requires within { first ≤ bound }
    requires small { bound < 2 ^ 24 }
    ensures reads { ReadsToken S.Source s.old s.new result (digits_at bound first) }
    ensures within { IfOk result (λ n. n ≤ bound) }
{
    let mut value = first;
    while let Some(d) = digit(s)? {
        value = value * 10 + d as u32;
        if value > bound {
            return Err(TokenFault::Limit);
        }
    }
    Ok(value)
}

/// A number that is at most `bound`.
#[inline]
#[tactic(auto, unfolding(crate::specs::state::Reading::number_at, crate::specs::state::Reading::number_then))]
pub(crate) fn number<S: Source>(s: &mut S, bound: u32) -> Result<u32, TokenFault>
    requires bound { IsBound bound }
    ensures reads { ReadsToken S.Source s.old s.new result (number_at bound) }
    ensures within { IfOk result (λ n. n ≤ bound) }
{
    let at = s.at();
    match digit(s)? {
        None => Err(TokenFault::Text { at }),
        Some(0) => match digit(s)? {
            None => Ok(0),
            Some(_) => Err(TokenFault::Text { at }),
        },
        Some(first) => digits(s, bound, first as u32),
    }
}

/// A number and the byte that ends it.
#[inline]
#[tactic(auto, unfolding(crate::specs::state::Reading::field_at))]
pub(crate) fn field<S: Source>(s: &mut S, bound: u32, end: u8) -> Result<u32, TokenFault>
    requires bound { IsBound bound }
    ensures reads { ReadsToken S.Source s.old s.new result (field_at bound end) }
    ensures within { IfOk result (λ n. n ≤ bound) }
{
    let n = number(s, bound)?;
    byte(s, end)?;
    Ok(n)
}

/// Whether a space follows, where otherwise the line ends.
#[inline]
#[tactic(auto, unfolding(crate::specs::state::Reading::more_at))]
pub(crate) fn more<S: Source>(s: &mut S) -> Result<bool, TokenFault>
    ensures reads { ReadsToken S.Source s.old s.new result more_at }
{
    if is_next(s, b' ')? {
        Ok(true)
    } else {
        byte(s, b'\n')?;
        Ok(false)
    }
}

/// The last number of a line, 0 where it is left out.
#[inline]
#[tactic(auto, unfolding(crate::specs::state::Reading::optional_at))]
pub(crate) fn optional<S: Source>(s: &mut S, bound: u32) -> Result<u32, TokenFault>
    requires bound { IsBound bound }
    ensures reads { ReadsToken S.Source s.old s.new result (optional_at bound) }
    ensures within { IfOk result (λ n. n ≤ bound) }
{
    if more(s)? {
        field(s, bound, b'\n')
    } else {
        Ok(0)
    }
}
