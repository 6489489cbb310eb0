//! Numbers in groups of seven bits.
ghost use Rattle.std.specs.Prelude.{◌≡◌, ℕ, ◌+◌, ◌<◌, ◌≤◌, ◌^◌, nat_lt, ◌==◌, ◌&&◌, List, IfOk};
ghost use Rattle.aig_format.specs.state.Reading.{groups_at, delta_at};
ghost use Rattle.aig_format.specs.state.Reads.{ReadsToken};

use crate::reader::source::Source;
use crate::reader::token_fault::TokenFault;

/// Whether the last group, after `k` others, is one more than the number needs.
#[inline]
fn is_spare(k: u32, byte: u8) -> bool
    ensures { result ≡ (byte == 0 && nat_lt 0 k) }
{
    byte == 0 && k > 0
}

/// A number of at most four groups, the least first, in a delta that begins at `at`.
#[inline]
fn groups<S: Source>(s: &mut S, at: u64) -> Result<u32, TokenFault>
    ensures reads { ReadsToken S.Source s.old s.new result (groups_at 3) }
{
    let mut value = 0;
    let mut weight = 1;
    for k in 0..4u32 {
        match s.next()? {
            None => return Err(TokenFault::Text { at }),
            Some(byte) => {
                if byte < 128 {
                    if is_spare(k, byte) {
                        return Err(TokenFault::Text { at });
                    }
                    return Ok(value + weight * byte as u32);
                }
                value += weight * (byte - 128) as u32;
                weight *= 128;
            }
        }
    }
    Err(TokenFault::Text { at })
}

/// A delta from `low` to `high`, in its shortest spelling.
#[inline]
#[tactic(auto, unfolding(crate::specs::state::Reading::delta_at))]
pub(crate) fn delta<S: Source>(s: &mut S, low: u32, high: u32) -> Result<u32, TokenFault>
    ensures reads { ReadsToken S.Source s.old s.new result (delta_at low high) }
    ensures least { IfOk result (λ n. low ≤ n) }
    ensures within { IfOk result (λ n. n ≤ high) }
{
    let at = s.at();
    let n = groups(s, at)?;
    if n < low || n > high {
        return Err(TokenFault::Text { at });
    }
    Ok(n)
}
