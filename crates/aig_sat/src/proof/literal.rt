//! The literals of a proof.
ghost use Rattle.std.specs.Prelude.{◌≡◌, ◌⊎◌, ◌+◌, ◌*◌, ◌<◌, IfSome, None};
ghost use Rattle.aig_parts.specs.Literal.{variable};
ghost use Rattle.aig_sat.specs.proof.state.Taking.{sign};

use aig_parts::Lit;

/// The greatest number of a variable.
pub(crate) const MOST: u64 = 2_147_483_647;

/// The literal of a variable that counts from 1, where its number is not over the greatest.
pub(crate) fn literal_of(number: u64, negated: bool) -> Option<Lit>
    ensures number { IfSome result (λ l. l + 2 ≡ 2 * number + sign negated) }
    ensures variable { IfSome result (λ l. variable l < 2147483647) }
    ensures none { result ≡ None → (number ≡ 0) ⊎ (2147483647 < number) }
{
    if number == 0 || number > MOST {
        return None;
    }
    let even = 2 * (number as u32 - 1);
    Some(Lit::new(if negated { even + 1 } else { even }))
}
