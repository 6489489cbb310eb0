//! The binary form of a proof: `a` or `d`, a number for each literal, and 0. A number is twice the variable, which
//! counts from 1, and one more where the literal is negated; it stands in groups of seven bits, the lowest first.
ghost use Rattle.std.specs.Prelude.{◌≡◌, ◌≢◌, ◌⊎◌, ◌+◌, ◌<◌, ◌≤◌, ◌∷◌, ℕ, List, [], Err, IfOk, IfSome, IsTrue, None};
ghost use Rattle.std.specs.Prelude.{false};
ghost use Rattle.std.specs.Option.{IsSomeAnd};
ghost use Rattle.aig_bytes.specs.Bytes.{IsAtEnd};
ghost use Rattle.aig_parts.specs.Literal.{variable};
ghost use Rattle.aig_sat.specs.proof.ProofBytes.{Groups, first_byte};
ghost use Rattle.aig_sat.specs.proof.Steps.{BinaryStepToCome, bytes_to_come};
ghost use Rattle.aig_sat.specs.proof.state.Taking.{LeadsLiterals, LiteralsToCome, NumberToCome, Refuses, TakesBytes};
ghost use Rattle.aig_sat.specs.proof.state.Taking.{TakesSome};

use crate::proof::bytes::ProofBytes;
use crate::proof::fault::ReadFault;
use crate::proof::literal::literal_of;
use crate::proof::step::StepKind;
use aig_bytes::Read;
use aig_parts::Lit;

/// 128 to the power of five.
const FIVE_GROUPS: u64 = 34_359_738_368;

/// What the next step does, or `None` where there is none.
pub(crate) fn binary_kind<R: Read>(
    bytes: &mut ProofBytes,
    reader: &mut R,
) -> Result<Option<StepKind>, ReadFault>
    ensures kind { IfOk result (λ kind. IfSome kind (λ k.
        TakesBytes bytes.old bytes.new (R.left reader.old) (R.left reader.new) (first_byte k ∷ []))) }
    ensures none { IfOk result (λ kind. kind ≡ None → IsAtEnd (bytes_to_come bytes.old (R.left reader.old))) }
    ensures goes_on { IfOk result (λ kind. IfSome kind (λ k.
        IsSomeAnd (bytes_to_come bytes.old (R.left reader.old)) BinaryStepToCome →
        IsSomeAnd (bytes_to_come bytes.new (R.left reader.new)) LiteralsToCome)) }
    ensures refused { Refuses R.failures reader.old reader.new result
        (IsSomeAnd (bytes_to_come bytes.old (R.left reader.old)) BinaryStepToCome → ⊥) }
{
    let at = bytes.at();
    match bytes.next(reader)? {
        None => Ok(None),
        Some(b'a') => Ok(Some(StepKind::Add)),
        Some(b'd') => Ok(Some(StepKind::Delete)),
        Some(_) => Err(ReadFault::Text { at }),
    }
}

/// The lower seven bits of a byte.
fn low_bits(byte: u8) -> u8
    ensures below { result < 128 }
    ensures last { byte < 128 → result ≡ byte }
    ensures more { 128 ≤ byte → 128 + result ≡ byte }
{
    byte % 128
}

/// Whether a number may end with this byte, at the place of this power of 128: not with 0, unless it is its only byte.
fn may_end(byte: u8, power: u64) -> bool
    ensures some { IsTrue result → (0 < byte) ⊎ (power ≡ 1) }
    ensures zero { result ≡ false → byte ≡ 0 }
    ensures later { result ≡ false → power ≢ 1 }
{
    byte > 0 || power == 1
}

/// The next number, in its shortest spelling. A number of more than five groups is over the limit, and rejected.
fn binary_number<R: Read>(bytes: &mut ProofBytes, reader: &mut R) -> Result<u64, ReadFault>
    ensures number { IfOk result (λ n. (taken : List ℕ) × Groups n taken
        × TakesBytes bytes.old bytes.new (R.left reader.old) (R.left reader.new) taken) }
    ensures refused { TakesSome R.failures R.reads_left reader.old reader.new bytes.old bytes.new result
        (IsSomeAnd (bytes_to_come bytes.old (R.left reader.old)) NumberToCome → ⊥) }
{
    let at = bytes.at();
    let mut number = 0u64;
    let mut power = 1u64;
    while power < FIVE_GROUPS {
        let Some(byte) = bytes.next(reader)? else {
            return Err(ReadFault::Text { at: bytes.at() });
        };
        number += power * low_bits(byte) as u64;
        if byte < 128 {
            if !may_end(byte, power) {
                return Err(ReadFault::Text { at });
            }
            return Ok(number);
        }
        power *= 128;
    }
    Err(ReadFault::Text { at })
}

/// The next literal of a clause, or `None` at its end.
pub(crate) fn binary_literal<R: Read>(
    bytes: &mut ProofBytes,
    reader: &mut R,
) -> Result<Option<Lit>, ReadFault>
    ensures variable { IfOk result (λ next. IfSome next (λ l. variable l < 2147483647)) }
    ensures literal { IfOk result (λ next. (taken : List ℕ) × LeadsLiterals taken next
        × TakesBytes bytes.old bytes.new (R.left reader.old) (R.left reader.new) taken) }
    ensures goes_on { IfOk result (λ next. IfSome next (λ _.
        IsSomeAnd (bytes_to_come bytes.old (R.left reader.old)) LiteralsToCome →
        IsSomeAnd (bytes_to_come bytes.new (R.left reader.new)) LiteralsToCome)) }
    ensures refused { TakesSome R.failures R.reads_left reader.old reader.new bytes.old bytes.new result
        (IsSomeAnd (bytes_to_come bytes.old (R.left reader.old)) LiteralsToCome → ⊥) }
{
    let at = bytes.at();
    let number = binary_number(bytes, reader)?;
    if number == 0 {
        return Ok(None);
    }
    match literal_of(number / 2, number % 2 == 1) {
        Some(literal) => Ok(Some(literal)),
        None => Err(ReadFault::Text { at }),
    }
}
