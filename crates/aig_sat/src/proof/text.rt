//! A proof as text: a `d` before a clause that is deleted, signed variables, which count from 1, and 0. Blanks and line
//! ends separate; a line that begins with `c` is a comment. The first step ends its line.
ghost use Rattle.std.specs.Prelude.{◌≡◌, ◌≢◌, ◌⊎◌, ◌↔◌, ◌+◌, ◌*◌, ◌-◌, ◌^◌, ◌<◌, ◌≤◌, ◌∷◌, ◌++◌, ℕ, List, [], All, Err};
ghost use Rattle.std.specs.Prelude.{IfOk, IfSome, IsTrue, OnOk, None, Bool, false};
ghost use Rattle.std.specs.Fmt.{decimal};
ghost use Rattle.std.specs.Option.{IsSomeAnd};
ghost use Rattle.aig_bytes.specs.Bytes.{IsAtEnd};
ghost use Rattle.aig_bytes.specs.Term.{minus};
ghost use Rattle.aig_parts.specs.Literal.{variable};
ghost use Rattle.aig_sat.specs.model.ModelText.{IsSpace};
ghost use Rattle.aig_sat.specs.proof.ProofText.{EndsStep, Gap, IsBlank};
ghost use Rattle.aig_sat.specs.proof.Steps.{StepToCome, TakesText, text_to_come};
ghost use Rattle.aig_sat.specs.proof.state.Taking.{BeginsGap, BeginsNot, ClauseToCome, EndsToCome, EndsUnfinished};
ghost use Rattle.aig_sat.specs.proof.state.Taking.{IsDigit, IsNumber, IsUnfinished, LeadsClause, LeadsGap, LeadsStep};
ghost use Rattle.aig_sat.specs.proof.state.Taking.{LeadsWord, LineToCome, Lowers, ReadsOn, Refuses, Rejects, TakesSome};
ghost use Rattle.aig_sat.specs.proof.state.Taking.{WordToCome, digits_of};

use crate::proof::bytes::ProofBytes;
use crate::proof::fault::ReadFault;
use crate::proof::literal::{MOST, literal_of};
use crate::proof::step::StepKind;
use aig_bytes::{Failed, Read};
use aig_parts::Lit;

/// Whether the byte separates.
fn is_space(byte: u8) -> bool
    ensures { IsTrue result ↔ IsSpace byte }
{
    byte == b' ' || byte == b'\t' || byte == b'\n'
}

/// Takes the rest of a line and the LF that ends it.
fn skip_line<R: Read>(bytes: &mut ProofBytes, reader: &mut R) -> Result<(), ReadFault>
    ensures line { OnOk result ((line : List ℕ) × All (λ b. b ≢ 10) line
        × TakesText bytes.old bytes.new (R.left reader.old) (R.left reader.new) (line ++ 10 ∷ [])) }
    ensures refused { Rejects R.failures R.reads_left reader.old reader.new bytes.old bytes.new result
        (IfSome (text_to_come bytes.old (R.left reader.old)) (All (λ b. b ≢ 10))) }
{
    while let Some(byte) = bytes.next_char(reader)? {
        if byte == b'\n' {
            return Ok(());
        }
    }
    Err(ReadFault::Text { at: bytes.at() })
}

/// Takes a space or a comment, and returns whether there was one.
fn skip_space<R: Read>(bytes: &mut ProofBytes, reader: &mut R) -> Result<bool, ReadFault>
    ensures gap { IfOk result (λ _. (taken : List ℕ) × LeadsGap bytes.old.previous bytes.new.previous taken
        × TakesText bytes.old bytes.new (R.left reader.old) (R.left reader.new) taken) }
    ensures lowers { IfOk result (λ some. IsTrue some → Lowers R.reads_left reader.old reader.new bytes.old bytes.new) }
    ensures none { IfOk result (λ some. some ≡ false →
        IfSome (text_to_come bytes.new (R.left reader.new)) (BeginsNot (BeginsGap bytes.new.previous))) }
    ensures refused { Rejects R.failures R.reads_left reader.old reader.new bytes.old bytes.new result
        (IfSome (text_to_come bytes.old (R.left reader.old)) (IsUnfinished bytes.old.previous)) }
{
    match bytes.peek(reader)? {
        None => Ok(false),
        Some(byte) => {
            if is_space(byte) {
                bytes.skip();
                return Ok(true);
            }
            if byte == b'c' && bytes.is_at_line() {
                bytes.skip();
                skip_line(bytes, reader)?;
                return Ok(true);
            }
            Ok(false)
        }
    }
}

/// Takes what separates.
pub(crate) fn skip_gap<R: Read>(bytes: &mut ProofBytes, reader: &mut R) -> Result<(), ReadFault>
    ensures gap { OnOk result ((taken : List ℕ) × LeadsGap bytes.old.previous bytes.new.previous taken
        × TakesText bytes.old bytes.new (R.left reader.old) (R.left reader.new) taken) }
    ensures whole { OnOk result
        (IfSome (text_to_come bytes.new (R.left reader.new)) (BeginsNot (BeginsGap bytes.new.previous))) }
    ensures refused { Rejects R.failures R.reads_left reader.old reader.new bytes.old bytes.new result
        (IfSome (text_to_come bytes.old (R.left reader.old)) (EndsUnfinished bytes.old.previous)) }
{
    while skip_space(bytes, reader)? {}
    Ok(())
}

/// Takes the space that ends the word that begins at a place.
pub(crate) fn end_word<R: Read>(
    bytes: &mut ProofBytes,
    reader: &mut R,
    at: u64,
) -> Result<(), ReadFault>
    ensures space { OnOk result (IsSpace bytes.new.previous) }
    ensures taken { OnOk result
        (TakesText bytes.old bytes.new (R.left reader.old) (R.left reader.new) (bytes.new.previous ∷ [])) }
    ensures refused { Rejects R.failures R.reads_left reader.old reader.new bytes.old bytes.new result
        (IfSome (text_to_come bytes.old (R.left reader.old)) (BeginsNot IsSpace)) }
{
    match bytes.peek(reader)? {
        Some(byte) if is_space(byte) => {
            bytes.skip();
            Ok(())
        }
        _ => Err(ReadFault::Text { at }),
    }
}

/// Takes a blank or a tab, and returns whether there was one.
fn skip_blank<R: Read>(bytes: &mut ProofBytes, reader: &mut R) -> Result<bool, Failed>
    ensures blank { IfOk result (λ some. IsTrue some → IsBlank bytes.new.previous) }
    ensures taken { ReadsOn R.failures R.reads_left reader.old reader.new bytes.old bytes.new result (λ some.
        IsTrue some → TakesText bytes.old bytes.new (R.left reader.old) (R.left reader.new) (bytes.new.previous ∷ [])) }
    ensures none { IfOk result (λ some. some ≡ false →
        TakesText bytes.old bytes.new (R.left reader.old) (R.left reader.new) []) }
    ensures other { IfOk result (λ some. some ≡ false →
        IfSome (text_to_come bytes.new (R.left reader.new)) (BeginsNot IsBlank)) }
    ensures lowers { IfOk result (λ some. IsTrue some → Lowers R.reads_left reader.old reader.new bytes.old bytes.new) }
{
    match bytes.peek(reader)? {
        Some(b' ' | b'\t') => {
            bytes.skip();
            Ok(true)
        }
        _ => Ok(false),
    }
}

/// Takes an LF, and rejects any other byte.
fn take_lf<R: Read>(bytes: &mut ProofBytes, reader: &mut R) -> Result<(), ReadFault>
    ensures taken { OnOk result (TakesText bytes.old bytes.new (R.left reader.old) (R.left reader.new) (10 ∷ [])) }
    ensures refused { Rejects R.failures R.reads_left reader.old reader.new bytes.old bytes.new result
        (IfSome (text_to_come bytes.old (R.left reader.old)) (BeginsNot (λ b. b ≡ 10))) }
{
    match bytes.peek(reader)? {
        Some(b'\n') => {
            bytes.skip();
            Ok(())
        }
        _ => Err(ReadFault::Text { at: bytes.at() }),
    }
}

/// Takes the blanks that are left of a line, and the LF.
fn end_line<R: Read>(bytes: &mut ProofBytes, reader: &mut R) -> Result<(), ReadFault>
    ensures line { OnOk result ((blanks : List ℕ) × All IsBlank blanks
        × TakesText bytes.old bytes.new (R.left reader.old) (R.left reader.new) (blanks ++ 10 ∷ [])) }
    ensures refused { Rejects R.failures R.reads_left reader.old reader.new bytes.old bytes.new result
        (IsSomeAnd (text_to_come bytes.old (R.left reader.old)) LineToCome → ⊥) }
{
    while skip_blank(bytes, reader)? {}
    take_lf(bytes, reader)
}

/// Takes what follows the 0 of a step, a word that begins at a place: the rest of the line for the first step, a space
/// for any other.
fn end_step<R: Read>(
    bytes: &mut ProofBytes,
    reader: &mut R,
    is_first: bool,
    at: u64,
) -> Result<(), ReadFault>
    ensures ends { OnOk result ((ends : List ℕ) × EndsStep is_first ends
        × TakesText bytes.old bytes.new (R.left reader.old) (R.left reader.new) ends) }
    ensures refused { Rejects R.failures R.reads_left reader.old reader.new bytes.old bytes.new result
        (IsSomeAnd (text_to_come bytes.old (R.left reader.old)) (EndsToCome is_first) → ⊥) }
{
    end_word(bytes, reader, at)?;
    if !is_first || bytes.is_at_line() {
        return Ok(());
    }
    end_line(bytes, reader)
}

/// Takes a minus, and returns whether there was one.
fn take_minus<R: Read>(bytes: &mut ProofBytes, reader: &mut R) -> Result<bool, Failed>
    ensures taken { ReadsOn R.failures R.reads_left reader.old reader.new bytes.old bytes.new result (λ negated.
        TakesText bytes.old bytes.new (R.left reader.old) (R.left reader.new) (minus negated)) }
    ensures none { IfOk result (λ negated. negated ≡ false →
        IfSome (text_to_come bytes.new (R.left reader.new)) (BeginsNot (λ b. b ≡ 45))) }
{
    match bytes.peek(reader)? {
        Some(b'-') => {
            bytes.skip();
            Ok(true)
        }
        _ => Ok(false),
    }
}

/// Takes a digit, where there is one.
fn take_digit<R: Read>(bytes: &mut ProofBytes, reader: &mut R) -> Result<Option<u8>, Failed>
    ensures taken { ReadsOn R.failures R.reads_left reader.old reader.new bytes.old bytes.new result (λ digit.
        TakesText bytes.old bytes.new (R.left reader.old) (R.left reader.new) (digits_of digit)) }
    ensures digit { IfOk result (λ digit. IfSome digit (λ d. d ≤ 9)) }
    ensures none { IfOk result (λ digit. digit ≡ None →
        IfSome (text_to_come bytes.new (R.left reader.new)) (BeginsNot IsDigit)) }
    ensures lowers { IfOk result (λ digit. IfSome digit (λ _.
        Lowers R.reads_left reader.old reader.new bytes.old bytes.new)) }
{
    match bytes.peek(reader)? {
        Some(byte @ b'0'..=b'9') => {
            bytes.skip();
            Ok(Some(byte - b'0'))
        }
        _ => Ok(None),
    }
}

/// The number with one digit more; one that is over the limit stays as it is.
fn with_digit(number: u64, digit: u8) -> u64
    requires digit { digit ≤ 9 }
    requires bound { number < 2 ^ 40 }
    ensures number { result ≤ 2147483647 → (number ≤ 2147483647) × (result ≡ number * 10 + digit) }
    ensures over { (2147483647 < number) ⊎ (result ≡ number * 10 + digit) }
    ensures bound { result < 2 ^ 40 }
    ensures some { 0 < number → 0 < result }
{
    if number > MOST {
        number
    } else {
        number * 10 + digit as u64
    }
}

/// Takes the digits that follow, and returns the number that they make of this one. A number over the limit may be
/// returned as another one over it.
fn take_digits<R: Read>(bytes: &mut ProofBytes, reader: &mut R, first: u8) -> Result<u64, Failed>
    requires some { 0 < first }
    requires digit { first ≤ 9 }
    ensures number { ReadsOn R.failures R.reads_left reader.old reader.new bytes.old bytes.new result (λ n.
        (digits : List ℕ) × IsNumber n (decimal first ++ digits)
        × TakesText bytes.old bytes.new (R.left reader.old) (R.left reader.new) digits) }
    ensures some { IfOk result (λ n. 0 < n) }
    ensures ends { IfOk result (λ _. IfSome (text_to_come bytes.new (R.left reader.new)) (BeginsNot IsDigit)) }
{
    let mut number = first as u64;
    while let Some(digit) = take_digit(bytes, reader)? {
        number = with_digit(number, digit);
    }
    Ok(number)
}

/// The number of the word that begins at a place, without leading zeros.
pub(crate) fn text_number<R: Read>(
    bytes: &mut ProofBytes,
    reader: &mut R,
    at: u64,
) -> Result<u64, ReadFault>
    ensures number { IfOk result (λ n. (digits : List ℕ) × IsNumber n digits
        × TakesText bytes.old bytes.new (R.left reader.old) (R.left reader.new) digits) }
    ensures ends { IfOk result (λ n. 0 < n →
        IfSome (text_to_come bytes.new (R.left reader.new)) (BeginsNot IsDigit)) }
    ensures refused { TakesSome R.failures R.reads_left reader.old reader.new bytes.old bytes.new result
        (IfSome (text_to_come bytes.old (R.left reader.old)) (BeginsNot IsDigit)) }
{
    let Some(first) = take_digit(bytes, reader)? else {
        return Err(ReadFault::Text {
            at: bytes.cut_at(at),
        });
    };
    if first == 0 {
        // A digit after it is rejected, as any byte that is no space.
        return Ok(0);
    }
    Ok(take_digits(bytes, reader, first)?)
}

/// What the next step does, or `None` where there is none.
pub(crate) fn text_kind<R: Read>(
    bytes: &mut ProofBytes,
    reader: &mut R,
) -> Result<Option<StepKind>, ReadFault>
    ensures kind { IfOk result (λ kind. IfSome kind (λ k. (taken : List ℕ)
        × ((is_first : Bool) → LeadsStep is_first bytes.old.previous bytes.new.previous taken k)
        × TakesText bytes.old bytes.new (R.left reader.old) (R.left reader.new) taken)) }
    ensures none { IfOk result (λ kind. kind ≡ None → (taken : List ℕ) × Gap bytes.old.previous taken
        × TakesText bytes.old bytes.new (R.left reader.old) (R.left reader.new) taken
        × IsAtEnd (text_to_come bytes.new (R.left reader.new))) }
    ensures goes_on { IfOk result (λ kind. IfSome kind (λ _. (is_first : Bool) →
        IsSomeAnd (text_to_come bytes.old (R.left reader.old)) (StepToCome is_first bytes.old.previous) →
        IsSomeAnd (text_to_come bytes.new (R.left reader.new)) (ClauseToCome is_first bytes.new.previous))) }
    ensures refused { Refuses R.failures reader.old reader.new result
        ((is_first : Bool) → IsSomeAnd (text_to_come bytes.old (R.left reader.old))
        (StepToCome is_first bytes.old.previous) → ⊥) }
{
    skip_gap(bytes, reader)?;
    let at = bytes.at();
    match bytes.peek(reader)? {
        None => Ok(None),
        Some(byte) => {
            if byte == b'd' {
                bytes.skip();
                end_word(bytes, reader, at)?;
                return Ok(Some(StepKind::Delete));
            }
            Ok(Some(StepKind::Add))
        }
    }
}

/// Whether a word is the 0 of a step.
fn is_end(number: u64, negated: bool) -> bool
    ensures { IsTrue result ↔ (number ≡ 0) × (negated ≡ false) }
{
    number == 0 && !negated
}

/// The literal of a word, or `None` for 0.
fn text_word<R: Read>(
    bytes: &mut ProofBytes,
    reader: &mut R,
    is_first: bool,
) -> Result<Option<Lit>, ReadFault>
    ensures word { IfOk result (λ next. (taken : List ℕ) × LeadsWord is_first bytes.new.previous taken next
        × TakesText bytes.old bytes.new (R.left reader.old) (R.left reader.new) taken) }
    ensures refused { TakesSome R.failures R.reads_left reader.old reader.new bytes.old bytes.new result
        (IsSomeAnd (text_to_come bytes.old (R.left reader.old)) (WordToCome is_first) → ⊥) }
{
    let at = bytes.at();
    let negated = take_minus(bytes, reader)?;
    let number = text_number(bytes, reader, at)?;
    if is_end(number, negated) {
        end_step(bytes, reader, is_first, at)?;
        return Ok(None);
    }
    end_word(bytes, reader, at)?;
    match literal_of(number, negated) {
        Some(literal) => Ok(Some(literal)),
        None => Err(ReadFault::Text { at }),
    }
}

/// The next literal of a clause, or `None` at its end.
pub(crate) fn text_literal<R: Read>(
    bytes: &mut ProofBytes,
    reader: &mut R,
    is_first: bool,
) -> Result<Option<Lit>, ReadFault>
    ensures variable { IfOk result (λ next. IfSome next (λ l. variable l < 2147483647)) }
    ensures literal { IfOk result (λ next. (taken : List ℕ)
        × LeadsClause is_first bytes.old.previous bytes.new.previous taken next
        × TakesText bytes.old bytes.new (R.left reader.old) (R.left reader.new) taken) }
    ensures goes_on { IfOk result (λ next. IfSome next (λ _.
        IsSomeAnd (text_to_come bytes.old (R.left reader.old)) (ClauseToCome is_first bytes.old.previous) →
        IsSomeAnd (text_to_come bytes.new (R.left reader.new)) (ClauseToCome is_first bytes.new.previous))) }
    ensures refused { TakesSome R.failures R.reads_left reader.old reader.new bytes.old bytes.new result
        (IsSomeAnd (text_to_come bytes.old (R.left reader.old)) (ClauseToCome is_first bytes.old.previous) → ⊥) }
{
    skip_gap(bytes, reader)?;
    text_word(bytes, reader, is_first)
}
