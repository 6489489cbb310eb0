//! A proof with hints (LRAT) as text: each step has a number, and one that adds a clause names, after it, the clauses
//! that it follows from.
ghost use Rattle.std.specs.Prelude.{◌≡◌, ◌+◌, ◌≤◌, ◌∷◌, ◌++◌, ◌<◌, ℕ, List, [], Err, IfOk, IfSome, IsTrue, None, OnOk};
ghost use Rattle.std.specs.Prelude.{false, Some};
ghost use Rattle.std.specs.Fmt.{decimal};
ghost use Rattle.std.specs.Option.{IsSomeAnd};
ghost use Rattle.aig_bytes.specs.Bytes.{IsAtEnd};
ghost use Rattle.aig_sat.specs.model.ModelText.{IsSpace};
ghost use Rattle.aig_sat.specs.proof.HintedText.{ArePositive};
ghost use Rattle.aig_sat.specs.proof.ProofText.{Gap};
ghost use Rattle.aig_sat.specs.proof.Reads.{reads_failed};
ghost use Rattle.aig_sat.specs.proof.Steps.{AreLiterals, HintedStepToCome, NoHintedStep, ReadsHinted, TakesText};
ghost use Rattle.aig_sat.specs.proof.Steps.{bytes_to_come, text_to_come};
ghost use Rattle.aig_sat.specs.proof.state.Taking.{AdditionToCome, LeadsNumber, NumberWordToCome, NumbersToCome};
ghost use Rattle.aig_sat.specs.proof.state.Taking.{ReadsMore, Refuses, TakesAddition, TakesNumbers};

use crate::proof::bytes::ProofBytes;
use crate::proof::either::read_clause;
use crate::proof::fault::ReadFault;
use crate::proof::literal::MOST;
use crate::proof::reader::{ProofReader, rename};
use crate::proof::spelling::Spelling;
use crate::proof::step::StepKind;
use crate::proof::text::{end_word, skip_gap, text_kind, text_number};
use aig_bytes::Read;
use aig_parts::Lit;

/// What was seen of the first line that is neither blank nor a comment.
#[derive(Clone, Copy)]
struct Seen {
    previous: u8,
    words: u32,
    is_comment: bool,
    // The current word is 0 so far.
    is_zero: bool,
    // A word before it was 0.
    has_zero: bool,
}

fn is_blank(byte: u8) -> bool {
    byte == b' ' || byte == b'\t'
}

impl Seen {
    // Whether a byte that begins a word shows that the proof has hints, or shows that it has none.
    fn word(&mut self, byte: u8) -> Option<bool> {
        if self.has_zero || (self.words == 1 && byte == b'd') {
            return Some(true);
        }
        if self.words == 0 && !(b'0'..=b'9').contains(&byte) {
            return Some(false);
        }
        self.words = self.words.saturating_add(1);
        None
    }

    // The same of any byte that is neither in a comment nor an LF.
    fn byte(&mut self, byte: u8) -> Option<bool> {
        if is_blank(byte) {
            self.has_zero = self.has_zero || self.is_zero;
            self.is_zero = false;
            return None;
        }
        let begins = is_blank(self.previous) || self.previous == b'\n';
        self.is_zero = begins && byte == b'0';
        if begins { self.word(byte) } else { None }
    }

    // The same of any byte.
    fn next(&mut self, byte: u8) -> Option<bool> {
        let begins_line = self.words == 0 && self.previous == b'\n';
        if self.is_comment || (byte == b'c' && begins_line) {
            self.is_comment = byte != b'\n';
            return None;
        }
        if byte != b'\n' {
            return self.byte(byte);
        }
        if self.words > 0 { Some(false) } else { None }
    }
}

/// Whether the text that begins with these bytes has hints: in the first line that is neither blank nor a comment, the
/// first word begins with a digit, and the second word begins with `d`, or a word follows the first 0. No text without
/// hints begins so: its `d` comes first, and its first step ends its line.
pub(crate) fn is_hinted_text(bytes: &[u8]) -> bool {
    let mut seen = Seen {
        previous: b'\n',
        words: 0,
        is_comment: false,
        is_zero: false,
        has_zero: false,
    };
    for byte in bytes {
        if let Some(is_hinted) = seen.next(*byte) {
            return is_hinted;
        }
        seen.previous = *byte;
    }
    false
}

/// The number of a step, and the place of its word.
#[derive(Clone, Copy)]
pub(crate) struct Number {
    pub(crate) value: u32,
    pub(crate) at: u64,
}

/// The number of the step whose first word begins here, at a place.
fn word_number<R: Read>(
    bytes: &mut ProofBytes,
    reader: &mut R,
    at: u64,
) -> Result<Number, ReadFault>
    ensures space { OnOk result (IsSpace bytes.new.previous) }
    ensures small { IfOk result (λ n. n.value ≤ 2147483647) }
    ensures number { IfOk result (λ n. TakesText bytes.old bytes.new (R.left reader.old) (R.left reader.new)
        (decimal n.value ++ bytes.new.previous ∷ [])) }
    ensures refused { Refuses R.failures reader.old reader.new result
        (IsSomeAnd (text_to_come bytes.old (R.left reader.old)) NumberWordToCome → ⊥) }
{
    let number = text_number(bytes, reader, at)?;
    end_word(bytes, reader, at)?;
    if number > MOST {
        return Err(ReadFault::Text { at });
    }
    Ok(Number {
        value: number as u32,
        at,
    })
}

/// The number of the next step, or `None` where there is none.
pub(crate) fn step_number<R: Read>(
    bytes: &mut ProofBytes,
    reader: &mut R,
) -> Result<Option<Number>, ReadFault>
    ensures number { IfOk result (λ next. IfSome next (λ n. (taken : List ℕ)
        × LeadsNumber bytes.old.previous bytes.new.previous taken n.value
        × TakesText bytes.old bytes.new (R.left reader.old) (R.left reader.new) taken)) }
    ensures none { IfOk result (λ next. next ≡ None → (taken : List ℕ) × Gap bytes.old.previous taken
        × TakesText bytes.old bytes.new (R.left reader.old) (R.left reader.new) taken
        × IsAtEnd (text_to_come bytes.new (R.left reader.new))) }
    ensures refused { Refuses R.failures reader.old reader.new result
        (IsSomeAnd (text_to_come bytes.old (R.left reader.old)) (HintedStepToCome bytes.old.previous) → ⊥) }
{
    skip_gap(bytes, reader)?;
    let at = bytes.at();
    match bytes.peek(reader)? {
        None => Ok(None),
        Some(_first) => Ok(Some(word_number(bytes, reader, at)?)),
    }
}

/// Whether none of these is negated.
pub(crate) fn are_positive(numbers: &[Lit]) -> bool
    ensures positive { IsTrue result → ArePositive numbers.now }
    ensures negative { result ≡ false → ArePositive numbers.now → ⊥ }
{
    for number in numbers {
        if number.is_neg() {
            return false;
        }
    }
    true
}

impl ProofReader {
    /// Whether the steps have hints (LRAT, as text), by the first line. It reads the first block of bytes and takes
    /// none: a proof whose first line has no 0 in it counts as one without hints.
    pub fn is_hinted<R: Read>(&mut self, reader: &mut R) -> Result<bool, ReadFault>
        ensures count { R.failures reader.new ≡ R.failures reader.old + reads_failed result }
        ensures text { TakesText self.old.block self.new.block (R.left reader.old) (R.left reader.new) [] }
        ensures bytes { bytes_to_come self.old.block (R.left reader.old) ≡
            bytes_to_come self.new.block (R.left reader.new) }
        ensures formula { self.new.formula ≡ self.old.formula }
        ensures variables { self.new.variables ≡ self.old.variables }
        ensures spelling { self.new.spelling ≡ self.old.spelling }
    {
        self.bytes.fill(reader)?;
        Ok(is_hinted_text(self.bytes.front()))
    }

    // Reads the clause of a step with hints, and its hints.
    fn addition<R: Read>(&mut self, reader: &mut R) -> Result<(), ReadFault>
        ensures more { ReadsMore self.old self.new }
        ensures positive { OnOk result (0 < self.old.number) }
        ensures taken { OnOk result (TakesAddition self.old.formula self.old.block self.new.block (R.left reader.old)
            (R.left reader.new) self.new.clause self.new.hints) }
        ensures refused { Refuses R.failures reader.old reader.new result
            (0 < self.old.number →
            IsSomeAnd (text_to_come self.old.block (R.left reader.old)) (AdditionToCome self.old.block.previous) → ⊥) }
    {
        if self.number.value == 0 {
            return Err(ReadFault::Text { at: self.number.at });
        }
        read_clause(
            Spelling::Text,
            &mut self.bytes,
            reader,
            false,
            &mut self.spelled,
        )?;
        rename(&mut self.names, &self.spelled, &mut self.clause)?;
        read_clause(
            Spelling::Text,
            &mut self.bytes,
            reader,
            false,
            &mut self.hints,
        )
    }

    // Reads the numbers of the clauses that are deleted.
    fn deletion<R: Read>(&mut self, reader: &mut R) -> Result<(), ReadFault>
        ensures more { ReadsMore self.old self.new }
        ensures variables { self.new.variables ≡ self.old.variables }
        ensures clause { self.new.clause ≡ [] }
        ensures taken { OnOk result (TakesNumbers self.old.block self.new.block (R.left reader.old) (R.left reader.new)
            self.new.hints) }
        ensures refused { Refuses R.failures reader.old reader.new result
            (IsSomeAnd (text_to_come self.old.block (R.left reader.old)) (NumbersToCome self.old.block.previous) → ⊥) }
    {
        self.clause.clear();
        read_clause(
            Spelling::Text,
            &mut self.bytes,
            reader,
            false,
            &mut self.hints,
        )?;
        if !are_positive(&self.hints) {
            return Err(ReadFault::Text {
                at: self.bytes.at(),
            });
        }
        Ok(())
    }

    /// Reads the next step of a proof with hints, and returns what it does; `None` at the end. It rejects bytes that
    /// spell no step. Variables and memory are as in `next`.
    pub fn next_hinted<R: Read>(&mut self, reader: &mut R) -> Result<Option<StepKind>, ReadFault>
        ensures formula { self.new.formula ≡ self.old.formula }
        ensures variables { self.old.variables ≤ self.new.variables }
        ensures literals { AreLiterals self.new.variables self.new.clause }
        ensures count { R.failures reader.new ≡ R.failures reader.old + reads_failed result }
        ensures step { IfOk result (λ kind.
            ReadsHinted self.old self.new (R.left reader.old) (R.left reader.new) kind) }
        ensures refused { (at : ℕ) → result ≡ Err (ReadFault.Text at) → NoHintedStep self.old (R.left reader.old) }
    {
        let Some(number) = step_number(&mut self.bytes, reader)? else {
            return Ok(None);
        };
        let Some(kind) = text_kind(&mut self.bytes, reader)? else {
            return Err(ReadFault::Text {
                at: self.bytes.at(),
            });
        };
        self.number = number;
        match kind {
            StepKind::Add => {
                self.addition(reader)?;
                Ok(Some(StepKind::Add))
            }
            StepKind::Delete => {
                self.deletion(reader)?;
                Ok(Some(StepKind::Delete))
            }
        }
    }
}
