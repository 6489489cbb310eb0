//! Reading models.
ghost use Rattle.std.specs.Prelude.{◌≡◌, ◌≢◌, ◌↔◌, ◌+◌, ◌-◌, ◌<◌, ◌≤◌, ◌∷◌, ◌++◌, ℕ, List, [], take, Contains, None};
ghost use Rattle.std.specs.Prelude.{Some, Err, IfErr, IfOk, IfSome, IsTrue, OnOk, false, slice_get};
ghost use Rattle.aig_parts.specs.Literal.{negation, variable};
ghost use Rattle.aig_parts.specs.declared.ternary.Tern.{Tern};
ghost use Rattle.aig_sat.specs.model.ModelText.{BeginsLine, HasStatus, IsModelOf, IsSpace, SaysSatisfiable};
ghost use Rattle.aig_sat.specs.model.ModelText.{SaysUnknown, SaysUnsatisfiable, number_text};
ghost use Rattle.aig_sat.specs.model.Named.{AreNamed};
ghost use Rattle.aig_sat.specs.model.state.Reading.{BeginsLineAt, GoesOn, HasRead, IsAnswerByte, ReadUpTo, Says};
ghost use Rattle.aig_sat.specs.model.state.Reading.{TakesAt};

use crate::model::assignment::Assignment;
use crate::model::fault::ModelFault;
use crate::model::number::parse_literal;
use crate::model::place::TextPlace;
use crate::model::progress::Reader;
use std::alloc::Global;

/// How far the text of a model was read.
#[derive(Clone, Copy, PartialEq, Eq)]
pub enum Phase {
    /// Before the line that says that there is a model, and before all literals.
    Before,
    /// Within the literals.
    Within,
    /// After the 0.
    After,
}

/// What a solver answers.
#[derive(Clone, Copy, PartialEq, Eq)]
pub enum Answer {
    Satisfiable,
    Unsatisfiable,
    Unknown,
}

// What a solver's line says.
fn answer_of(line: &[u8]) -> Option<Answer>
    ensures says { IfSome result (Says line.now) }
    ensures none { result ≡ None → SaysSatisfiable line.now → ⊥ }
{
    if line == b"s SATISFIABLE".as_slice()
        || line == b"SATISFIABLE".as_slice()
        || line == b"SAT".as_slice()
    {
        return Some(Answer::Satisfiable);
    }
    if line == b"s UNSATISFIABLE".as_slice()
        || line == b"UNSATISFIABLE".as_slice()
        || line == b"UNSAT".as_slice()
    {
        return Some(Answer::Unsatisfiable);
    }
    if line == b"s UNKNOWN".as_slice() || line == b"INDETERMINATE".as_slice() {
        return Some(Answer::Unknown);
    }
    None
}

// Rejects a line by which a solver answers, unless it says that there is a model.
fn check_answer(line: &[u8], at: u64) -> Result<(), ModelFault>
    ensures satisfiable { OnOk result (SaysSatisfiable line.now) }
    ensures unsatisfiable { result ≡ Err ModelFault.Unsatisfiable → SaysUnsatisfiable line.now }
    ensures unknown { result ≡ Err ModelFault.Unknown → SaysUnknown line.now }
    ensures refused { (a : ℕ) → result ≡ Err (ModelFault.Text a) → SaysSatisfiable line.now → ⊥ }
{
    match answer_of(line) {
        Some(Answer::Satisfiable) => Ok(()),
        Some(Answer::Unsatisfiable) => Err(ModelFault::Unsatisfiable),
        Some(Answer::Unknown) => Err(ModelFault::Unknown),
        None => Err(ModelFault::Text(at)),
    }
}

// Whether a line that begins so may be a solver's answer.
fn is_answer_byte(first: u8) -> bool
    ensures { IsTrue result ↔ IsAnswerByte first }
{
    first == b's' || first == b'S' || first == b'U' || first == b'I'
}

// Whether a line begins, and is a comment.
fn is_comment(begins_line: bool, first: u8) -> bool
    ensures { IsTrue result ↔ IsTrue begins_line × (first ≡ 99) }
{
    begins_line && first == b'c'
}

// Whether a line begins, and the word is the one that may stand there before literals.
fn is_mark(begins_line: bool, word: &[u8]) -> bool
    ensures { IsTrue result ↔ IsTrue begins_line × (word.now ≡ 118 ∷ []) }
{
    begins_line && word == b"v".as_slice()
}

// Whether a word ends the literals.
fn is_end(word: &[u8]) -> bool
    ensures { IsTrue result ↔ word.now ≡ 48 ∷ [] }
{
    word == b"0".as_slice()
}

impl Reader {
    // Nothing was read.
    fn new(alloc: Global, variables: u32) -> Result<Reader, ModelFault>
        requires { variables ≤ 2147483648 }
        ensures nothing { IfOk result (λ reader. HasRead reader [] []) }
        ensures count { IfOk result (λ reader. reader.variables ≡ variables) }
        ensures memory { IfErr result (λ fault. fault ≡ ModelFault.Memory) }
    {
        Ok(Reader {
            values: Assignment::new(alloc, variables)?,
            variables,
            phase: Phase::Before,
        })
    }

    // Reads a literal, and answers whether the word is one.
    fn take_literal(&mut self, word: &[u8]) -> bool
        requires { self.old.phase ≢ Phase.After }
        ensures goes_on { IsTrue result → (b : ℕ) → IsSpace b → GoesOn self.old self.new word.now b }
        ensures refused { result ≡ false → (l : ℕ) → variable l < self.old.variables → word.now ≡ number_text l →
            (literals : List ℕ) → AreNamed literals self.old.variables self.old.values →
            Contains literals (negation l) }
        ensures count { self.new.variables ≡ self.old.variables }
    {
        self.phase = Phase::Within;
        match parse_literal(word, self.variables) {
            Some(literal) => self.values.name(literal),
            None => false,
        }
    }

    // Reads a word that is not empty, and answers whether it may stand there. It may be a `v` where a line begins.
    fn take_word(&mut self, word: &[u8], begins_line: bool) -> bool
        ensures goes_on { IsTrue result → (b : ℕ) → IsSpace b → (text literals : List ℕ) →
            (IsTrue begins_line → BeginsLine text) → HasRead self.old text literals →
            (more : List ℕ) × HasRead self.new (text ++ (word.now ++ b ∷ [])) more }
        ensures no_mark { result ≡ false → self.old.phase ≢ Phase.After → IsTrue begins_line → word.now ≢ 118 ∷ [] }
        ensures no_end { result ≡ false → self.old.phase ≢ Phase.After → word.now ≢ 48 ∷ [] }
        ensures no_literal { result ≡ false → self.old.phase ≢ Phase.After → (l : ℕ) →
            variable l < self.old.variables → word.now ≡ number_text l → (literals : List ℕ) →
            AreNamed literals self.old.variables self.old.values → Contains literals (negation l) }
        ensures count { self.new.variables ≡ self.old.variables }
    {
        if self.phase == Phase::After {
            return false;
        }
        if is_mark(begins_line, word) {
            return true;
        }
        if is_end(word) {
            self.phase = Phase::After;
            return true;
        }
        self.take_literal(word)
    }

    // Whether a line begins by which a solver may answer.
    fn may_answer(&self, begins_line: bool, first: u8) -> bool
        ensures { IsTrue result ↔ IsTrue begins_line × ((self.now.phase ≡ Phase.Before) × IsAnswerByte first) }
    {
        begins_line && self.phase == Phase::Before && is_answer_byte(first)
    }

    // Reads the line at a place by which a solver answers, and gives the place after it.
    fn take_line(&mut self, place: TextPlace<'_>) -> Result<usize, ModelFault>
        requires first { (x : ℕ) → slice_get (place.text.now ++ 10 ∷ []) place.at ≡ Some x → IsAnswerByte x }
        requires begins { BeginsLine (take place.at (place.text.now ++ 10 ∷ [])) }
        requires before { self.old.phase ≡ Phase.Before }
        ensures { TakesAt self.old self.new place.entry.text.now place.entry.at result }
    {
        let end = place.line_end();
        check_answer(&place.text[place.at..end], place.at as u64)?;
        self.phase = Phase::Within;
        Ok(end + 1)
    }

    // Reads the word or the space at a place, and gives the place after it, or none where no such word may stand there.
    fn take_piece(&mut self, place: TextPlace<'_>, begins: bool) -> Option<usize>
        requires { IsTrue begins ↔ BeginsLine (take place.at (place.text.now ++ 10 ∷ [])) }
        ensures goes_on { IfSome result
            (λ next. ReadUpTo self.old place.entry.text.now place.entry.at →
            ReadUpTo self.new place.entry.text.now next) }
        ensures after { IfSome result (λ next. place.entry.at < next) }
        ensures count { self.new.variables ≡ self.old.variables }
        ensures refused { result ≡ None → ReadUpTo self.old place.entry.text.now place.entry.at → (values : List Tern) →
            IsModelOf self.old.variables place.entry.text.now values →
            BeginsLineAt self.old place.entry.text.now place.entry.at }
    {
        let end = place.word_end();
        if end == place.at {
            return Some(end + 1);
        }
        if self.take_word(&place.text[place.at..end], begins) {
            Some(end + 1)
        } else {
            None
        }
    }

    // Reads what is at a place up to the space that ends it, and gives the place after that.
    fn take(&mut self, place: TextPlace<'_>) -> Result<usize, ModelFault>
        ensures { TakesAt self.old self.new place.entry.text.now place.entry.at result }
    {
        let first = place.byte();
        let begins = place.begins_line();
        if is_comment(begins, first) {
            let rest = TextPlace {
                text: place.text,
                at: place.at + 1,
            };
            return Ok(rest.line_end() + 1);
        }
        if self.may_answer(begins, first) {
            return self.take_line(place);
        }
        match self.take_piece(place, begins) {
            Some(next) => Ok(next),
            None => Err(ModelFault::Text(place.at as u64)),
        }
    }
}

/// The values that the text of a model gives to so many variables, which its literals count from 1. Blanks, tabs and
/// line ends separate the literals, up to a `0`; lines that begin with `c` are skipped, and a `v` may begin any other.
/// A line that says that there is a model may stand before the literals. It takes a byte a variable. It refuses a text
/// as `Text` only if it is no model, and as `Unsatisfiable` or `Unknown` only if a solver's line says so.
pub fn read_model(alloc: Global, text: &[u8], variables: u32) -> Result<Assignment, ModelFault>
    requires { variables ≤ 2147483648 }
    ensures named { IfOk result (IsModelOf variables text.now) }
    ensures refused { (at : ℕ) → result ≡ Err (ModelFault.Text at) → (values : List Tern) →
        IsModelOf variables text.now values → ⊥ }
    ensures unsatisfiable { result ≡ Err ModelFault.Unsatisfiable → HasStatus SaysUnsatisfiable variables text.now }
    ensures unknown { result ≡ Err ModelFault.Unknown → HasStatus SaysUnknown variables text.now }
{
    let mut reader = Reader::new(alloc, variables)?;
    let mut at = 0;
    while at <= text.len() {
        at = reader.take(TextPlace { text, at })?;
    }
    if reader.phase != Phase::After {
        return Err(ModelFault::Text(text.len() as u64));
    }
    Ok(reader.values)
}
