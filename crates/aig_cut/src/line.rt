//! A line of the text of cuts.
ghost use Rattle.std.specs.Prelude.{◌≡◌, ◌≢◌, ◌↔◌, ◌∷◌, ◌++◌, ℕ, List, None, decimal, All, IsTrue, IfSome, IfNone};
ghost use Rattle.aig_base.specs.Sections.{IsLatchLiteral, IsLeftSide};
ghost use Rattle.aig_cut.specs.Cuts.{IsCutIn};
ghost use Rattle.aig_cut.specs.Lines.{cut_line};
ghost use Rattle.aig_cut.specs.declared.line.Cut.{Cut as ACut};
ghost use Rattle.aig_cut.specs.state.Marks.{number_in};

use aig_base::{Circuit, Definition, Lit, line_length};
use aig_signals::decimal_of;

/// A part of a circuit that may be anything.
#[derive(Clone, Copy)]
pub(crate) enum Cut {
    /// The next states of the latch, or the values of the gate, of this literal.
    Free(Lit),
    /// The initial value of the latch of this literal.
    Start(Lit),
    /// The constraint at this position is not demanded.
    Constraint(u32),
}

// Whether a literal is the one of a latch.
fn is_latch(circuit: &Circuit, literal: Lit) -> bool
    ensures { IsTrue result ↔ IsLatchLiteral circuit.now literal }
{
    circuit.facts();
    match circuit.definition(literal.var()) {
        Some(Definition::Latch(position)) => {
            circuit.latches()[position as usize].lit.value() == literal.value()
        }
        Some(Definition::Input(_)) => false,
        Some(Definition::Gate(_)) => false,
        None => false,
    }
}

// Whether a literal is the left side of a gate.
fn is_gate(circuit: &Circuit, literal: Lit) -> bool
    ensures { IsTrue result ↔ IsLeftSide circuit.now literal }
{
    circuit.facts();
    match circuit.definition(literal.var()) {
        Some(Definition::Gate(position)) => {
            circuit.gates()[position as usize].lhs.value() == literal.value()
        }
        Some(Definition::Input(_)) => false,
        Some(Definition::Latch(_)) => false,
        None => false,
    }
}

// Whether the circuit has what is cut.
fn is_cut_in(circuit: &Circuit, cut: &Cut) -> bool
    ensures { IsTrue result ↔ IsCutIn circuit.now cut.now }
{
    match cut {
        Cut::Free(literal) => is_latch(circuit, *literal) || is_gate(circuit, *literal),
        Cut::Start(literal) => is_latch(circuit, *literal),
        Cut::Constraint(position) => (*position as usize) < circuit.constraints().len(),
    }
}

// The first byte of a line whose second is a blank, and the bytes after that.
fn letter_of(line: &[u8]) -> Option<(u8, &[u8])>
    ensures some { IfSome result (λ parts. line.now ≡ parts.0 ∷ 32 ∷ parts.1.now) }
    ensures none { IfNone result ((letter : ℕ) (word : List ℕ) → line.now ≢ letter ∷ 32 ∷ word) }
{
    if line.len() < 2 || line[1] != b' ' {
        return None;
    }
    Some((line[0], &line[2..]))
}

// What the letter and the number of a line cut.
fn cut_by(letter: u8, number: u32) -> Option<Cut>
    ensures some { IfSome result (λ cut. letter ∷ 32 ∷ decimal number ≡ cut_line cut) }
    ensures number { IfSome result (λ cut. number_in cut ≡ number) }
    ensures none { IfNone result ((cut : ACut) (word : List ℕ) → letter ∷ word ≢ cut_line cut) }
{
    match letter {
        b'f' => Some(Cut::Free(Lit::new(number))),
        b'r' => Some(Cut::Start(Lit::new(number))),
        b'c' => Some(Cut::Constraint(number)),
        _ => None,
    }
}

// What a line cuts.
fn cut_of_line(circuit: &Circuit, line: &[u8]) -> Option<Cut>
    ensures line { IfSome result (λ cut. line.now ≡ cut_line cut) }
    ensures there { IfSome result (IsCutIn circuit.now) }
    ensures none { result ≡ None → (cut : ACut) → IsCutIn circuit.now cut → line.now ≢ cut_line cut }
{
    circuit.facts();
    let (letter, word) = letter_of(line)?;
    let number = decimal_of(word)?;
    let cut = cut_by(letter, number)?;
    if is_cut_in(circuit, &cut) {
        Some(cut)
    } else {
        None
    }
}

// The first line of a text, without its LF, and what comes after it.
fn split_line(text: &[u8]) -> Option<(&[u8], &[u8])>
    ensures line { IfSome result (λ parts. All (λ b. b ≢ 10) parts.0.now) }
    ensures split { IfSome result (λ parts. text.now ≡ parts.0.now ++ 10 ∷ parts.1.now) }
    ensures none { IfNone result (All (λ b. b ≢ 10) text.now) }
{
    let end = line_length(text);
    if end == text.len() {
        None
    } else {
        Some((&text[..end], &text[end + 1..]))
    }
}

/// What the first line of a text cuts, and what comes after the line.
pub(crate) fn next_cut<'a>(circuit: &Circuit, text: &'a [u8]) -> Option<(Cut, &'a [u8])>
    ensures line { IfSome result (λ found. text.now ≡ cut_line found.0 ++ 10 ∷ found.1.now) }
    ensures there { IfSome result (λ found. IsCutIn circuit.now found.0) }
    ensures none { result ≡ None → (cut : ACut) (after : List ℕ) → IsCutIn circuit.now cut
        → text.now ≢ cut_line cut ++ 10 ∷ after }
{
    let (line, after) = split_line(text)?;
    let cut = cut_of_line(circuit, line)?;
    Some((cut, after))
}
