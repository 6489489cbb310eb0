//! What defines a literal.
ghost use Rattle.std.specs.Prelude.{◌≡◌, ◌++◌, ◌∷◌, ◌+◌, ◌*◌, ◌<◌, [], List, ℕ, OnOk, Some, codes, decimal, length};
ghost use Rattle.std.specs.Str.{bytes_eq};
ghost use Rattle.aig_parts.specs.Literal.{variable};
ghost use Rattle.aig_base.specs.Value.{reset_value};
ghost use Rattle.aig_base.specs.declared.circuit.definition.Definition.TheVariants as definitions;
ghost use Rattle.aig_values.specs.Characters.{character};
ghost use Rattle.aig_shell.specs.Defined.{IsDefinitionText, IsGateText, IsLiteralText, IsRewiredText, IsSide};
ghost use Rattle.aig_shell.specs.Defined.{entry_text, gate_head, head_text, latch_text, named_text, negated_text};
ghost use Rattle.aig_shell.specs.Defined.{sign_text};
ghost use Rattle.aig_shell.specs.Edits.{EndsEdit, has_edited};
ghost use Rattle.aig_shell.specs.Ends.{EndsQuery};
ghost use Rattle.aig_shell.specs.Pieces.{piece_text};
ghost use Rattle.aig_shell.specs.Request as request;
ghost use Rattle.aig_shell.specs.Session.{KeepsRest};

use crate::pieces::{Piece, push_number, push_pieces};
use crate::refusal::Refusal;
use crate::session::Session;
use aig_base::{Circuit, Definition, Gate, Kind, Latch, Lit, Memory, Tern};
use aig_signals::push_first_name;
use aig_sim::first_value;

/// Adds `!` where a literal is negated.
fn push_sign(text: &mut Vec<u8>, literal: Lit) -> Result<(), Memory>
    ensures { OnOk result (text.new.items ≡ text.old.items ++ sign_text literal) }
{
    if literal.is_neg() {
        text.push(b'!')?;
    }
    Ok(())
}

/// Adds a name, with `!` before it where its literal is negated.
fn push_entry(
    text: &mut Vec<u8>,
    circuit: &Circuit,
    literal: Lit,
    kind: Kind,
    position: u32,
) -> Result<(), Memory>
    ensures { OnOk result (text.new.items ≡ text.old.items ++ entry_text circuit.now literal kind position) }
{
    push_sign(text, literal)?;
    push_first_name(text, circuit, kind, position)
}

/// Adds a side: an input or a latch by its name, any other by its number.
fn push_side(text: &mut Vec<u8>, circuit: &Circuit, literal: Lit) -> Result<(), Memory>
    ensures { OnOk result ((side : List ℕ) × IsSide circuit.now literal side
        × (text.new.items ≡ text.old.items ++ side)) }
{
    match circuit.definition(literal.var()) {
        Some(Definition::Input(position)) => {
            push_entry(text, circuit, literal, Kind::Input, position)
        }
        Some(Definition::Latch(position)) => {
            push_entry(text, circuit, literal, Kind::Latch, position)
        }
        Some(Definition::Gate(_)) => push_number(text, u64::from(literal.value())),
        None => push_number(text, u64::from(literal.value())),
    }
}

/// The even literal of the same variable.
fn even(literal: Lit) -> Lit
    ensures { result ≡ 2 * variable literal }
{
    Lit::new(2 * literal.var())
}

/// The number of a literal.
fn number(literal: Lit) -> Piece<'static>
    ensures { piece_text result ≡ decimal literal }
{
    Piece::Number(u64::from(literal.value()))
}

/// Whether a name is the number of a literal.
fn is_number(name: &[u8], literal: Lit) -> bool
    ensures { result ≡ bytes_eq (decimal literal) name.now }
{
    let mut buffer = itoa::Buffer::new();
    buffer.format(literal.value()).as_bytes() == name
}

/// Adds `NAME = L`.
fn push_named(text: &mut Vec<u8>, name: &[u8], literal: Lit) -> Result<(), Memory>
    ensures { OnOk result (text.new.items ≡ text.old.items ++ named_text name.now literal) }
{
    let named = [Piece::Text(name), Piece::Text(b" = "), number(literal)];
    push_pieces(text, &named)
}

/// Adds `L = !M` for an odd L.
fn push_negated(text: &mut Vec<u8>, literal: Lit) -> Result<(), Memory>
    ensures { OnOk result (text.new.items ≡ text.old.items ++ negated_text literal) }
{
    let negated = [number(literal), Piece::Text(b" = !"), number(even(literal))];
    push_pieces(text, &negated)
}

/// Adds `NAME = L`, and where L is odd `, L = !M`; of a name that is the number of an odd literal the latter alone.
fn push_head(text: &mut Vec<u8>, name: &[u8], literal: Lit) -> Result<(), Memory>
    ensures { OnOk result (text.new.items ≡ text.old.items ++ head_text name.now literal) }
{
    if !literal.is_neg() {
        return push_named(text, name, literal);
    }
    if is_number(name, literal) {
        return push_negated(text, literal);
    }
    push_named(text, name, literal)?;
    text.extend_from_slice(b", ")?;
    push_negated(text, literal)
}

/// Adds what comes before the line of a gate: nothing where its name is its even number.
fn push_gate_head(text: &mut Vec<u8>, name: &[u8], literal: Lit) -> Result<(), Memory>
    ensures { OnOk result (text.new.items ≡ text.old.items ++ gate_head name.now literal) }
{
    if !literal.is_neg() && is_number(name, literal) {
        return Ok(());
    }
    push_head(text, name, literal)?;
    text.extend_from_slice(b", ")?;
    Ok(())
}

/// Adds the line of a gate, by the name of its literal: `NAME = L, L = A and B`.
fn push_gate(
    text: &mut Vec<u8>,
    circuit: &Circuit,
    name: &[u8],
    literal: Lit,
    gate: Gate,
) -> Result<(), Memory>
    ensures { OnOk result ((said : List ℕ) × IsGateText circuit.now name.now literal gate.rhs0 gate.rhs1 said
        × (text.new.items ≡ text.old.items ++ said)) }
{
    push_gate_head(text, name, literal)?;
    push_pieces(text, &[number(even(literal)), Piece::Text(b" = ")])?;
    push_side(text, circuit, gate.rhs0)?;
    text.extend_from_slice(b" and ")?;
    push_side(text, circuit, gate.rhs1)?;
    text.push(b'\n')?;
    Ok(())
}

/// The letter of a value.
pub(crate) fn letter(value: Tern) -> &'static [u8]
    ensures { result.now ≡ character value ∷ [] }
{
    match value {
        Tern::Zero => b"0",
        Tern::One => b"1",
        Tern::X => b"x",
    }
}

/// Adds what is known of a latch, which has the reset of its file.
fn push_latch(text: &mut Vec<u8>, circuit: &Circuit, latch: Latch) -> Result<(), Memory>
    ensures { OnOk result ((next : List ℕ) × IsSide circuit.now latch.next next
        × (text.new.items ≡ text.old.items ++ latch_text next (reset_value latch.reset))) }
{
    text.extend_from_slice(b": latch, next ")?;
    push_side(text, circuit, latch.next)?;
    let rest = [
        Piece::Text(b", reset "),
        Piece::Text(letter(first_value(latch))),
        Piece::Text(b"\n"),
    ];
    push_pieces(text, &rest)
}

/// Adds the line of an entry that is no latch and no gate.
fn push_kind(text: &mut Vec<u8>, name: &[u8], literal: Lit, kind: &[u8]) -> Result<(), Memory>
    ensures { OnOk result (text.new.items ≡ text.old.items ++ (head_text name.now literal ++ kind.now)) }
{
    push_head(text, name, literal)?;
    text.extend_from_slice(kind)?;
    Ok(())
}

/// The literal that an appended gate gets.
fn next_literal(circuit: &Circuit) -> u64
    ensures { result ≡ 2 * (circuit.now.max_var + 1) }
{
    u64::from(circuit.max_var()) * 2 + 2
}

/// Adds the line of an appended gate, its literal.
fn push_next(text: &mut Vec<u8>, circuit: &Circuit) -> Result<(), Memory>
    ensures { OnOk result (text.new.items ≡ text.old.items ++ (decimal (2 * (circuit.now.max_var + 1)) ++ 10 ∷ [])) }
{
    push_number(text, next_literal(circuit))?;
    text.push(b'\n')?;
    Ok(())
}

impl Session {
    /// Adds the line of a latch.
    fn push_latch(
        &self,
        text: &mut Vec<u8>,
        name: &[u8],
        literal: Lit,
        position: u32,
    ) -> Result<(), Memory>
        requires { position < length self.now.run.latches.items }
        ensures { OnOk result ((said : List ℕ) × IsDefinitionText self.now.run.bench.pair.circuit
            self.now.run.latches.items name.now literal (Some (definitions.Latch position)) said
            × (text.new.items ≡ text.old.items ++ said)) }
    {
        let latch = self.run.latches[position as usize];
        push_head(text, name, literal)?;
        push_latch(text, self.circuit(), latch)
    }

    /// Adds the line of a literal that is called by a name.
    fn push_definition(&self, text: &mut Vec<u8>, name: &[u8], literal: Lit) -> Result<(), Memory>
        ensures { OnOk result ((said : List ℕ) × IsLiteralText self.now.run.bench.pair.circuit
            self.now.run.latches.items name.now literal said × (text.new.items ≡ text.old.items ++ said)) }
    {
        let circuit = self.circuit();
        match circuit.definition(literal.var()) {
            Some(Definition::Gate(position)) => {
                let gate = circuit.gates()[position as usize];
                push_gate(text, circuit, name, literal, gate)
            }
            Some(Definition::Latch(position)) => self.push_latch(text, name, literal, position),
            Some(Definition::Input(_)) => push_kind(text, name, literal, b": input\n"),
            None => push_kind(text, name, literal, b": constant\n"),
        }
    }

    /// Adds what defines the literal of a name.
    pub(crate) fn gate<'a>(&self, text: &mut Vec<u8>, name: &'a [u8]) -> Result<(), Refusal<'a>>
        requires empty { text.old.items ≡ [] }
        ensures { EndsQuery self.now (request.gate name.now) result text.new.items }
    {
        let literal = self.literal(name)?;
        self.push_definition(text, name, literal)?;
        Ok(())
    }

    /// Gives a gate other sides, and adds what defines it then.
    pub(crate) fn rewire<'a>(
        &mut self,
        text: &mut Vec<u8>,
        name: &'a [u8],
        side0: &'a [u8],
        side1: &'a [u8],
    ) -> Result<(), Refusal<'a>>
        requires empty { text.old.items ≡ [] }
        ensures edits { EndsEdit self.old.run.bench.pair (request.rewire name.now side0.now side1.now) result
            self.new.run.bench.pair }
        ensures text { OnOk result (IsRewiredText self.old.run.bench.pair.circuit name.now side0.now side1.now
            text.new.items) }
        ensures rest { KeepsRest self.old (has_edited self.old.has_edited_circuit result) self.new }
    {
        let literal = self.literal(name)?;
        let side0 = self.literal(side0)?;
        let side1 = self.literal(side1)?;
        let gate = Gate {
            lhs: literal,
            rhs0: side0,
            rhs1: side1,
        };
        // Its contract says that it is a circuit.
        self.circuit().facts();
        // The line is made first: an edit whose line finds no memory is not done.
        push_gate(text, self.circuit(), name, literal, gate)?;
        self.run.bench.rewire(literal, side0, side1)?;
        self.has_edited_circuit = true;
        Ok(())
    }

    /// Appends a gate, and adds its literal.
    pub(crate) fn new_gate<'a>(
        &mut self,
        text: &mut Vec<u8>,
        side0: &'a [u8],
        side1: &'a [u8],
    ) -> Result<(), Refusal<'a>>
        ensures edits { EndsEdit self.old.run.bench.pair (request.append side0.now side1.now) result
            self.new.run.bench.pair }
        ensures text { OnOk result (text.new.items ≡ text.old.items ++
            (decimal (2 * (self.old.run.bench.pair.circuit.max_var + 1)) ++ 10 ∷ [])) }
        ensures rest { KeepsRest self.old (has_edited self.old.has_edited_circuit result) self.new }
    {
        let side0 = self.literal(side0)?;
        let side1 = self.literal(side1)?;
        // Its contract says that it is a circuit.
        self.circuit().facts();
        push_next(text, self.circuit())?;
        self.run.bench.append_gate(side0, side1)?;
        self.has_edited_circuit = true;
        Ok(())
    }
}
