//! Commands of a script.
ghost use Rattle.std.specs.Prelude.{◌≡◌, ◌≢◌, ◌+◌, ◌*◌, ◌^◌, ◌<◌, ◌≤◌, ℕ, List, ◌∷◌, ◌++◌, [], codes, IfSome, IfNone};
ghost use Rattle.std.specs.Fmt.{decimal};
ghost use Rattle.aig_parts.specs.declared.ternary.Tern.{Tern};
ghost use Rattle.aig_values.specs.Characters.{character};
ghost use Rattle.aig_script.specs.Command.{command_text, IsCommand, IsNoCommand};
ghost use Rattle.aig_script.specs.state.CommandMeaning.{meaning};
ghost use Rattle.aig_script.specs.state.Fields.{IsNumber, number_field, rewire_fields, reset_fields, bit_fields};
ghost use Rattle.aig_script.specs.state.Fields.{two_fields};
ghost use Rattle.aig_script.specs.state.Numbers.{EndsNumber};
ghost use Rattle.aig_script.specs.ScriptLine.{BeginsRow};

use aig_base::{Lit, Tern};

/// A number below this one is at most `u32::MAX` with any further digit.
const TENTH: u32 = 429_496_729;

/// What a line of a script asks for, where it appends no frame.
#[derive(Clone, Copy, PartialEq, Eq, Debug)]
pub enum ScriptCommand {
    /// `w G R0 R1`: the gate of a literal gets these right sides.
    Rewire {
        gate: Lit,
        right0: Lit,
        right1: Lit,
    },
    /// `r L V`: the latch of a literal gets this reset, where x is uninitialised.
    SetReset {
        latch: Lit,
        value: Tern,
    },
    /// `s T P V`: the stimulus has this value at a frame and a position.
    SetBit {
        frame: u32,
        position: u32,
        value: Tern,
    },
    /// `-`: the last frame is taken off.
    DropFrame,
    /// `g R0 R1`: a gate with these right sides is appended.
    AppendGate {
        right0: Lit,
        right1: Lit,
    },
    /// `o P L`: the output at a position becomes this literal.
    SetOutput {
        position: u32,
        literal: Lit,
    },
    /// `v T L`: the value of a literal at a frame.
    Value {
        frame: u32,
        literal: Lit,
    },
    /// `t`: the trace.
    Trace,
    /// `u`: the circuit unrolled for all frames.
    Unroll,
}

/// A number with one more digit, where that is at most `u32::MAX`. A look at the number mostly shows that it is.
#[inline(always)]
fn with_digit(number: u32, digit: u32) -> Option<u32>
    requires { digit ≤ 9 }
    ensures some { IfSome result (λ longer. longer ≡ number * 10 + digit) }
    ensures fits { IfSome result (λ _. number * 10 + digit < 2 ^ 32) }
    ensures none { IfNone result (2 ^ 32 ≤ number * 10 + digit) }
{
    if number < TENTH {
        return Some(number * 10 + digit);
    }
    let longer = number as u64 * 10 + digit as u64;
    if longer > u32::MAX as u64 {
        return None;
    }
    Some(longer as u32)
}

/// The number whose digits are those of another one and then those in front, and what follows them. There is none where
/// the number is over `u32::MAX`.
fn longer_number(first: u32, bytes: &[u8]) -> Option<(u32, &[u8])>
    requires { 0 < first }
    ensures some { IfSome result (λ parts. decimal first ++ bytes.now ≡ decimal parts.0 ++ parts.1.now) }
    ensures ends { IfSome result (λ parts. EndsNumber parts.1.now) }
    ensures none { IfNone result ((n : ℕ) (rest : List ℕ) → IsNumber n → EndsNumber rest →
        decimal first ++ bytes.now ≢ decimal n ++ rest) }
{
    let mut number = first;
    let mut at = 0;
    while at < bytes.len() && bytes[at].is_ascii_digit() {
        let longer = with_digit(number, (bytes[at] - b'0') as u32)?;
        number = longer;
        at += 1;
    }
    Some((number, &bytes[at..]))
}

/// The number in front, of as many digits as there are, and what follows it. It has no leading zeros, and is at most
/// `u32::MAX`.
fn split_number(bytes: &[u8]) -> Option<(u32, &[u8])>
    ensures some { IfSome result (λ parts. bytes.now ≡ decimal parts.0 ++ parts.1.now) }
    ensures ends { IfSome result (λ parts. EndsNumber parts.1.now) }
    ensures none { IfNone result ((n : ℕ) (rest : List ℕ) → IsNumber n → EndsNumber rest →
        bytes.now ≢ decimal n ++ rest) }
{
    let (first, rest) = bytes.split_first()?;
    if !first.is_ascii_digit() {
        return None;
    }
    if *first > b'0' {
        return longer_number((*first - b'0') as u32, rest);
    }
    match rest {
        [next, ..] if next.is_ascii_digit() => None,
        _ => Some((0, rest)),
    }
}

/// The number that the bytes are: decimal digits without leading zeros, at most `u32::MAX`.
fn parse_number(bytes: &[u8]) -> Option<u32>
    ensures some { IfSome result (λ n. bytes.now ≡ decimal n) }
    ensures none { IfNone result ((n : ℕ) → IsNumber n → bytes.now ≢ decimal n) }
{
    let (number, rest) = split_number(bytes)?;
    if rest.is_empty() { Some(number) } else { None }
}

/// The number in front, and what follows the space that ends it.
fn parse_field(bytes: &[u8]) -> Option<(u32, &[u8])>
    ensures some { IfSome result (λ parts. bytes.now ≡ number_field parts.0 parts.1.now) }
    ensures only { IfSome result (λ parts. (n : ℕ) (rest : List ℕ) → IsNumber n → bytes.now ≡ number_field n rest →
        parts.1.now ≡ rest) }
    ensures none { IfNone result ((n : ℕ) (rest : List ℕ) → IsNumber n → bytes.now ≢ number_field n rest) }
{
    let (number, rest) = split_number(bytes)?;
    let (end, after) = rest.split_first()?;
    if *end == b' ' {
        Some((number, after))
    } else {
        None
    }
}

/// The value that the bytes are: `0`, `1` or `x`.
fn parse_value(bytes: &[u8]) -> Option<Tern>
    ensures some { IfSome result (λ w. bytes.now ≡ character w ∷ []) }
    ensures none { IfNone result ((w : Tern) → bytes.now ≢ character w ∷ []) }
{
    match bytes {
        [b'0'] => Some(Tern::Zero),
        [b'1'] => Some(Tern::One),
        [b'x'] => Some(Tern::X),
        _ => None,
    }
}

/// What follows `w `.
fn parse_rewire(fields: &[u8]) -> Option<ScriptCommand>
    ensures some { IfSome result (λ c. IsCommand (meaning c) × (codes "w " ++ fields.now ≡ command_text (meaning c))) }
    ensures none { IfNone result ((g a b : ℕ) → IsNumber g → IsNumber a → IsNumber b →
        fields.now ≢ rewire_fields g a b) }
{
    let (gate, rest) = parse_field(fields)?;
    let (right0, last) = parse_field(rest)?;
    Some(ScriptCommand::Rewire {
        gate: Lit::new(gate),
        right0: Lit::new(right0),
        right1: Lit::new(parse_number(last)?),
    })
}

/// What follows `r `.
fn parse_reset(fields: &[u8]) -> Option<ScriptCommand>
    ensures some { IfSome result (λ c. IsCommand (meaning c) × (codes "r " ++ fields.now ≡ command_text (meaning c))) }
    ensures none { IfNone result ((l : ℕ) (w : Tern) → IsNumber l → fields.now ≢ reset_fields l w) }
{
    let (latch, last) = parse_field(fields)?;
    Some(ScriptCommand::SetReset {
        latch: Lit::new(latch),
        value: parse_value(last)?,
    })
}

/// What follows `s `.
fn parse_bit(fields: &[u8]) -> Option<ScriptCommand>
    ensures some { IfSome result (λ c. IsCommand (meaning c) × (codes "s " ++ fields.now ≡ command_text (meaning c))) }
    ensures none { IfNone result ((t p : ℕ) (w : Tern) → IsNumber t → IsNumber p → fields.now ≢ bit_fields t p w) }
{
    let (frame, rest) = parse_field(fields)?;
    let (position, last) = parse_field(rest)?;
    Some(ScriptCommand::SetBit {
        frame,
        position,
        value: parse_value(last)?,
    })
}

/// What follows `g `.
fn parse_append(fields: &[u8]) -> Option<ScriptCommand>
    ensures some { IfSome result (λ c. IsCommand (meaning c) × (codes "g " ++ fields.now ≡ command_text (meaning c))) }
    ensures none { IfNone result ((a b : ℕ) → IsNumber a → IsNumber b → fields.now ≢ two_fields a b) }
{
    let (right0, last) = parse_field(fields)?;
    Some(ScriptCommand::AppendGate {
        right0: Lit::new(right0),
        right1: Lit::new(parse_number(last)?),
    })
}

/// What follows `o `.
fn parse_output(fields: &[u8]) -> Option<ScriptCommand>
    ensures some { IfSome result (λ c. IsCommand (meaning c) × (codes "o " ++ fields.now ≡ command_text (meaning c))) }
    ensures none { IfNone result ((p l : ℕ) → IsNumber p → IsNumber l → fields.now ≢ two_fields p l) }
{
    let (position, literal) = parse_field(fields)?;
    Some(ScriptCommand::SetOutput {
        position,
        literal: Lit::new(parse_number(literal)?),
    })
}

/// What follows `v `.
fn parse_question(fields: &[u8]) -> Option<ScriptCommand>
    ensures some { IfSome result (λ c. IsCommand (meaning c) × (codes "v " ++ fields.now ≡ command_text (meaning c))) }
    ensures none { IfNone result ((t l : ℕ) → IsNumber t → IsNumber l → fields.now ≢ two_fields t l) }
{
    let (frame, literal) = parse_field(fields)?;
    Some(ScriptCommand::Value {
        frame,
        literal: Lit::new(parse_number(literal)?),
    })
}

/// The command that a line spells, without its LF. A line that appends a frame is none of these.
pub fn parse_command(line: &[u8]) -> Option<ScriptCommand>
    ensures some { IfSome result (λ c. IsCommand (meaning c) × (line.now ≡ command_text (meaning c))) }
    ensures none { IfNone result ((BeginsRow line.now → ⊥) → IsNoCommand line.now) }
{
    match line {
        [b'w', b' ', fields @ ..] => parse_rewire(fields),
        [b'r', b' ', fields @ ..] => parse_reset(fields),
        [b's', b' ', fields @ ..] => parse_bit(fields),
        [b'g', b' ', fields @ ..] => parse_append(fields),
        [b'o', b' ', fields @ ..] => parse_output(fields),
        [b'v', b' ', fields @ ..] => parse_question(fields),
        [b'-'] => Some(ScriptCommand::DropFrame),
        [b't'] => Some(ScriptCommand::Trace),
        [b'u'] => Some(ScriptCommand::Unroll),
        _ => None,
    }
}
