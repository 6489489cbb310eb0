//! What a refusal says.
ghost use Rattle.std.specs.Prelude.{◌≡◌, ◌≢◌, [], OnOk};
ghost use Rattle.aig_shell.specs.Answers.{IsRefusal};

use crate::answers::check::push_property;
use crate::pieces::{Piece, push_number, push_pieces};
use crate::refusal::Refusal;
use crate::session::Session;
use aig_base::{Circuit, Memory};
use aig_bench::EditFault;
use aig_prompt::is_binary;
use aig_signals::{Signal, push_first_name};

/// What an edit of the bench is refused for, in words.
fn edit_words(fault: EditFault) -> &'static [u8] {
    match fault {
        EditFault::NotAGate => b"not a gate",
        EditFault::NotALatch => b"not a latch",
        EditFault::Range => b"no such literal",
        EditFault::Undefined => b"a variable is not defined",
        EditFault::Cycle => b"the gates would form a cycle",
        EditFault::NoFrame => b"no such frame",
        EditFault::NoInput => b"no such input",
        EditFault::Length => b"not one value for each input",
        EditFault::Empty => b"no frame",
        EditFault::Limit => b"over a limit",
        EditFault::Memory => b"out of memory",
        EditFault::NoOutput => b"no such output",
    }
}

/// What comes after a number of bits: `bit`, or `bits`.
fn bit_word(bits: usize) -> Piece<'static> {
    if bits == 1 {
        Piece::Text(b" bit")
    } else {
        Piece::Text(b" bits")
    }
}

/// The signal of a name.
fn signal_named<'s>(signals: &'s [Signal], name: &[u8]) -> Option<&'s Signal> {
    for signal in signals {
        if signal.name.as_slice() == name {
            return Some(signal);
        }
    }
    None
}

/// Adds the first name of bit 0 of a vector, or its literal.
fn push_bit_0(text: &mut Vec<u8>, session: &Session, word: &[u8]) -> Result<(), Memory> {
    if let Some(signal) = signal_named(session.signals.as_slice(), word) {
        return push_first_name(text, session.circuit(), signal.kind, signal.first);
    }
    match session.literals(word) {
        Ok(literals) if !literals.is_empty() => push_number(text, u64::from(literals[0].value())),
        _ => Ok(()),
    }
}

/// Adds that a name is that of several bits, and the name of one of them.
fn push_vector(
    text: &mut Vec<u8>,
    session: &Session,
    word: &[u8],
    bits: usize,
) -> Result<(), Memory> {
    let words = [
        Piece::Shown(word),
        Piece::Text(b" has "),
        Piece::Number(bits as u64),
        bit_word(bits),
        Piece::Text(b"; name one, such as "),
    ];
    push_pieces(text, &words)?;
    push_bit_0(text, session, word)
}

/// Adds that there is no such name, and the nearest name, or how many contain the word.
fn push_no_name(text: &mut Vec<u8>, session: &Session, word: &[u8]) -> Result<(), Memory> {
    push_pieces(text, &[Piece::Text(b"no name "), Piece::Shown(word)])?;
    if session.push_near(text, word)? {
        return Ok(());
    }
    let count = session.count_listed(word)?;
    if count == 0 {
        return Ok(());
    }
    let words = [
        Piece::Text(b"; names "),
        Piece::Shown(word),
        Piece::Text(b" lists "),
        Piece::Number(count as u64),
        Piece::Text(b" that contain it"),
    ];
    push_pieces(text, &words)
}

/// How many bits a value says that it has: what stands before its `'`.
fn said_width(word: &[u8]) -> &[u8] {
    match word.iter().position(|byte| *byte == b'\'') {
        Some(end) => &word[..end],
        None => b"",
    }
}

/// Adds how many bits a value says that it has, and how many it should have.
fn push_other_width(text: &mut Vec<u8>, word: &[u8], bits: usize) -> Result<(), Memory> {
    let words = [
        Piece::Shown(word),
        Piece::Text(b" has "),
        Piece::Shown(said_width(word)),
        Piece::Text(b" bits, not "),
        Piece::Number(bits as u64),
    ];
    push_pieces(text, &words)
}

/// Adds that a number is over so many bits, and where it could be meant as binary how that is written.
fn push_wide(text: &mut Vec<u8>, word: &[u8], bits: usize) -> Result<(), Memory> {
    let words = [
        Piece::Shown(word),
        Piece::Text(b" is over "),
        Piece::Number(bits as u64),
        bit_word(bits),
    ];
    push_pieces(text, &words)?;
    if !is_binary(word, bits) {
        return Ok(());
    }
    let binary = [
        Piece::Text(b" (hexadecimal; "),
        Piece::Number(bits as u64),
        Piece::Text(b"'b"),
        Piece::Text(word),
        Piece::Text(b" is binary)"),
    ];
    push_pieces(text, &binary)
}

/// Adds that there is no such frame.
fn push_no_frame(text: &mut Vec<u8>, word: &[u8], frames: u32) -> Result<(), Memory> {
    push_pieces(text, &[Piece::Text(b"no frame "), Piece::Shown(word)])?;
    match frames.checked_sub(1) {
        Some(last) => {
            let words = [
                Piece::Text(b": the last is "),
                Piece::Number(u64::from(last)),
            ];
            push_pieces(text, &words)
        }
        None => {
            text.extend_from_slice(b": add makes one")?;
            Ok(())
        }
    }
}

/// Adds that a word is no value.
fn push_no_value(text: &mut Vec<u8>, word: &[u8], bits: usize) -> Result<(), Memory> {
    let words = [
        Piece::Shown(word),
        Piece::Text(b" is no value of "),
        Piece::Number(bits as u64),
        bit_word(bits),
    ];
    push_pieces(text, &words)
}

/// Adds a word between two texts.
fn push_said<'t>(
    text: &mut Vec<u8>,
    before: &'t [u8],
    word: &'t [u8],
    after: &'t [u8],
) -> Result<(), Memory> {
    let words = [Piece::Text(before), Piece::Shown(word), Piece::Text(after)];
    push_pieces(text, &words)
}

/// Adds a number between two texts.
fn push_counted<'t>(
    text: &mut Vec<u8>,
    before: &'t [u8],
    number: u32,
    after: &'t [u8],
) -> Result<(), Memory> {
    let words = [
        Piece::Text(before),
        Piece::Number(u64::from(number)),
        Piece::Text(after),
    ];
    push_pieces(text, &words)
}

/// Adds a word, and a text in two parts.
fn push_of<'t>(
    text: &mut Vec<u8>,
    word: &'t [u8],
    before: &'t [u8],
    after: &'t [u8],
) -> Result<(), Memory> {
    let words = [Piece::Shown(word), Piece::Text(before), Piece::Text(after)];
    push_pieces(text, &words)
}

/// Adds that a literal is over the greatest.
fn push_no_literal(text: &mut Vec<u8>, word: &[u8], greatest: u32) -> Result<(), Memory> {
    let words = [
        Piece::Text(b"no literal "),
        Piece::Shown(word),
        Piece::Text(b": the greatest is "),
        Piece::Number(u64::from(greatest)),
    ];
    push_pieces(text, &words)
}

/// Adds a text in two parts.
fn push_plain<'t>(text: &mut Vec<u8>, before: &'t [u8], after: &'t [u8]) -> Result<(), Memory> {
    push_pieces(text, &[Piece::Text(before), Piece::Text(after)])
}

/// Adds that a property is not reached, or none where none is meant.
fn push_not_reached(
    text: &mut Vec<u8>,
    circuit: &Circuit,
    property: Option<u32>,
) -> Result<(), Memory> {
    match property {
        Some(position) => {
            push_property(text, circuit, position)?;
            text.extend_from_slice(b" is not reached")?;
        }
        None => text.extend_from_slice(b"no property is reached")?,
    }
    text.extend_from_slice(b"; check says why")?;
    Ok(())
}

/// Adds why a line does nothing that does not tell what is wrong with a word.
fn push_other_words(text: &mut Vec<u8>, refusal: Refusal<'_>) -> Result<(), Memory> {
    match refusal {
        Refusal::Usage(topic) => push_plain(text, b"usage: ", topic.usage().as_bytes()),
        Refusal::NoFrames => push_plain(text, b"no frames; add makes one", b""),
        Refusal::FewFrames(frames) => push_counted(text, b"there are ", frames, b" frames"),
        Refusal::ManyFrames(most) => push_counted(text, b"over a limit: ", most, b" frames"),
        Refusal::Edit(fault) => push_plain(text, edit_words(fault), b""),
        Refusal::NotWritten { file, reason } => {
            push_of(text, file, b" is not written: ", reason.words().as_bytes())
        }
        _ => push_plain(text, b"out of memory", b""),
    }
}

/// Adds why a line does nothing.
fn push_words(text: &mut Vec<u8>, session: &Session, refusal: Refusal<'_>) -> Result<(), Memory> {
    match refusal {
        Refusal::NoCommand(word) => {
            push_said(text, b"no command ", word, b"; help lists the commands")
        }
        Refusal::NoName(word) => push_no_name(text, session, word),
        Refusal::NoLiteral { word, greatest } => push_no_literal(text, word, greatest),
        Refusal::Undefined(word) => push_said(text, b"nothing defines literal ", word, b""),
        Refusal::No { word, wanted } => push_of(text, word, b" is no ", wanted.name().as_bytes()),
        Refusal::Vector { word, bits } => push_vector(text, session, word, bits),
        Refusal::NotAFrame(word) => push_of(text, word, b" is no frame", b""),
        Refusal::NoFrame { word, frames } => push_no_frame(text, word, frames),
        Refusal::EmptySpan(word) => push_of(text, word, b" holds no frame", b""),
        Refusal::NoValue { word, bits } => push_no_value(text, word, bits),
        Refusal::OtherWidth { word, bits } => push_other_width(text, word, bits),
        Refusal::Wide { word, bits } => push_wide(text, word, bits),
        Refusal::NotACount(word) => push_of(text, word, b" is no number of frames", b""),
        Refusal::NotReached(property) => push_not_reached(text, session.circuit(), property),
        Refusal::NoneContains(word) => push_said(text, b"no name contains ", word, b""),
        _ => push_other_words(text, refusal),
    }
}

/// Adds why a line does nothing, and an LF.
fn push_reason(text: &mut Vec<u8>, session: &Session, refusal: Refusal<'_>) -> Result<(), Memory> {
    if let Refusal::OtherStart { latch, value } = refusal {
        return session.push_other_start(text, latch, value);
    }
    push_words(text, session, refusal)?;
    text.push(b'\n')?;
    Ok(())
}

/// Adds `no: `, and why a line does nothing. If memory runs out, it adds nothing.
pub(crate) fn push_refusal(
    text: &mut Vec<u8>,
    session: &Session,
    refusal: Refusal<'_>,
) -> Result<(), Memory>
    requires empty { text.old.items ≡ [] }
    ensures memory { OnOk result (refusal.entry ≢ Refusal.Memory) }
    ensures said { OnOk result (IsRefusal text.new.items) }
{
    match refusal {
        Refusal::Memory => Err(Memory),
        _ => {
            let mut reason = Vec::new(session.alloc);
            push_reason(&mut reason, session, refusal)?;
            text.extend_from_slice(b"no: ")?;
            text.extend_from_slice(reason.as_slice())?;
            Ok(())
        }
    }
}
