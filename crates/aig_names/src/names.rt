//! Names of signals, as a circuit has them and as a dump shows them.
ghost use Rattle.std.specs.Prelude.{◌≡◌, ◌≢◌, ℕ, ◌++◌, ◌<◌, ◌≤◌, [], ◌∷◌, length, slice_index, MatchOption, OnOk};
ghost use Rattle.std.specs.Prelude.{AllPairs, decimal};
ghost use Rattle.std.specs.Map.{keys_of};
ghost use Rattle.aig_parts.specs.Letters.{letter};
ghost use Rattle.aig_names.specs.Names.{words, as_name, name_byte, names_of, symbol_of};
ghost use Rattle.aig_names.specs.state.Naming.{name_text, names_left, names_size};

use aig_bytes::Memory;
use aig_parts::{Kind, Symbols};
use itoa::Buffer;

/// A name of a signal.
#[derive(Clone, Copy, Drop)]
pub enum Name<'a> {
    /// A word of its symbol.
    Word(&'a [u8]),
    /// The letter of its section, and its position there.
    Position(Kind, u32),
}

/// Names of a signal that are not declared yet.
#[derive(Clone, Copy, Drop)]
pub enum Names<'a> {
    /// The words of a text.
    Words(&'a [u8]),
    /// The one name of an entry whose symbol has no word.
    Position(Kind, u32),
}

/// A word of a symbol, and the text after it.
#[derive(Clone, Copy, Drop)]
pub struct FirstWord<'a> {
    pub word: &'a [u8],
    pub rest: &'a [u8],
}

/// A name, and the names after it.
#[derive(Clone, Copy, Drop)]
pub struct FirstName<'a> {
    pub name: Name<'a>,
    pub rest: Names<'a>,
}

// How many blanks a text begins with.
fn count_blanks(text: &[u8]) -> usize
    ensures within { result ≤ length text.now }
    ensures blanks { (k : ℕ) → k < result → slice_index text.now k ≡ 32 }
    ensures first { result < length text.now → slice_index text.now result ≢ 32 }
{
    for (place, byte) in text.iter().enumerate() {
        if *byte != b' ' {
            return place;
        }
    }
    text.len()
}

// How many bytes a text has before its first blank.
fn count_word(text: &[u8]) -> usize
    ensures within { result ≤ length text.now }
    ensures word { (k : ℕ) → k < result → slice_index text.now k ≢ 32 }
    ensures end { result < length text.now → slice_index text.now result ≡ 32 }
{
    for (place, byte) in text.iter().enumerate() {
        if *byte == b' ' {
            return place;
        }
    }
    text.len()
}

/// The first word of a symbol, or of the text after one of its words. A symbol of blanks has none.
pub fn first_word(text: &[u8]) -> Option<FirstWord<'_>>
    ensures { MatchOption result (words text.now ≡ [])
        (λ first. (words text.now ≡ first.word.now ∷ words first.rest.now)
        × (length first.rest.now < length text.now)) }
{
    let word = &text[count_blanks(text)..];
    let size = count_word(word);
    if size == 0 {
        return None;
    }
    Some(FirstWord {
        word: &word[..size],
        rest: &word[size..],
    })
}

/// The symbol of the entry at a position of a section; no bytes where it has none.
pub fn symbol_at(symbols: &Symbols, kind: Kind, position: u32) -> &[u8]
    requires once { AllPairs (λ x y. x ≢ y) (keys_of symbols.now) }
    ensures { result.now ≡ symbol_of symbols.now kind position }
{
    match symbols.get(kind, position) {
        Some(symbol) => symbol,
        None => b"",
    }
}

/// The names of the entry at a position of a section.
pub fn names_at(symbols: &Symbols, kind: Kind, position: u32) -> Names<'_>
    requires once { AllPairs (λ x y. x ≢ y) (keys_of symbols.now) }
    ensures { names_left result ≡ names_of symbols.now kind position }
{
    let symbol = symbol_at(symbols, kind, position);
    match first_word(symbol) {
        Some(_) => Names::Words(symbol),
        None => Names::Position(kind, position),
    }
}

/// The first of these names.
pub fn first_name(names: Names<'_>) -> Option<FirstName<'_>>
    ensures { MatchOption result (names_left names.entry ≡ []) (λ first.
        (names_left names.entry ≡ name_text first.name ∷ names_left first.rest)
        × (names_size first.rest < names_size names.entry)) }
{
    match names {
        Names::Position(kind, position) => Some(FirstName {
            name: Name::Position(kind, position),
            rest: Names::Words(b""),
        }),
        Names::Words(text) => {
            let first = first_word(text)?;
            Some(FirstName {
                name: Name::Word(first.word),
                rest: Names::Words(first.rest),
            })
        }
    }
}

// A byte of a word as a name has it.
fn shown_as(before: u8, byte: u8) -> u8
    ensures { result ≡ name_byte before byte }
{
    if byte < 33 || byte > 126 || byte == b':' || (before == b'.' && byte == b'$') {
        b'_'
    } else {
        byte
    }
}

// Adds a word as a name.
fn push_word(text: &mut Vec<u8>, word: &[u8]) -> Result<(), Memory>
    ensures { OnOk result (text.new.items ≡ text.old.items ++ as_name word.now) }
{
    let mut before = b'.';
    for byte in word {
        text.push(shown_as(before, *byte))?;
        before = *byte;
    }
    Ok(())
}

/// Adds the letter of a section and a position.
pub fn push_position(text: &mut Vec<u8>, kind: Kind, position: u32) -> Result<(), Memory>
    ensures { OnOk result (text.new.items ≡ text.old.items ++ letter kind ∷ decimal position) }
{
    let mut buffer = Buffer::new();
    text.push(kind.letter())?;
    text.extend_from_slice(buffer.format(position).as_bytes())?;
    Ok(())
}

/// Puts a name in place of what the buffer holds.
pub fn show(buffer: &mut Vec<u8>, name: Name<'_>) -> Result<(), Memory>
    ensures { OnOk result (buffer.new.items ≡ name_text name.entry) }
{
    buffer.clear();
    match name {
        Name::Word(word) => push_word(buffer, word),
        Name::Position(kind, position) => push_position(buffer, kind, position),
    }
}
