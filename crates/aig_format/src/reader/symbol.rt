//! The symbols and the comment.
ghost use Rattle.std.specs.Prelude.{◌≡◌, ◌≢◌, ℕ, ◌<◌, ◌≤◌, List, [], ◌∷◌, ◌++◌, length, take, drop, slice_get, Ok, IfOk};
ghost use Rattle.std.specs.Prelude.{OnOk, Option, Some, IfSome, IfNone, All, Contains};
ghost use Rattle.std.specs.Map.{keys_of};
ghost use Rattle.aig_parts.specs.Formed.{IsName};
ghost use Rattle.aig_parts.specs.Letters.{letter};
ghost use Rattle.aig_format.specs.Spelling.{symbol_line};
ghost use Rattle.aig_format.specs.Spells.{greatest};
ghost use Rattle.aig_format.specs.state.Fits.{AreSymbols};
ghost use Rattle.aig_format.specs.state.ReadingNames.{count_of, kind_of, after_c_at, letter_at, line_at, name_at};
ghost use Rattle.aig_format.specs.state.ReadingNames.{position_at, entry_at, symbol_at, symbols_at, names_at};
ghost use Rattle.aig_format.specs.state.ReadingNames.{BeginsSymbol};
ghost use Rattle.aig_format.specs.state.Reads.{AddsSymbols, ReadsAs, ReadsToken};

use crate::reader::buffered_numbers::field_in;
use crate::reader::header::Counts;
use crate::reader::source::Source;
use crate::reader::token::{BODY, byte, number};
use crate::reader::token_fault::TokenFault;
use aig_base::{Bytes, Fault, Kind, List, SymbolList, Symbols, line_length};
use std::alloc::{AllocError, Global};

/// What stands where a symbol line may begin.
#[derive(Clone, Copy)]
pub enum Next {
    End,
    Comment,
    Symbol(Kind),
}

/// All that follows the gates.
#[derive(Drop)]
pub struct Names {
    pub symbols: Symbols,
    pub comment: Option<Bytes>,
}

/// The section of a letter, `c` aside.
fn kind_of(letter: u8) -> Option<Kind>
    ensures { result ≡ kind_of letter }
{
    match letter {
        b'i' => Some(Kind::Input),
        b'l' => Some(Kind::Latch),
        b'o' => Some(Kind::Output),
        b'b' => Some(Kind::Bad),
        b'j' => Some(Kind::Justice),
        b'f' => Some(Kind::Fairness),
        _ => None,
    }
}

/// What a `c` begins: the comment where its line ends, the symbol of a constraint where a digit follows.
#[tactic(auto, unfolding(crate::specs::state::ReadingNames::after_c_at))]
fn after_c<S: Source>(s: &mut S) -> Result<Next, TokenFault>
    ensures reads { ReadsToken S.Source s.old s.new result after_c_at }
{
    let at = s.at();
    match s.peek()? {
        Some(b'\n') => {
            s.next()?;
            Ok(Next::Comment)
        }
        Some(b'0'..=b'9') => Ok(Next::Symbol(Kind::Constraint)),
        _ => Err(TokenFault::Text { at }),
    }
}

/// The letter of a symbol or the beginning of the comment, taken; or the end.
#[tactic(auto, unfolding(crate::specs::state::ReadingNames::letter_at))]
fn letter<S: Source>(s: &mut S) -> Result<Next, TokenFault>
    ensures reads { ReadsToken S.Source s.old s.new result letter_at }
    ensures lowers { IfOk result (λ next. BeginsSymbol next → S.more s.new < S.more s.old) }
{
    let at = s.at();
    match s.next()? {
        None => Ok(Next::End),
        Some(b'c') => after_c(s),
        Some(byte) => match kind_of(byte) {
            Some(kind) => Ok(Next::Symbol(kind)),
            None => Err(TokenFault::Text { at }),
        },
    }
}

/// Reads the bytes before the end of the line, which is taken.
fn line<S: Source>(s: &mut S, bytes: &mut Vec<u8>) -> Result<(), Fault>
    ensures reads { ReadsAs S.Source s.old s.new (λ _. bytes.new.items) result line_at }
    ensures no_end { OnOk result (All (λ b. b ≢ 10) bytes.new.items) }
{
    bytes.clear();
    while s.peek()?.is_some() {
        let front = s.front();
        let size = front.len();
        let count = line_length(front);
        bytes.extend_from_slice(&front[..count])?;
        if count < size {
            s.skip(count + 1);
            return Ok(());
        }
        s.skip(count);
    }
    Err(Fault::Text { at: s.at() })
}

/// Reads a name and the end of its line.
#[tactic(auto, unfolding(crate::specs::state::ReadingNames::name_at))]
fn name<S: Source>(s: &mut S, bytes: &mut Vec<u8>) -> Result<(), Fault>
    ensures reads { ReadsAs S.Source s.old s.new (λ _. bytes.new.items) result name_at }
    ensures name { OnOk result (IsName bytes.new.items) }
{
    let at = s.at();
    line(s, bytes)?;
    if bytes.is_empty() {
        return Err(Fault::Text { at });
    }
    Ok(())
}

/// A position of the section that has no name yet.
#[tactic(auto, unfolding(crate::specs::state::ReadingNames::position_at))]
fn position<S: Source>(
    s: &mut S,
    counts: &Counts,
    kind: Kind,
    named: &SymbolList,
) -> Result<u32, TokenFault>
    ensures reads { ReadsToken S.Source s.old s.new result (position_at counts.now named.now kind) }
    ensures there { IfOk result (λ p. p < count_of counts.now kind) }
    ensures fresh { IfOk result (λ p. Contains (keys_of named.now) (kind, p) → ⊥) }
{
    let at = s.at();
    let position = number(s, BODY)?;
    if position >= counts.of(kind) {
        return Err(TokenFault::Text { at });
    }
    if named.contains(kind, position) {
        return Err(TokenFault::Text { at });
    }
    Ok(position)
}

/// Adds the entry whose name comes next, which is read into these bytes first.
fn entry<S: Source>(
    s: &mut S,
    kind: Kind,
    position: u32,
    all: &mut SymbolList,
    bytes: &mut Vec<u8>,
) -> Result<(), Fault>
    requires fresh { Contains (keys_of all.old) (kind, position) → ⊥ }
    ensures reads { ReadsAs S.Source s.old s.new (λ _. all.new) result (entry_at all.old kind position) }
    ensures name { OnOk result ((name : List ℕ) × IsName name × (all.new ≡ all.old ++ ((kind, position), name) ∷ [])) }
{
    name(s, bytes)?;
    all.push(kind, position, bytes.as_slice())?;
    Ok(())
}

/// Adds the symbol that stands after its letter. Its name is read into these bytes.
#[tactic(auto, unfolding(crate::specs::state::ReadingNames::symbol_at))]
fn symbol<S: Source>(
    s: &mut S,
    counts: &Counts,
    kind: Kind,
    all: &mut SymbolList,
    bytes: &mut Vec<u8>,
) -> Result<(), Fault>
    ensures reads { ReadsAs S.Source s.old s.new (λ x. all.new) result (symbol_at counts.now all.old kind) }
    ensures symbols { AreSymbols counts.now all.old → OnOk result (AreSymbols counts.now all.new) }
{
    let position = position(s, counts, kind, all)?;
    byte(s, b' ')?;
    entry(s, kind, position, all, bytes)
}

/// The section of a letter that a position follows.
fn section_of(byte: u8) -> Option<Kind>
    ensures { IfSome result (λ kind. byte ≡ letter kind) }
{
    if byte == b'c' {
        return Some(Kind::Constraint);
    }
    kind_of(byte)
}

/// How many bytes the name has that these begin with, where the end of its line is among them too.
fn buffered_name(bytes: &[u8]) -> Option<usize>
    ensures name { IfSome result (λ size. IsName (take size bytes.now)) }
    ensures within { IfSome result (λ size. size < length bytes.now) }
    ensures ended { IfSome result (λ size. slice_get bytes.now size ≡ Some 10) }
{
    let size = line_length(bytes);
    if size == 0 || size == bytes.len() {
        return None;
    }
    Some(size)
}

/// The symbol whose line these bytes begin with, where its end is among them too, and the length of the line.
fn symbol_in(bytes: &[u8]) -> Option<(Kind, u32, &[u8], usize)>
    ensures line { IfSome result (λ x. bytes.now ≡ symbol_line ((x.0, x.1), x.2.now) ++ drop x.3 bytes.now) }
    ensures position { IfSome result (λ x. x.1 ≤ greatest) }
    ensures name { IfSome result (λ x. IsName x.2.now) }
    ensures within { IfSome result (λ x. x.3 ≤ length bytes.now) }
{
    if bytes.len() < 9 {
        return None;
    }
    let kind = section_of(bytes[0])?;
    let (position, start) = field_in(bytes, 1, b' ')?;
    let rest = &bytes[start..];
    let size = buffered_name(rest)?;
    Some((kind, position, &rest[..size], start + size + 1))
}

/// Adds the symbol whose line these bytes begin with, and returns the length of the line. Nothing is added where they
/// do not hold all of it, or it is to be refused.
fn push_symbol(
    bytes: &[u8],
    counts: &Counts,
    all: &mut SymbolList,
) -> Result<Option<usize>, AllocError>
    ensures added { IfOk result (λ line. IfSome line (λ size. AddsSymbols counts.now 1 size bytes.now all.old all.new)) }
    ensures none { IfOk result (λ line. IfNone line (all.new ≡ all.old)) }
{
    let Some((kind, position, name, size)) = symbol_in(bytes) else {
        return Ok(None);
    };
    if position >= counts.of(kind) || !all.insert(kind, position, name)? {
        return Ok(None);
    }
    Ok(Some(size))
}

/// Adds the symbols whose lines are buffered whole, one after the other, and returns the length of these lines.
fn push_symbols(buffered: &[u8], counts: &Counts, all: &mut SymbolList) -> Result<usize, AllocError>
    ensures { IfOk result (λ size. (count : ℕ) × AddsSymbols counts.now count size buffered.now all.old all.new) }
{
    let mut size = 0;
    while let Some(more) = push_symbol(&buffered[size..], counts, all)? {
        size += more;
    }
    Ok(size)
}

/// Adds all symbols, and answers whether a comment follows: those that are buffered whole, and byte by byte the one that
/// goes beyond the buffer, or is refused.
fn symbols<S: Source>(
    alloc: Global,
    s: &mut S,
    counts: &Counts,
    all: &mut SymbolList,
) -> Result<bool, Fault>
    ensures reads { ReadsAs S.Source s.old s.new (λ comment. (all.new, comment)) result
        (λ bytes. symbols_at counts.now (length bytes) all.old bytes) }
    ensures symbols { AreSymbols counts.now all.old → OnOk result (AreSymbols counts.now all.new) }
{
    let mut name = Vec::new(alloc);
    loop {
        let size = push_symbols(s.front(), counts, all)?;
        s.skip(size);
        match letter(s)? {
            Next::End => return Ok(false),
            Next::Comment => return Ok(true),
            Next::Symbol(kind) => symbol(s, counts, kind, all, &mut name)?,
        }
    }
}

/// All bytes that are left.
fn rest<S: Source>(alloc: Global, s: &mut S) -> Result<Bytes, Fault>
    ensures reads { ReadsAs S.Source s.old s.new (λ x. x) result (λ bytes. Ok (bytes, [])) }
{
    let mut bytes = Vec::new(alloc);
    while s.peek()?.is_some() {
        let front = s.front();
        let count = front.len();
        bytes.extend_from_slice(front)?;
        s.skip(count);
    }
    Ok(List::from_vec(bytes))
}

/// The symbols and the comment, which end the file.
#[tactic(auto, unfolding(crate::specs::state::ReadingNames::names_at))]
pub(crate) fn read_names<S: Source>(
    alloc: Global,
    s: &mut S,
    counts: &Counts,
) -> Result<Names, Fault>
    ensures reads { ReadsAs S.Source s.old s.new (λ x. x) result (names_at counts.now) }
    ensures symbols { IfOk result (λ names. AreSymbols counts.now names.symbols) }
{
    let mut all = SymbolList::new(alloc);
    let has_comment = symbols(alloc, s, counts, &mut all)?;
    let symbols = all.into_symbols()?;
    let comment = if has_comment {
        Some(rest(alloc, s)?)
    } else {
        None
    };
    Ok(Names { symbols, comment })
}
