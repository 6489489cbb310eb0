//! The mapping in the comment of a certificate: `MAPPING N`, and N lines of a literal of the certificate and one of the
//! model.
ghost use Rattle.std.specs.Prelude.{◌≡◌, ◌≢◌, ◌↔◌, ◌<◌, ◌^◌, ◌∷◌, ◌++◌, ℕ, List, [], Some, None, length, codes, option_copied};
ghost use Rattle.std.specs.Prelude.{All, IsTrue, IfSome, IfNone, IfOk, IfErr};
ghost use Rattle.aig_certificate.specs.declared.mapping.Pair.{Pair as APair};
ghost use Rattle.aig_certificate.specs.Mapping.{IsOfEntry, IsPair, from_mapping, lines, heading, pair_line};
ghost use Rattle.aig_certificate.specs.state.Lines as state;
ghost use Rattle.aig_certificate.specs.state.Lines.{AreLinesOf, IsCut, RefusesPairs, lines_of};

use crate::fault::StrengthenFault;
use crate::mark::{literal_of, number_of};
use aig_base::{Circuit, Definition, List, Lit};
use std::alloc::Global;

/// A line of a mapping: a literal of the certificate, and the literal of the model that it is.
#[derive(Clone, Copy)]
pub(crate) struct Pair {
    pub certificate: Lit,
    pub model: Lit,
}

// The bytes before the first one that is this byte, and those after it, if there is one.
fn cut(text: &[u8], byte: u8) -> (&[u8], Option<&[u8]>)
    ensures { IsCut byte text.now result.0.now (option_copied result.1) }
{
    for place in 0..text.len() {
        if text[place] == byte {
            return (&text[..place], Some(&text[place + 1..]));
        }
    }
    (text, None)
}

/// The first line of a comment that begins with `MAPPING`, and the text of the lines after it, if there are any.
pub(crate) fn mapping_of(comment: &[u8]) -> Option<(&[u8], Option<&[u8]>)>
    ensures some { IfSome result (λ found.
        from_mapping (lines comment.now) ≡ found.0.now ∷ lines_of (option_copied found.1)) }
    ensures none { IfNone result (from_mapping (lines comment.now) ≡ []) }
{
    let mut rest = Some(comment);
    while let Some(text) = rest {
        let (line, after) = cut(text, b'\n');
        if line.starts_with(b"MAPPING") {
            return Some((line, after));
        }
        rest = after;
    }
    None
}

// What comes after `MAPPING ` in a line that begins so.
fn after_mapping(line: &[u8]) -> Option<&[u8]>
    ensures some { IfSome result (λ word. line.now ≡ codes "MAPPING " ++ word.now) }
    ensures none { IfNone result ((word : List ℕ) → line.now ≢ codes "MAPPING " ++ word) }
{
    line.strip_prefix(b"MAPPING ")
}

/// The number of pairs that the first line of a mapping says.
pub(crate) fn count_of(line: &[u8]) -> Option<u32>
    ensures some { IfSome result (λ n. line.now ≡ heading n) }
    ensures few { IfSome result (λ n. n < 2 ^ 32) }
    ensures none { IfNone result ((n : ℕ) → n < 2 ^ 32 → line.now ≢ heading n) }
{
    number_of(after_mapping(line)?)
}

// Whether an input or a latch defines a variable.
fn is_source(definition: Option<Definition>) -> bool
    ensures { result ≡ state.is_source definition }
{
    match definition {
        Some(Definition::Input(_)) | Some(Definition::Latch(_)) => true,
        Some(Definition::Gate(_)) | None => false,
    }
}

// Whether the literal is one of an input or a latch, or its negation.
fn is_of_entry(certificate: &Circuit, literal: Lit) -> bool
    ensures { IsTrue result ↔ IsOfEntry certificate.now literal }
{
    certificate.facts();
    is_source(certificate.definition(literal.var()))
}

// The bytes before the first blank of a line, and those after it.
fn words_of(line: &[u8]) -> Option<(&[u8], &[u8])>
    ensures some { IfSome result (λ words. IsCut 32 line.now words.0.now (Some words.1.now)) }
    ensures none { IfNone result ((first second : List ℕ) → line.now ≢ first ++ 32 ∷ second) }
{
    let (first, rest) = cut(line, b' ');
    let Some(second) = rest else {
        return None;
    };
    Some((first, second))
}

// The pair of a line.
fn pair_of(model: &Circuit, certificate: &Circuit, line: &[u8]) -> Option<Pair>
    ensures line { IfSome result (λ pair. line.now ≡ pair_line pair) }
    ensures pair { IfSome result (IsPair model.now certificate.now) }
    ensures none { result ≡ None → (pair : APair) → IsPair model.now certificate.now pair
        → line.now ≢ pair_line pair }
{
    model.facts();
    certificate.facts();
    let (first, second) = words_of(line)?;
    let own = literal_of(certificate, first)?;
    let literal = literal_of(model, second)?;
    if is_of_entry(certificate, own) {
        Some(Pair {
            certificate: own,
            model: literal,
        })
    } else {
        None
    }
}

// The pair of the first of these lines, and the text of the lines after it, if there are any.
fn next_pair<'a>(
    model: &Circuit,
    certificate: &Circuit,
    lines: Option<&'a [u8]>,
) -> Option<(Pair, Option<&'a [u8]>)>
    ensures some { IfSome result (λ found.
        lines_of (option_copied lines.entry) ≡ pair_line found.0 ∷ lines_of (option_copied found.1)) }
    ensures pair { IfSome result (λ found. IsPair model.now certificate.now found.0) }
    ensures none { result ≡ None → (pair : APair) (more : List (List ℕ)) → IsPair model.now certificate.now pair
        → lines_of (option_copied lines.entry) ≢ pair_line pair ∷ more }
{
    let Some(text) = lines else {
        return None;
    };
    let (line, after) = cut(text, b'\n');
    let pair = pair_of(model, certificate, line)?;
    Some((pair, after))
}

/// The pairs of so many lines.
pub(crate) fn pairs_of(
    alloc: Global,
    model: &Circuit,
    certificate: &Circuit,
    lines: Option<&[u8]>,
    count: u32,
) -> Result<List<Pair>, StrengthenFault>
    ensures lines { IfOk result (AreLinesOf (lines_of (option_copied lines.entry))) }
    ensures count { IfOk result (λ pairs. length pairs ≡ count) }
    ensures each { IfOk result (All (IsPair model.now certificate.now)) }
    ensures refused { IfErr result
        (RefusesPairs model.now certificate.now (lines_of (option_copied lines.entry)) count) }
{
    let mut pairs = List::new(alloc);
    let mut rest = lines;
    for _pair in 0..count {
        let Some((pair, after)) = next_pair(model, certificate, rest) else {
            return Err(StrengthenFault::Comment);
        };
        pairs.push(pair)?;
        rest = after;
    }
    Ok(pairs)
}
