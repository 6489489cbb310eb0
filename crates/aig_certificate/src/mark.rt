//! What the symbol of an input or a latch of a certificate says: `= LIT`, a literal of the model.
ghost use Rattle.std.specs.Prelude.{◌≡◌, ◌≢◌, ◌↔◌, ◌++◌, ◌<◌, ◌^◌, ℕ, List, Some, codes, decimal};
ghost use Rattle.std.specs.Prelude.{IsTrue, IfSome, IfNone, IfOk, OnOk, IfErr};
ghost use Rattle.aig_parts.specs.Literal.{variable};
ghost use Rattle.aig_base.specs.Sections.{IsDefined};
ghost use Rattle.aig_certificate.specs.declared.fault.StrengthenFault.TheVariants as faults;
ghost use Rattle.aig_certificate.specs.Shared.{IsSource, IsNamed, IsWrong};
ghost use Rattle.aig_certificate.specs.state.Marks.{IsNamedLiteral};

use crate::fault::StrengthenFault;
use aig_base::{Circuit, Kind, Lit};
use itoa::Buffer;
use std::str;

/// What comes after `= ` in a name that begins so.
fn word_of(name: &[u8]) -> Option<&[u8]>
    ensures some { IfSome result (λ word. name.now ≡ codes "= " ++ word.now) }
    ensures none { IfNone result ((word : List ℕ) → name.now ≢ codes "= " ++ word) }
{
    name.strip_prefix(b"= ")
}

/// The number whose decimal digits these are. It has no leading zeros and no sign: it is spelled again.
pub(crate) fn number_of(word: &[u8]) -> Option<u32>
    ensures some { IfSome result (λ n. word.now ≡ decimal n) }
    ensures only { (n : ℕ) → n < 2 ^ 32 → word.now ≡ decimal n → result ≡ Some n }
{
    let text = match str::from_utf8(word) {
        Ok(text) => text,
        Err(_) => return None,
    };
    let Ok(number) = text.parse::<u32>() else {
        return None;
    };
    if Buffer::new().format(number) == text {
        Some(number)
    } else {
        None
    }
}

/// Whether the literal's variable is defined in the model; variable 0 counts as defined.
fn is_defined(model: &Circuit, literal: Lit) -> bool
    ensures { IsTrue result ↔ IsDefined model.now (variable literal) }
{
    match model.definition(literal.var()) {
        Some(_) => true,
        None => literal.var() == 0,
    }
}

/// The literal of variable 0, an input, a latch or a gate of the model whose number these digits are.
pub fn literal_of(model: &Circuit, word: &[u8]) -> Option<Lit>
    ensures spelled { IfSome result (λ l. word.now ≡ decimal l) }
    ensures defined { IfSome result (λ l. IsDefined model.now (variable l)) }
    ensures none { IfNone result ((l : ℕ) → IsDefined model.now (variable l) → word.now ≢ decimal l) }
{
    model.facts();
    let Some(number) = number_of(word) else {
        return None;
    };
    let literal = Lit::new(number);
    if is_defined(model, literal) {
        Some(literal)
    } else {
        None
    }
}

/// The literal of the model that the symbol of an entry names, if the entry has such a symbol.
pub(crate) fn named_literal(
    model: &Circuit,
    certificate: &Circuit,
    kind: Kind,
    position: u32,
) -> Result<Option<Lit>, StrengthenFault>
    requires { IsSource kind }
    ensures named { IfOk result (IsNamedLiteral certificate.now (kind, position)) }
    ensures right { OnOk result (IsWrong model.now certificate.now (kind, position) → ⊥) }
    ensures fault { IfErr result (λ fault. fault ≡ faults.Symbol kind position) }
    ensures wrong { IfErr result (λ fault. IsWrong model.now certificate.now (kind, position)) }
{
    certificate.facts();
    let Some(name) = certificate.symbols().get(kind, position) else {
        return Ok(None);
    };
    let Some(word) = word_of(name) else {
        return Ok(None);
    };
    match literal_of(model, word) {
        Some(literal) => Ok(Some(literal)),
        None => Err(StrengthenFault::Symbol { kind, position }),
    }
}

/// Whether the symbol of some input or latch begins with `= `.
pub(crate) fn is_named(certificate: &Circuit) -> bool
    ensures { IsTrue result ↔ IsNamed certificate.now }
{
    certificate.symbols().iter().any(|(entry, name)| {
        matches!(entry.0, Kind::Input | Kind::Latch) && name.starts_with(b"= ")
    })
}
