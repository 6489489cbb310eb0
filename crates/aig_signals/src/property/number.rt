//! Positions that a text names by their number.
ghost use Rattle.std.specs.Prelude.{◌≡◌, ◌<◌, ◌^◌, ◌∷◌, ℕ, List, Some, decimal, IfSome, IfNone};
ghost use Rattle.aig_parts.specs.Letters.{letter};
ghost use Rattle.aig_base.specs.Selected as selected;
ghost use Rattle.aig_signals.specs.Property.{IsNumbered, IsUnnumbered};

use crate::property::naming::kind_of;
use aig_base::PropertySection;
use itoa::Buffer;
use std::str;

/// The number whose decimal digits these are. It has no leading zeros and no sign: it is spelled again.
pub fn decimal_of(word: &[u8]) -> Option<u32>
    ensures some { IfSome result (λ n. word.now ≡ decimal n) }
    ensures only { (n : ℕ) → n < 2 ^ 32 → word.now ≡ decimal n → result ≡ Some n }
{
    let text = match str::from_utf8(word) {
        Ok(text) => text,
        Err(_) => return None,
    };
    let Ok(number) = text.parse::<u32>() else {
        return None;
    };
    if Buffer::new().format(number) == text {
        Some(number)
    } else {
        None
    }
}

/// What comes after a letter in a text that begins with it.
fn word_after(letter: u8, text: &[u8]) -> Option<&[u8]>
    ensures some { IfSome result (λ word. text.now ≡ letter ∷ word.now) }
    ensures none { IfNone result ((word : List ℕ) → text.now ≡ letter ∷ word → ⊥) }
{
    match text.first() {
        Some(first) if *first == letter => Some(&text[1..]),
        _ => None,
    }
}

/// The position that a text names by its number, as `3`, or with the letter of the section before it, as `b3`. It may
/// be over the end of the section.
pub fn number_of(section: PropertySection, text: &[u8]) -> Option<u32>
    ensures some { IfSome result (IsNumbered section text.now) }
    ensures none { IfNone result (IsUnnumbered section text.now) }
{
    if let Some(position) = decimal_of(text) {
        return Some(position);
    }
    let word = word_after(kind_of(section).letter(), text)?;
    decimal_of(word)
}
