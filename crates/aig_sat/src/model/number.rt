//! The numbers of a model.
ghost use Rattle.std.specs.Prelude.{◌≡◌, ◌+◌, ◌<◌, ◌≤◌, ◌++◌, ℕ, IfSome, None};
ghost use Rattle.std.specs.Fmt.{decimal};
ghost use Rattle.aig_parts.specs.Literal.{variable};
ghost use Rattle.aig_sat.specs.model.ModelText.{number_text};

use aig_parts::Lit;

// The number whose digits are those of another one and these after them, where it is at most `most`.
fn longer_number(first: u32, digits: &[u8], most: u32) -> Option<u32>
    requires some { 0 < first }
    requires most { first ≤ most }
    ensures spelled { IfSome result (λ n. decimal first ++ digits.now ≡ decimal n) }
    ensures none { result ≡ None → (n : ℕ) → n ≤ most → decimal first ++ digits.now ≡ decimal n → ⊥ }
    ensures bounds { IfSome result (λ n. (0 < n) × (n ≤ most)) }
{
    let mut number = first;
    for digit in digits {
        if !digit.is_ascii_digit() {
            return None;
        }
        let longer = number as u64 * 10 + (*digit - b'0') as u64;
        if longer > most as u64 {
            return None;
        }
        number = longer as u32;
    }
    Some(number)
}

// The number that the bytes are: decimal digits, the first of which is not 0. It is at most `most`.
fn positive_number(bytes: &[u8], most: u32) -> Option<u32>
    ensures spelled { IfSome result (λ n. bytes.now ≡ decimal n) }
    ensures none { result ≡ None → (n : ℕ) → 0 < n → n ≤ most → bytes.now ≡ decimal n → ⊥ }
    ensures bounds { IfSome result (λ n. (0 < n) × (n ≤ most)) }
{
    let (first, rest) = bytes.split_first()?;
    if !first.is_ascii_digit() || *first == b'0' {
        return None;
    }
    let digit = (*first - b'0') as u32;
    if digit > most {
        return None;
    }
    longer_number(digit, rest, most)
}

/// The literal of one of so many variables whose number the bytes are. Variables count from 1, and a minus negates.
pub fn parse_literal(word: &[u8], variables: u32) -> Option<Lit>
    requires { variables ≤ 2147483648 }
    ensures spelled { IfSome result (λ l. word.now ≡ number_text l) }
    ensures none { result ≡ None → (l : ℕ) → variable l < variables → word.now ≡ number_text l → ⊥ }
    ensures variable { IfSome result (λ l. variable l < variables) }
{
    match word {
        [b'-', digits @ ..] => {
            let number = positive_number(digits, variables)?;
            Some(Lit::new(2 * (number - 1) + 1))
        }
        _ => {
            let number = positive_number(word, variables)?;
            Some(Lit::new(2 * (number - 1)))
        }
    }
}
