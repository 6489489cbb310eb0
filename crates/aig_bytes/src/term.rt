//! Terms: numbers with a sign, whose digits are found once and written many times.
ghost use Rattle.std.specs.Prelude.{◌≡◌, ◌+◌, ◌^◌, ◌<◌, ◌≤◌, ◌++◌, not, length, take};
ghost use Rattle.std.specs.Fmt.{decimal};
ghost use Rattle.aig_bytes.specs.Term.{term_text};

use crate::digits::{eight_digits, scale};
use std::marker::Model;

/// A number below 10^8 with a sign, of which 0 has two.
#[derive(Drop)]
pub struct Term {
    is_negative: bool,
    digits: [u8; 8],
    count: usize,
}

impl Model for Term {
    ghost use Rattle.std.specs.Prelude.{Bool, List, ℕ, take, ◌≤◌};

    ghost Value = { Bool × List ℕ };

    ghost view = { λ t. (t.is_negative, take t.count t.digits) };

    ghost invariant = { λ t. t.count ≤ 8 };
}

impl Term {
    /// Finds the digits of a number below 10^8.
    #[inline(always)]
    pub fn new(number: u32, is_negative: bool) -> Term
        requires { number < 10 ^ 8 }
        ensures { result ≡ (is_negative, decimal number) }
    {
        let (power, count) = scale(number);
        Term {
            is_negative,
            digits: eight_digits(number * power),
            count,
        }
    }

    /// The number with the other sign.
    #[inline(always)]
    pub fn negated(&self) -> Term
        ensures { result ≡ (not self.now.0, self.now.1) }
    {
        Term {
            is_negative: !self.is_negative,
            digits: self.digits,
            count: self.count,
        }
    }

    /// Writes a minus where the number is negative, its digits and a space at a place, and returns the place after
    /// them. Some bytes after that may change.
    #[inline(always)]
    pub(crate) fn write(&self, bytes: &mut [u8], at: usize) -> usize
        requires room { at + 9 < length bytes.old }
        ensures more { at < result }
        ensures most { result ≤ at + 10 }
        ensures written { take result bytes.new ≡ take at bytes.old ++ term_text self.now }
    {
        bytes[at] = b'-';
        let first = at + self.is_negative as usize;
        let last = first + self.count;
        bytes[first..first + 8].copy_from_slice(&self.digits);
        bytes[last] = b' ';
        last + 1
    }
}
