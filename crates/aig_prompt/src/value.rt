//! Values as people type them.
ghost use Rattle.std.specs.Prelude.{◌≡◌, ◌≢◌, ◌↔◌, ℕ, ◌+◌, ◌-◌, ◌*◌, ◌∷◌, ◌++◌, ◌<◌, ◌^◌, List, [], length, replicate};
ghost use Rattle.std.specs.Prelude.{drop, All, Some, IfErr, IfNone, IfOk, IfSome, IsTrue, OnOk, decimal, slice_get};
ghost use Rattle.std.specs.Prelude.{slice_index};
ghost use Rattle.aig_parts.specs.declared.ternary.Tern.{Tern};
ghost use Rattle.aig_prompt.specs.Value as spec;
ghost use Rattle.aig_prompt.specs.Value.{AreLetters, AreDecimalDigits, IsFitted, AreHexadecimalDigits, Reads};
ghost use Rattle.aig_prompt.specs.Value.{ReadsSized, RefusesBits, RefusesValue};
ghost use Rattle.aig_prompt.specs.state.Gathered.{Gathers};

use aig_bytes::Memory;
use aig_parts::Tern;
use itoa::Buffer;
use std::alloc::{AllocError, AllocFailed, Global};

/// Why a text is no value of so many bits.
#[derive(Clone, Copy, PartialEq, Eq, Debug, Drop)]
pub enum ValueFault {
    /// It is none, of any number of bits.
    Malformed,
    /// It says itself how many bits it has, and these are more or fewer.
    OtherWidth,
    /// It is a number that needs more bits.
    Wide,
    /// No memory was found.
    Memory,
}

impl From<Memory> for ValueFault {
    ghost use Rattle.std.specs.Prelude.{◌≡◌};
    ghost use Rattle.aig_prompt.specs.declared.value.ValueFault.TheVariants as faults;

    ghost from_gives = { λ _ fault. fault ≡ faults.Memory };

    fn from(_error: Memory) -> ValueFault {
        ValueFault::Memory
    }
}

impl From<AllocError> for ValueFault {
    ghost use Rattle.std.specs.Prelude.{◌≡◌};
    ghost use Rattle.aig_prompt.specs.declared.value.ValueFault.TheVariants as faults;

    ghost from_gives = { λ _ fault. fault ≡ faults.Memory };

    fn from(_error: AllocError) -> ValueFault {
        ValueFault::Memory
    }
}

impl<T: Drop> From<AllocFailed<T>> for ValueFault {
    ghost use Rattle.std.specs.Prelude.{◌≡◌};
    ghost use Rattle.aig_prompt.specs.declared.value.ValueFault.TheVariants as faults;

    ghost from_gives = { λ _ fault. fault ≡ faults.Memory };

    fn from(_error: AllocFailed<T>) -> ValueFault {
        ValueFault::Memory
    }
}

/// The number that a digit of base 16 is.
fn digit_of(byte: u8) -> Option<u8>
    ensures value { result ≡ spec.digit_of byte }
    ensures small { IfSome result (λ digit. digit < 16) }
{
    match byte {
        b'0'..=b'9' => Some(byte - b'0'),
        b'a'..=b'f' => Some(byte - 87),
        b'A'..=b'F' => Some(byte - 55),
        _ => None,
    }
}

/// The value of a letter.
fn letter_value(byte: u8) -> Option<Tern>
    ensures { result ≡ spec.letter_value byte }
{
    match byte {
        b'0' => Some(Tern::Zero),
        b'1' => Some(Tern::One),
        b'x' | b'X' => Some(Tern::X),
        _ => None,
    }
}

/// A bit as a value.
fn bit_value(is_one: bool) -> Tern
    ensures { result ≡ spec.bit_value is_one }
{
    if is_one { Tern::One } else { Tern::Zero }
}

/// A value with bits up to a width, and whether a bit over it is 1.
#[derive(Drop)]
pub(crate) struct Bits {
    pub(crate) values: Vec<Tern>,
    pub(crate) width: usize,
    pub(crate) is_over: bool,
}

impl Bits {
    /// Before bit 0.
    fn new(alloc: Global, width: usize) -> Bits
        ensures gathered { Gathers [] result }
        ensures width { result.width ≡ width }
    {
        Bits {
            values: Vec::new(alloc),
            width,
            is_over: false,
        }
    }

    /// Adds the next bit, from bit 0 up.
    fn push(&mut self, is_one: bool) -> Result<(), Memory>
        ensures gathered { (all : List Tern) → Gathers all self.old
            → OnOk result (Gathers (all ++ spec.bit_value is_one ∷ []) self.new) }
        ensures width { self.new.width ≡ self.old.width }
    {
        if self.values.len() < self.width {
            self.values.push(bit_value(is_one))?;
        } else if is_one {
            self.is_over = true;
        }
        Ok(())
    }

    /// Adds the bits of a digit of base 16.
    fn push_digit(&mut self, digit: u8) -> Result<(), Memory>
        ensures gathered { (all : List Tern) → Gathers all self.old
            → OnOk result (Gathers (all ++ spec.digit_bits digit) self.new) }
        ensures width { self.new.width ≡ self.old.width }
    {
        self.push(digit % 2 == 1)?;
        self.push(digit / 2 % 2 == 1)?;
        self.push(digit / 4 % 2 == 1)?;
        self.push(digit / 8 % 2 == 1)
    }

    /// The value, with 0 at the bits that were not given.
    fn end(self) -> Result<Vec<Tern>, ValueFault>
        ensures gathered { (all : List Tern) → Gathers all self → IfOk result (λ bits. IsFitted all bits.items) }
        ensures size { IfOk result (λ bits. length bits.items ≡ self.width) }
        ensures refused { (all : List Tern) → Gathers all self → IfErr result (λ fault. fault ≢ ValueFault.Memory →
            All (λ w. w ≡ Tern.Zero) (drop self.width all) → ⊥) }
    {
        let Bits {
            mut values,
            width,
            is_over,
        } = self;
        if is_over {
            return Err(ValueFault::Wide);
        }
        values.resize(width, Tern::Zero)?;
        Ok(values)
    }
}

/// The value of digits of base 16.
fn hexadecimal_value(alloc: Global, digits: &[u8], width: usize) -> Result<Vec<Tern>, ValueFault>
    ensures size { IfOk result (λ bits. length bits.items ≡ width) }
    ensures value { IfOk result (λ bits. AreHexadecimalDigits digits.now bits.items) }
    ensures refused { IfErr result (RefusesBits (AreHexadecimalDigits digits.now) width) }
{
    if digits.is_empty() {
        return Err(ValueFault::Malformed);
    }
    let mut bits = Bits::new(alloc, width);
    let mut place = digits.len();
    while place > 0 {
        place -= 1;
        match digit_of(digits[place]) {
            Some(digit) => bits.push_digit(digit)?,
            None => return Err(ValueFault::Malformed),
        }
    }
    bits.end()
}

/// The number with one more decimal digit, as far as it has 64 bits.
fn longer(number: u64, byte: u8) -> Result<u64, ValueFault>
    ensures more { IfOk result (λ n. (n ≡ number * 10 + spec.digit_number byte) × spec.IsDigit 10 byte) }
    ensures small { IfOk result (λ n. n < 2 ^ 64) }
    ensures refused { IfErr result (λ fault. spec.IsDigit 10 byte → number * 10 + spec.digit_number byte < 2 ^ 64 → ⊥) }
{
    if !byte.is_ascii_digit() {
        return Err(ValueFault::Malformed);
    }
    let longer = u128::from(number) * 10 + u128::from(byte - b'0');
    match u64::try_from(longer) {
        Ok(longer) => Ok(longer),
        Err(_) => Err(ValueFault::Wide),
    }
}

/// The number that decimal digits are, as far as it has 64 bits.
fn number_of(digits: &[u8]) -> Result<u64, ValueFault>
    ensures number { IfOk result (λ n. (n ≡ spec.numeral 10 digits.now) × spec.IsNumeral 10 digits.now) }
    ensures small { IfOk result (λ n. n < 2 ^ 64) }
    ensures refused { IfErr result (λ fault. spec.IsNumeral 10 digits.now → spec.numeral 10 digits.now < 2 ^ 64 → ⊥) }
{
    if digits.is_empty() {
        return Err(ValueFault::Malformed);
    }
    let mut number = 0u64;
    for byte in digits {
        number = longer(number, *byte)?;
    }
    Ok(number)
}

/// The value of decimal digits.
fn decimal_value(alloc: Global, digits: &[u8], width: usize) -> Result<Vec<Tern>, ValueFault>
    ensures size { IfOk result (λ bits. length bits.items ≡ width) }
    ensures value { IfOk result (λ bits. AreDecimalDigits digits.now bits.items) }
    ensures refused { IfErr result (RefusesBits (AreDecimalDigits digits.now) width) }
{
    let mut number = number_of(digits)?;
    let mut bits = Bits::new(alloc, width);
    let mut left = 64u32;
    while left > 0 {
        bits.push(number % 2 == 1)?;
        number /= 2;
        left -= 1;
    }
    bits.end()
}

/// The value of letters, one for each bit, the last bit first.
fn binary_value(alloc: Global, letters: &[u8], width: usize) -> Result<Vec<Tern>, ValueFault>
    ensures size { IfOk result (λ bits. length bits.items ≡ width) }
    ensures value { IfOk result (λ bits. AreLetters letters.now bits.items) }
    ensures refused { IfErr result (RefusesBits (AreLetters letters.now) width) }
{
    if letters.len() != width {
        return Err(ValueFault::Malformed);
    }
    let mut values = Vec::new(alloc);
    let mut place = letters.len();
    while place > 0 {
        place -= 1;
        match letter_value(letters[place]) {
            Some(value) => values.push(value)?,
            None => return Err(ValueFault::Malformed),
        }
    }
    Ok(values)
}

/// Whether a byte is the letter of x.
fn is_unknown(byte: u8) -> bool
    ensures { result ≡ spec.is_unknown byte }
{
    byte == b'x' || byte == b'X'
}

/// Where the quote of a text is.
fn quote_at(text: &[u8]) -> Option<usize>
    ensures some { IfSome result (λ at. slice_get text.now at ≡ Some 39) }
    ensures first { IfSome result (λ at. (k : ℕ) → k < at → slice_index text.now k ≢ 39) }
    ensures none { IfNone result (All (λ byte. byte ≢ 39) text.now) }
{
    text.iter().position(|byte| *byte == b'\'')
}

/// x for so many bits.
fn unknown_value(alloc: Global, width: usize) -> Result<Vec<Tern>, ValueFault>
    ensures value { IfOk result (λ bits. bits.items ≡ replicate width Tern.X) }
    ensures memory { IfErr result (λ fault. fault ≡ ValueFault.Memory) }
{
    Ok(vec![in alloc; Tern::X; width]?)
}

/// Whether a byte of a text is the letter of x.
fn has_unknown(text: &[u8]) -> bool
    ensures { result ≡ spec.has_unknown text.now }
{
    text.iter().any(|byte| is_unknown(*byte))
}

/// Whether a text is the letter of x alone.
fn is_all_unknown(text: &[u8]) -> bool
    ensures { IsTrue result ↔ spec.IsUnknown text.now }
{
    matches!(text, [byte] if is_unknown(*byte))
}

/// The value of a text without a quote.
fn plain_value(alloc: Global, text: &[u8], width: usize) -> Result<Vec<Tern>, ValueFault>
    requires { All (λ byte. byte ≢ 39) text.now }
    ensures size { IfOk result (λ bits. length bits.items ≡ width) }
    ensures reads { IfOk result (λ bits. Reads text.now bits.items) }
    ensures refused { IfErr result (RefusesValue text.now width) }
{
    if is_all_unknown(text) {
        return unknown_value(alloc, width);
    }
    if has_unknown(text) {
        return binary_value(alloc, text, width);
    }
    hexadecimal_value(alloc, text, width)
}

/// The value of a text that says its width before a quote, and its base after it.
fn sized_value(
    alloc: Global,
    size: &[u8],
    rest: &[u8],
    width: usize,
) -> Result<Vec<Tern>, ValueFault>
    ensures size { IfOk result (λ bits. length bits.items ≡ width) }
    ensures reads { IfOk result (λ bits. ReadsSized size.now rest.now bits.items) }
    ensures refused { IfErr result (RefusesBits (ReadsSized size.now rest.now) width) }
{
    let Some(base) = rest.first() else {
        return Err(ValueFault::Malformed);
    };
    if !is_width(size, width) {
        return Err(width_fault(size));
    }
    let digits = &rest[1..];
    match *base {
        b'h' => hexadecimal_value(alloc, digits, width),
        b'd' => decimal_value(alloc, digits, width),
        b'b' => binary_value(alloc, digits, width),
        _ => Err(ValueFault::Malformed),
    }
}

/// Why a text before a quote is not the width: it is another number, or none.
fn width_fault(size: &[u8]) -> ValueFault {
    if !size.is_empty() && size.iter().all(|byte| byte.is_ascii_digit()) {
        ValueFault::OtherWidth
    } else {
        ValueFault::Malformed
    }
}

/// Whether a text is the number of bits.
fn is_width(size: &[u8], width: usize) -> bool
    ensures { IsTrue result ↔ (size.now ≡ decimal width) }
{
    let mut buffer = Buffer::new();
    buffer.format(width).as_bytes() == size
}

/// Whether a text is so many digits of base 2.
pub fn is_binary(text: &[u8], width: usize) -> bool
    ensures { IsTrue result ↔ (length text.now ≡ width) × All spec.IsBit text.now }
{
    text.len() == width && text.iter().all(|byte| *byte == b'0' || *byte == b'1')
}

/// The value of so many bits that a text is, from bit 0 up: digits of base 16; one letter `0`, `1` or `x` for each bit,
/// where one of them is `x`; `x` for all bits; or as Verilog writes it, `8'hff`, `8'd31`, `4'b1x00`, with the right
/// width.
pub fn value_of(alloc: Global, text: &[u8], width: usize) -> Result<Vec<Tern>, ValueFault>
    ensures size { IfOk result (λ bits. length bits.items ≡ width) }
    ensures reads { IfOk result (λ bits. Reads text.now bits.items) }
    ensures fault { IfErr result (RefusesValue text.now width) }
{
    match quote_at(text) {
        Some(at) => sized_value(alloc, &text[..at], &text[at + 1..], width),
        None => plain_value(alloc, text, width),
    }
}
