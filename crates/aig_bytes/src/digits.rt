//! The digits of numbers, written into bytes.
ghost use Rattle.std.specs.Prelude.{◌≡◌, ◌+◌, ◌*◌, ◌/◌, ◌%◌, ◌^◌, ◌<◌, ◌≤◌, [], ◌∷◌, ◌++◌, length, take};
ghost use Rattle.std.specs.Fmt.{decimal};
ghost use Rattle.aig_bytes.specs.state.Digits.{last_digits};

use itoa::write_digits;

/// Numbers below this one have eight digits at most.
pub(crate) const SHORT: u32 = 100_000_000;

/// The digits of a number below 10^8 in pairs, each in 16 bits, the first pair in the lowest. Of four digits in 32 bits
/// 5243 / 2^19 is a little more than a hundredth, so that the whole part is right; what is left is masked off.
#[inline(always)]
fn pairs(number: u32) -> u64
    requires { number < 10 ^ 8 }
    ensures { result ≡ number / 10 ^ 6
        + 2 ^ 16 * (number / 10 ^ 4 % 100) + 2 ^ 32 * (number / 100 % 100) + 2 ^ 48 * (number % 100) }
{
    let fours = (number / 10_000) as u64 + 0x1_0000_0000 * (number % 10_000) as u64;
    let hundreds = (fours * 5243 / 524_288) & 0x7f_0000_007f;
    hundreds + 0x1_0000 * (fours - 100 * hundreds)
}

/// The digits of a number below 10^8 with zeros before them, eight in all. They are found side by side in one word, as
/// the pairs are: 103 / 2^10 is a little more than a tenth.
#[inline(always)]
pub(crate) fn eight_digits(number: u32) -> [u8; 8]
    requires { number < 10 ^ 8 }
    ensures { result ≡ last_digits 8 number }
{
    let pairs = pairs(number);
    let tens = (pairs * 103 / 1024) & 0xf_000f_000f_000f;
    let digits = tens + 256 * (pairs - 10 * tens);
    (0x3030_3030_3030_3030 + digits).to_le_bytes()
}

/// The power of ten that makes eight digits of a number below 10^8, and how many digits it has without that.
#[inline(always)]
pub(crate) fn scale(number: u32) -> (u32, usize)
    requires { number < 10 ^ 8 }
    ensures small { number * result.0 < 10 ^ 8 }
    ensures most { result.1 ≤ 8 }
    ensures digits { take result.1 (last_digits 8 (number * result.0)) ≡ decimal number }
    ensures count { result.1 ≡ length (decimal number) }
{
    if number < 10_000 {
        if number < 100 {
            if number < 10 {
                (10_000_000, 1)
            } else {
                (1_000_000, 2)
            }
        } else if number < 1_000 {
            (100_000, 3)
        } else {
            (10_000, 4)
        }
    } else if number < 1_000_000 {
        if number < 100_000 {
            (1_000, 5)
        } else {
            (100, 6)
        }
    } else if number < 10_000_000 {
        (10, 7)
    } else {
        (1, 8)
    }
}

/// Writes the digits of a number below 10^8 at a place and the byte that ends it, and returns the place after them.
/// Some bytes after that may change.
#[inline(always)]
pub(crate) fn write_short(bytes: &mut [u8], at: usize, number: u32, end: u8) -> usize
    requires small { number < 10 ^ 8 }
    requires room { at + 8 < length bytes.old }
    ensures more { at < result }
    ensures most { result ≤ at + 9 }
    ensures written { take result bytes.new ≡ take at bytes.old ++ (decimal number ++ end ∷ []) }
{
    let (power, count) = scale(number);
    let last = at + count;
    bytes[at..at + 8].copy_from_slice(&eight_digits(number * power));
    bytes[last] = end;
    last + 1
}

/// How many digits a number from 10^8 on has.
fn long_count(number: u32) -> usize
    requires { 10 ^ 8 ≤ number }
    ensures digits { result ≡ length (decimal number) }
    ensures most { result ≤ 10 }
{
    if number < 1_000_000_000 { 9 } else { 10 }
}

/// Writes the digits of any larger number at a place and the byte that ends it, and returns the place after them.
pub(crate) fn write_long(bytes: &mut [u8], at: usize, number: u32, end: u8) -> usize
    requires large { 10 ^ 8 ≤ number }
    requires room { at + 10 < length bytes.old }
    ensures more { at < result }
    ensures most { result ≤ at + 11 }
    ensures written { take result bytes.new ≡ take at bytes.old ++ (decimal number ++ end ∷ []) }
{
    let last = at + long_count(number);
    write_digits(number as u64, bytes, last);
    bytes[last] = end;
    last + 1
}
