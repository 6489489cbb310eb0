//! Runs of names that are the bits of a vector.
ghost use Rattle.std.specs.Prelude.{◌≡◌, ◌≢◌, ◌++◌, ◌-◌, ◌<◌, ◌≤◌, ◌^◌, false, [], length, take, drop, map, reverse};
ghost use Rattle.std.specs.Prelude.{All, IsTrue, IfSome, IfNone, OnOk, slice_index_or, option_map};
ghost use Rattle.std.specs.Str.{all_ascii_digits};
ghost use Rattle.std.specs.Str.Parse.{digits_value};
ghost use Rattle.aig_names.specs.Vectors as spec;
ghost use Rattle.aig_names.specs.Vectors.{is_index, is_index_end, next_name, turned};
ghost use Rattle.aig_names.specs.state.Naming.{named};

use crate::names::show;
use crate::signals::NamedSignal;
use aig_bytes::Memory;
use itoa::Buffer;
use std::alloc::Global;

/// How many digits an index has at most.
const MOST_DIGITS: usize = 19;

// Whether all bytes are digits.
fn are_digits(text: &[u8]) -> bool
    ensures { result ≡ all_ascii_digits text.now }
{
    text.iter().all(|byte| byte.is_ascii_digit())
}

// Whether digits are a number without leading zeros, of 19 digits at most.
fn is_number(digits: &[u8]) -> bool
    ensures { result ≡ is_index digits.now }
{
    if !are_digits(digits) || digits.is_empty() || digits.len() > MOST_DIGITS {
        return false;
    }
    digits.len() == 1 || digits[0] != b'0'
}

// The number that digits are.
fn number_of(digits: &[u8]) -> u64
    requires { IsTrue (is_index digits.now) }
    ensures value { result ≡ digits_value 10 digits.now }
    ensures small { result < 10 ^ 19 }
{
    let mut number = 0;
    for digit in digits {
        number = number * 10 + u64::from(*digit - b'0');
    }
    number
}

// The place after the last `[`.
fn after_bracket(name: &[u8]) -> Option<usize>
    ensures some { IfSome result (λ place. (0 < place) × (place ≤ length name.now)
        × (slice_index_or name.now (place - 1) 0 ≡ 91)
        × All (λ b. b ≢ 91) (drop place name.now)) }
    ensures none { IfNone result (All (λ b. b ≢ 91) name.now) }
{
    let mut place = name.len();
    while place > 0 {
        if name[place - 1] == b'[' {
            return Some(place);
        }
        place -= 1;
    }
    None
}

// The digits before a last `]`.
fn index_of(text: &[u8]) -> Option<&[u8]>
    ensures some { IfSome result (λ digits. IsTrue (is_index_end text.now)
        × (digits.now ≡ take (length text.now - 1) text.now)
        × IsTrue (is_index digits.now)) }
    ensures none { IfNone result (is_index_end text.now ≡ false) }
{
    let (last, digits) = text.split_last()?;
    if *last == b']' && is_number(digits) {
        Some(digits)
    } else {
        None
    }
}

/// A bit of a vector: X and n of a name X[n].
#[derive(Clone, Copy, Drop)]
pub struct Bit<'a> {
    pub vector: &'a [u8],
    pub index: u64,
}

/// The bit of a vector that a name is: n is decimal, without leading zeros, and has 19 digits at most.
pub fn bit_of(name: &[u8]) -> Option<Bit<'_>>
    ensures bit { option_map (λ bit. (bit.vector.now, bit.index)) result ≡ spec.bit_of name.now }
    ensures small { IfSome result (λ bit. bit.index < 10 ^ 19) }
{
    let place = after_bracket(name)?;
    let digits = index_of(&name[place..])?;
    Some(Bit {
        vector: &name[..place - 1],
        index: number_of(digits),
    })
}

/// Puts the name of the bit after X[n] in place of what the buffer holds, where a name is X[n]; else nothing.
pub fn show_next(next: &mut Vec<u8>, name: &[u8]) -> Result<(), Memory>
    ensures { OnOk result (next.new.items ≡ next_name name.now) }
{
    next.clear();
    let Some(place) = after_bracket(name) else {
        return Ok(());
    };
    let Some(digits) = index_of(&name[place..]) else {
        return Ok(());
    };
    let mut buffer = Buffer::new();
    next.extend_from_slice(&name[..place])?;
    next.extend_from_slice(buffer.format(number_of(digits) + 1).as_bytes())?;
    next.push(b']')?;
    Ok(())
}

// Moves a run to the end of signals, from its last to its first.
fn push_run<'a>(
    signals: &mut Vec<NamedSignal<'a>>,
    run: &mut Vec<NamedSignal<'a>>,
) -> Result<(), Memory>
    ensures reversed { OnOk result (signals.new.items ≡ signals.old.items ++ reverse run.old.items) }
    ensures empty { OnOk result (run.new.items ≡ []) }
{
    run.reverse();
    signals.append(run)?;
    Ok(())
}

/// Adds the signals of a column, each longest run of bits of a vector from its last to its first.
pub fn push_turned<'a>(
    alloc: Global,
    signals: &mut Vec<NamedSignal<'a>>,
    column: &[NamedSignal<'a>],
) -> Result<(), Memory>
    ensures { OnOk result (map named signals.new.items ≡ map named signals.old.items ++ turned (map named column.now)) }
{
    let mut run = Vec::new(alloc);
    let mut name = Vec::new(alloc);
    let mut next = Vec::new(alloc);
    for signal in column {
        show(&mut name, signal.name)?;
        if next.as_slice() != name.as_slice() {
            push_run(signals, &mut run)?;
        }
        run.push(*signal)?;
        show_next(&mut next, &name)?;
    }
    push_run(signals, &mut run)
}
