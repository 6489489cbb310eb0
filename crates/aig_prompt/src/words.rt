//! The words of a line.
ghost use Rattle.std.specs.Prelude.{◌≡◌, ◌++◌, map, IfOk};
ghost use Rattle.aig_names.specs.Names.{words};
ghost use Rattle.aig_prompt.specs.Words as spec;

use aig_bytes::Memory;
use aig_names::first_word;
use std::alloc::Global;

/// A byte between words as a space.
fn spaced_byte(byte: u8) -> u8
    ensures { result ≡ spec.spaced_byte byte }
{
    if byte == b'\t' || byte == b'\r' {
        b' '
    } else {
        byte
    }
}

/// A line with spaces in place of tabs and carriage returns.
pub fn spaced(alloc: Global, line: &[u8]) -> Result<Vec<u8>, Memory>
    ensures { IfOk result (λ copy. copy.items ≡ map spec.spaced_byte line.now) }
{
    let mut copy = Vec::new(alloc);
    for byte in line {
        copy.push(spaced_byte(*byte))?;
    }
    Ok(copy)
}

/// The words of a line: its pieces between spaces.
pub fn words_of(alloc: Global, line: &[u8]) -> Result<Vec<&[u8]>, Memory>
    ensures { IfOk result (λ list. map (λ word. word.now) list.items ≡ words line.now) }
{
    let mut list = Vec::new(alloc);
    let mut rest = line;
    while let Some(first) = first_word(rest) {
        list.push(first.word)?;
        rest = first.rest;
    }
    Ok(list)
}
