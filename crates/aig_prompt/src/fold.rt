//! Lines that are folded at 80 columns.
ghost use Rattle.std.specs.Prelude.{◌≡◌, false, true, OnOk};
ghost use Rattle.aig_prompt.specs.Folded.{AddsSpaces, AddsWord, Folds};

use aig_bytes::Memory;
use aig_names::first_word;

/// How many columns a line has.
const COLUMNS: usize = 80;

/// Words that are put into lines of 80 columns at most, with a space between. A longer word has a line of its own.
#[derive(Clone, Copy, Drop)]
pub struct Folding {
    /// How many spaces a line after the first begins with.
    indent: usize,
    /// How many columns of the current line are taken.
    column: usize,
    is_first: bool,
}

impl Folding {
    /// Before the first word. Each line after the first begins with so many spaces.
    pub fn new(indent: usize) -> Folding
        ensures { result.is_first ≡ true }
    {
        Folding {
            indent,
            column: 0,
            is_first: true,
        }
    }

    /// Begins a line with spaces.
    fn break_line(&mut self, text: &mut Vec<u8>) -> Result<(), Memory>
        ensures spaces { OnOk result (AddsSpaces false text.old.items text.new.items) }
        ensures first { self.new.is_first ≡ self.old.is_first }
    {
        text.push(b'\n')?;
        for _space in 0..self.indent {
            text.push(b' ')?;
        }
        self.column = self.indent;
        Ok(())
    }

    /// Parts the next word from what is there.
    fn part(&mut self, text: &mut Vec<u8>, size: usize) -> Result<(), Memory>
        ensures spaces { OnOk result (AddsSpaces self.old.is_first text.old.items text.new.items) }
        ensures first { self.new.is_first ≡ false }
    {
        if self.is_first {
            self.is_first = false;
            return Ok(());
        }
        if self.column.saturating_add(size) >= COLUMNS {
            return self.break_line(text);
        }
        text.push(b' ')?;
        self.column = self.column.saturating_add(1);
        Ok(())
    }

    /// Adds the next word.
    pub fn push_word(&mut self, text: &mut Vec<u8>, word: &[u8]) -> Result<(), Memory>
        ensures word { OnOk result (AddsWord self.old.is_first word.now text.old.items text.new.items) }
        ensures first { self.new.is_first ≡ false }
    {
        self.part(text, word.len())?;
        text.extend_from_slice(word)?;
        self.column = self.column.saturating_add(word.len());
        Ok(())
    }
}

/// Adds a line, folded at its spaces: each line after the first begins with four spaces.
pub fn push_folded(text: &mut Vec<u8>, line: &[u8]) -> Result<(), Memory>
    ensures { OnOk result (Folds line.now text.old.items text.new.items) }
{
    let mut folding = Folding::new(4);
    let mut rest = line;
    while let Some(first) = first_word(rest) {
        folding.push_word(text, first.word)?;
        rest = first.rest;
    }
    text.push(b'\n')?;
    Ok(())
}
