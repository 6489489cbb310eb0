//! The line of a stimulus that is being read.
ghost use Rattle.std.specs.Prelude.{◌≡◌, ◌≢◌, ℕ, ◌≤◌, ◌<◌, ◌↔◌, List, [], ◌∷◌, ◌++◌, length, map, All, IsTrue};
ghost use Rattle.std.specs.Prelude.{IfOk, IfErr, OnOk, OnErr, IfSome, IfNone, Some, take, slice_get};
ghost use Rattle.aig_values.specs.Characters.{character};
ghost use Rattle.aig_sim.specs.StimulusText.{line_number, IsCharacter, EndsLine, HasFault};
ghost use Rattle.aig_sim.specs.RowParser.{KeepsLine, KeepsReserve, IsOfLine};

use crate::stimulus::fault::StimFault;
use aig_base::{Memory, Tern, line_length};
use std::alloc::Global;
use std::marker::Model;

/// What a line can still be.
#[derive(Clone, Copy, PartialEq, Eq, Debug)]
pub enum Shape {
    /// A row, or the beginning of one.
    Row,
    /// A line of more characters than a row has.
    Long,
    /// A line with a byte other than `0`, `1` and `x`.
    Wrong,
}

/// The current line: of a line of any length it keeps no more values than a row has.
#[derive(Drop)]
pub struct RowParser {
    width: usize,
    shape: Shape,
    values: Vec<Tern>,
}

impl Model for RowParser {
    ghost use Rattle.std.specs.Prelude.{vec_capacity};
    ghost use Rattle.aig_sim.specs.RowParser.{RowParser};

    ghost Value = { RowParser };

    ghost view = { λ l. record {
      width = l.width;
      shape = l.shape;
      values = l.values.items;
      room = vec_capacity l.values;
    } };
}

/// The value of a character.
pub fn value_of(byte: u8) -> Option<Tern>
    ensures some { IfSome result (λ value. byte ≡ character value) }
    ensures none { IfNone result (IsCharacter byte → ⊥) }
{
    match byte {
        b'0' => Some(Tern::Zero),
        b'1' => Some(Tern::One),
        b'x' => Some(Tern::X),
        _ => None,
    }
}

/// The value of a byte that is known to be a character.
pub fn value_by(byte: u8) -> Tern
    requires { IsCharacter byte }
    ensures { byte ≡ character result }
{
    match byte {
        b'0' => Tern::Zero,
        b'1' => Tern::One,
        _ => Tern::X,
    }
}

// Whether a byte is `0`, `1` or `x`.
fn is_character(byte: u8) -> bool
    ensures { IsTrue result ↔ IsCharacter byte }
{
    // No jump depends on the byte.
    (byte == b'0') | (byte == b'1') | (byte == b'x')
}

/// Whether all bytes are `0`, `1` or `x`.
pub fn are_characters(bytes: &[u8]) -> bool
    ensures { IsTrue result ↔ All IsCharacter bytes.now }
{
    // All are looked at, many at a time.
    let mut all = true;
    for byte in bytes {
        all &= is_character(*byte);
    }
    all
}

// Whether the bytes begin with so many characters and an LF after them.
fn begins_with_row(bytes: &[u8], width: usize) -> bool
    ensures characters { IsTrue result → All IsCharacter (take width bytes.now) }
    ensures bound { IsTrue result → width < length bytes.now }
    ensures ended { IsTrue result → slice_get bytes.now width ≡ Some 10 }
{
    width < bytes.len() && bytes[width] == b'\n' && are_characters(&bytes[..width])
}

// Gives values those of characters.
fn put_values(values: &mut [Tern], text: &[u8])
    requires size { length values.old ≡ length text.now }
    requires characters { All IsCharacter text.now }
    ensures { map character values.new ≡ text.now }
{
    for (place, byte) in text.iter().enumerate() {
        values[place] = value_by(*byte);
    }
}

impl RowParser {
    /// An empty line, with room for so many values.
    pub fn new(alloc: Global, width: usize, room: usize) -> Result<RowParser, Memory>
        ensures width { IfOk result (λ line. line.width ≡ width) }
        ensures empty { IfOk result (λ line. (line.shape ≡ Shape.Row) × (line.values ≡ [])) }
        ensures room { IfOk result (λ line. line.room ≡ room) }
    {
        Ok(RowParser {
            width,
            shape: Shape::Row,
            values: Vec::with_capacity(alloc, room)?,
        })
    }

    /// Begins the next line, in the same room.
    pub fn clear(&mut self)
        ensures width { self.new.width ≡ self.old.width }
        ensures empty { (self.new.shape ≡ Shape.Row) × (self.new.values ≡ []) }
        ensures room { self.new.room ≡ self.old.room }
    {
        self.shape = Shape::Row;
        self.values.clear();
    }

    /// Takes the line's next byte. It needs memory only where there is no room for the width.
    pub fn push(&mut self, byte: u8) -> Result<(), Memory>
        ensures width { self.new.width ≡ self.old.width }
        ensures keeps { OnOk result ((line : List ℕ) →
            KeepsLine self.old.width line self.old.shape self.old.values →
            KeepsLine self.old.width (line ++ byte ∷ []) self.new.shape self.new.values) }
        ensures err { OnErr result (self.old.room < self.old.width) }
        ensures room { self.old.room ≤ self.new.room }
    {
        match value_of(byte) {
            Some(value) => {
                if let Shape::Row = self.shape {
                    if self.values.len() < self.width {
                        self.values.push(value)?;
                    } else {
                        self.shape = Shape::Long;
                    }
                }
                Ok(())
            }
            None => {
                self.shape = Shape::Wrong;
                Ok(())
            }
        }
    }

    // Takes characters. It needs memory only where there is no room for the width.
    fn extend_values(&mut self, text: &[u8]) -> Result<(), Memory>
        requires { All IsCharacter text.now }
        ensures reserve { KeepsReserve self.old self.new result }
        ensures keeps { OnOk result ((line : List ℕ) →
            KeepsLine self.old.width line self.old.shape self.old.values →
            KeepsLine self.old.width (line ++ text.now) self.new.shape self.new.values) }
    {
        if let Shape::Row = self.shape {
            let filled = self.values.len();
            if text.len() <= self.width.saturating_sub(filled) {
                self.values.resize(filled + text.len(), Tern::X)?;
                put_values(&mut self.values[filled..], text);
            } else {
                self.shape = Shape::Long;
            }
        }
        Ok(())
    }

    /// Takes the line's next bytes. It needs memory only where there is no room for the width.
    pub fn extend(&mut self, bytes: &[u8]) -> Result<(), Memory>
        ensures width { self.new.width ≡ self.old.width }
        ensures keeps { OnOk result ((line : List ℕ) →
            KeepsLine self.old.width line self.old.shape self.old.values →
            KeepsLine self.old.width (line ++ bytes.now) self.new.shape self.new.values) }
        ensures err { OnErr result (self.old.room < self.old.width) }
        ensures room { self.old.room ≤ self.new.room }
    {
        if are_characters(bytes) {
            self.extend_values(bytes)
        } else {
            self.shape = Shape::Wrong;
            Ok(())
        }
    }

    /// Takes the line's bytes up to its LF, or all where there is none, and returns how many it took. It needs memory
    /// only where there is no room for the width.
    pub(crate) fn take_line(&mut self, bytes: &[u8]) -> Result<usize, Memory>
        ensures reserve { KeepsReserve self.old self.new result }
        ensures bound { IfOk result (λ count. count ≤ length bytes.now) }
        ensures no_end { IfOk result (λ count. All (λ b. b ≢ 10) (take count bytes.now)) }
        ensures ended { IfOk result (λ count. count < length bytes.now → slice_get bytes.now count ≡ Some 10) }
        ensures keeps { IfOk result (λ count. (line : List ℕ) →
            KeepsLine self.old.width line self.old.shape self.old.values →
            KeepsLine self.old.width (line ++ take count bytes.now) self.new.shape self.new.values) }
    {
        // Most lines are rows. Their length is known, so no LF is searched.
        let width = self.width;
        if begins_with_row(bytes, width) {
            self.extend_values(&bytes[..width])?;
            return Ok(width);
        }
        let length = line_length(bytes);
        self.extend(&bytes[..length])?;
        Ok(length)
    }

    /// Whether the line has no byte so far.
    pub fn is_empty(&self) -> bool
        ensures { (line : List ℕ) → KeepsLine self.now.width line self.now.shape self.now.values →
            IsTrue result ↔ (line ≡ []) }
    {
        matches!(self.shape, Shape::Row) && self.values.is_empty()
    }

    /// The row that the line is, or its fault as the line of this number.
    pub fn row(&self, number: u64) -> Result<&[Tern], StimFault>
        ensures row { IfOk result (λ row. (self.now.shape ≡ Shape.Row) × (self.now.values ≡ row.now)
            × (length row.now ≡ self.now.width)) }
        ensures of_line { IfErr result IsOfLine }
        ensures fault { IfErr result (λ fault. (before : ℕ) (line rest : List ℕ) → number ≡ line_number before →
            KeepsLine self.now.width line self.now.shape self.now.values → EndsLine rest →
            HasFault self.now.width before line rest fault) }
    {
        match self.shape {
            Shape::Wrong => Err(StimFault::Char(number)),
            Shape::Row if self.values.len() == self.width => Ok(self.values.as_slice()),
            _ => Err(StimFault::Length(number)),
        }
    }
}
