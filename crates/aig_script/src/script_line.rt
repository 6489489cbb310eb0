//! The line of a script that is being read.
ghost use Rattle.std.specs.Prelude.{◌≡◌, ◌↔◌, ◌≤◌, List, ℕ, [], ◌∷◌, ◌++◌, true, IsTrue, IfOk, IfSome, IfNone, false};
ghost use Rattle.std.specs.Prelude.{length};
ghost use Rattle.aig_script.specs.ScriptLine.{BeginsRow, KeepsScriptLine};

use aig_base::Memory;
use aig_sim::RowParser;
use std::alloc::Global;
use std::marker::Model;

/// The longest command that appends no frame has 34 bytes.
const ROOM: usize = 35;

/// How many values of a row are looked at together at least.
const FEW: usize = 16;

/// What is kept of a line of any length: its first bytes, as many as show whether it is a command, and where it appends
/// a frame as many values as a row has.
#[derive(Drop)]
pub struct ScriptLine {
    bytes: [u8; ROOM],
    length: usize,
    is_row: bool,
    row: RowParser,
}

impl Model for ScriptLine {
    ghost use Rattle.std.specs.Prelude.{take, ◌≤◌};
    ghost use Rattle.aig_script.specs.ScriptLine.{ScriptLine};

    ghost Value = { ScriptLine };

    ghost view = { λ l. record { bytes = take l.length l.bytes; is_row = l.is_row; row = l.row } };

    ghost invariant = { λ l. (l.length ≤ 35) × (l.row.width ≤ l.row.room) };
}

/// Whether a line that begins with these bytes appends a frame.
pub fn begins_row(bytes: &[u8]) -> bool
    ensures row { IsTrue result ↔ BeginsRow bytes.now }
    ensures length { IsTrue result → 2 ≤ length bytes.now }
{
    matches!(bytes, [b'+', b' ', ..])
}

impl ScriptLine {
    /// An empty line, with room for a row of this width.
    pub fn new(alloc: Global, width: usize) -> Result<ScriptLine, Memory>
        ensures empty { IfOk result (KeepsScriptLine []) }
        ensures width { IfOk result (λ line. line.row.width ≡ width) }
    {
        Ok(ScriptLine {
            bytes: [0; ROOM],
            length: 0,
            is_row: false,
            row: RowParser::new(alloc, width, width)?,
        })
    }

    /// Begins the next line, in the same room.
    pub fn clear(&mut self)
        ensures empty { KeepsScriptLine [] self.new }
        ensures width { self.new.row.width ≡ self.old.row.width }
    {
        self.length = 0;
        self.is_row = false;
        self.row.clear();
    }

    // The next byte of a line that appends a frame.
    fn push_value(&mut self, byte: u8)
        requires { self.old.is_row ≡ true }
        ensures keeps { (line : List ℕ) → KeepsScriptLine line self.old → KeepsScriptLine (line ++ byte ∷ []) self.new }
        ensures width { self.new.row.width ≡ self.old.row.width }
    {
        let Ok(()) = self.row.push(byte) else {
            unreachable!()
        };
    }

    // Whether with this byte the line begins as one that appends a frame.
    fn begins_row_with(&self, byte: u8) -> bool
        ensures { IsTrue result ↔ (self.now.bytes ≡ 43 ∷ []) × (byte ≡ 32) }
    {
        matches!(self.bytes(), [b'+']) && byte == b' '
    }

    // The next byte of any other line.
    fn push_byte(&mut self, byte: u8)
        requires { self.old.is_row ≡ false }
        ensures keeps { (line : List ℕ) → KeepsScriptLine line self.old → KeepsScriptLine (line ++ byte ∷ []) self.new }
        ensures width { self.new.row.width ≡ self.old.row.width }
    {
        if self.begins_row_with(byte) {
            self.is_row = true;
            self.row.clear();
        } else if self.length < ROOM {
            self.bytes[self.length] = byte;
            self.length += 1;
        }
    }

    /// Takes the line's next byte.
    pub fn push(&mut self, byte: u8)
        ensures keeps { (line : List ℕ) → KeepsScriptLine line self.old → KeepsScriptLine (line ++ byte ∷ []) self.new }
        ensures width { self.new.row.width ≡ self.old.row.width }
    {
        if self.is_row {
            self.push_value(byte);
        } else {
            self.push_byte(byte);
        }
    }

    // Takes the line's next bytes one by one.
    fn push_all(&mut self, bytes: &[u8])
        ensures keeps { (line : List ℕ) → KeepsScriptLine line self.old → KeepsScriptLine (line ++ bytes.now) self.new }
        ensures width { self.new.row.width ≡ self.old.row.width }
    {
        for byte in bytes {
            self.push(*byte);
        }
    }

    // Begins a line that appends a frame.
    fn begin_row(&mut self)
        ensures row { self.new.is_row ≡ true }
        ensures keeps { KeepsScriptLine (43 ∷ 32 ∷ []) self.new }
        ensures width { self.new.row.width ≡ self.old.row.width }
    {
        self.is_row = true;
        self.row.clear();
    }

    // Takes the next bytes of a line that appends a frame. Where there are few, one by one is faster.
    fn extend_row(&mut self, bytes: &[u8])
        requires { self.old.is_row ≡ true }
        ensures keeps { (line : List ℕ) → KeepsScriptLine line self.old → KeepsScriptLine (line ++ bytes.now) self.new }
        ensures width { self.new.row.width ≡ self.old.row.width }
    {
        if bytes.len() < FEW {
            return self.push_all(bytes);
        }
        let Ok(()) = self.row.extend(bytes) else {
            unreachable!()
        };
    }

    // Whether no byte was taken.
    fn is_fresh(&self) -> bool
        ensures { IsTrue result → (self.now.is_row ≡ false) × (self.now.bytes ≡ []) }
    {
        !self.is_row && self.length == 0
    }

    /// Takes the line's next bytes.
    pub fn extend(&mut self, bytes: &[u8])
        ensures keeps { (line : List ℕ) → KeepsScriptLine line self.old → KeepsScriptLine (line ++ bytes.now) self.new }
        ensures width { self.new.row.width ≡ self.old.row.width }
    {
        if self.is_fresh() && begins_row(bytes) {
            self.begin_row();
            self.extend_row(&bytes[2..]);
        } else if self.is_row {
            self.extend_row(bytes);
        } else {
            self.push_all(bytes);
        }
    }

    /// Whether the line has no byte so far.
    pub fn is_empty(&self) -> bool
        ensures { (line : List ℕ) → KeepsScriptLine line self.now → IsTrue result ↔ (line ≡ []) }
    {
        self.row().is_none() && self.bytes().is_empty()
    }

    /// After `+ ` the values that it appends, for any other line nothing.
    pub fn row(&self) -> Option<&RowParser>
        ensures some { IfSome result (λ row. (self.now.is_row ≡ true) × (row.now ≡ self.now.row)) }
        ensures none { IfNone result (self.now.is_row ≡ false) }
    {
        if self.is_row { Some(&self.row) } else { None }
    }

    /// The line's first bytes, where it does not begin with `+ `.
    pub fn bytes(&self) -> &[u8]
        ensures { result.now ≡ self.now.bytes }
    {
        &self.bytes[..self.length]
    }
}
