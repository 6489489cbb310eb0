//! The values of the primary inputs, frame by frame.
ghost use Rattle.std.specs.Prelude.{◌≡◌, ◌-◌, ◌+◌, ◌<◌, ◌≤◌, [], ◌∷◌, ◌++◌, length, take, All, IfOk, OnOk, OnErr, Some};
ghost use Rattle.std.specs.Prelude.{slice_get};
ghost use Rattle.aig_values.specs.InputRows.{with_cell, row_at, HaveWidth};

pub(crate) mod reset;

use aig_bytes::Memory;
use aig_parts::{List, Tern};
use std::alloc::{AllocError, Global};
use std::marker::Model;

/// The greatest number of frames of a stimulus.
pub const FRAMES: u32 = 65_536;

/// A list of at most 65,536 rows of one width: a row a frame, a value an input.
#[derive(Debug)]
pub struct Stimulus {
    width: u32,
    rows: Vec<List<Tern>>,
    // A row that was taken off, whose memory the next one gets.
    spare: Option<List<Tern>>,
}

// By hand: a value then ends in one call, which is one step of a proof (docs/PROOFS.md, Habits).
impl Drop for Stimulus {
    fn drop(self) {
        let Stimulus {
            width: _,
            rows: _,
            spare: _,
        } = self;
    }
}

impl Model for Stimulus {
    ghost use Rattle.std.specs.Prelude.{◌≤◌, vec_len};
    ghost use Rattle.aig_values.specs.declared.stimulus.TheConstants.{FRAMES};
    ghost use Rattle.aig_values.specs.InputRows.{InputRows, HaveWidth};

    ghost Value = { InputRows };

    ghost view = { λ s. record { width = s.width; rows = s.rows.items } };

    ghost invariant = { λ s. (vec_len s.rows ≤ FRAMES) × HaveWidth s.width s.rows.items };
}

// Writes a row over another one of its length.
fn write_over(copy: &mut List<Tern>, row: &[Tern])
    requires { length copy.old ≡ length row.now }
    ensures { copy.new ≡ row.now }
{
    for place in 0..row.len() {
        copy.set(place, row[place]);
    }
}

// A copy of a row, in the memory of the spare one where that has its length.
fn copied(alloc: Global, spare: Option<List<Tern>>, row: &[Tern]) -> Result<List<Tern>, AllocError>
    ensures { IfOk result (λ copy. copy ≡ row.now) }
{
    if let Some(mut copy) = spare {
        if copy.len() == row.len() {
            write_over(&mut copy, row);
            return Ok(copy);
        }
    }
    let mut copy = Vec::with_capacity(alloc, row.len())?;
    copy.extend_from_slice(row)?;
    Ok(List::from_vec(copy))
}

impl Stimulus {
    /// No rows of this width.
    pub fn new(alloc: Global, width: u32) -> Stimulus
        ensures { result ≡ record { width = width; rows = [] } }
    {
        Stimulus {
            width,
            rows: Vec::new(alloc),
            spare: None,
        }
    }

    /// The length of each row, the number of inputs.
    pub fn width(&self) -> u32
        ensures width { result ≡ self.now.width }
        ensures rows { HaveWidth self.now.width self.now.rows }
    {
        self.width
    }

    /// The number of rows.
    pub fn frames(&self) -> u32
        ensures frames { result ≡ length self.now.rows }
        ensures limit { length self.now.rows ≤ FRAMES }
    {
        self.rows.len() as u32
    }

    /// The value at a position below the width of a frame that is there, both counted from 0.
    pub fn get(&self, frame: u32, position: u32) -> Tern
        requires frame { frame < length self.now.rows }
        requires position { position < self.now.width }
        ensures { slice_get (row_at self.now.rows frame) position ≡ Some result }
    {
        self.rows[frame as usize][position as usize]
    }

    /// The row of a frame that is there.
    pub fn row(&self, frame: u32) -> &[Tern]
        requires { frame < length self.now.rows }
        ensures { result.now ≡ row_at self.now.rows frame }
    {
        self.rows[frame as usize].as_slice()
    }

    /// Replaces the value at a position below the width of a frame that is there.
    pub fn set(&mut self, frame: u32, position: u32, value: Tern)
        requires frame { frame < length self.old.rows }
        requires position { position < self.old.width }
        ensures { self.new ≡ record self.old { rows = with_cell self.old.rows frame position value } }
    {
        self.rows[frame as usize].set(position as usize, value);
    }

    /// Appends a row. The caller knows that it has the width, and that there are fewer than 65,536.
    pub fn push(&mut self, row: &[Tern]) -> Result<(), Memory>
        requires width { length row.now ≡ self.old.width }
        requires room { length self.old.rows < FRAMES }
        ensures ok { OnOk result (self.new ≡ record self.old { rows = self.old.rows ++ row.now ∷ [] }) }
        ensures err { OnErr result (self.new ≡ self.old) }
    {
        let alloc = *self.rows.allocator();
        let copy = copied(alloc, self.spare.take(), row)?;
        self.rows.push(copy)?;
        Ok(())
    }

    /// Takes the last row off. The caller knows that there is one.
    pub fn pop(&mut self)
        requires { 0 < length self.old.rows }
        ensures { self.new ≡ record self.old { rows = take (length self.old.rows - 1) self.old.rows } }
    {
        self.spare = self.rows.pop();
    }
}
