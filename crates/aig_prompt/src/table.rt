//! Tables of values, with frames as columns.
ghost use Rattle.std.specs.Prelude.{◌≡◌, ◌+◌, ◌-◌, ◌<◌, ◌≤◌, ◌++◌, [], OnOk, codes, decimal, flat_map, map, ℕ, List};
ghost use Rattle.std.specs.Prelude.{◌^◌};
ghost use Rattle.std.specs.List.{range_with_len};
ghost use Rattle.aig_prompt.specs.Table as spec;
ghost use Rattle.aig_prompt.specs.Table.{IsTable, block_text, cell_at, cell_text, line_text, name_text, row_of, spaces};

use crate::texts::Texts;
use aig_bytes::Memory;
use itoa::Buffer;
use std::alloc::Global;

/// How many columns a line has.
const COLUMNS: usize = 80;

/// The width of the longest name that is shown whole.
const LONGEST: usize = 30;

/// A row: a name, and a text for each frame.
#[derive(Drop)]
pub struct Row {
    pub name: Vec<u8>,
    pub cells: Texts,
}

impl Row {
    /// The width of the widest cell.
    fn widest(&self) -> usize {
        let mut widest = 0;
        for place in 0..self.cells.len() {
            widest = widest.max(self.cells.get(place).len());
        }
        widest
    }
}

/// Rows of texts, a column for each of some frames.
#[derive(Drop)]
pub struct Table {
    pub first: u32,
    pub frames: u32,
    pub rows: Vec<Row>,
}

/// How wide the columns are, and how many frames a line has.
#[derive(Clone, Copy)]
struct Layout {
    name: usize,
    cell: usize,
    per_line: usize,
}

/// Adds spaces.
fn push_spaces(text: &mut Vec<u8>, count: usize) -> Result<(), Memory>
    ensures { OnOk result (text.new.items ≡ text.old.items ++ spaces count) }
{
    for _space in 0..count {
        text.push(b' ')?;
    }
    Ok(())
}

/// Adds a name in a column of a width: a longer one ends in two dots.
fn push_name(text: &mut Vec<u8>, name: &[u8], width: usize) -> Result<(), Memory>
    ensures { OnOk result (text.new.items ≡ text.old.items ++ name_text width name.now) }
{
    if name.len() > width {
        text.extend_from_slice(&name[..width.saturating_sub(2)])?;
        text.extend_from_slice(b"..")?;
        return Ok(());
    }
    text.extend_from_slice(name)?;
    push_spaces(text, width - name.len())
}

/// Adds a cell after a space, at the right of its column.
fn push_cell(text: &mut Vec<u8>, cell: &[u8], width: usize) -> Result<(), Memory>
    ensures { OnOk result (text.new.items ≡ text.old.items ++ cell_text width cell.now) }
{
    push_spaces(text, width.saturating_sub(cell.len()))?;
    text.push(b' ')?;
    text.extend_from_slice(cell)?;
    Ok(())
}

/// The width of the column of names.
fn name_width(rows: &[Row]) -> usize
    ensures { result ≡ spec.name_width (map row_of rows.now) }
{
    let mut width: usize = 5;
    for row in rows {
        width = width.max(row.name.len());
    }
    width.min(LONGEST)
}

/// The width of the columns of cells, which holds the widest cell and the number of a frame.
fn cell_width(rows: &[Row], last: u32) -> usize {
    let mut buffer = Buffer::new();
    let mut width = buffer.format(last).len();
    for row in rows {
        width = width.max(row.widest());
    }
    width
}

/// Adds the line of frame numbers of some columns.
fn push_head(
    text: &mut Vec<u8>,
    layout: Layout,
    first: u32,
    begin: usize,
    end: usize,
) -> Result<(), Memory>
    requires { first + end < 2 ^ 64 }
    ensures { OnOk result (text.new.items ≡ text.old.items
        ++ line_text layout.name layout.cell (codes "frame") (λ place. decimal (first + place)) begin (end - begin)) }
{
    push_name(text, b"frame", layout.name)?;
    for place in begin..end {
        let mut buffer = Buffer::new();
        let number = u64::from(first) + place as u64;
        push_cell(text, buffer.format(number).as_bytes(), layout.cell)?;
    }
    text.push(b'\n')?;
    Ok(())
}

/// Adds the line of a row of some columns.
fn push_row(
    text: &mut Vec<u8>,
    layout: Layout,
    row: &Row,
    begin: usize,
    end: usize,
) -> Result<(), Memory>
    ensures { OnOk result (text.new.items ≡ text.old.items
        ++ line_text layout.name layout.cell row.now.name.items (cell_at (row_of row.now)) begin (end - begin)) }
{
    push_name(text, row.name.as_slice(), layout.name)?;
    for place in begin..end {
        push_cell(text, row.cells.get(place), layout.cell)?;
    }
    text.push(b'\n')?;
    Ok(())
}

impl Table {
    /// Without rows, for so many frames from the first.
    pub fn new(alloc: Global, first: u32, frames: u32) -> Table
        ensures first { result.first ≡ first }
        ensures frames { result.frames ≡ frames }
        ensures rows { result.rows.items ≡ [] }
    {
        Table {
            first,
            frames,
            rows: Vec::new(alloc),
        }
    }

    /// The number of the last frame.
    fn last(&self) -> u32 {
        self.first.saturating_add(self.frames).saturating_sub(1)
    }

    fn layout(&self) -> Layout
        ensures name { result.name ≡ spec.name_width (map row_of self.now.rows.items) }
        ensures per_line { 0 < result.per_line }
    {
        let name = name_width(self.rows.as_slice());
        let cell = cell_width(self.rows.as_slice(), self.last());
        let room = COLUMNS.saturating_sub(name);
        Layout {
            name,
            cell,
            per_line: (room / cell.saturating_add(1)).max(1),
        }
    }

    /// Adds some columns.
    fn push_block(
        &self,
        text: &mut Vec<u8>,
        layout: Layout,
        begin: usize,
        end: usize,
    ) -> Result<(), Memory>
        requires { end ≤ self.now.frames }
        ensures { OnOk result (text.new.items ≡ text.old.items
            ++ block_text layout.name layout.cell self.now.first (map row_of self.now.rows.items) begin (end - begin)) }
    {
        push_head(text, layout, self.first, begin, end)?;
        for row in self.rows.as_slice() {
            push_row(text, layout, row, begin, end)?;
        }
        Ok(())
    }

    /// Adds the table, as many frames in a line as 80 columns hold, and then an empty line and the frames that are
    /// left.
    pub fn push_text(&self, text: &mut Vec<u8>) -> Result<(), Memory>
        ensures { OnOk result ((table : List ℕ)
            × IsTable self.now.first self.now.frames (map row_of self.now.rows.items) table
            × (text.new.items ≡ text.old.items ++ table)) }
    {
        let layout = self.layout();
        let frames = self.frames as usize;
        let mut begin = 0;
        while begin < frames {
            if begin > 0 {
                text.push(b'\n')?;
            }
            let end = begin.saturating_add(layout.per_line).min(frames);
            self.push_block(text, layout, begin, end)?;
            begin = end;
        }
        Ok(())
    }
}
