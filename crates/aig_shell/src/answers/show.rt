//! Tables of values.
ghost use Rattle.std.specs.Prelude.{◌≡◌, ◌≢◌, ◌+◌, ◌-◌, ◌^◌, ◌<◌, ◌≤◌, ◌++◌, List, [], ℕ, All, IfErr, IfOk, None, OnOk};
ghost use Rattle.std.specs.Prelude.{length, map, option_map};
ghost use Rattle.aig_parts.specs.Literal.{variable};
ghost use Rattle.aig_base.specs.Sections.{IsDefined};
ghost use Rattle.aig_prompt.specs.Table.{TableRow, row_of};
ghost use Rattle.aig_shell.specs.Answers.{ShowsFrames, left_out};
ghost use Rattle.aig_shell.specs.Ends.{EndsQuery};
ghost use Rattle.aig_shell.specs.Request as request;
ghost use Rattle.aig_shell.specs.Tables.{AreBits, AreCells, IsCell, IsRowOf, IsShown};

use crate::pieces::{Piece, push_pieces};
use crate::refusal::Refusal;
use crate::session::Session;
use crate::session::frames::{FrameRange, SHOWN};
use aig_base::{Lit, Memory, Tern};
use aig_prompt::{Row, Table, Texts};
use aig_signals::{SignalNames, push_table_value};

/// The frames that are shown where none are named: all, or the last ones. Says how many are left out.
fn shown_frames(text: &mut Vec<u8>, all: FrameRange) -> Result<FrameRange, Memory>
    requires first { all.first ≡ 0 }
    ensures shown { IfOk result (λ found. ShowsFrames None (all.last + 1) found.first found.last) }
    ensures text { IfOk result (λ found. text.new.items ≡ text.old.items ++ left_out None found.first) }
{
    if all.count() <= SHOWN {
        return Ok(all);
    }
    let first = all.last.saturating_sub(SHOWN - 1);
    let note = [
        Piece::Text(b"frames 0 to "),
        Piece::Number(u64::from(first.saturating_sub(1))),
        Piece::Text(b" are left out; @A-B names frames\n"),
    ];
    push_pieces(text, &note)?;
    Ok(FrameRange {
        first,
        last: all.last,
    })
}

impl Session {
    /// The values of literals at a frame.
    pub(crate) fn bits(
        &self,
        bits: &mut Vec<Option<Tern>>,
        frame: u32,
        literals: &[Lit],
    ) -> Result<(), Memory>
        requires frame { frame < length self.now.run.bench.pair.rows }
        requires defined { All (λ l. IsDefined self.now.run.bench.pair.circuit (variable l)) literals.now }
        ensures { OnOk result (AreBits self.now.run.bench.pair frame literals.now bits.new.items) }
    {
        bits.clear();
        for literal in literals {
            bits.push(Some(self.value(frame, *literal)))?;
        }
        Ok(())
    }

    /// Fills in the text of the values of literals at a frame.
    fn fill_cell(
        &self,
        cell: &mut Vec<u8>,
        bits: &mut Vec<Option<Tern>>,
        frame: u32,
        literals: &[Lit],
    ) -> Result<(), Memory>
        requires frame { frame < length self.now.run.bench.pair.rows }
        requires defined { All (λ l. IsDefined self.now.run.bench.pair.circuit (variable l)) literals.now }
        ensures { OnOk result (IsCell self.now.run.bench.pair literals.now frame cell.new.items) }
    {
        cell.clear();
        self.bits(bits, frame, literals)?;
        push_table_value(cell, bits.as_slice())
    }

    /// The row of the values of literals, at some frames.
    fn row(&self, name: &[u8], literals: &[Lit], frames: FrameRange) -> Result<Row, Memory>
        requires within { frames.last < length self.now.run.bench.pair.rows }
        requires defined { All (λ l. IsDefined self.now.run.bench.pair.circuit (variable l)) literals.now }
        ensures name { IfOk result (λ row. (row_of row).name ≡ name.now) }
        ensures cells { IfOk result (λ row.
            AreCells self.now.run.bench.pair literals.now frames.first (frames.last + 1 - frames.first)
            (row_of row).cells) }
    {
        let mut bits = Vec::new(self.alloc);
        let mut cell = Vec::new(self.alloc);
        let mut cells = Texts::new(self.alloc);
        for frame in frames.first..frames.last + 1 {
            self.fill_cell(&mut cell, &mut bits, frame, literals)?;
            cells.push(cell.as_slice())?;
        }
        let name = Vec::from_slice(self.alloc, name)?;
        Ok(Row { name, cells })
    }

    /// The frames that are named, or all or the last ones.
    fn frames_to_show<'a>(
        &self,
        text: &mut Vec<u8>,
        frames: Option<&'a [u8]>,
    ) -> Result<FrameRange, Refusal<'a>>
        ensures shown { IfOk result (λ found.
            ShowsFrames (option_map (λ w. w.now) frames.entry) (length self.now.run.bench.pair.rows) found.first
            found.last) }
        ensures within { IfOk result (λ found. found.last < length self.now.run.bench.pair.rows) }
        ensures text { IfOk result (λ found. text.new.items
            ≡ text.old.items ++ left_out (option_map (λ w. w.now) frames.entry) found.first) }
        ensures err { IfErr result (λ refusal. refusal ≢ Refusal.Memory → (first last : ℕ) →
            ShowsFrames (option_map (λ w. w.now) frames.entry) (length self.now.run.bench.pair.rows) first last → ⊥) }
    {
        match frames {
            Some(word) => self.frames(word),
            None => {
                let all = self.all_frames()?;
                let shown = shown_frames(text, all)?;
                Ok(shown)
            }
        }
    }

    /// The row of a name, at some frames.
    fn named_row<'a>(
        &self,
        known: &SignalNames<'_>,
        name: &'a [u8],
        frames: FrameRange,
    ) -> Result<Row, Refusal<'a>>
        requires circuit { known.now ≡ self.now.run.bench.pair.circuit }
        requires within { frames.last < length self.now.run.bench.pair.rows }
        ensures ok { IfOk result (λ row. IsRowOf self.now.run.bench.pair frames.first (frames.last + 1 - frames.first)
            name.now (row_of row)) }
        ensures err { IfErr result (λ refusal. refusal ≢ Refusal.Memory → (t n : ℕ) (row : TableRow) →
            IsRowOf self.now.run.bench.pair t n name.now row → ⊥) }
    {
        // Its contract says that it is a circuit.
        self.circuit().facts();
        let literals = self.literals_among(known, name)?;
        let row = self.row(name, literals.as_slice(), frames)?;
        Ok(row)
    }

    /// The rows of names, at some frames, where what they mean was looked up.
    fn rows_among<'a>(
        &self,
        known: &SignalNames<'_>,
        names: &[&'a [u8]],
        frames: FrameRange,
    ) -> Result<Vec<Row>, Refusal<'a>>
        requires circuit { known.now ≡ self.now.run.bench.pair.circuit }
        requires within { frames.last < length self.now.run.bench.pair.rows }
        ensures ok { IfOk result (λ rows. IsShown self.now.run.bench.pair frames.first
            (frames.last + 1 - frames.first) (map (λ w. w.now) names.now) (map row_of rows.items)) }
        ensures err { IfErr result (λ refusal. refusal ≢ Refusal.Memory → (t n : ℕ) (rows : List TableRow) →
            IsShown self.now.run.bench.pair t n (map (λ w. w.now) names.now) rows → ⊥) }
    {
        let mut rows = Vec::new(self.alloc);
        for name in names {
            let row = self.named_row(known, *name, frames)?;
            rows.push(row)?;
        }
        Ok(rows)
    }

    /// The rows of names, at some frames.
    fn rows<'a>(&self, names: &[&'a [u8]], frames: FrameRange) -> Result<Vec<Row>, Refusal<'a>>
        requires within { frames.last < length self.now.run.bench.pair.rows }
        ensures ok { IfOk result (λ rows. IsShown self.now.run.bench.pair frames.first
            (frames.last + 1 - frames.first) (map (λ w. w.now) names.now) (map row_of rows.items)) }
        ensures err { IfErr result (λ refusal. refusal ≢ Refusal.Memory → (t n : ℕ) (rows : List TableRow) →
            IsShown self.now.run.bench.pair t n (map (λ w. w.now) names.now) rows → ⊥) }
    {
        let known = self.names_for(names)?;
        self.rows_among(&known, names, frames)
    }

    /// Adds a table of the values of names, at the frames that are named, or at all.
    pub(crate) fn show<'a>(
        &self,
        text: &mut Vec<u8>,
        names: &[&'a [u8]],
        frames: Option<&'a [u8]>,
    ) -> Result<(), Refusal<'a>>
        requires empty { text.old.items ≡ [] }
        ensures { EndsQuery self.now (request.show (map (λ w. w.now) names.now) (option_map (λ w. w.now) frames.entry))
            result
            text.new.items }
    {
        let shown = self.frames_to_show(text, frames)?;
        let rows = self.rows(names, shown)?;
        let table = Table {
            first: shown.first,
            frames: shown.count(),
            rows,
        };
        table.push_text(text)?;
        Ok(())
    }
}
