//! What differs from the run that was read.
ghost use Rattle.std.specs.Prelude.{◌≡◌, ◌≢◌, ℕ, ◌+◌, ◌-◌, ◌<◌, ◌≤◌, ◌++◌, List, None, [], All, IfErr, IfNone, IfOk};
ghost use Rattle.std.specs.Prelude.{IfSome, OnOk, length, option_map};
ghost use Rattle.std.specs.Str.{bytes_eq};
ghost use Rattle.aig_parts.specs.Literal.{variable};
ghost use Rattle.aig_base.specs.Sections.{IsDefined};
ghost use Rattle.aig_bench.specs.BenchState.{CircuitAndRows};
ghost use Rattle.aig_prompt.specs.Table.{row_of};
ghost use Rattle.aig_signals.specs.Names.{literal_of, literals_of};
ghost use Rattle.aig_signals.specs.Signals.{signals_of};
ghost use Rattle.aig_signals.specs.declared.signal.Signal.{Signal};
ghost use Rattle.aig_shell.specs.Answers.{DiffersFrames, some_shown};
ghost use Rattle.aig_shell.specs.Ends.{EndsQuery};
ghost use Rattle.aig_shell.specs.Request as request;
ghost use Rattle.aig_shell.specs.Session.{IsFirst};
ghost use Rattle.aig_shell.specs.Tables.{AreBits, AreTwoRows, Differs, IsBelow, IsCellOrDot};
ghost use Rattle.aig_shell.specs.Compared.{AreAllSame, AreLiterals, AreSame, AreTexts, IsDifferenceText, NoneOutside};
ghost use Rattle.aig_shell.specs.Compared.{OneDiffers};

use crate::pieces::{Piece, push_pieces};
use crate::refusal::Refusal;
use crate::session::Session;
use crate::session::frames::{SHOWN, frames_of};
use aig_base::{Kind, Lit, Memory, Tern};
use aig_prompt::{Row, Table, Texts};
use aig_signals::{Signal, literal_at, push_table_value};
use std::alloc::Global;

/// The literals of a signal, as they are now and as they were.
pub(crate) struct Literals {
    current: Vec<Lit>,
    was: Vec<Lit>,
}

// By hand: a value then ends in one call, which is one step of a proof (docs/PROOFS.md, Habits).
impl Drop for Literals {
    fn drop(self) {
        let Literals { current: _, was: _ } = self;
    }
}

/// The texts of a signal's values at a frame, as they are now and as they were; `.` where there is no such frame.
pub(crate) struct Cells {
    bits: Vec<Option<Tern>>,
    current: Vec<u8>,
    was: Vec<u8>,
}

// By hand: a value then ends in one call, which is one step of a proof (docs/PROOFS.md, Habits).
impl Drop for Cells {
    fn drop(self) {
        let Cells {
            bits: _,
            current: _,
            was: _,
        } = self;
    }
}

impl Cells {
    fn new(alloc: Global) -> Cells {
        Cells {
            bits: Vec::new(alloc),
            current: Vec::new(alloc),
            was: Vec::new(alloc),
        }
    }

    /// Whether the two texts are the same.
    fn are_same(&self) -> bool
        ensures { result ≡ bytes_eq self.now.current.items self.now.was.items }
    {
        self.current.as_slice() == self.was.as_slice()
    }

    /// The text of the value that was, or `=` where it is the same.
    fn below(&self) -> &[u8]
        ensures { IsBelow self.now.current.items self.now.was.items result.now }
    {
        if self.are_same() {
            b"="
        } else {
            self.was.as_slice()
        }
    }
}

/// Says which frames are shown, up to an end, of so many in all, where none are named and some are left out.
fn push_frames(
    text: &mut Vec<u8>,
    frames: Option<&[u8]>,
    count: u32,
    first: u32,
    end: u32,
) -> Result<(), Memory>
    requires order { first ≤ end }
    ensures { OnOk result (text.new.items
        ≡ text.old.items ++ some_shown (option_map (λ w. w.now) frames.entry) count first (end - first)) }
{
    if frames.is_some() || end - first == count {
        return Ok(());
    }
    let note = [
        Piece::Text(b"frames "),
        Piece::Number(u64::from(first)),
        Piece::Text(b" to "),
        Piece::Number(u64::from(end.saturating_sub(1))),
        Piece::Text(b" of 0 to "),
        Piece::Number(u64::from(count.saturating_sub(1))),
        Piece::Text(b"; @A-B names frames\n"),
    ];
    push_pieces(text, &note)
}

impl Session {
    /// The literal that an entry had.
    fn first_literal(&self, kind: Kind, position: u32, now: Lit) -> Lit
        requires within { position < length (literals_of self.now.run.bench.pair.circuit kind) }
        requires now { now ≡ literal_of self.now.run.bench.pair.circuit kind position }
        ensures { (p : CircuitAndRows) → IsFirst self.now p → result ≡ literal_of p.circuit kind position }
    {
        match kind {
            Kind::Output => match self.first.output(position) {
                Some(literal) => literal,
                None => now,
            },
            _ => now,
        }
    }

    /// The literals of a signal.
    fn signal_literals(&self, signal: &Signal) -> Result<Literals, Memory>
        requires order { signal.now.first ≤ signal.now.end }
        requires within { signal.now.end ≤ length (literals_of self.now.run.bench.pair.circuit signal.now.kind) }
        ensures are { IfOk result (AreLiterals self.now signal.now) }
        ensures defined { IfOk result (λ literals.
            All (λ l. IsDefined self.now.run.bench.pair.circuit (variable l)) literals.current.items) }
    {
        let circuit = self.circuit();
        // Its contract says that it is a circuit.
        circuit.facts();
        let mut current = Vec::new(self.alloc);
        let mut was = Vec::new(self.alloc);
        for position in signal.first..signal.end {
            let literal = literal_at(circuit, signal.kind, position);
            current.push(literal)?;
            was.push(self.first_literal(signal.kind, position, literal))?;
        }
        Ok(Literals { current, was })
    }

    /// The values that literals had at a frame.
    fn first_bits(
        &self,
        bits: &mut Vec<Option<Tern>>,
        frame: u32,
        literals: &[Lit],
    ) -> Result<(), Memory>
        ensures { (p : CircuitAndRows) → IsFirst self.now p → frame < length p.rows
            → All (λ l. IsDefined p.circuit (variable l)) literals.now
            → OnOk result (AreBits p frame literals.now bits.new.items) }
    {
        bits.clear();
        for literal in literals {
            let value = self.first.value(frame, *literal);
            bits.push(value)?;
        }
        Ok(())
    }

    /// Fills in the text at a frame now.
    fn fill_now(
        &self,
        text: &mut Vec<u8>,
        bits: &mut Vec<Option<Tern>>,
        literals: &[Lit],
        frame: u32,
    ) -> Result<(), Memory>
        requires { All (λ l. IsDefined self.now.run.bench.pair.circuit (variable l)) literals.now }
        ensures { OnOk result (IsCellOrDot self.now.run.bench.pair literals.now frame text.new.items) }
    {
        text.clear();
        let count = self.bench().frames();
        if frame < count {
            self.bits(bits, frame, literals)?;
            push_table_value(text, bits.as_slice())?;
            return Ok(());
        }
        text.push(b'.')?;
        Ok(())
    }

    /// Fills in the text that was at a frame.
    fn fill_was(
        &self,
        text: &mut Vec<u8>,
        bits: &mut Vec<Option<Tern>>,
        literals: &[Lit],
        frame: u32,
    ) -> Result<(), Memory>
        ensures { (p : CircuitAndRows) → IsFirst self.now p → All (λ l. IsDefined p.circuit (variable l)) literals.now
            → OnOk result (IsCellOrDot p literals.now frame text.new.items) }
    {
        text.clear();
        let count = self.first.frames();
        if frame < count {
            self.first_bits(bits, frame, literals)?;
            push_table_value(text, bits.as_slice())?;
            return Ok(());
        }
        text.push(b'.')?;
        Ok(())
    }

    /// Fills in the texts at a frame.
    fn fill(&self, cells: &mut Cells, literals: &Literals, frame: u32) -> Result<(), Memory>
        requires { All (λ l. IsDefined self.now.run.bench.pair.circuit (variable l)) literals.now.current.items }
        ensures { (signal : Signal) → AreLiterals self.now signal literals.now
            → OnOk result (AreTexts self.now signal frame cells.new) }
    {
        self.fill_now(
            &mut cells.current,
            &mut cells.bits,
            literals.current.as_slice(),
            frame,
        )?;
        self.fill_was(
            &mut cells.was,
            &mut cells.bits,
            literals.was.as_slice(),
            frame,
        )?;
        Ok(())
    }

    /// The first of the frames up to an end at which a signal differs.
    fn first_difference(
        &self,
        cells: &mut Cells,
        literals: &Literals,
        first: u32,
        end: u32,
    ) -> Result<Option<u32>, Memory>
        requires { All (λ l. IsDefined self.now.run.bench.pair.circuit (variable l)) literals.now.current.items }
        ensures range { IfOk result (λ found. IfSome found (λ t. (first ≤ t) × (t < end))) }
        ensures differs { (signal : Signal) → AreLiterals self.now signal literals.now → (p : CircuitAndRows)
            → IsFirst self.now p
            → IfOk result (λ found. IfSome found (λ t. Differs self.now.run.bench.pair p t 1 signal)) }
        ensures before { (signal : Signal) → AreLiterals self.now signal literals.now → (p : CircuitAndRows)
            → IsFirst self.now p
            → IfOk result (λ found. IfSome found (λ t. AreSame self.now.run.bench.pair p signal first t)) }
        ensures same { (signal : Signal) → AreLiterals self.now signal literals.now → (p : CircuitAndRows)
            → IsFirst self.now p
            → IfOk result (λ found. IfNone found (AreSame self.now.run.bench.pair p signal first end)) }
    {
        // Its contract says that it is a circuit.
        self.circuit().facts();
        for frame in first..end {
            self.fill(cells, literals, frame)?;
            if !cells.are_same() {
                return Ok(Some(frame));
            }
        }
        Ok(None)
    }

    /// The first of the frames up to an end at which any signal differs.
    fn first_frame(&self, first: u32, end: u32) -> Result<Option<u32>, Memory>
        ensures range { IfOk result (λ found. IfSome found (λ t. (first ≤ t) × (t < end))) }
        ensures differs { (p : CircuitAndRows) → IsFirst self.now p → IfOk result (λ found. IfSome found (λ t.
            OneDiffers self.now.run.bench.pair p (signals_of self.now.run.bench.pair.circuit) t 1)) }
        ensures before { (p : CircuitAndRows) → IsFirst self.now p → IfOk result (λ found. IfSome found (λ t.
            AreAllSame self.now.run.bench.pair p (signals_of self.now.run.bench.pair.circuit) first t)) }
        ensures same { (p : CircuitAndRows) → IsFirst self.now p → IfOk result (λ found. IfNone found (
            AreAllSame self.now.run.bench.pair p (signals_of self.now.run.bench.pair.circuit) first end)) }
    {
        let mut cells = Cells::new(self.alloc);
        let mut least = None;
        let mut end = end;
        for signal in self.signals.as_slice() {
            let literals = self.signal_literals(signal)?;
            let found = self.first_difference(&mut cells, &literals, first, end)?;
            if let Some(frame) = found {
                least = Some(frame);
                end = frame;
            }
        }
        Ok(least)
    }

    /// The two rows of a signal at the frames up to an end: its texts now, and below each the one that was.
    fn two_rows(
        &self,
        signal: &Signal,
        literals: &Literals,
        first: u32,
        end: u32,
    ) -> Result<(Row, Row), Memory>
        requires order { first ≤ end }
        requires defined { All (λ l. IsDefined self.now.run.bench.pair.circuit (variable l))
            literals.now.current.items }
        ensures { AreLiterals self.now signal.now literals.now → (p : CircuitAndRows) → IsFirst self.now p
            → IfOk result (λ rows. AreTwoRows self.now.run.bench.pair p first (end - first) signal.now (row_of rows.0)
            (row_of rows.1)) }
    {
        let mut cells = Cells::new(self.alloc);
        let mut above = Texts::new(self.alloc);
        let mut below = Texts::new(self.alloc);
        for frame in first..end {
            self.fill(&mut cells, literals, frame)?;
            above.push(cells.current.as_slice())?;
            below.push(cells.below())?;
        }
        let text = signal.name.as_slice();
        let name = Vec::from_slice(self.alloc, text)?;
        let was = Vec::from_slice(self.alloc, b"  was")?;
        let above = Row { name, cells: above };
        let below = Row {
            name: was,
            cells: below,
        };
        Ok((above, below))
    }

    /// Adds a table of the signals that differ at the frames up to an end, of so many in all, and above it which frames
    /// they are, where none are named.
    fn push_differences(
        &self,
        text: &mut Vec<u8>,
        frames: Option<&[u8]>,
        count: u32,
        first: u32,
        end: u32,
    ) -> Result<(), Memory>
        requires order { first ≤ end }
        ensures { (p : CircuitAndRows) → IsFirst self.now p → OnOk result ((said : List ℕ)
            × IsDifferenceText self.now.run.bench.pair p
            (some_shown (option_map (λ w. w.now) frames.entry) count first (end - first)) first (end - first) said
            × (text.new.items ≡ text.old.items ++ said)) }
    {
        let mut cells = Cells::new(self.alloc);
        let mut table = Table::new(self.alloc, first, end - first);
        for signal in self.signals.as_slice() {
            let literals = self.signal_literals(signal)?;
            let found = self.first_difference(&mut cells, &literals, first, end)?;
            if found.is_some() {
                let (above, below) = self.two_rows(signal, &literals, first, end)?;
                table.rows.push(above)?;
                table.rows.push(below)?;
            }
        }
        if table.rows.is_empty() {
            text.extend_from_slice(b"no difference\n")?;
            return Ok(());
        }
        push_frames(text, frames, count, first, end)?;
        table.push_text(text)
    }

    /// The frames that are shown of so many where none are named, up to an end: all of a short run, and of a long one
    /// those from the first difference on, or the last ones.
    fn differing_frames(&self, count: u32) -> Result<(u32, u32), Memory>
        ensures order { IfOk result (λ found. found.0 ≤ found.1) }
        ensures shown { (p : CircuitAndRows) → IsFirst self.now p → IfOk result (λ found.
            DiffersFrames None self.now.run.bench.pair p count found.0 (found.1 - found.0)) }
        ensures outside { (p : CircuitAndRows) → IsFirst self.now p → IfOk result (λ found.
            NoneOutside self.now.run.bench.pair p count found.0 (found.1 - found.0)) }
    {
        if count <= SHOWN {
            return Ok((0, count));
        }
        let last = count - SHOWN;
        let found = self.first_frame(0, count)?;
        let Some(first) = found else {
            return Ok((last, count));
        };
        let first = first.min(last);
        Ok((first, first + SHOWN))
    }

    /// The frames that are named of so many, up to an end, or those that are shown where none are.
    fn frames_to_compare<'a>(
        &self,
        frames: Option<&'a [u8]>,
        count: u32,
    ) -> Result<(u32, u32), Refusal<'a>>
        ensures order { IfOk result (λ found. found.0 ≤ found.1) }
        ensures shown { (p : CircuitAndRows) → IsFirst self.now p → IfOk result (λ found.
            DiffersFrames (option_map (λ w. w.now) frames.entry) self.now.run.bench.pair p count found.0
            (found.1 - found.0)) }
        ensures outside { (p : CircuitAndRows) → IsFirst self.now p → frames.entry ≡ None → IfOk result (λ found.
            NoneOutside self.now.run.bench.pair p count found.0 (found.1 - found.0)) }
        ensures err { IfErr result (λ refusal. refusal ≢ Refusal.Memory → (now was : CircuitAndRows) (first n : ℕ) →
            DiffersFrames (option_map (λ w. w.now) frames.entry) now was count first n → ⊥) }
    {
        match frames {
            Some(word) => {
                let named = frames_of(word, count)?;
                Ok((named.first, named.last + 1))
            }
            None => {
                let shown = self.differing_frames(count)?;
                Ok(shown)
            }
        }
    }

    /// Adds what differs from the run that was read: of each signal that does the values now, and those that it had.
    pub(crate) fn diff<'a>(
        &self,
        text: &mut Vec<u8>,
        frames: Option<&'a [u8]>,
    ) -> Result<(), Refusal<'a>>
        requires empty { text.old.items ≡ [] }
        ensures { EndsQuery self.now (request.diff (option_map (λ w. w.now) frames.entry)) result text.new.items }
    {
        let count = self.bench().frames().max(self.first.frames());
        let (first, end) = self.frames_to_compare(frames, count)?;
        self.push_differences(text, frames, count, first, end)?;
        Ok(())
    }
}
