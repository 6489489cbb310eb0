//! Why a value is what it is.
ghost use Rattle.std.specs.Prelude.{◌≡◌, ◌≢◌, ℕ, ◌+◌, ◌-◌, ◌<◌, ◌≤◌, ◌==◌, [], ◌++◌, All, IfErr, IfNone, IfOk, IfSome};
ghost use Rattle.std.specs.Prelude.{OnOk, Some, count_by, length, option_map, slice_get, take};
ghost use Rattle.aig_parts.specs.Literal.{variable};
ghost use Rattle.aig_base.specs.Sections.{IsDefined};
ghost use Rattle.aig_why.specs.Why.{IsExplanation, run_of};
ghost use Rattle.aig_shell.specs.Ends.{EndsQuery, asks_why};
ghost use Rattle.aig_shell.specs.Explained.{AddsLines, Explains, IsFrameOrLast, more_text};
ghost use Rattle.aig_shell.specs.Request as request;
ghost use Rattle.aig_shell.specs.Session.{own_circuit};

use crate::pieces::{Piece, push_pieces};
use crate::refusal::Refusal;
use crate::session::Session;
use aig_base::{List, Memory};
use aig_prompt::push_folded;
use aig_signals::{Form, Naming};
use aig_why::{ExplainedFrames, Question, text_of};

/// The most lines of an explanation that are shown.
const LINES: usize = 40;

/// How many lines a text has.
fn line_count(text: &[u8]) -> usize
    ensures { result ≡ count_by (λ b. b == 10) text.now }
{
    text.iter().filter(|byte| **byte == b'\n').count()
}

/// Where the first line of a text ends.
fn line_end(text: &[u8]) -> Option<usize>
    ensures some { IfSome result (λ end. slice_get text.now end ≡ Some 10) }
    ensures within { IfSome result (λ end. end < length text.now) }
    ensures before { IfSome result (λ end. All (λ b. b ≢ 10) (take end text.now)) }
    ensures none { IfNone result (All (λ b. b ≢ 10) text.now) }
{
    text.iter().position(|byte| *byte == b'\n')
}

/// Adds the first lines, folded.
fn push_lines(text: &mut Vec<u8>, lines: &[u8]) -> Result<(), Memory>
    ensures { OnOk result (AddsLines lines.now text.old.items text.new.items) }
{
    let mut rest = lines;
    for _line in 0..LINES {
        let Some(end) = line_end(rest) else {
            return Ok(());
        };
        push_folded(text, &rest[..end])?;
        rest = &rest[end + 1..];
    }
    Ok(())
}

/// Adds that there are more lines; how many, where the lines go down to frame 0.
fn push_more(text: &mut Vec<u8>, count: usize, last: u32) -> Result<(), Memory>
    ensures { OnOk result (text.new.items ≡ text.old.items ++ more_text last (count - 40)) }
{
    if count <= LINES {
        return Ok(());
    }
    if last > 0 {
        text.extend_from_slice(b"more lines\n")?;
        return Ok(());
    }
    let line = [
        Piece::Number((count - LINES) as u64),
        Piece::Text(b" more lines\n"),
    ];
    push_pieces(text, &line)
}

impl Session {
    /// The lines that explain a question between two frames.
    fn explanation(&self, question: &Question, frames: ExplainedFrames) -> Result<Vec<u8>, Memory>
        requires frame { frames.first < length self.now.run.bench.pair.rows }
        requires last { frames.last ≤ frames.first }
        requires range { All (λ l. variable l ≤ self.now.run.bench.pair.circuit.max_var) question.now.literals }
        requires defined { All (λ l. IsDefined self.now.run.bench.pair.circuit (variable l)) question.now.literals }
        ensures { IfOk result (λ text. IsExplanation Form.Text (own_circuit self.now)
            (run_of self.now.run.bench.pair) question.now.name question.now.literals frames.first frames.last text.items) }
    {
        let naming = Naming::new(self.alloc, self.circuit())?;
        text_of(self.alloc, &self.run, naming, question, frames, Form::Text)
    }

    /// Adds the lines that explain a question at a frame. A run can have many more lines than are shown, and each takes
    /// a walk: so frames are explained until there are enough lines, twice as many each time.
    fn push_explanation(
        &self,
        text: &mut Vec<u8>,
        question: &Question,
        frame: u32,
    ) -> Result<(), Memory>
        requires empty { text.old.items ≡ [] }
        requires frame { frame < length self.now.run.bench.pair.rows }
        requires range { All (λ l. variable l ≤ self.now.run.bench.pair.circuit.max_var) question.now.literals }
        requires defined { All (λ l. IsDefined self.now.run.bench.pair.circuit (variable l)) question.now.literals }
        ensures { OnOk result (Explains (own_circuit self.now) (run_of self.now.run.bench.pair) question.now.name
            question.now.literals frame text.new.items) }
    {
        let mut depth = 1u32;
        loop {
            let frames = ExplainedFrames {
                first: frame,
                last: frame.saturating_sub(depth),
            };
            let lines = self.explanation(question, frames)?;
            let count = line_count(lines.as_slice());
            // Where frames are left, the last line is none of the whole explanation.
            if frames.last == 0 || count > LINES + 1 {
                push_lines(text, lines.as_slice())?;
                return push_more(text, count, frames.last);
            }
            depth = depth.saturating_mul(2);
        }
    }

    /// Explains the property of the witness that was opened; without one, the first that is reached.
    fn explain_property<'a>(&self, text: &mut Vec<u8>) -> Result<(), Refusal<'a>>
        requires empty { text.old.items ≡ [] }
        ensures { EndsQuery self.now request.why_first result text.new.items }
    {
        let reached = self.reached(self.property)?;
        let question = Question::of_property(self.alloc, self.circuit(), reached.property)?;
        self.push_explanation(text, &question, reached.frame)?;
        Ok(())
    }

    /// The frame that a word is; the last where there is no word.
    fn frame_or_last<'a>(&self, frame: Option<&'a [u8]>) -> Result<u32, Refusal<'a>>
        ensures ok { IfOk result (IsFrameOrLast (option_map (λ w. w.now) frame.entry)
            (length self.now.run.bench.pair.rows)) }
        ensures err { IfErr result (λ _. (t : ℕ) →
            IsFrameOrLast (option_map (λ w. w.now) frame.entry) (length self.now.run.bench.pair.rows) t → ⊥) }
    {
        match frame {
            Some(word) => self.frame(word),
            None => Ok(self.all_frames()?.last),
        }
    }

    /// Explains a name.
    fn explain_name<'a>(
        &self,
        text: &mut Vec<u8>,
        name: &'a [u8],
        frame: Option<&'a [u8]>,
    ) -> Result<(), Refusal<'a>>
        requires empty { text.old.items ≡ [] }
        ensures { EndsQuery self.now (request.why name.now (option_map (λ w. w.now) frame.entry)) result
            text.new.items }
    {
        // Its contract says that it is a circuit.
        self.circuit().facts();
        let literals = self.literals(name)?;
        let frame = self.frame_or_last(frame)?;
        let question = Question {
            name: List::from_vec(Vec::from_slice(self.alloc, name)?),
            literals,
        };
        self.push_explanation(text, &question, frame)?;
        Ok(())
    }

    /// Adds why a name has its value at a frame; without a name, why the run reaches the property that `witness` means.
    pub(crate) fn why<'a>(
        &self,
        text: &mut Vec<u8>,
        name: Option<&'a [u8]>,
        frame: Option<&'a [u8]>,
    ) -> Result<(), Refusal<'a>>
        requires empty { text.old.items ≡ [] }
        ensures { EndsQuery self.now (asks_why (option_map (λ w. w.now) name.entry)
            (option_map (λ w. w.now) frame.entry)) result
            text.new.items }
    {
        match name {
            Some(name) => self.explain_name(text, name, frame),
            None => self.explain_property(text),
        }
    }
}
