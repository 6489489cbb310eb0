//! The header line.
ghost use Rattle.std.specs.Prelude.{◌≡◌, ℕ, ◌≤◌, ◌∷◌, [], IfOk, false};
ghost use Rattle.aig_parts.specs.Formed.{limit};
ghost use Rattle.aig_format.specs.Header.{are_wrong};
ghost use Rattle.aig_format.specs.state.HeaderCounts.{AreWithin, in_line};
ghost use Rattle.aig_format.specs.state.ReaderAnswers.{of_token};
ghost use Rattle.aig_format.specs.state.Reads.{ReadsAs, ReadsToken};
ghost use Rattle.aig_format.specs.state.Reading.{byte_at};
ghost use Rattle.aig_format.specs.state.ReadingSections.{format_at, format_word_at, count_at, line_end_at, tail_at};
ghost use Rattle.aig_format.specs.state.ReadingSections.{header_at};
ghost use Rattle.aig_format.specs.state.ReadingNames.{count_of};

use crate::reader::source::Source;
use crate::reader::token::{HEAD, byte, field, is_next, more, number};
use crate::reader::token_fault::TokenFault;
use aig_base::Kind;

/// The two formats (AIGER 1.0, ASCII format and binary format).
#[derive(Clone, Copy, PartialEq, Eq)]
pub enum Format {
    Ascii,
    Binary,
}

/// The counts of a header line (AIGER 1.0, header; AIGER 1.9 adds the last four).
#[derive(Clone, Copy)]
pub struct Counts {
    pub max_var: u32,
    pub inputs: u32,
    pub latches: u32,
    pub outputs: u32,
    pub gates: u32,
    pub bad: u32,
    pub constraints: u32,
    pub justice: u32,
    pub fairness: u32,
}

/// The counts that AIGER 1.9 adds.
#[derive(Clone, Copy)]
pub(crate) struct Tail {
    pub(crate) bad: u32,
    pub(crate) constraints: u32,
    pub(crate) justice: u32,
    pub(crate) fairness: u32,
}

impl Counts {
    /// The count of the section that a kind of symbol names an entry of.
    pub(crate) fn of(&self, kind: Kind) -> u32
        ensures { result ≡ count_of self.now kind }
    {
        match kind {
            Kind::Input => self.inputs,
            Kind::Latch => self.latches,
            Kind::Output => self.outputs,
            Kind::Bad => self.bad,
            Kind::Constraint => self.constraints,
            Kind::Justice => self.justice,
            Kind::Fairness => self.fairness,
        }
    }

    /// Whether the counts do not go together.
    pub(crate) fn are_wrong(&self, format: Format) -> bool
        requires within { AreWithin self.now }
        ensures { result ≡ are_wrong format (in_line self.now) }
    {
        let defined = self.inputs + self.latches + self.gates;
        match format {
            Format::Ascii => self.max_var < defined,
            Format::Binary => self.max_var != defined,
        }
    }
}

/// Takes a byte of the header word. A fault of the word is at 0, or at the end of the file where that cuts it.
#[tactic(auto, unfolding(crate::specs::state::Reading::byte_at))]
fn word_byte<S: Source>(s: &mut S, byte: u8) -> Result<(), TokenFault>
    ensures reads { ReadsToken S.Source s.old s.new result (byte_at byte) }
{
    if is_next(s, byte)? {
        return Ok(());
    }
    match s.peek()? {
        None => Err(TokenFault::Text { at: s.at() }),
        Some(_) => Err(TokenFault::Text { at: 0 }),
    }
}

/// The second letter of the word.
#[tactic(auto, unfolding(crate::specs::state::ReadingSections::format_at))]
fn second_letter<S: Source>(s: &mut S) -> Result<Format, TokenFault>
    ensures reads { ReadsToken S.Source s.old s.new result format_at }
{
    if is_next(s, b'a')? {
        Ok(Format::Ascii)
    } else {
        word_byte(s, b'i')?;
        Ok(Format::Binary)
    }
}

#[tactic(auto, unfolding(crate::specs::state::ReadingSections::format_word_at))]
fn word<S: Source>(s: &mut S) -> Result<Format, TokenFault>
    ensures reads { ReadsToken S.Source s.old s.new result format_word_at }
{
    word_byte(s, b'a')?;
    let format = second_letter(s)?;
    word_byte(s, b'g')?;
    word_byte(s, b' ')?;
    Ok(format)
}

/// The next count of the line, and whether the line is over; once it is over, counts are 0.
#[tactic(auto, unfolding(crate::specs::state::ReadingSections::count_at))]
fn count<S: Source>(s: &mut S, over: bool) -> Result<(u32, bool), TokenFault>
    ensures reads { ReadsToken S.Source s.old s.new result (count_at over) }
    ensures within { IfOk result (λ c. c.0 ≤ limit) }
{
    if over {
        return Ok((0, true));
    }
    if more(s)? {
        let count = number(s, HEAD)?;
        Ok((count, false))
    } else {
        Ok((0, true))
    }
}

#[tactic(auto, unfolding(crate::specs::state::ReadingSections::line_end_at))]
fn line_end<S: Source>(s: &mut S, over: bool) -> Result<(), TokenFault>
    ensures reads { ReadsToken S.Source s.old s.new result (line_end_at over) }
{
    if over { Ok(()) } else { byte(s, b'\n') }
}

#[tactic(auto, unfolding(crate::specs::state::ReadingSections::tail_at))]
fn last_counts<S: Source>(s: &mut S) -> Result<Tail, TokenFault>
    ensures reads { ReadsAs S.Source s.old s.new (λ t. t.bad ∷ t.constraints ∷ t.justice ∷ t.fairness ∷ [])
        (of_token result) (tail_at 4 false) }
    ensures within { IfOk result (λ t. (t.bad ≤ limit) × (t.constraints ≤ limit) × (t.justice ≤ limit)
        × (t.fairness ≤ limit)) }
{
    let (bad, over) = count(s, false)?;
    let (constraints, over) = count(s, over)?;
    let (justice, over) = count(s, over)?;
    let (fairness, over) = count(s, over)?;
    line_end(s, over)?;
    Ok(Tail {
        bad,
        constraints,
        justice,
        fairness,
    })
}

/// The header line, with its end.
#[tactic(auto, unfolding(crate::specs::state::ReadingSections::header_at))]
pub(crate) fn header<S: Source>(s: &mut S) -> Result<(Format, Counts), TokenFault>
    ensures reads { ReadsToken S.Source s.old s.new result header_at }
    ensures within { IfOk result (λ h. AreWithin h.1) }
{
    let format = word(s)?;
    let max_var = field(s, HEAD, b' ')?;
    let inputs = field(s, HEAD, b' ')?;
    let latches = field(s, HEAD, b' ')?;
    let outputs = field(s, HEAD, b' ')?;
    let gates = number(s, HEAD)?;
    let tail = last_counts(s)?;
    Ok((
        format,
        Counts {
            max_var,
            inputs,
            latches,
            outputs,
            gates,
            bad: tail.bad,
            constraints: tail.constraints,
            justice: tail.justice,
            fairness: tail.fairness,
        },
    ))
}
