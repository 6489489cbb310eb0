//! Frames as words of a line.
ghost use Rattle.std.specs.Prelude.{◌≡◌, ◌≢◌, ℕ, ◌+◌, ◌-◌, ◌^◌, ◌<◌, ◌≤◌, [], All, IfErr, IfNone, IfOk, IfSome, length};
ghost use Rattle.std.specs.Prelude.{slice_get, take};
ghost use Rattle.aig_shell.specs.Edits.{AreFrames, IsFrame};

use crate::refusal::Refusal;
use crate::session::Session;
use aig_signals::decimal_of;

/// The most frames that are shown where none are named.
pub(crate) const SHOWN: u32 = 64;

/// Frames from the first up to the last, which is one of them.
#[derive(Clone, Copy, Drop)]
pub(crate) struct FrameRange {
    pub(crate) first: u32,
    pub(crate) last: u32,
    ghost order: { first ≤ last },
    ghost fits: { last + 1 < 2 ^ 32 },
}

impl FrameRange {
    /// How many there are.
    pub(crate) fn count(self) -> u32
        ensures { result ≡ self.last + 1 - self.first }
    {
        self.last - self.first + 1
    }
}

/// The frame that a word is, of so many.
fn frame_of(word: &[u8], frames: u32) -> Result<u32, Refusal<'_>>
    ensures ok { IfOk result (IsFrame word.now frames) }
    ensures err { IfErr result (λ _. (t : ℕ) → IsFrame word.now frames t → ⊥) }
{
    match decimal_of(word) {
        Some(frame) if frame < frames => Ok(frame),
        Some(_) => Err(Refusal::NoFrame { word, frames }),
        None => Err(Refusal::NotAFrame(word)),
    }
}

/// Where the first `-` of a word is.
fn dash_at(word: &[u8]) -> Option<usize>
    ensures some { IfSome result (λ at. slice_get word.now at ≡ Some 45) }
    ensures within { IfSome result (λ at. at < length word.now) }
    ensures before { IfSome result (λ at. All (λ byte. byte ≢ 45) (take at word.now)) }
    ensures none { IfNone result (All (λ byte. byte ≢ 45) word.now) }
{
    word.iter().position(|byte| *byte == b'-')
}

/// The frames that a word names, `A` or `A-B`, of so many.
pub(crate) fn frames_of(word: &[u8], frames: u32) -> Result<FrameRange, Refusal<'_>>
    ensures ok { IfOk result (λ found. AreFrames word.now frames found.first found.last) }
    ensures err { IfErr result (λ _. (first last : ℕ) → AreFrames word.now frames first last → ⊥) }
{
    let Some(at) = dash_at(word) else {
        let frame = frame_of(word, frames)?;
        return Ok(FrameRange {
            first: frame,
            last: frame,
        });
    };
    let first = frame_of(&word[..at], frames)?;
    let last = frame_of(&word[at + 1..], frames)?;
    if first > last {
        return Err(Refusal::EmptySpan(word));
    }
    Ok(FrameRange { first, last })
}

impl Session {
    /// The frame that a word is.
    pub(crate) fn frame<'a>(&self, word: &'a [u8]) -> Result<u32, Refusal<'a>>
        ensures ok { IfOk result (IsFrame word.now (length self.now.run.bench.pair.rows)) }
        ensures err { IfErr result (λ _. (t : ℕ) → IsFrame word.now (length self.now.run.bench.pair.rows) t → ⊥) }
    {
        frame_of(word, self.bench().frames())
    }

    /// The frames that a word names.
    pub(crate) fn frames<'a>(&self, word: &'a [u8]) -> Result<FrameRange, Refusal<'a>>
        ensures ok { IfOk result (λ found.
            AreFrames word.now (length self.now.run.bench.pair.rows) found.first found.last) }
        ensures err { IfErr result (λ _. (first last : ℕ) →
            AreFrames word.now (length self.now.run.bench.pair.rows) first last → ⊥) }
    {
        frames_of(word, self.bench().frames())
    }

    /// All frames.
    pub(crate) fn all_frames<'a>(&self) -> Result<FrameRange, Refusal<'a>>
        ensures ok { IfOk result (λ all. (all.first ≡ 0) × (all.last + 1 ≡ length self.now.run.bench.pair.rows)) }
        ensures err { IfErr result (λ _. self.now.run.bench.pair.rows ≡ []) }
    {
        match self.bench().frames().checked_sub(1) {
            Some(last) => Ok(FrameRange { first: 0, last }),
            None => Err(Refusal::NoFrames),
        }
    }
}
