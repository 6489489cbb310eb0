//! What a call asks of a circuit's file.
ghost use Rattle.std.specs.Prelude.{◌≡◌, false, true};
ghost use Rattle.aig_commands.specs.Questions.{asked_of};

use aig_commands::question::Question;

/// A circuit's file, and what is asked of it.
#[derive(Clone, Copy)]
pub(crate) struct Asked<'a> {
    pub(crate) circuit: &'a [u8],
    pub(crate) question: Question<&'a [u8]>,
}

/// What a call asks of some frames: the step of an induction, or whether a run reaches the property within them.
pub(crate) fn question(step: bool, frames: u32, property: u32) -> Question<&'static [u8]>
    ensures steps { step ≡ true → asked_of result ≡ Question.Step frames property }
    ensures within { step ≡ false → asked_of result ≡ Question.Within frames property }
{
    if step {
        Question::Step { frames, property }
    } else {
        Question::Within { frames, property }
    }
}
