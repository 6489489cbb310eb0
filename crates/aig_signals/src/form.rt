//! Lines that say why, in the form that is asked for.
ghost use Rattle.std.specs.Prelude.{◌≡◌, ◌++◌, ◌<◌, length, OnOk, Some, slice_get};
ghost use Rattle.aig_signals.specs.declared.signal.Signal.{Signal};
ghost use Rattle.aig_signals.specs.Form.{asked_by, end_by, latches_by, origin_by};
ghost use Rattle.aig_signals.specs.Text.{names_none};

use crate::json::{end_line, push_asked_start, push_latches_start, push_origin_start};
use crate::naming::SectionNaming;
use crate::text::{Naming, Origin, push_asked_head, push_latches_head, push_origin};
use aig_base::{Memory, Tern};

/// The form of lines.
#[derive(Clone, Copy, PartialEq, Eq, Debug, Drop)]
pub enum Form {
    /// For people.
    Text,
    /// For programs: each line is an object of JSON.
    Json,
}

impl Form {
    /// Adds what a line explains: the literals that were asked for by this name.
    pub fn push_asked(
        self,
        text: &mut Vec<u8>,
        name: &[u8],
        bits: &[Option<Tern>],
        frame: u32,
    ) -> Result<(), Memory>
        ensures { OnOk result (text.new.items ≡ text.old.items ++ asked_by self name.now bits.now frame) }
    {
        match self {
            Form::Text => push_asked_head(text, name, bits, frame),
            Form::Json => push_asked_start(text, name, bits, frame),
        }
    }

    /// Adds what a line explains: latches of a signal.
    pub fn push_latches(
        self,
        text: &mut Vec<u8>,
        latches: &SectionNaming,
        number: usize,
        frame: u32,
    ) -> Result<(), Memory>
        requires number { number < length latches.now.signals }
        requires frame { 0 < frame }
        ensures { (signal : Signal) × (slice_get latches.now.signals number ≡ Some signal)
            × OnOk result (text.new.items ≡ text.old.items ++ latches_by self latches.now.values signal frame) }
    {
        match self {
            Form::Text => push_latches_head(text, latches, number, frame),
            Form::Json => push_latches_start(text, latches, number, frame),
        }
    }

    /// Adds where the latches that a last line names have their values from.
    pub fn push_origin(self, text: &mut Vec<u8>, origin: Origin) -> Result<(), Memory>
        ensures { OnOk result (text.new.items ≡ text.old.items ++ origin_by self origin) }
    {
        match self {
            Form::Text => push_origin(text, origin),
            Form::Json => push_origin_start(text, origin),
        }
    }

    /// Ends a line with what is named. Names nothing from then on.
    pub fn end_line(self, text: &mut Vec<u8>, naming: &mut Naming) -> Result<(), Memory>
        ensures text { OnOk result (text.new.items ≡ text.old.items ++ end_by self naming.old) }
        ensures none { OnOk result (naming.new ≡ names_none naming.old) }
    {
        match self {
            Form::Text => naming.end_line(text),
            Form::Json => end_line(naming, text),
        }
    }
}
