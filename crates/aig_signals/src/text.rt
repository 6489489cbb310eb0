//! Lines that say why as text.
ghost use Rattle.std.specs.Prelude.{◌≡◌, ◌++◌, ◌∷◌, ◌<◌, ◌≤◌, [], length, take, drop, replicate, None, Some, slice_get};
ghost use Rattle.std.specs.Prelude.{OnOk, IfOk, decimal};
ghost use Rattle.aig_signals.specs.declared.signal.Signal.{Signal};
ghost use Rattle.aig_signals.specs.Names.{literals_of};
ghost use Rattle.aig_signals.specs.Signals.{section_signals};
ghost use Rattle.aig_signals.specs.Naming.{signal_word};
ghost use Rattle.aig_signals.specs.Text as spec;
ghost use Rattle.aig_signals.specs.Text.{asked_head, latches_head, named_words, names_none, origin_head};

use crate::naming::SectionNaming;
use crate::value::push_value;
use aig_base::{Circuit, Kind, Memory, Tern};
use itoa::Buffer;
use std::alloc::Global;

/// The inputs and latches that a line names, with their values.
pub struct Naming {
    pub inputs: SectionNaming,
    pub latches: SectionNaming,
}

// By hand: a value then ends in one call, which is one step of a proof (docs/PROOFS.md, Habits).
impl Drop for Naming {
    fn drop(self) {
        let Naming {
            inputs: _,
            latches: _,
        } = self;
    }
}

/// Adds a number.
pub(crate) fn push_number(text: &mut Vec<u8>, number: u32) -> Result<(), Memory>
    ensures { OnOk result (text.new.items ≡ text.old.items ++ decimal number) }
{
    let mut buffer = Buffer::new();
    text.extend_from_slice(buffer.format(number).as_bytes())?;
    Ok(())
}

/// Where latches that the last lines name have their values from.
#[derive(Clone, Copy, PartialEq, Eq, Drop)]
pub enum Origin {
    /// Nothing explains them: the lines end at this frame.
    NotExplained(u32),
    /// Their resets.
    Reset,
    /// A start that their resets leave open, or do not allow.
    Start,
}

/// Adds `at F, not explained`.
fn push_open(text: &mut Vec<u8>, frame: u32) -> Result<(), Memory>
    ensures { OnOk result (text.new.items ≡ text.old.items ++ origin_head (Origin.NotExplained frame)) }
{
    text.extend_from_slice(b"at ")?;
    push_number(text, frame)?;
    text.extend_from_slice(b", not explained")?;
    Ok(())
}

impl Naming {
    /// For the inputs and latches of a circuit, of which none is named so far.
    pub fn new(alloc: Global, circuit: &Circuit) -> Result<Naming, Memory>
        ensures inputs { IfOk result (λ n. n.inputs.signals ≡ section_signals circuit.now Kind.Input) }
        ensures latches { IfOk result (λ n. n.latches.signals ≡ section_signals circuit.now Kind.Latch) }
        ensures input_values { IfOk result
            (λ n. n.inputs.values ≡ replicate (length (literals_of circuit.now Kind.Input)) None) }
        ensures latch_values { IfOk result
            (λ n. n.latches.values ≡ replicate (length (literals_of circuit.now Kind.Latch)) None) }
    {
        Ok(Naming {
            inputs: SectionNaming::new(alloc, circuit, Kind::Input)?,
            latches: SectionNaming::new(alloc, circuit, Kind::Latch)?,
        })
    }

    /// Ends a line whose head is written: adds `: CAUSES` and a newline. Names nothing from then on.
    pub fn end_line(&mut self, text: &mut Vec<u8>) -> Result<(), Memory>
        ensures text { OnOk result (text.new.items ≡ text.old.items ++ (58 ∷ (named_words self.old ++ 10 ∷ []))) }
        ensures none { OnOk result (self.new ≡ names_none self.old) }
    {
        text.push(b':')?;
        let before = text.len();
        self.inputs.push_words(text)?;
        self.latches.push_words(text)?;
        push_always(text, before)?;
        text.push(b'\n')?;
        self.inputs.clear();
        self.latches.clear();
        Ok(())
    }
}

/// Adds ` always` where no word was added.
fn push_always(text: &mut Vec<u8>, before: usize) -> Result<(), Memory>
    requires { before ≤ length text.old.items }
    ensures { OnOk result (text.new.items ≡ take before text.old.items ++ spec.or_always (drop before text.old.items)) }
{
    if text.len() == before {
        text.extend_from_slice(b" always")?;
    }
    Ok(())
}

/// Adds `NAME=VALUE at T` of the literals that were asked for by this name.
pub fn push_asked_head(
    text: &mut Vec<u8>,
    name: &[u8],
    bits: &[Option<Tern>],
    frame: u32,
) -> Result<(), Memory>
    ensures { OnOk result (text.new.items ≡ text.old.items ++ asked_head name.now bits.now frame) }
{
    text.extend_from_slice(name)?;
    text.push(b'=')?;
    push_value(text, bits)?;
    text.extend_from_slice(b" at ")?;
    push_number(text, frame)
}

/// Adds ` at S, by S - 1` after the word of latches.
pub fn push_latches_head(
    text: &mut Vec<u8>,
    latches: &SectionNaming,
    number: usize,
    frame: u32,
) -> Result<(), Memory>
    requires number { number < length latches.now.signals }
    requires frame { 0 < frame }
    ensures { (signal : Signal) × (slice_get latches.now.signals number ≡ Some signal)
        × OnOk result (text.new.items ≡ text.old.items ++ latches_head (signal_word latches.now.values signal) frame) }
{
    latches.push_word(text, number)?;
    text.extend_from_slice(b" at ")?;
    push_number(text, frame)?;
    text.extend_from_slice(b", by ")?;
    push_number(text, frame - 1)
}

/// Adds `at F, not explained`, `at 0, by reset` or `at 0, by start`.
pub fn push_origin(text: &mut Vec<u8>, origin: Origin) -> Result<(), Memory>
    ensures { OnOk result (text.new.items ≡ text.old.items ++ origin_head origin) }
{
    match origin {
        Origin::NotExplained(frame) => push_open(text, frame)?,
        Origin::Reset => text.extend_from_slice(b"at 0, by reset")?,
        Origin::Start => text.extend_from_slice(b"at 0, by start")?,
    }
    Ok(())
}
