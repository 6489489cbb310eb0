//! Why a line does nothing.

pub(crate) mod words;

use crate::files::keeper::Reason;
use crate::request::topic::Topic;
use aig_base::{Memory, Tern};
use aig_bench::EditFault;
use std::alloc::{AllocError, AllocFailed};

/// What a name has to be that of.
#[derive(Clone, Copy, Drop)]
pub(crate) enum Wanted {
    Input,
    Latch,
    Output,
    Property,
}

impl Wanted {
    /// What it is called.
    pub(crate) fn name(self) -> &'static str {
        match self {
            Wanted::Input => "input",
            Wanted::Latch => "latch",
            Wanted::Output => "output",
            Wanted::Property => "property",
        }
    }
}

/// Why a line does nothing. Words are those of the line.
#[derive(Clone, Copy, Drop)]
pub(crate) enum Refusal<'a> {
    /// No command has this name.
    NoCommand(&'a [u8]),
    /// A command has other words.
    Usage(Topic),
    /// Nothing has this name.
    NoName(&'a [u8]),
    /// A literal over the greatest.
    NoLiteral { word: &'a [u8], greatest: u32 },
    /// A literal that nothing defines.
    Undefined(&'a [u8]),
    /// A name of something else.
    No { word: &'a [u8], wanted: Wanted },
    /// A name of several bits where one is wanted.
    Vector { word: &'a [u8], bits: usize },
    /// A word that is no frame.
    NotAFrame(&'a [u8]),
    /// A frame over the last, of so many.
    NoFrame { word: &'a [u8], frames: u32 },
    /// Frames of which the last comes before the first.
    EmptySpan(&'a [u8]),
    /// The run has no frame.
    NoFrames,
    /// A word that is no value of so many bits.
    NoValue { word: &'a [u8], bits: usize },
    /// A value that says itself that it has other bits.
    OtherWidth { word: &'a [u8], bits: usize },
    /// A number over so many bits.
    Wide { word: &'a [u8], bits: usize },
    /// A word that is no number of frames.
    NotACount(&'a [u8]),
    /// More frames than there are.
    FewFrames(u32),
    /// More frames than there may be.
    ManyFrames(u32),
    /// An edit of the bench is not possible.
    Edit(EditFault),
    /// A property is not reached; no property is, where none is named.
    NotReached(Option<u32>),
    /// A latch does not start as its reset says.
    OtherStart { latch: u32, value: Tern },
    /// A file is not written.
    NotWritten { file: &'a [u8], reason: Reason },
    /// No name contains this text.
    NoneContains(&'a [u8]),
    /// No memory was found.
    Memory,
}

impl From<Memory> for Refusal<'_> {
    ghost use Rattle.std.specs.Prelude.{◌≡◌};
    ghost use Rattle.aig_shell.specs.declared.refusal.Refusal.TheVariants as refusals;

    ghost from_gives = { λ _ refusal. refusal ≡ refusals.Memory };

    fn from(_error: Memory) -> Self {
        Refusal::Memory
    }
}

impl From<AllocError> for Refusal<'_> {
    ghost use Rattle.std.specs.Prelude.{◌≡◌};
    ghost use Rattle.aig_shell.specs.declared.refusal.Refusal.TheVariants as refusals;

    ghost from_gives = { λ _ refusal. refusal ≡ refusals.Memory };

    fn from(_error: AllocError) -> Self {
        Refusal::Memory
    }
}

impl<T: Drop> From<AllocFailed<T>> for Refusal<'_> {
    ghost use Rattle.std.specs.Prelude.{◌≡◌};
    ghost use Rattle.aig_shell.specs.declared.refusal.Refusal.TheVariants as refusals;

    ghost from_gives = { λ _ refusal. refusal ≡ refusals.Memory };

    fn from(_error: AllocFailed<T>) -> Self {
        Refusal::Memory
    }
}

impl From<EditFault> for Refusal<'_> {
    ghost use Rattle.std.specs.Prelude.{◌≡◌};
    ghost use Rattle.aig_bench.specs.declared.edit.EditFault.TheVariants as faults;
    ghost use Rattle.aig_shell.specs.declared.refusal.Refusal.TheVariants as refusals;

    ghost from_gives = { λ fault refusal. fault ≡ faults.Memory → refusal ≡ refusals.Memory };

    fn from(fault: EditFault) -> Self {
        match fault {
            EditFault::Memory => Refusal::Memory,
            other => Refusal::Edit(other),
        }
    }
}
