//! What a call returns: its status, and a text in the caller's room.
ghost use Rattle.std.specs.Prelude.{◌≡◌, ◌<◌, ◌≤◌, [], IfOk, length, take};
ghost use Rattle.aig_command.specs.Status.{status_of};
ghost use Rattle.aig_c.specs.Answers.{Fills, format_of, is_confirmed};

use aig_base::{MemWriter, Memory};
use aig_command::RunFault;
use aig_format::Format;
use aig_sim::Verdict;
use std::alloc::Global;

/// The command went well.
pub(crate) const DONE: u8 = 0;
/// An input is rejected.
const REFUSED: u8 = 1;
/// The text is longer than the room.
pub(crate) const NO_ROOM: u8 = 2;
/// Memory ran out.
pub(crate) const NO_MEMORY: u8 = 3;

/// A writer for the text of a command. It takes one byte more than the caller's room, so that a text which is too long
/// is seen to be.
pub(crate) fn writer(alloc: Global, room: &[u8]) -> Result<MemWriter, Memory>
    ensures { IfOk result (λ w. w.bytes ≡ []) }
{
    MemWriter::new(alloc, room.len() + 1)
}

/// Copies bytes to the front of a room that is large enough.
fn copy(bytes: &[u8], room: &mut [u8]) -> usize
    requires { length bytes.now ≤ length room.old }
    ensures front { take result room.new ≡ bytes.now }
    ensures count { result ≡ length bytes.now }
{
    let count = bytes.len();
    room[..count].copy_from_slice(bytes);
    count
}

/// Writes a text to the front of a room, and its length to `written`, if the room is large enough.
pub(crate) fn answer(bytes: &[u8], room: &mut [u8], written: &mut usize) -> u8
    ensures { Fills (λ text. text ≡ bytes.now) ⊥ (length room.old < length bytes.now)
        result room.old room.new written.old written.new }
{
    if bytes.len() > room.len() {
        return NO_ROOM;
    }
    *written = copy(bytes, room);
    DONE
}

/// Writes the message of a fault to the front of a room, and returns its length: 0 if there is no room or no memory for
/// it.
fn write_message(alloc: Global, fault: RunFault, room: &mut [u8]) -> usize
    ensures { result ≤ length room.old }
{
    let Ok(message) = format!(in alloc; "{fault}") else {
        return 0;
    };
    let text = message.as_bytes();
    if text.len() > room.len() {
        return 0;
    }
    copy(text, room)
}

/// The status of a command that ended with a fault after it wrote a part of its text. If an input is rejected, the
/// message goes to the front of the room.
pub(crate) fn refuse(
    alloc: Global,
    fault: RunFault,
    part: &[u8],
    room: &mut [u8],
    written: &mut usize,
) -> u8
    ensures { Fills (λ text. ⊥) (status_of fault ≡ 1) (length room.old < length part.now)
        result room.old room.new written.old written.new }
{
    if part.len() > room.len() {
        return NO_ROOM;
    }
    if fault.status() != 1 {
        return NO_MEMORY;
    }
    *written = write_message(alloc, fault, room);
    REFUSED
}

/// The format that a call asks for.
pub(crate) fn format(binary: bool) -> Format
    ensures { result ≡ format_of binary }
{
    if binary {
        Format::Binary
    } else {
        Format::Ascii
    }
}

pub(crate) fn is_confirmed(verdict: Verdict) -> bool
    ensures { result ≡ is_confirmed verdict }
{
    match verdict {
        Verdict::Confirmed => true,
        Verdict::Initial(_) | Verdict::Constraint(_, _) | Verdict::NotBad => false,
    }
}
