//! `shell`: a session over the terminal of its user.
ghost use Rattle.aig_command.specs.Given.{given_text};
ghost use Rattle.aig_program.specs.Ends.{Ends, end_of, seen};
ghost use Rattle.aig.specs.Sessions.{EndsSession, HoldsSession};

use aig_base::{Std, Write};
use aig_command::RunFault;
use aig_files::{Exit, KeptFileNames, Part, Terminals, Unwritten, read_whole};
use aig_program::commands::shell::Shell;
use aig_program::ended::ended;
use aig_program::{Failure, keep_texts, read_given_file, text_of_given};
use aig_shell::{FileText, Keep, Opening, Reason, Unkept, run_shell};
use std::fs::Files;
use std::io::{ErrorKind, Read};
use std::os::fd::AsFd;
use std::str;

/// Files that a session writes.
#[derive(Drop)]
struct SessionFiles<'a, R> {
    rt: &'a R,
}

/// The name of a file, as the system takes it.
fn name_of(bytes: &[u8], place: usize) -> Result<&str, Unkept> {
    match str::from_utf8(bytes) {
        Ok(name) => Ok(name),
        Err(_) => Err(Unkept {
            place,
            reason: Reason::Name,
        }),
    }
}

/// What a refusal says of an error of the system.
fn reason_of(kind: ErrorKind) -> Reason {
    match kind {
        ErrorKind::StorageFull => Reason::NoSpace,
        ErrorKind::PermissionDenied => Reason::NoPermission,
        ErrorKind::NotFound => Reason::NotFound,
        ErrorKind::IsADirectory => Reason::IsFolder,
        ErrorKind::NotADirectory => Reason::NoFolder,
        ErrorKind::ReadOnlyFilesystem => Reason::ReadOnly,
        ErrorKind::QuotaExceeded => Reason::Quota,
        ErrorKind::FileTooLarge => Reason::TooLarge,
        ErrorKind::InvalidFilename => Reason::LongName,
        ErrorKind::OutOfMemory => Reason::Memory,
        _ => Reason::Failed,
    }
}

/// Why a file was not written, as a refusal says it.
fn unkept(failure: Failure) -> Unkept {
    let reason = match failure.why {
        Unwritten::Memory => Reason::Memory,
        Unwritten::System(kind) => reason_of(kind),
        Unwritten::NewExists => Reason::NewExists,
        Unwritten::Standard => Reason::Standard,
        Unwritten::Twice => Reason::Twice,
    };
    Unkept {
        place: failure.place,
        reason,
    }
}

impl<R: Files + AllocGlobal> Keep for SessionFiles<'_, R>
where
    R::File: AsFd,
{
    ghost use Rattle.std.specs.Prelude.{None};

    ghost calls = { λ _. None };

    fn keep(&mut self, files: &[FileText<'_, '_>]) -> Result<(), Unkept> {
        let Some(first) = files.first() else {
            return Ok(());
        };
        let circuit = name_of(first.name, 0)?;
        let (stimulus, rows): (Option<&str>, &[u8]) = match files.get(1) {
            Some(second) => (Some(name_of(second.name, 1)?), second.text),
            None => (None, b""),
        };
        let names = KeptFileNames {
            circuit: Some(circuit),
            stimulus,
        };
        match keep_texts(self.rt, names, first.text, rows) {
            Ok(()) => Ok(()),
            Err(failure) => Err(unkept(failure)),
        }
    }
}

/// Answers the lines of standard input, about the circuit and the run of these files.
pub fn shell<R: Files + AllocGlobal + Input, F: Read + Drop, W: Write>(
    rt: &R,
    terminals: Terminals,
    it: Shell<F>,
    out: &mut W,
) -> Result<(), Exit>
where
    R::File: AsFd,
    ensures ends { EndsSession (seen W.written W.failures out.old out.new) F.remaining it.circuit it.given result }
{
    let circuit = read_whole(rt.alloc(), it.circuit, Part::Circuit)?;
    let given = read_given_file(rt.alloc(), it.given)?;
    let file = circuit.as_slice();
    let run = text_of_given(&given);
    let opening = Opening {
        circuit: file,
        given: run,
        has_prompt: terminals.input,
    };
    answer(rt, opening, out)
}

/// Answers the lines.
fn answer<R: Files + AllocGlobal + Input, W: Write>(
    rt: &R,
    opening: Opening<'_>,
    out: &mut W,
) -> Result<(), Exit>
where
    R::File: AsFd,
    ensures { Ends (seen W.written W.failures out.old out.new) RunFault.Shell end_of
        (HoldsSession opening.entry.circuit.now (given_text opening.entry.given)) result }
{
    let mut files = SessionFiles { rt };
    let mut lines = Std::new(rt.reader());
    let done = run_shell(rt.alloc(), opening, &mut files, &mut lines, out);
    ended(done, out, RunFault::Shell)
}
