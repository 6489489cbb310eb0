//! The command `shell`.
ghost use Rattle.std.specs.Prelude.{IfErr, IfOk};
ghost use Rattle.aig_bytes.specs.Flow.{flow};
ghost use Rattle.aig_command.specs.Given.{given_text};
ghost use Rattle.aig_shell.specs.Conversation.{EndsShell, OpensSession, RefusesFiles};

use crate::files::keeper::Keep;
use crate::session::Session;
use crate::talk::Talker;
use crate::talk::conversation::Conversation;
use aig_base::{Io, Read, Write};
use aig_command::{Given, RunFault, read_circuit, read_given};
use std::alloc::Global;

/// What a session begins with: a circuit's file and the run that is given with it. A person sees a prompt.
#[derive(Clone, Copy)]
pub struct Opening<'a> {
    pub circuit: &'a [u8],
    pub given: Given<&'a [u8]>,
    pub has_prompt: bool,
}

/// The session of the files.
fn open_session(alloc: Global, file: &[u8], given: Given<&[u8]>) -> Result<Session, RunFault>
    ensures session { IfOk result (OpensSession file.now (given_text given.entry)) }
    ensures refused { IfErr result (RefusesFiles file.now (given_text given.entry)) }
{
    let circuit = read_circuit(alloc, file)?;
    let run = read_given(alloc, &circuit, given)?;
    Session::new(alloc, circuit, run)
}

/// The command `shell`: reads lines to their end, or to a `quit`, and answers each about a circuit and a run, which
/// lines edit. It flushes the writer before it reads on.
pub fn run_shell<K: Keep, R: Read, W: Write>(
    alloc: Global,
    opening: Opening<'_>,
    files: &mut K,
    reader: &mut R,
    out: &mut W,
) -> Result<(), RunFault>
    ensures ends { EndsShell (record {
      reader = flow R.left R.failures reader.old reader.new;
      out = flow W.written W.failures out.old out.new;
      calls = K.calls;
      files = files.old;
      files_after = files.new;
    }) opening.entry.has_prompt opening.entry.circuit.now (given_text opening.entry.given) result }
{
    let session = open_session(alloc, opening.circuit, opening.given)?;
    let conversation = Conversation::new(session);
    let mut talker = Talker::new(conversation, opening.has_prompt);
    match talker.run(files, reader, out) {
        Ok(()) => Ok(()),
        Err(Io) => Err(RunFault::Shell),
    }
}
