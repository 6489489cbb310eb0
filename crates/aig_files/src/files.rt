//! The files that the arguments name.
ghost use Rattle.std.specs.Prelude.{◌≡◌, ◌⊎◌, [], IfErr, IfOk, IfSome};
ghost use Rattle.aig_files.specs.Source.{source_name};

use crate::exit::Exit;
use crate::part::Part;
use crate::source::{FileSource, Opened};
use crate::standard_output::StandardOutput;
use crate::terminal::Terminals;
use aig_base::{Buffered, Std};
use aig_command::RunFault;
use std::alloc::Global;
use std::fs::{self, Files};
use std::io::{ErrorKind, Read, Write};

/// Opens a file of a run by its name, which it keeps.
pub fn open<'m, R: Files>(rt: &R, name: &'m str, part: Part) -> Result<Opened<'m, R>, Exit>
    ensures name { IfOk result (λ file. source_name file ≡ name.now) }
{
    match fs::open(rt, name) {
        Ok(file) => Ok(FileSource::new(name, file)),
        Err(_) => Err(Exit::Unread(part)),
    }
}

/// Reads all bytes that an open file has left, where its type says which they are. A read that fails is never taken for
/// the end of the file.
pub fn read_whole<F: Read + Drop>(alloc: Global, mut file: F, part: Part) -> Result<Vec<u8>, Exit>
    ensures whole { IfOk result (λ bytes. IfSome (F.remaining file) (λ left. bytes.items ≡ left)) }
    ensures fails { IfErr result (λ exit. (exit ≡ Exit.Unread part) ⊎ (exit ≡ Exit.Run RunFault.Memory)) }
{
    let mut bytes = Vec::new(alloc);
    match file.read_to_end(&mut bytes) {
        Ok(_) => Ok(bytes),
        Err(error) => match error.kind() {
            ErrorKind::OutOfMemory => Err(Exit::Run(RunFault::Memory)),
            _ => Err(Exit::Unread(part)),
        },
    }
}

/// Returns standard output, buffered in blocks, over the writer to it.
pub fn output<W: Write>(terminals: Terminals, writer: W) -> Buffered<Std<StandardOutput<W>>>
    ensures inner { result.inner.inner.inner ≡ writer }
    ensures terminal { result.inner.inner.is_terminal ≡ terminals.output }
    ensures empty { result.held ≡ [] }
{
    Buffered::new(Std::new(StandardOutput::new(writer, terminals.output)))
}
