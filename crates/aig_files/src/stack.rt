//! The stack that the work takes.
ghost use Rattle.std.specs.Prelude.{◌≡◌, IfErr};

use crate::exit::Exit;
use aig_command::RunFault;
use std::alloc::Global;
use std::io::Read;

/// The bytes of one frame of stack.
const FRAME: usize = 4096;

/// As many frames take more stack than any command does: 256 KB.
const FRAMES: usize = 64;

/// Makes the stack as large as the work needs it, or fails. Once memory is gone the stack cannot grow, and the system
/// would end the program by a signal. Only a request for memory has an answer, so this asks for as much memory first, and
/// gives it back to the stack.
pub fn reserve_stack<F: Read>(alloc: Global, file: &mut F) -> Result<(), Exit>
    ensures fails { IfErr result (λ exit. exit ≡ Exit.Run RunFault.Memory) }
{
    if Vec::<u8>::with_capacity(alloc, FRAME * FRAMES).is_err() {
        return Err(Exit::Run(RunFault::Memory));
    }
    grow(file, FRAMES);
    Ok(())
}

/// Takes some frames of stack, each below the one before. If it were one large frame, a compiler could make it a part of
/// its caller's, and the stack would stay as deep during the work.
fn grow<F: Read>(file: &mut F, frames: usize) {
    if frames == 0 {
        return;
    }
    let mut bytes = [0; FRAME];
    grow(file, frames - 1);
    // The system gets the array, for a read of no bytes, so a compiler cannot leave it out.
    let _ = file.read(&mut bytes[..0]);
}
