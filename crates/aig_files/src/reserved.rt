//! What the program needs whatever it does: the descriptors of the standard streams, and its stack.
ghost use Rattle.std.specs.Prelude.{◌≡◌, ◌⊎◌, IfErr};

use crate::exit::Exit;
use crate::stack::reserve_stack;
use crate::unwritten::OUTPUT;
use aig_command::RunFault;
use std::fs::{self, Files};

/// Three open files, which no text is written to or read from. The system gives a new file the lowest descriptor that
/// is free. While these three are open, no other file gets the descriptor of a standard stream that was closed when the
/// program began. It would be taken for that stream.
pub struct Reserved<F: Drop> {
    first: F,
    second: F,
    third: F,
}

// By hand: a value then ends in one call, which is one step of a proof (docs/PROOFS.md, Habits).
impl<F: Drop> Drop for Reserved<F> {
    fn drop(self) {
        let Reserved {
            first: _,
            second: _,
            third: _,
        } = self;
    }
}

/// Opens the three files, and makes the stack large enough. The files are open for reading, so that a write to a closed
/// standard output still fails.
pub fn reserve<R: Files + AllocGlobal>(rt: &R) -> Result<Reserved<R::File>, Exit>
    ensures fails { IfErr result (λ exit. (exit ≡ Exit.Run RunFault.Output) ⊎ (exit ≡ Exit.Run RunFault.Memory)) }
{
    let mut first = open_idle(rt)?;
    let second = open_idle(rt)?;
    let third = open_idle(rt)?;
    reserve_stack(rt.alloc(), &mut first)?;
    Ok(Reserved {
        first,
        second,
        third,
    })
}

/// Opens a file that has nothing to read, or a folder if there is no such file.
fn open_idle<R: Files>(rt: &R) -> Result<R::File, Exit>
    ensures fails { IfErr result (λ exit. exit ≡ Exit.Run RunFault.Output) }
{
    match fs::open(rt, "/dev/null") {
        Ok(file) => Ok(file),
        Err(_) => open_root(rt),
    }
}

fn open_root<R: Files>(rt: &R) -> Result<R::File, Exit>
    ensures fails { IfErr result (λ exit. exit ≡ Exit.Run RunFault.Output) }
{
    match fs::open(rt, "/") {
        Ok(folder) => Ok(folder),
        Err(_) => Err(OUTPUT),
    }
}
