//! Why a file is not written.

use crate::exit::Exit;
use aig_command::RunFault;
use std::alloc::AllocError;
use std::io::{Error, ErrorKind};

/// How the program ends if it cannot write an output file.
pub const OUTPUT: Exit = Exit::Run(RunFault::Output);

/// Why a file is not written.
#[derive(Clone, Copy, Drop)]
pub enum Unwritten {
    /// No memory was found.
    Memory,
    /// The system refuses a call.
    System(ErrorKind),
    /// A file has the name that the new file is to have at first.
    NewExists,
    /// It is standard output or standard error, or may be one of them.
    Standard,
    /// Two names are those of one file.
    Twice,
}

impl From<Error> for Unwritten {
    fn from(error: Error) -> Unwritten {
        match error.kind() {
            ErrorKind::OutOfMemory => Unwritten::Memory,
            kind => Unwritten::System(kind),
        }
    }
}

impl From<AllocError> for Unwritten {
    fn from(_: AllocError) -> Unwritten {
        Unwritten::Memory
    }
}
