//! What ends the program early.
ghost use Rattle.std.specs.Prelude.{◌≡◌};
ghost use Rattle.aig_files.specs.ExitStatus.{status_of_exit};

use crate::part::Part;
use aig_command::RunFault;
use std::io;

/// Why the program ends before it is done.
#[derive(Clone, Copy)]
pub enum Exit {
    /// The arguments are wrong, or ask for help or for the version; the text is printed already.
    Reported,
    /// The arguments choose no command.
    NoCommand,
    /// An argument is not UTF-8.
    NotText,
    /// A run failed, or its input was rejected.
    Run(RunFault),
    /// A file cannot be opened or read.
    Unread(Part),
    /// The verdict on a witness is printed, and is not `confirmed`.
    NotConfirmed,
}

impl From<RunFault> for Exit {
    fn from(fault: RunFault) -> Exit {
        Exit::Run(fault)
    }
}

impl Exit {
    /// Prints the reason on standard error, unless it is printed already, and returns the exit.
    pub fn report(self, rt: &impl Eprint) -> Exit
        ensures { result ≡ self }
    {
        // There is no place left to report that standard error fails.
        let _ = self.print(rt);
        self
    }

    fn print(&self, rt: &impl Eprint) -> io::Result<()> {
        match self {
            Exit::Reported | Exit::NotConfirmed => Ok(()),
            Exit::NoCommand => eprintln!(rt; "error: the words choose no task"),
            Exit::NotText => eprintln!(rt; "error: a word of the command line is not UTF-8"),
            Exit::Run(fault) => eprintln!(rt; "aig: {fault}"),
            Exit::Unread(part) => eprintln!(rt; "aig: {}: input or output", part.name()),
        }
    }

    /// Returns the exit status: 2 for wrong arguments, 1 for a verdict, else that of the fault.
    pub fn status(&self) -> u8
        ensures { result ≡ status_of_exit self.now }
    {
        match self {
            Exit::Reported | Exit::NoCommand | Exit::NotText => 2,
            Exit::Run(fault) => fault.status(),
            Exit::Unread(_) => 3,
            Exit::NotConfirmed => 1,
        }
    }
}
