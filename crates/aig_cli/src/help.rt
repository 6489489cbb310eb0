//! The help of the program, and the texts that follow the options in the help of each command.

mod files;
mod runs;
mod verdicts;

pub use files::{CUT, INFO, SELECT, TOAIG, UNROLL};
pub use runs::{BENCH, SHELL, SIM, WAVE};
pub use verdicts::{CHECK, CNF, REDUCE, REFUTE, STRENGTHEN, WHY, WITNESS};

/// The help of the program, whole, as the parser has no groups of commands. Each command's own help begins with the
/// text that it has here, which `tests/run_program.py` checks.
pub const ALL: &str = "Convert, simulate and edit AIGER circuits, and check both verdicts on them: a
run to a bad state, and a SAT solver's proof that there is none

Usage: aig <COMMAND>

Files:
  toaig       Convert a circuit between the text and the binary format
  info        Print facts about a circuit, one per line
  select      Write a circuit with some of its properties
  cut         Write a circuit in which some parts may be anything
  unroll      Unroll a circuit for K frames into a circuit without latches

Runs:
  sim         Simulate a circuit and print one line per frame
  wave        Simulate a circuit and print a dump for waveform viewers
  bench       Run a script of edits and queries on a simulation
  shell       Edit and query a simulation at a prompt, with names

Verdicts:
  check       Check that a witness reaches a bad state, and print the verdict
  witness     Write the witness that a run reaches a bad state
  reduce      Write a witness with x at each value that it does not need
  why         Explain a value of a run by inputs and latches, frame by frame
  cnf         Print a formula for SAT solvers: a bad state within K frames
  refute      Check a SAT solver's proof that no run reaches a bad state
  strengthen  Write a circuit that is strengthened by a certificate

Options:
  -h, --help     Print this help, or that of the command before it
  -V, --version  Print version

Exit status:
  0  done
  1  the input was rejected, or the verdict is neither confirmed nor alive
  2  wrong arguments, or a request for help or for the version
  3  out of memory, or an input or output error

To learn why a command fails, and what to do: aig-explain COMMAND ..

Example: aig sim examples/counter.aag examples/counter.stim
Example: aig check examples/wraps.aag examples/wraps.wit
Example: aig check --alive --frames 4 examples/wraps.aag examples/wraps.wit
Example: aig refute --frames 3 examples/wraps.aag examples/wraps.drat
See also: man aig, man aig-explain, man 5 aig-formats";

/// The usage of the commands that need one of two options: the parser knows no such need, so it would leave it out.
pub mod usages {
    pub const CNF: &str = "aig cnf [OPTIONS] <--frames <K>|--certificate <AIG>> <CIRCUIT>";

    pub const REFUTE: &str =
        "aig refute [OPTIONS] <--frames <K>|--certificate <AIG>> <CIRCUIT> <PROOF>";

    pub const WITNESS: &str = "aig witness [OPTIONS] <CIRCUIT> [STIM]";
}
