//! The file of the run that is given with a circuit.
ghost use Rattle.std.specs.Prelude.{◌≡◌, ◌↔◌, ◌⊎◌, IfErr, IfOk, IfSome, IsTrue};
ghost use Rattle.aig_command.specs.Given.{given_text};
ghost use Rattle.aig_program.specs.GivenFiles.{given_items, given_left, given_part, IsWitness};

use aig_command::{Given, RunFault};
use aig_files::{Exit, Part, read_whole};
use std::alloc::Global;
use std::io::Read;

/// Reads the file, if there is one.
pub fn read_given_file<F: Read + Drop>(
    alloc: Global,
    given: Given<F>,
) -> Result<Given<Vec<u8>>, Exit>
    ensures whole { IfOk result (λ texts. IfSome (given_left F.remaining given) (λ left. given_items texts ≡ left)) }
    ensures fails { IfErr result (λ exit. (exit ≡ Exit.Unread (given_part given)) ⊎ (exit ≡ Exit.Run RunFault.Memory)) }
{
    match given {
        Given::Nothing => Ok(Given::Nothing),
        Given::Stimulus(file) => {
            let text = read_whole(alloc, file, Part::Stimulus)?;
            Ok(Given::Stimulus(text))
        }
        Given::Witness(file) => {
            let text = read_whole(alloc, file, Part::Witness)?;
            Ok(Given::Witness(text))
        }
    }
}

/// The text that was read.
pub fn text_of_given(given: &Given<Vec<u8>>) -> Given<&[u8]>
    ensures text { given_text result ≡ given_items given.now }
{
    match given {
        Given::Nothing => Given::Nothing,
        Given::Stimulus(text) => Given::Stimulus(text.as_slice()),
        Given::Witness(text) => Given::Witness(text.as_slice()),
    }
}

/// Whether it is a witness, which names a property.
pub fn is_witness<F>(given: &Given<F>) -> bool
    ensures { IsTrue result ↔ IsWitness given.now }
{
    matches!(given, Given::Witness(_))
}
