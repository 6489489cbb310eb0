//! The file of a question's certificate.
ghost use Rattle.std.specs.Prelude.{◌≡◌, ◌⊎◌, IfErr, IfOk, IfSome};
ghost use Rattle.aig_program.specs.Questions.{claims_left};

use aig_command::RunFault;
use aig_commands::question::Question;
use aig_files::{Exit, Part, read_whole};
use std::alloc::Global;
use std::io::Read;

/// Reads the certificate of a question whole; without a certificate there are no bytes.
pub fn read_claims<F: Read + Drop>(alloc: Global, question: Question<F>) -> Result<Vec<u8>, Exit>
    ensures whole { IfOk result (λ claims. IfSome (claims_left F.remaining question) (λ left. claims.items ≡ left)) }
    ensures fails { IfErr result (λ exit. (exit ≡ Exit.Unread Part.Certificate) ⊎ (exit ≡ Exit.Run RunFault.Memory)) }
{
    match question.certificate() {
        None => Ok(Vec::new(alloc)),
        Some((certificate, _)) => read_whole(alloc, certificate, Part::Certificate),
    }
}
