//! Checks a witness of a circuit file, and says by its contract what the answer means.

ghost use Rattle.std.specs.Prelude.{◌≡◌, ℕ, List, Ok, true};
ghost use Rattle.aig_command.specs.Command.{OfFile};
ghost use Rattle.aig_sim.specs.declared.witness.verdict.Verdict.{Verdict};
ghost use Rattle.aig_commands.specs.Check.{Checks};

use aig_base::MemWriter;
use aig_command::RunFault;
use aig_commands::check_bytes;
use aig_sim::Verdict;
use std::alloc::Global;
use std::io;

// The bad state is that the latch, which takes the input, is 1.
const CIRCUIT: &[u8] = b"aag 2 1 1 0 0 1\n2\n4 2\n4\n";

const WITNESS: &[u8] = b"1\nb0\n0\n1\nx\n.\n";

/// Whether the witness is confirmed: then its run reaches the bad state of the file's circuit (`ShowsVerdict`, which
/// `Checks` cites).
fn is_confirmed(alloc: Global, file: &[u8], witness: &[u8]) -> Result<bool, RunFault>
    ensures confirmed { result ≡ Ok true → (line : List ℕ)
        × OfFile file.now (Checks witness.now) (Ok Verdict.Confirmed) line }
{
    let mut line = MemWriter::new(alloc, 64)?;
    match check_bytes(alloc, file, witness, &mut line)? {
        Verdict::Confirmed => Ok(true),
        _ => Ok(false),
    }
}

pub(crate) fn run(rt: HostRuntime) -> io::Result<()> {
    match is_confirmed(rt.alloc(), CIRCUIT, WITNESS) {
        Ok(true) => println!(rt; "confirmed"),
        Ok(false) => println!(rt; "not confirmed"),
        Err(fault) => println!(rt; "rejected: {fault}"),
    }
}
