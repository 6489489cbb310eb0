//! Refutations: what a SAT solver's proofs say of a circuit.
ghost use Rattle.std.specs.Prelude.{◌≡◌};
ghost use Rattle.aig_command.specs.Command.{OfFile};
ghost use Rattle.aig_commands.specs.Alive.{IsFileWithoutRun, RefutesAlive};
ghost use Rattle.aig_commands.specs.Certified.{OfCertified};
ghost use Rattle.aig_commands.specs.Questions.{RefutesQuestion, Says, asked_of};
ghost use Rattle.aig_commands.specs.Refute.{IsFileNeverReached, IsFileUnreachable};
ghost use Rattle.aig_commands.specs.Refute.{Refutes, RefutesInduction, RefutesStep};
ghost use Rattle.aig_commands.specs.declared.certified.Purpose.TheVariants as purposes;
ghost use Rattle.aig_c.specs.Answers.{Returns};

use crate::answer::{NO_MEMORY, answer, refuse, writer};
use crate::asked::Asked;
use aig_base::MemReader;
use aig_commands::question::Question;
use aig_commands::refute::{Proofs, refute};
use std::alloc::Global;

/// Checks the proof of a question, and writes the line that answers.
fn refute_by(
    alloc: Global,
    asked: Asked<'_>,
    proofs: Proofs<&[u8], &[u8]>,
    room: &mut [u8],
    written: &mut usize,
) -> u8
    ensures says { result ≡ 0 → Says (asked_of asked.entry.question) asked.entry.circuit.now }
    ensures returns { Returns (RefutesQuestion (asked_of asked.entry.question) asked.entry.circuit.now)
        result room.old room.new written.old written.new }
{
    let Ok(mut out) = writer(alloc, room) else {
        return NO_MEMORY;
    };
    let mut proofs = Proofs {
        proof: MemReader::new(proofs.proof),
        step: MemReader::new(proofs.step),
    };
    match refute(alloc, asked.circuit, asked.question, &mut proofs, &mut out) {
        Ok(()) => answer(out.bytes(), room, written),
        Err(fault) => refuse(alloc, fault, out.bytes(), room, written),
    }
}

/// Checks a proof that no run reaches a property within some frames, and writes the line that says so.
#[unsafe(no_mangle)]
pub extern "C" fn aig_refute(
    alloc: Global,
    circuit: &[u8],
    proof: &[u8],
    frames: u32,
    property: u32,
    room: &mut [u8],
    written: &mut usize,
) -> u8
    ensures unreachable { result ≡ 0 → IsFileUnreachable circuit.now frames property }
    ensures returns { Returns (OfFile circuit.now (Refutes frames property))
        result room.old room.new written.old written.new }
{
    let question = Question::Within { frames, property };
    let proofs: Proofs<&[u8], &[u8]> = Proofs { proof, step: b"" };
    refute_by(alloc, Asked { circuit, question }, proofs, room, written)
}

/// Checks a proof that no run keeps all constraints for some frames, and writes the line that says so.
#[unsafe(no_mangle)]
pub extern "C" fn aig_refute_alive(
    alloc: Global,
    circuit: &[u8],
    proof: &[u8],
    frames: u32,
    room: &mut [u8],
    written: &mut usize,
) -> u8
    ensures no_run { result ≡ 0 → IsFileWithoutRun circuit.now frames }
    ensures returns { Returns (OfFile circuit.now (RefutesAlive frames))
        result room.old room.new written.old written.new }
{
    let question = Question::Alive { frames };
    let proofs: Proofs<&[u8], &[u8]> = Proofs { proof, step: b"" };
    refute_by(alloc, Asked { circuit, question }, proofs, room, written)
}

/// Checks two proofs that no run of any length reaches a property, and writes the line that says so.
#[unsafe(no_mangle)]
pub extern "C" fn aig_refute_step(
    alloc: Global,
    circuit: &[u8],
    proof: &[u8],
    step: &[u8],
    frames: u32,
    property: u32,
    room: &mut [u8],
    written: &mut usize,
) -> u8
    ensures unreachable { result ≡ 0 → IsFileNeverReached circuit.now property }
    ensures returns { Returns (OfFile circuit.now (RefutesStep frames property))
        result room.old room.new written.old written.new }
{
    let question = Question::Step { frames, property };
    let proofs = Proofs { proof, step };
    refute_by(alloc, Asked { circuit, question }, proofs, room, written)
}

/// Checks a proof that no run of any length reaches a property, by a certificate, and writes the line that says so.
#[unsafe(no_mangle)]
pub extern "C" fn aig_refute_certified(
    alloc: Global,
    circuit: &[u8],
    certificate: &[u8],
    proof: &[u8],
    property: u32,
    room: &mut [u8],
    written: &mut usize,
) -> u8
    ensures unreachable { result ≡ 0 → IsFileNeverReached circuit.now property }
    ensures returns { Returns (OfCertified purposes.Formula circuit.now property certificate.now RefutesInduction)
        result room.old room.new written.old written.new }
{
    let question = Question::Certified {
        certificate,
        property,
    };
    let proofs: Proofs<&[u8], &[u8]> = Proofs { proof, step: b"" };
    refute_by(alloc, Asked { circuit, question }, proofs, room, written)
}
