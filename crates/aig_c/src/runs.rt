//! Runs: verdicts on witnesses, witnesses, waves and scripts.
ghost use Rattle.std.specs.Prelude.{◌≡◌, ◌≢◌, Ok, Some, length};
ghost use Rattle.aig_command.specs.Command.{OfFile, Text};
ghost use Rattle.aig_script.specs.Bench.{RunsScript};
ghost use Rattle.aig_commands.specs.Check.{Checks};
ghost use Rattle.aig_commands.specs.Reduce.{Reduces};
ghost use Rattle.aig_commands.specs.Wave.{DumpsRun};
ghost use Rattle.aig_commands.specs.Witness.{WritesWitness};
ghost use Rattle.aig_c.specs.Answers.{ExceedsReading, Fills, Refuses, Returns, ReturnsVerdict};

use crate::answer::{DONE, NO_MEMORY, answer, is_confirmed, refuse, writer};
use aig_base::{MemReader, MemWriter};
use aig_commands::check_bytes;
use aig_commands::reduce::reduce;
use aig_commands::wave::wave_witness;
use aig_commands::witness::witness;
use aig_script::run_bench;
use aig_sim::PlaneGrid;
use std::alloc::Global;

/// Checks a witness: writes the verdict's line, and says whether the witness is confirmed.
#[unsafe(no_mangle)]
pub extern "C" fn aig_check(
    alloc: Global,
    circuit: &[u8],
    witness: &[u8],
    room: &mut [u8],
    written: &mut usize,
    confirmed: &mut bool,
) -> u8
    ensures returns { ReturnsVerdict (OfFile circuit.now (Checks witness.now)) confirmed.new
        result room.old room.new written.old written.new }
    ensures no_verdict { result ≢ 0 → confirmed.new ≡ confirmed.old }
{
    let Ok(mut out) = writer(alloc, room) else {
        return NO_MEMORY;
    };
    match check_bytes(alloc, circuit, witness, &mut out) {
        Ok(verdict) => {
            let status = answer(out.bytes(), room, written);
            if status == DONE {
                *confirmed = is_confirmed(verdict);
            }
            status
        }
        Err(fault) => refuse(alloc, fault, out.bytes(), room, written),
    }
}

/// Writes the witness of the first frame at which a run over the rows of a stimulus reaches a property.
#[unsafe(no_mangle)]
pub extern "C" fn aig_witness(
    alloc: Global,
    circuit: &[u8],
    rows: &[u8],
    property: u32,
    room: &mut [u8],
    written: &mut usize,
) -> u8
    ensures returns { Returns (OfFile circuit.now (WritesWitness (Some property) rows.now))
        result room.old room.new written.old written.new }
{
    let Ok(mut out) = writer(alloc, room) else {
        return NO_MEMORY;
    };
    match witness(alloc, circuit, rows, Some(property), &mut out) {
        Ok(()) => answer(out.bytes(), room, written),
        Err(fault) => refuse(alloc, fault, out.bytes(), room, written),
    }
}

/// Writes a confirmed witness with x in place of each value that its failure does not need, or the line of another
/// verdict, and says which of both.
#[unsafe(no_mangle)]
pub extern "C" fn aig_reduce(
    alloc: Global,
    circuit: &[u8],
    witness: &[u8],
    room: &mut [u8],
    written: &mut usize,
    confirmed: &mut bool,
) -> u8
    ensures returns { ReturnsVerdict (OfFile circuit.now (Reduces witness.now)) confirmed.new
        result room.old room.new written.old written.new }
    ensures no_verdict { result ≢ 0 → confirmed.new ≡ confirmed.old }
{
    let Ok(mut out) = writer(alloc, room) else {
        return NO_MEMORY;
    };
    match reduce(alloc, circuit, witness, &mut out) {
        Ok(verdict) => {
            let status = answer(out.bytes(), room, written);
            if status == DONE {
                *confirmed = is_confirmed(verdict);
            }
            status
        }
        Err(fault) => refuse(alloc, fault, out.bytes(), room, written),
    }
}

/// Writes the value change dump of the run of a witness.
#[unsafe(no_mangle)]
pub extern "C" fn aig_wave_witness(
    alloc: Global,
    circuit: &[u8],
    witness: &[u8],
    room: &mut [u8],
    written: &mut usize,
) -> u8
    ensures returns { Returns (OfFile circuit.now (DumpsRun witness.now))
        result room.old room.new written.old written.new }
{
    let Ok(mut out) = writer(alloc, room) else {
        return NO_MEMORY;
    };
    match wave_witness(alloc, circuit, witness, &mut out) {
        Ok(()) => answer(out.bytes(), room, written),
        Err(fault) => refuse(alloc, fault, out.bytes(), room, written),
    }
}

/// Runs a whole script on a bench of a circuit and the rows of a stimulus, and writes the replies.
#[unsafe(no_mangle)]
pub extern "C" fn aig_bench(
    alloc: Global,
    circuit: &[u8],
    rows: &[u8],
    script: &[u8],
    room: &mut [u8],
    written: &mut usize,
) -> u8
    ensures returns { Fills (λ replies. (text : Text) × (text.bytes ≡ script.now)
        × RunsScript circuit.now rows.now text (Ok tt) replies)
        ((text : Text) × Refuses (RunsScript circuit.now rows.now text))
        (ExceedsReading (length room.old) script.now (RunsScript circuit.now rows.now))
        result room.old room.new written.old written.new }
{
    let Ok(mut out) = writer(alloc, room) else {
        return NO_MEMORY;
    };
    let mut reader = MemReader::new(script);
    match run_bench::<PlaneGrid, MemReader<'_>, MemWriter>(
        alloc,
        circuit,
        rows,
        &mut reader,
        &mut out,
    ) {
        Ok(()) => answer(out.bytes(), room, written),
        Err(fault) => refuse(alloc, fault, out.bytes(), room, written),
    }
}
