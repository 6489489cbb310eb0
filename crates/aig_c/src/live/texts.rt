//! Texts of a bench, in a room.
ghost use Rattle.std.specs.Prelude.{◌≡◌, ◌+◌, ◌<◌, ◌≤◌, ◌++◌, length, true};
ghost use Rattle.aig_base.specs.Renumbered.{IsBinaryReady};
ghost use Rattle.aig_commands.specs.Unroll.{short_spelling};
ghost use Rattle.aig_c.specs.Answers.{Fills, format_of};
ghost use Rattle.aig_c.specs.Texts.{FillsText, LiveFills};
ghost use Rattle.aig_c.specs.Texts.{IsCircuitText, IsNotUnrolled, IsStimulusText, IsTrace, IsUnrolling};

use crate::answer::{NO_MEMORY, NO_ROOM, answer, format, refuse, writer};
use crate::live::handle::AigLive;
use crate::live::status::NOT_OPEN;
use aig_base::{Circuit, MemWriter};
use aig_bench::Bench;
use aig_command::RunFault;
use aig_format::{Format, write_ascii, write_binary};
use aig_script::{keep_circuit, keep_stimulus};
use aig_sim::PlaneGrid;
use std::alloc::Global;

/// Copies what a writer took of a text to the front of a room that is large enough, if all was written.
fn ended(whole: bool, bytes: &[u8], room: &mut [u8], written: &mut usize) -> u8
    ensures { Fills (λ text. (whole ≡ true) × (text ≡ bytes.now)) ⊥ (length room.old < length bytes.now)
        result room.old room.new written.old written.new }
{
    if whole {
        return answer(bytes, room, written);
    }
    if bytes.len() > room.len() {
        NO_ROOM
    } else {
        NO_MEMORY
    }
}

fn trace(alloc: Global, bench: &Bench<PlaneGrid>, room: &mut [u8], written: &mut usize) -> u8
    ensures { FillsText (IsTrace bench.now) ⊥ result room.old room.new written.old written.new }
{
    let Ok(mut out) = writer(alloc, room) else {
        return NO_MEMORY;
    };
    let whole = bench.write_trace(&mut out).is_ok();
    ended(whole, out.bytes(), room, written)
}

fn circuit(alloc: Global, bench: &Bench<PlaneGrid>, room: &mut [u8], written: &mut usize) -> u8
    ensures { FillsText (IsCircuitText bench.now) ⊥ result room.old room.new written.old written.new }
{
    let Ok(mut out) = writer(alloc, room) else {
        return NO_MEMORY;
    };
    let whole = keep_circuit(bench, &mut out).is_ok();
    ended(whole, out.bytes(), room, written)
}

fn stimulus(alloc: Global, bench: &Bench<PlaneGrid>, room: &mut [u8], written: &mut usize) -> u8
    ensures { FillsText (IsStimulusText bench.now) ⊥ result room.old room.new written.old written.new }
{
    let Ok(mut out) = writer(alloc, room) else {
        return NO_MEMORY;
    };
    let whole = keep_stimulus(bench, &mut out).is_ok();
    ended(whole, out.bytes(), room, written)
}

/// Writes a circuit that a binary file can hold in a format, as it stands, and answers whether all was written.
fn write_whole(circuit: &Circuit, to: Format, out: &mut MemWriter) -> bool
    requires { IsBinaryReady circuit.now }
    ensures whole { result ≡ true → out.new.bytes ≡ out.old.bytes ++ short_spelling to circuit.now }
    ensures part { length out.new.bytes ≤ length out.old.bytes + length (short_spelling to circuit.now) }
{
    let written = match to {
        Format::Ascii => write_ascii(circuit, out),
        Format::Binary => write_binary(circuit, out),
    };
    written.is_ok()
}

fn unrolled(
    alloc: Global,
    bench: &Bench<PlaneGrid>,
    to: Format,
    room: &mut [u8],
    written: &mut usize,
) -> u8
    ensures { FillsText (IsUnrolling to bench.now) (IsNotUnrolled bench.now)
        result room.old room.new written.old written.new }
{
    let circuit = match bench.unrolled(alloc) {
        Ok(circuit) => circuit,
        Err(fault) => return refuse(alloc, RunFault::Unroll(fault), &[], room, written),
    };
    let Ok(mut out) = writer(alloc, room) else {
        return NO_MEMORY;
    };
    let whole = write_whole(&circuit, to, &mut out);
    ended(whole, out.bytes(), room, written)
}

/// Writes the trace: a line a frame.
#[unsafe(no_mangle)]
pub extern "C" fn aig_live_trace(
    alloc: Global,
    bench: &mut AigLive,
    room: &mut [u8],
    written: &mut usize,
) -> u8
    ensures fills { LiveFills IsTrace (λ state. ⊥) bench.old.seat.held bench.new.seat.held
        result room.old room.new written.old written.new }
{
    let Some(held) = bench.take(alloc) else {
        return NOT_OPEN;
    };
    let status = trace(alloc, &held, room, written);
    bench.put(held);
    status
}

/// Writes the circuit, unrolled for as many frames as there are, as text or in the binary format.
#[unsafe(no_mangle)]
pub extern "C" fn aig_live_unrolled(
    alloc: Global,
    bench: &mut AigLive,
    binary: bool,
    room: &mut [u8],
    written: &mut usize,
) -> u8
    ensures fills { LiveFills (IsUnrolling (format_of binary)) IsNotUnrolled bench.old.seat.held bench.new.seat.held
        result room.old room.new written.old written.new }
{
    let Some(held) = bench.take(alloc) else {
        return NOT_OPEN;
    };
    let status = unrolled(alloc, &held, format(binary), room, written);
    bench.put(held);
    status
}

/// Writes the circuit as text, with all edits that were done.
#[unsafe(no_mangle)]
pub extern "C" fn aig_live_circuit(
    alloc: Global,
    bench: &mut AigLive,
    room: &mut [u8],
    written: &mut usize,
) -> u8
    ensures fills { LiveFills IsCircuitText (λ state. ⊥) bench.old.seat.held bench.new.seat.held
        result room.old room.new written.old written.new }
{
    let Some(held) = bench.take(alloc) else {
        return NOT_OPEN;
    };
    let status = circuit(alloc, &held, room, written);
    bench.put(held);
    status
}

/// Writes the rows as a stimulus.
#[unsafe(no_mangle)]
pub extern "C" fn aig_live_stimulus(
    alloc: Global,
    bench: &mut AigLive,
    room: &mut [u8],
    written: &mut usize,
) -> u8
    ensures fills { LiveFills IsStimulusText (λ state. ⊥) bench.old.seat.held bench.new.seat.held
        result room.old room.new written.old written.new }
{
    let Some(held) = bench.take(alloc) else {
        return NOT_OPEN;
    };
    let status = stimulus(alloc, &held, room, written);
    bench.put(held);
    status
}
