//! Writing binary files.
ghost use Rattle.std.specs.Prelude.{◌≡◌, ◌^◌, ◌<◌, ◌≤◌, [], ◌++◌, length, take, false, All, IsTrue, IfErr};
ghost use Rattle.std.specs.List.{flat_map};
ghost use Rattle.aig_bytes.specs.Bytes.{Writes};
ghost use Rattle.aig_base.specs.Renumbered.{IsBinaryReady};
ghost use Rattle.aig_bytes.specs.Gathered.{Gathers};
ghost use Rattle.aig_format.specs.Spelling.{implicit_latch_line, gate_deltas, lines, short_binary};

use crate::reader::header::Format;
use crate::writer::delta::groups;
use crate::writer::header::{counts_of, put_header};
use crate::writer::section::{put_names, put_next, put_properties};
use aig_base::{Block, Circuit, Fault, Gate, Io, Latch, Write, write_all};

fn put_latch<W: Write>(out: &mut W, block: &mut Block, latch: Latch) -> Result<(), Io>
    ensures { Gathers W.written W.failures out.old out.new block.old block.new
        (implicit_latch_line false latch) result }
{
    put_next(out, block, latch.next, latch.reset)
}

fn put_latches<W: Write>(out: &mut W, block: &mut Block, latches: &[Latch]) -> Result<(), Io>
    ensures { Gathers W.written W.failures out.old out.new block.old block.new (flat_map (implicit_latch_line false)
        latches.now) result }
{
    for latch in latches {
        put_latch(out, block, *latch)?;
    }
    Ok(())
}

/// Puts in the deltas of a gate, where there is room for the longest after what waits, and answers whether there was.
fn push_gate(block: &mut Block, gate: Gate) -> bool
    requires first { gate.rhs0 < gate.lhs }
    requires second { gate.rhs1 ≤ gate.rhs0 }
    requires small { gate.lhs < 2 ^ 28 }
    ensures pushed { IsTrue result → block.new ≡ block.old ++ gate_deltas gate }
    ensures full { result ≡ false → block.new ≡ block.old }
    ensures some { block.old ≡ [] → IsTrue result }
{
    let lhs = gate.lhs.value();
    let rhs0 = gate.rhs0.value();
    let rhs1 = gate.rhs1.value();
    block.push_firsts(groups(lhs - rhs0), groups(rhs0 - rhs1))
}

/// Puts in the deltas of the first of these gates, as many as there is room for after what waits, and answers how many.
/// That is at least one where none waits.
fn push_gates(block: &mut Block, gates: &[Gate]) -> usize
    requires { All (λ g. (g.rhs0 < g.lhs) × (g.rhs1 ≤ g.rhs0) × (g.lhs < 2 ^ 28)) gates.now }
    ensures pushed { block.new ≡ block.old ++ flat_map gate_deltas (take result gates.now) }
    ensures bound { result ≤ length gates.now }
    ensures some { block.old ≡ [] → 0 < length gates.now → 0 < result }
{
    for (count, gate) in gates.iter().enumerate() {
        if !push_gate(block, *gate) {
            return count;
        }
    }
    gates.len()
}

fn put_gates<W: Write>(out: &mut W, block: &mut Block, gates: &[Gate]) -> Result<(), Io>
    requires { All (λ g. (g.rhs0 < g.lhs) × (g.rhs1 ≤ g.rhs0) × (g.lhs < 2 ^ 28)) gates.now }
    ensures { Gathers W.written W.failures out.old out.new block.old block.new (flat_map gate_deltas gates.now) result }
{
    let mut at = push_gates(block, gates);
    while at < gates.len() {
        block.forward(out)?;
        at += push_gates(block, &gates[at..]);
    }
    Ok(())
}

#[tactic(auto, unfolding(crate::specs::Spelling::binary))]
fn put_binary<W: Write>(out: &mut W, block: &mut Block, circuit: &Circuit) -> Result<(), Io>
    requires { IsBinaryReady circuit.now }
    ensures { Gathers W.written W.failures out.old out.new block.old block.new (short_binary circuit.now) result }
{
    put_header(out, block, Format::Binary, &counts_of(circuit))?;
    put_latches(out, block, circuit.latches())?;
    put_properties(out, block, circuit)?;
    put_gates(out, block, circuit.gates())?;
    put_names(out, block, circuit)
}

/// Writes a circuit that is ready for it as a binary file: as it stands, without trailing zero counts and resets of 0
/// (AIGER 1.0, binary format; AIGER 1.9). Where a write fails it has written a beginning. It takes no memory.
pub fn write_binary<W: Write>(circuit: &Circuit, out: &mut W) -> Result<(), Fault>
    requires { IsBinaryReady circuit.now }
    ensures written { Writes W.written W.failures out.old out.new (short_binary circuit.now) result }
    ensures io { IfErr result (λ fault. fault ≡ Fault.Io) }
{
    let mut block = Block::new();
    put_binary(out, &mut block, circuit)?;
    write_all(out, block.as_slice())?;
    Ok(())
}
