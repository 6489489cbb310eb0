//! Writing ASCII files.
ghost use Rattle.std.specs.Prelude.{◌≡◌, ◌^◌, ◌<◌, ◌≤◌, [], ◌++◌, length, take, false, All, IfErr};
ghost use Rattle.std.specs.List.{flat_map};
ghost use Rattle.aig_bytes.specs.Bytes.{Writes};
ghost use Rattle.aig_bytes.specs.Gathered.{Gathers};
ghost use Rattle.aig_format.specs.Spelling.{latch_line, gate_line, lines, short_ascii};

use crate::reader::header::Format;
use crate::writer::header::{counts_of, put_header};
use crate::writer::section::{put_literals, put_names, put_next, put_properties};
use aig_base::{Block, Circuit, Fault, Gate, Io, Latch, Write, write_all};

fn put_latch<W: Write>(out: &mut W, block: &mut Block, latch: Latch) -> Result<(), Io>
    ensures { Gathers W.written W.failures out.old out.new block.old block.new (latch_line false latch) result }
{
    block.put_field(out, latch.lit.value(), b' ')?;
    put_next(out, block, latch.next, latch.reset)
}

fn put_latches<W: Write>(out: &mut W, block: &mut Block, latches: &[Latch]) -> Result<(), Io>
    ensures { Gathers W.written W.failures out.old out.new block.old block.new (flat_map (latch_line false)
        latches.now) result }
{
    for latch in latches {
        put_latch(out, block, *latch)?;
    }
    Ok(())
}

/// Puts in the lines of the first of these gates, as many as there is room for after what waits, and answers how many.
/// That is at least one where none waits.
fn push_gates(block: &mut Block, gates: &[Gate]) -> usize
    requires { All (λ g. (g.lhs < 10 ^ 8) × (g.rhs0 < 10 ^ 8) × (g.rhs1 < 10 ^ 8)) gates.now }
    ensures pushed { block.new ≡ block.old ++ flat_map gate_line (take result gates.now) }
    ensures bound { result ≤ length gates.now }
    ensures some { block.old ≡ [] → 0 < length gates.now → 0 < result }
{
    for (count, gate) in gates.iter().enumerate() {
        if !block.push_line(gate.lhs.value(), gate.rhs0.value(), gate.rhs1.value()) {
            return count;
        }
    }
    gates.len()
}

fn put_gates<W: Write>(out: &mut W, block: &mut Block, gates: &[Gate]) -> Result<(), Io>
    requires { All (λ g. (g.lhs < 10 ^ 8) × (g.rhs0 < 10 ^ 8) × (g.rhs1 < 10 ^ 8)) gates.now }
    ensures { Gathers W.written W.failures out.old out.new block.old block.new (flat_map gate_line gates.now) result }
{
    let mut at = push_gates(block, gates);
    while at < gates.len() {
        block.forward(out)?;
        at += push_gates(block, &gates[at..]);
    }
    Ok(())
}

#[tactic(auto, unfolding(crate::specs::Spelling::ascii))]
fn put_ascii<W: Write>(
    out: &mut W,
    block: &mut Block,
    circuit: &Circuit,
    latches: &[Latch],
) -> Result<(), Io>
    requires { length latches.now ≡ length circuit.now.latches }
    ensures { Gathers W.written W.failures out.old out.new block.old block.new
        (short_ascii (record circuit.now { latches = latches.now })) result }
{
    put_header(out, block, Format::Ascii, &counts_of(circuit))?;
    put_literals(out, block, circuit.inputs())?;
    put_latches(out, block, latches)?;
    put_properties(out, block, circuit)?;
    put_gates(out, block, circuit.gates())?;
    put_names(out, block, circuit)
}

/// Writes a circuit as an ASCII file: as it stands, without trailing zero counts and resets of 0 (AIGER 1.0, ASCII
/// format; AIGER 1.9). Where a write fails it has written a beginning. It takes no memory.
pub fn write_ascii<W: Write>(circuit: &Circuit, out: &mut W) -> Result<(), Fault>
    ensures written { Writes W.written W.failures out.old out.new (short_ascii circuit.now) result }
    ensures io { IfErr result (λ fault. fault ≡ Fault.Io) }
{
    write_ascii_with(circuit, circuit.latches(), out)
}

/// Writes a circuit as `write_ascii` does, with these latches in place of its own.
pub fn write_ascii_with<W: Write>(
    circuit: &Circuit,
    latches: &[Latch],
    out: &mut W,
) -> Result<(), Fault>
    requires { length latches.now ≡ length circuit.now.latches }
    ensures written { Writes W.written W.failures out.old out.new
        (short_ascii (record circuit.now { latches = latches.now })) result }
    ensures io { IfErr result (λ fault. fault ≡ Fault.Io) }
{
    let mut block = Block::new();
    put_ascii(out, &mut block, circuit, latches)?;
    write_all(out, block.as_slice())?;
    Ok(())
}
