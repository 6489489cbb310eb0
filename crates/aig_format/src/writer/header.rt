//! Writing the header line.
ghost use Rattle.std.specs.Prelude.{◌≡◌, ◌==◌};
ghost use Rattle.std.specs.List.{list_all};
ghost use Rattle.aig_base.specs.Circuit.{IsCircuit};
ghost use Rattle.aig_bytes.specs.Gathered.{Gathers};
ghost use Rattle.aig_format.specs.Header.{word, tail, header_line};
ghost use Rattle.aig_format.specs.state.HeaderCounts.{counted, in_line};

use crate::reader::header::{Counts, Format};
use crate::writer::block::put_number;
use aig_base::{Block, Circuit, Io, Write};

/// The counts of a circuit.
pub(crate) fn counts_of(circuit: &Circuit) -> Counts
    ensures counts { result ≡ counted circuit.now }
    ensures circuit { IsCircuit circuit.now }
{
    Counts {
        max_var: circuit.max_var(),
        inputs: circuit.inputs().len() as u32,
        latches: circuit.latches().len() as u32,
        outputs: circuit.outputs().len() as u32,
        gates: circuit.gates().len() as u32,
        bad: circuit.bad().len() as u32,
        constraints: circuit.constraints().len() as u32,
        justice: circuit.justice().len() as u32,
        fairness: circuit.fairness().len() as u32,
    }
}

fn put_word<W: Write>(out: &mut W, block: &mut Block, format: Format) -> Result<(), Io>
    ensures { Gathers W.written W.failures out.old out.new block.old block.new (word format) result }
{
    match format {
        Format::Ascii => block.put_all(out, b"aag "),
        Format::Binary => block.put_all(out, b"aig "),
    }
}

fn are_zero(counts: &[u32]) -> bool
    ensures { result ≡ list_all (λ n. n == 0) counts.now }
{
    counts.iter().all(|count| *count == 0)
}

/// The last counts, without the zeros at their end, and the end of the line.
fn put_tail<W: Write>(out: &mut W, block: &mut Block, counts: &[u32]) -> Result<(), Io>
    ensures { Gathers W.written W.failures out.old out.new block.old block.new (tail 0 counts.now) result }
{
    if are_zero(counts) {
        return block.put_all(out, b"\n");
    }
    block.put_all(out, b" ")?;
    put_number(out, block, counts[0])?;
    put_tail(out, block, &counts[1..])
}

/// The header line of a circuit with these counts.
#[tactic(auto, unfolding(crate::specs::Header::header_line))]
pub(crate) fn put_header<W: Write>(
    out: &mut W,
    block: &mut Block,
    format: Format,
    counts: &Counts,
) -> Result<(), Io>
    ensures { Gathers W.written W.failures out.old out.new block.old block.new
        (header_line format 0 (in_line counts.now)) result }
{
    put_word(out, block, format)?;
    block.put_field(out, counts.max_var, b' ')?;
    block.put_field(out, counts.inputs, b' ')?;
    block.put_field(out, counts.latches, b' ')?;
    block.put_field(out, counts.outputs, b' ')?;
    put_number(out, block, counts.gates)?;
    let last = [
        counts.bad,
        counts.constraints,
        counts.justice,
        counts.fairness,
    ];
    put_tail(out, block, &last)
}
