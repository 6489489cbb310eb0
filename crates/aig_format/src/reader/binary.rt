//! The body of a binary file.
ghost use Rattle.std.specs.Prelude.{◌≡◌, ◌+◌, ◌<◌, ◌^◌, IfOk, IfErr};
ghost use Rattle.aig_parts.specs.Formed.{IsFormed};
ghost use Rattle.aig_base.specs.Renumbered.{evens, IsBinaryReady};
ghost use Rattle.aig_format.specs.state.HeaderCounts.{AreWithin};
ghost use Rattle.aig_format.specs.state.Reads.{ReadsAs};
ghost use Rattle.aig_format.specs.state.ReadingFile.{binary_at};

use crate::reader::header::Counts;
use crate::reader::line::{Implied, lines};
use crate::reader::section::read_properties;
use crate::reader::source::Source;
use crate::reader::symbol::read_names;
use aig_base::{Fault, Gate, Latch, List, Lit, Raw};
use std::alloc::Global;

/// The literals of the variables 1, 2, .., `count`.
fn inputs(alloc: Global, count: u32) -> Result<List<Lit>, Fault>
    requires { count < 2 ^ 30 }
    ensures literals { IfOk result (λ list. list ≡ evens count) }
    ensures memory { IfErr result (λ fault. fault ≡ Fault.Memory) }
{
    let mut all = List::new(alloc);
    for i in 0..count {
        all.push(Lit::new(2 * (i + 1)))?;
    }
    Ok(all)
}

/// All that follows the header line. Inputs, the latches' literals and the gates' left sides are left out in the file.
#[tactic(auto, unfolding(crate::specs::state::ReadingFile::binary_at))]
pub(crate) fn binary_body<S: Source>(
    alloc: Global,
    s: &mut S,
    counts: &Counts,
) -> Result<Raw, Fault>
    requires within { AreWithin counts.now }
    requires exact { counts.now.max_var ≡ counts.now.inputs + counts.now.latches + counts.now.gates }
    ensures reads { ReadsAs S.Source s.old s.new (λ x. x) result (binary_at counts.now) }
    ensures formed { IfOk result IsFormed }
    ensures ready { IfOk result IsBinaryReady }
{
    let latches = lines::<S, Implied, Latch>(alloc, s, counts.inputs + 1, counts.latches)?;
    let properties = read_properties(alloc, s, counts)?;
    let first_gate = counts.inputs + counts.latches + 1;
    let gates = lines::<S, Implied, Gate>(alloc, s, first_gate, counts.gates)?;
    let names = read_names(alloc, s, counts)?;
    // The inputs are only counted in the file, so they wait until all of it is accepted.
    let inputs = inputs(alloc, counts.inputs)?;
    Ok(Raw {
        max_var: counts.max_var,
        inputs,
        latches,
        outputs: properties.outputs,
        bad: properties.bad,
        constraints: properties.constraints,
        justice: properties.justice,
        fairness: properties.fairness,
        gates,
        symbols: names.symbols,
        comment: names.comment,
    })
}
