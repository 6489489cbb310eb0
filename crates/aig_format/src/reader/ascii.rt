//! The body of an ASCII file.
ghost use Rattle.std.specs.Prelude.{◌≡◌, IfOk};
ghost use Rattle.aig_parts.specs.Formed.{IsFormed};
ghost use Rattle.aig_format.specs.state.HeaderCounts.{AreWithin};
ghost use Rattle.aig_format.specs.state.Reads.{ReadsAs};
ghost use Rattle.aig_format.specs.state.ReadingFile.{ascii_at};

use crate::reader::header::Counts;
use crate::reader::line::{Text, lines};
use crate::reader::section::read_properties;
use crate::reader::source::Source;
use crate::reader::symbol::read_names;
use aig_base::{Fault, Gate, Latch, List, Lit, Raw};
use std::alloc::Global;

/// All that follows the header line.
#[tactic(auto, unfolding(crate::specs::state::ReadingFile::ascii_at))]
pub(crate) fn ascii_body<S: Source>(alloc: Global, s: &mut S, counts: &Counts) -> Result<Raw, Fault>
    requires within { AreWithin counts.now }
    ensures reads { ReadsAs S.Source s.old s.new (λ x. x) result (ascii_at counts.now) }
    ensures formed { IfOk result IsFormed }
{
    let inputs = lines::<S, Text, Lit>(alloc, s, 0, counts.inputs)?;
    let latches = lines::<S, Text, Latch>(alloc, s, 0, counts.latches)?;
    let properties = read_properties(alloc, s, counts)?;
    let gates = lines::<S, Text, Gate>(alloc, s, 0, counts.gates)?;
    let names = read_names(alloc, s, counts)?;
    Ok(Raw {
        max_var: counts.max_var,
        inputs,
        latches,
        outputs: properties.outputs,
        bad: properties.bad,
        constraints: properties.constraints,
        justice: properties.justice,
        fairness: properties.fairness,
        gates,
        symbols: names.symbols,
        comment: names.comment,
    })
}
