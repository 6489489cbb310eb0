//! The sections that both formats have as text lines.
ghost use Rattle.std.specs.Prelude.{◌≡◌, ◌≤◌, List, ℕ, length, map, sum, sum_by, IfOk};
ghost use Rattle.aig_parts.specs.Formed.{limit};
ghost use Rattle.aig_format.specs.state.Fits.{HasCounts};
ghost use Rattle.aig_format.specs.declared.reader.header.Counts.{Counts};
ghost use Rattle.aig_format.specs.state.ReadingSections.{sizes_at, groups_of_literals_at, justice_at, properties_at};
ghost use Rattle.aig_format.specs.state.Reads.{ReadsAs};

use crate::reader::header::Counts;
use crate::reader::line::{Text, lines};
use crate::reader::source::Source;
use crate::reader::token::{BODY, HEAD, byte, number};
use aig_base::{Fault, List, Lit};
use std::alloc::Global;

/// What the circuit answers and what it is to keep (AIGER 1.9, header).
#[derive(Drop)]
pub struct Properties {
    pub outputs: List<Lit>,
    pub bad: List<Lit>,
    pub constraints: List<Lit>,
    pub justice: List<List<Lit>>,
    pub fairness: List<Lit>,
}

/// The sizes of so many justice properties. Their sum has the limit of a count.
fn sizes<S: Source>(alloc: Global, s: &mut S, count: u32) -> Result<Vec<u32>, Fault>
    ensures reads { ReadsAs S.Source s.old s.new (λ v. v.items) result (sizes_at count 0) }
    ensures count { IfOk result (λ v. length v.items ≡ count) }
    ensures sum { IfOk result (λ v. sum v.items ≤ limit) }
{
    let mut sizes = Vec::new(alloc);
    let mut total = 0;
    for _ in 0..count {
        let size = number(s, BODY)?;
        if size > HEAD - total {
            return Err(Fault::Limit);
        }
        byte(s, b'\n')?;
        total += size;
        sizes.push(size)?;
    }
    Ok(sizes)
}

/// As many literals as each size says.
fn groups<S: Source>(alloc: Global, s: &mut S, sizes: &[u32]) -> Result<List<List<Lit>>, Fault>
    ensures reads { ReadsAs S.Source s.old s.new (λ x. x) result (groups_of_literals_at sizes.now) }
    ensures sizes { IfOk result (λ all. map length all ≡ sizes.now) }
{
    let mut all = List::new(alloc);
    for size in sizes {
        let literals = lines::<S, Text, Lit>(alloc, s, 0, *size)?;
        all.push(literals)?;
    }
    Ok(all)
}

#[tactic(auto, unfolding(crate::specs::state::ReadingSections::justice_at))]
fn justice<S: Source>(alloc: Global, s: &mut S, count: u32) -> Result<List<List<Lit>>, Fault>
    ensures reads { ReadsAs S.Source s.old s.new (λ x. x) result (justice_at count) }
    ensures count { IfOk result (λ all. length all ≡ count) }
    ensures literals { IfOk result (λ all. sum_by length all ≤ limit) }
{
    let sizes = sizes(alloc, s, count)?;
    groups(alloc, s, &sizes)
}

/// Outputs, bad state properties, constraints, justice and fairness.
#[tactic(auto, unfolding(crate::specs::state::ReadingSections::properties_at))]
pub(crate) fn read_properties<S: Source>(
    alloc: Global,
    s: &mut S,
    counts: &Counts,
) -> Result<Properties, Fault>
    ensures reads { ReadsAs S.Source s.old s.new (λ x. x) result (properties_at counts.now) }
    ensures counts { IfOk result (HasCounts counts.now) }
{
    let outputs = lines::<S, Text, Lit>(alloc, s, 0, counts.outputs)?;
    let bad = lines::<S, Text, Lit>(alloc, s, 0, counts.bad)?;
    let constraints = lines::<S, Text, Lit>(alloc, s, 0, counts.constraints)?;
    let justice = justice(alloc, s, counts.justice)?;
    let fairness = lines::<S, Text, Lit>(alloc, s, 0, counts.fairness)?;
    Ok(Properties {
        outputs,
        bad,
        constraints,
        justice,
        fairness,
    })
}
