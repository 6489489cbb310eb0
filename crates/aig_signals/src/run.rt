//! Runs of entries that are one signal.
ghost use Rattle.std.specs.Prelude.{◌≡◌, ◌+◌, ◌<◌, ◌∷◌, IfOk, reverse};
ghost use Rattle.aig_signals.specs.Signals as spec;

use crate::names::push_first_name;
use crate::section::count_of;
use aig_base::{Circuit, Kind, Memory};
use aig_names::show_next;
use std::alloc::Global;

/// Neighbours of a section that are one signal: the bits of a vector, or an entry alone. They are the entries from the
/// first up to the end, which is none of them.
#[derive(Clone, Copy, Drop)]
pub struct Run {
    pub first: u32,
    pub end: u32,
}

/// Whether the entry after a position is the next bit of the same vector. The buffers are for names.
fn goes_on(
    name: &mut Vec<u8>,
    next: &mut Vec<u8>,
    circuit: &Circuit,
    kind: Kind,
    position: u32,
) -> Result<bool, Memory>
    requires { position < 4194304 }
    ensures { IfOk result (λ goes. goes ≡ spec.goes_on circuit.now kind position) }
{
    name.clear();
    push_first_name(name, circuit, kind, position)?;
    show_next(next, name.as_slice())?;
    name.clear();
    push_first_name(name, circuit, kind, position + 1)?;
    Ok(next.as_slice() == name.as_slice())
}

/// The end of the run that an entry begins. Where it goes on with the last of these runs, which are turned round, that
/// run is taken away.
fn take_joined(runs: &mut Vec<Run>, goes_on: bool, position: u32) -> u32
    requires { position < 4194304 }
    ensures { record { first = position; end = result } ∷ reverse runs.new.items
        ≡ spec.put_entry goes_on position (reverse runs.old.items) }
{
    if !goes_on {
        return position + 1;
    }
    match runs.pop() {
        Some(run) => run.end,
        None => position + 1,
    }
}

/// The runs of a section, in the order of their entries. Linear in the section and its names.
pub fn runs_of(alloc: Global, circuit: &Circuit, kind: Kind) -> Result<Vec<Run>, Memory>
    ensures { IfOk result (λ runs. runs.items ≡ spec.runs_of circuit.now kind) }
{
    let mut runs = Vec::new(alloc);
    let mut name = Vec::new(alloc);
    let mut next = Vec::new(alloc);
    let mut position = count_of(circuit, kind);
    while position > 0 {
        position -= 1;
        let joins = goes_on(&mut name, &mut next, circuit, kind, position)?;
        let end = take_joined(&mut runs, joins, position);
        runs.push(Run {
            first: position,
            end,
        })?;
    }
    runs.reverse();
    Ok(runs)
}
