//! Levels of variables: the longest way down the fan-ins to an input, a latch or the constant.
ghost use Rattle.std.specs.Prelude.{◌≡◌, ◌+◌, ◌<◌, ◌^◌, [], ◌∷◌, ◌++◌, length, Some, slice_get, IfOk, IfSome};
ghost use Rattle.aig_base.specs.Definition.{IsInOrder};
ghost use Rattle.aig_base.specs.state.Descent.{level_above, AreFirstLevels};
ghost use Rattle.aig_base.specs.Levels.{AreLevels};
ghost use Rattle.aig_parts.specs.Literal.{variable};

pub(crate) mod cycle;
pub(crate) mod greatest;
pub(crate) mod level_copy;
pub(crate) mod order;
mod queue;
mod renewal;
mod rewire;
mod transitive_fan_out;
mod visits;
pub(crate) mod worklist;

use crate::check::grounded::grounded_levels;
use crate::check::reads_smaller;
use crate::check::tried_levels::found_levels;
use crate::circuit::Circuit;
use crate::level::worklist::Worklist;
use aig_bytes::Memory;
use aig_parts::Gate;
use std::alloc::Global;
use std::marker::Model;

/// The levels of a circuit's variables: 0 for variable 0, an input or a latch, one more than the greater level of its
/// right sides for a gate (our own choice).
pub struct Levels {
    pub(crate) levels: Vec<u32>,
    // For `rewire`, idle, with room for all variables.
    pub(crate) worklist: Worklist,
}

// By hand: a value then ends in one call, which is one step of a proof (docs/PROOFS.md, Habits).
impl Drop for Levels {
    fn drop(self) {
        let Levels {
            levels: _,
            worklist: _,
        } = self;
    }
}

impl Model for Levels {
    ghost use Rattle.std.specs.Prelude.{List, ℕ};

    ghost Value = { List ℕ };

    ghost use Rattle.std.specs.Prelude.{length};
    ghost use Rattle.aig_base.specs.state.Worklists.{IsIdle};

    ghost view = { λ a. a.levels.items };

    ghost invariant = { λ a. IsIdle (length a.levels.items) a.worklist };
}

/// One more than the greater level of the right sides.
pub(crate) fn level_over(levels: &[u32], gate: &Gate) -> u32
    requires first { variable gate.now.rhs0 < length levels.now }
    requires second { variable gate.now.rhs1 < length levels.now }
    requires fits { level_above levels.now gate.now < 2 ^ 32 }
    ensures { result ≡ level_above levels.now gate.now }
{
    let first = gate.rhs0.var() as usize;
    let second = gate.rhs1.var() as usize;
    levels[first].max(levels[second]) + 1
}

// The level of the variable after those whose levels are known, unless its gate reads one after them.
fn next_level(circuit: &Circuit, levels: &[u32], variable: u32) -> Option<u32>
    requires size { variable ≡ length levels.now }
    requires levels { AreFirstLevels circuit.now levels.now }
    ensures { IfSome result (λ level. AreFirstLevels circuit.now (levels.now ++ level ∷ [])) }
{
    circuit.facts();
    let Some(gate) = circuit.gate_of(variable) else {
        return Some(0);
    };
    if !reads_smaller(gate) {
        return None;
    }
    Some(level_over(levels, &gate))
}

// Level 0 for variable 0, the inputs and the latches, whose definitions come first, with room for the gates.
fn source_levels(alloc: Global, circuit: &Circuit) -> Result<Vec<u32>, Memory>
    requires { IsInOrder circuit.now }
    ensures size { IfOk result (λ levels.
        length levels.items ≡ 1 + length circuit.now.inputs + length circuit.now.latches) }
    ensures levels { IfOk result (λ levels. AreFirstLevels circuit.now levels.items) }
{
    circuit.facts();
    let mut levels = Vec::with_capacity(alloc, circuit.max_var() as usize + 1)?;
    for _ in 0..1 + circuit.inputs().len() + circuit.latches().len() {
        levels.push(0)?;
    }
    Ok(levels)
}

// The levels of a circuit whose definitions are in order, where each gate reads smaller variables alone. It goes from
// gate to gate and looks up no definition.
fn levels_in_order(alloc: Global, circuit: &Circuit) -> Result<Option<Vec<u32>>, Memory>
    requires { IsInOrder circuit.now }
    ensures { IfOk result (λ found. IfSome found (λ levels. AreLevels circuit.now levels.items)) }
{
    circuit.facts();
    let mut levels = source_levels(alloc, circuit)?;
    for gate in circuit.gates() {
        if !reads_smaller(*gate) {
            return Ok(None);
        }
        levels.push(level_over(&levels, gate))?;
    }
    Ok(Some(levels))
}

// The levels of a circuit where each gate reads smaller variables alone. One pass.
fn ascending_levels(alloc: Global, circuit: &Circuit) -> Result<Option<Vec<u32>>, Memory>
    ensures { IfOk result (λ found. IfSome found (λ levels. AreLevels circuit.now levels.items)) }
{
    if circuit.keeps_order() {
        return levels_in_order(alloc, circuit);
    }
    let max_var = circuit.max_var();
    let mut levels = Vec::with_capacity(alloc, max_var as usize + 1)?;
    for variable in 0..max_var + 1 {
        let Some(level) = next_level(circuit, &levels, variable) else {
            return Ok(None);
        };
        levels.push(level)?;
    }
    Ok(Some(levels))
}

/// The levels of a circuit that keeps none: by one pass where the gates ascend, else found, else by the fan-outs.
pub(crate) fn new_levels(alloc: Global, circuit: &Circuit) -> Result<Vec<u32>, Memory>
    ensures { IfOk result (λ levels. AreLevels circuit.now levels.items) }
{
    circuit.facts();
    if let Some(levels) = ascending_levels(alloc, circuit)? {
        return Ok(levels);
    }
    if let Some(levels) = found_levels(alloc, &circuit.raw)? {
        return Ok(levels);
    }
    let found = grounded_levels(alloc, &circuit.raw)?;
    Ok(found.levels)
}

// The levels of a circuit: those that it keeps, or else found.
fn level_list(alloc: Global, circuit: &Circuit) -> Result<Vec<u32>, Memory>
    ensures { IfOk result (λ levels. AreLevels circuit.now levels.items) }
{
    match circuit.kept_levels() {
        Some(levels) => Ok(Vec::from_slice(alloc, levels)?),
        None => new_levels(alloc, circuit),
    }
}

impl Levels {
    /// The levels of a circuit, in time and memory linear in it, with room for `rewire`.
    pub fn of(alloc: Global, circuit: &Circuit) -> Result<Levels, Memory>
        ensures { IfOk result (AreLevels circuit.now) }
    {
        let size = circuit.max_var() as usize + 1;
        Ok(Levels {
            levels: level_list(alloc, circuit)?,
            worklist: Worklist::new(alloc, size)?,
        })
    }

    /// The level of a variable up to M that is 0 or defined.
    pub fn level(&self, variable: u32) -> u32
        requires { variable < length self.now }
        ensures { slice_get self.now variable ≡ Some result }
    {
        self.levels[variable as usize]
    }
}
