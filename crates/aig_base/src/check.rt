//! The test of parts: whether they are a circuit, or the first fault.
ghost use Rattle.std.specs.Prelude.{◌≡◌, ◌≢◌, ◌≤◌, ◌↔◌, None, map, All, IsTrue, IfOk, IfErr, IfSome, OnOk};
ghost use Rattle.aig_base.specs.Circuit.{IsCircuit};
ghost use Rattle.aig_base.specs.Definition.{IsInOrder};
ghost use Rattle.aig_base.specs.state.Definitions.{IsDefinitionTable};
ghost use Rattle.aig_base.specs.state.Definitions.{AreDefinitionsOf};
ghost use Rattle.aig_base.specs.state.Entries.{AreEntries};
ghost use Rattle.aig_base.specs.FirstFault.{IsFirstFault};
ghost use Rattle.aig_base.specs.Renumbered.{IsBinaryReady};
ghost use Rattle.aig_parts.specs.Formed.{IsFormed, CountsFit};
ghost use Rattle.aig_base.specs.Levels.{AreLevels};
ghost use Rattle.aig_base.specs.state.LeastFaulty.{IsLeastAmong, IsKnownLiteral, IsGroundedGate, ReadsSmaller};
ghost use Rattle.aig_base.specs.state.LeastFaulty.{gate_variable};
ghost use Rattle.aig_parts.specs.Literal.{variable};
ghost use Rattle.aig_base.specs.state.Ranged.{AreInRange, AreSectionsInRange, AreDefinedOnce, AreDefinitions, IsRanged};
ghost use Rattle.aig_base.specs.Sections.{definitions, uses, IsDefined};
ghost use Rattle.aig_base.specs.Sound.{IsDefinition, IsSound};

pub(crate) mod binary_ready;
mod entries;
pub(crate) mod grounded;
mod least_faulty;
mod ordered;
pub(crate) mod tried_levels;
pub(crate) mod walk;

use crate::check::binary_ready::definitions_in_order;
use crate::check::entries::Entries;
use crate::check::grounded::grounded_levels;
use crate::check::least_faulty::{least_bad_reset, least_undefined, least_unmarked};
use crate::check::ordered::{is_ascending, test_ascending};
use crate::check::tried_levels::found_levels;
use crate::circuit::Circuit;
use crate::circuit::definitions::Definitions;
use aig_bytes::Memory;
use aig_parts::{Fault, Gate, Latch, List, Lit, Raw};
use std::alloc::Global;

// What the test finds that a circuit keeps.
#[derive(Drop)]
struct Kept {
    definitions: Definitions,
    levels: Option<Vec<u32>>,
}

fn within(literals: &[Lit], greatest: u32) -> bool
    ensures { IsTrue result ↔ All (λ l. l ≤ greatest) literals.now }
{
    literals.iter().all(|literal| literal.value() <= greatest)
}

fn latches_within(latches: &[Latch], greatest: u32) -> bool
    ensures { IsTrue result ↔ All (λ x. (x.lit ≤ greatest) × (x.next ≤ greatest)) latches.now }
{
    latches.iter().all(|latch| latch.lit.value() <= greatest && latch.next.value() <= greatest)
}

fn lists_within(lists: &[List<Lit>], greatest: u32) -> bool
    ensures { IsTrue result ↔ All (λ p. All (λ l. l ≤ greatest) p) lists.now }
{
    lists.iter().all(|list| within(list.as_slice(), greatest))
}

fn gates_within(gates: &[Gate], greatest: u32) -> bool
    ensures { IsTrue result
        ↔ All (λ g. (g.lhs ≤ greatest) × (g.rhs0 ≤ greatest) × (g.rhs1 ≤ greatest)) gates.now }
{
    gates.iter().all(|gate| {
        gate.lhs.value() <= greatest
            && gate.rhs0.value() <= greatest
            && gate.rhs1.value() <= greatest
    })
}

/// Whether each literal outside the gates, but a reset, is at most 2M + 1.
pub(crate) fn sections_are_in_range(raw: &Raw) -> bool
    requires { CountsFit raw.now }
    ensures { IsTrue result ↔ AreSectionsInRange raw.now }
{
    let greatest = 2 * raw.max_var + 1;
    within(raw.inputs.as_slice(), greatest)
        && latches_within(raw.latches.as_slice(), greatest)
        && within(raw.outputs.as_slice(), greatest)
        && within(raw.bad.as_slice(), greatest)
        && within(raw.constraints.as_slice(), greatest)
        && lists_within(raw.justice.as_slice(), greatest)
        && within(raw.fairness.as_slice(), greatest)
}

// Whether each literal but a reset is at most 2M + 1.
fn are_in_range(raw: &Raw) -> bool
    requires { CountsFit raw.now }
    ensures { IsTrue result ↔ AreInRange raw.now }
{
    sections_are_in_range(raw) && gates_within(raw.gates.as_slice(), 2 * raw.max_var + 1)
}

fn is_definition(literal: Lit) -> bool
    ensures { IsTrue result ↔ IsDefinition literal }
{
    !literal.is_neg() && literal.value() > 0
}

// Whether each input, latch and left side is even and not 0.
fn are_definitions(raw: &Raw) -> bool
    ensures { IsTrue result ↔ AreDefinitions raw.now }
{
    raw.inputs.iter().all(|literal| is_definition(*literal))
        && raw.latches.iter().all(|latch| is_definition(latch.lit))
        && raw.gates.iter().all(|gate| is_definition(gate.lhs))
}

/// Whether a gate reads smaller variables alone.
pub(crate) fn reads_smaller(gate: Gate) -> bool
    ensures { IsTrue result ↔ ReadsSmaller gate }
{
    gate.rhs0.var() < gate.lhs.var() && gate.rhs1.var() < gate.lhs.var()
}

fn are_ascending(gates: &[Gate]) -> bool
    ensures { IsTrue result ↔ All ReadsSmaller gates.now }
{
    gates.iter().all(|gate| reads_smaller(*gate))
}

// The least gate variable that is not grounded.
fn least_ungrounded(alloc: Global, raw: &Raw) -> Result<Option<u32>, Memory>
    requires parts { IsRanged raw.now }
    requires sound { IsSound raw.now }
    ensures { IfOk result (IsLeastAmong (IsGroundedGate raw.now) gate_variable raw.now.gates) }
{
    let found = grounded_levels(alloc, raw)?;
    Ok(least_unmarked(found.marks.as_slice(), raw.gates.as_slice()))
}

// Whether the definitions are in order the literals 2, 4, .., 2M.
fn are_in_order(raw: &Raw) -> bool
    requires { CountsFit raw.now }
    ensures { IsTrue result ↔ IsInOrder raw.now }
{
    definitions_in_order(
        raw.inputs.as_slice(),
        raw.latches.as_slice(),
        raw.gates.as_slice(),
        raw.max_var,
    )
}

// The least variable that something reads and nothing defines, where nothing is defined twice. If as many variables are
// defined as there are, each is, and nothing is looked up.
fn least_missing(table: &[u32], raw: &Raw) -> Option<u32>
    requires parts { IsRanged raw.now }
    requires definitions { AreDefinitions raw.now }
    requires entries { AreEntries raw.now.max_var (map variable (definitions raw.now)) table.now None }
    ensures { IsLeastAmong (IsKnownLiteral table.now) variable (uses raw.now) result }
{
    if raw.inputs.len() + raw.latches.len() + raw.gates.len() == raw.max_var as usize {
        return None;
    }
    least_undefined(table, raw)
}

// The definitions of parts in range, or the first fault of what they define and use. Where the definitions are in
// order, as in every binary file, there is none and no table.
fn tested_definitions(alloc: Global, raw: &Raw) -> Result<Definitions, Fault>
    requires { IsRanged raw.now }
    ensures describes { IfOk result (AreDefinitionsOf raw.now) }
    ensures once { OnOk result (AreDefinedOnce raw.now) }
    ensures fault { IfErr result (λ fault. fault ≢ Fault.Memory → IsFirstFault raw.now fault) }
{
    if are_in_order(raw) {
        return Ok(Definitions::InOrder);
    }
    if !are_definitions(raw) {
        return Err(Fault::Definition);
    }
    let Entries { table, again } = Entries::of(alloc, raw)?;
    if let Some(variable) = again {
        return Err(Fault::Redefined(variable));
    }
    if let Some(variable) = least_missing(&table, raw) {
        return Err(Fault::Undefined(variable));
    }
    Ok(Definitions::Listed(table))
}

// That the parts are a circuit, where each variable is known to be defined once, or their first fault. Where a gate
// does not read smaller variables alone, that there is no cycle is seen by the levels.
fn test_resets_and_cycles(alloc: Global, raw: &Raw) -> Result<Option<Vec<u32>>, Fault>
    requires formed { IsFormed raw.now }
    requires range { AreInRange raw.now }
    requires once { AreDefinedOnce raw.now }
    ensures circuit { OnOk result (IsCircuit raw.now) }
    ensures levels { IfOk result (λ found. IfSome found (λ levels. AreLevels raw.now levels.items)) }
    ensures fault { IfErr result (λ fault. fault ≢ Fault.Memory → IsFirstFault raw.now fault) }
{
    if let Some(variable) = least_bad_reset(raw.latches.as_slice()) {
        return Err(Fault::Reset(variable));
    }
    if are_ascending(raw.gates.as_slice()) {
        return Ok(None);
    }
    if let Some(levels) = found_levels(alloc, raw)? {
        return Ok(Some(levels));
    }
    match least_ungrounded(alloc, raw)? {
        Some(variable) => Err(Fault::Cycle(variable)),
        None => Ok(None),
    }
}

// What a circuit of these parts keeps, or their first fault.
fn tested(alloc: Global, raw: &Raw) -> Result<Kept, Fault>
    requires { IsFormed raw.now }
    ensures circuit { OnOk result (IsCircuit raw.now) }
    ensures describes { IfOk result (λ kept. AreDefinitionsOf raw.now kept.definitions) }
    ensures levels { IfOk result (λ kept. IfSome kept.levels (λ levels. AreLevels raw.now levels.items)) }
    ensures fault { IfErr result (λ fault. fault ≢ Fault.Memory → IsFirstFault raw.now fault) }
{
    if is_ascending(raw) {
        test_ascending(raw)?;
        return Ok(Kept {
            definitions: Definitions::InOrder,
            levels: None,
        });
    }
    if !are_in_range(raw) {
        return Err(Fault::Range);
    }
    let definitions = tested_definitions(alloc, raw)?;
    let levels = test_resets_and_cycles(alloc, raw)?;
    Ok(Kept {
        definitions,
        levels,
    })
}

impl Circuit {
    /// The circuit of these parts, or their first fault in the order of `Fault`, each with its least variable. A reset
    /// is outside the range test. The caller knows that the parts are formed; out of memory may come in place of any
    /// answer. Linear in the parts and the greatest variable.
    pub fn check(alloc: Global, raw: Raw) -> Result<Circuit, Fault>
        requires formed { IsFormed raw }
        ensures parts { IfOk result (λ circuit. circuit ≡ raw) }
        ensures circuit { IfOk result IsCircuit }
        ensures fault { IfErr result (λ fault. fault ≢ Fault.Memory → IsFirstFault raw fault) }
    {
        let Kept {
            definitions,
            levels,
        } = tested(alloc, &raw)?;
        Ok(Circuit {
            raw,
            definitions,
            levels,
        })
    }

    /// The circuit of parts that a binary file can hold, or their first fault, as `check` reports it. The caller knows
    /// that they are formed, and that their definitions are in order, each gate after all that it reads. So the gates
    /// are not looked at, and it takes no memory: `Memory` is never its fault.
    pub fn check_ready(raw: Raw) -> Result<Circuit, Fault>
        requires formed { IsFormed raw }
        requires ready { IsBinaryReady raw }
        ensures parts { IfOk result (λ circuit. circuit ≡ raw) }
        ensures circuit { IfOk result IsCircuit }
        ensures fault { IfErr result (IsFirstFault raw) }
    {
        test_ascending(&raw)?;
        Ok(Circuit {
            raw,
            definitions: Definitions::InOrder,
            levels: None,
        })
    }
}
