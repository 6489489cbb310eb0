//! Levels that are tried: a walk finds them, of which nothing is proved, and one pass tests them.
ghost use Rattle.std.specs.Prelude.{◌≡◌, ◌↔◌, ◌+◌, ◌<◌, ◌≤◌, [], ℕ, length, slice_get, All, Some};
ghost use Rattle.std.specs.Prelude.{IfOk, IfSome, IsTrue, OnOk};
ghost use Rattle.std.specs.Bool.{OnTrue};
ghost use Rattle.aig_parts.specs.Formed.{limit};
ghost use Rattle.aig_parts.specs.Literal.{variable};
ghost use Rattle.aig_base.specs.state.Marks.{IsGateBelow};
ghost use Rattle.aig_base.specs.state.Ranged.{AreInRange, IsRanged};
ghost use Rattle.aig_base.specs.state.TriedLevels.{AreStepped, IsStep, ReadsBelow};

use aig_bytes::Memory;
use aig_parts::{Gate, Lit, Raw};
use std::alloc::Global;

/// What a variable's gate reads, and its level as far as that is known. What is no gate reads variable 0, and has
/// level 0.
#[derive(Clone, Copy)]
pub(crate) struct Node {
    pub(crate) first: u32,
    pub(crate) second: u32,
    pub(crate) level: u32,
}

// In place of a level: of what was not met yet, and of a gate that waits for what it reads.
const UNMET: u32 = u32::MAX;

const OPEN: u32 = u32::MAX - 1;

// A node for each variable, no gate of which was met yet.
fn nodes_by_variable(alloc: Global, max_var: u32, gates: &[Gate]) -> Result<Vec<Node>, Memory>
    requires below { All (IsGateBelow (max_var + 1)) gates.now }
    ensures size { IfOk result (λ nodes. length nodes.items ≡ max_var + 1) }
    ensures below { IfOk result (λ nodes. All (ReadsBelow (max_var + 1)) nodes.items) }
{
    let none = Node {
        first: 0,
        second: 0,
        level: 0,
    };
    let mut nodes = vec![in alloc; none; max_var as usize + 1]?;
    for gate in gates {
        nodes[gate.lhs.var() as usize] = Node {
            first: gate.rhs0.var(),
            second: gate.rhs1.var(),
            level: UNMET,
        };
    }
    Ok(nodes)
}

// Lets a variable wait that was not met yet.
fn push_unmet(nodes: &[Node], pending: &mut Vec<u32>, variable: u32) -> Result<(), Memory>
    requires { variable < length nodes.now }
    ensures size { OnOk result (length pending.new.items ≤ length pending.old.items + 1) }
    ensures below { OnOk result ((n : ℕ) → variable < n → All (λ v. v < n) pending.old.items
        → All (λ v. v < n) pending.new.items) }
{
    if nodes[variable as usize].level == UNMET {
        pending.push(variable)?;
    }
    Ok(())
}

// Finds the levels of what waits, each after those of what it reads. Returns whether nothing was met that rests on
// itself.
fn find_pending(nodes: &mut [Node], pending: &mut Vec<u32>) -> Result<bool, Memory>
    requires nodes { All (ReadsBelow (length nodes.old)) nodes.old }
    requires pending { All (λ v. v < length nodes.old) pending.old.items }
    ensures nodes { All (ReadsBelow (length nodes.old)) nodes.new }
    ensures none { IfOk result (λ b. OnTrue b (pending.new.items ≡ [])) }
{
    while let Some(top) = pending.pop() {
        let Node {
            first,
            second,
            level,
        } = nodes[top as usize];
        if level < OPEN {
            continue;
        }
        let greater = nodes[first as usize]
            .level
            .max(nodes[second as usize].level);
        if greater < OPEN {
            nodes[top as usize].level = greater + 1;
            continue;
        }
        if level != UNMET {
            return Ok(false);
        }
        nodes[top as usize].level = OPEN;
        pending.push(top)?;
        push_unmet(nodes, pending, first)?;
        push_unmet(nodes, pending, second)?;
    }
    Ok(true)
}

// Finds the levels of all, or stops at a gate that rests on itself.
fn find_levels(alloc: Global, nodes: &mut [Node]) -> Result<(), Memory>
    requires size { length nodes.old ≤ limit + 1 }
    requires nodes { All (ReadsBelow (length nodes.old)) nodes.old }
{
    let mut pending = Vec::new(alloc);
    for variable in 0..nodes.len() {
        pending.push(variable as u32)?;
        if !find_pending(nodes, &mut pending)? {
            break;
        }
    }
    Ok(())
}

// A number for each variable, 0 to M. It is tried that they are its levels: no more is said of them, and `are_levels`
// returns whether it is so.
fn tried_levels(alloc: Global, raw: &Raw) -> Result<Vec<u32>, Memory>
    requires { IsRanged raw.now }
    ensures { IfOk result (λ levels. length levels.items ≡ raw.now.max_var + 1) }
{
    let mut nodes = nodes_by_variable(alloc, raw.max_var, raw.gates.as_slice())?;
    find_levels(alloc, &mut nodes)?;
    let mut levels = Vec::with_capacity(alloc, nodes.len())?;
    for node in &nodes {
        levels.push(node.level)?;
    }
    Ok(levels)
}

fn has_level_0(levels: &[u32], literal: Lit) -> bool
    ensures { IsTrue result ↔ (slice_get levels.now (variable literal) ≡ Some 0) }
{
    matches!(levels.get(literal.var() as usize), Some(0))
}

// Whether a gate's level is one more than the greater one of its right sides.
fn is_step(levels: &[u32], gate: Gate) -> bool
    requires { IsGateBelow (length levels.now) gate }
    ensures { IsTrue result ↔ IsStep levels.now gate }
{
    let first = levels[gate.rhs0.var() as usize];
    let second = levels[gate.rhs1.var() as usize];
    let level = levels[gate.lhs.var() as usize];
    level > 0 && level - 1 == first.max(second)
}

fn are_steps(levels: &[u32], gates: &[Gate]) -> bool
    requires { All (IsGateBelow (length levels.now)) gates.now }
    ensures { IsTrue result → All (IsStep levels.now) gates.now }
{
    for gate in gates {
        if !is_step(levels, *gate) {
            return false;
        }
    }
    true
}

// Whether numbers are the levels of these parts, if those are a circuit: 0 for a source, and one more than the greater
// level of the right sides for a gate.
fn are_levels(levels: &[u32], raw: &Raw) -> bool
    requires size { length levels.now ≡ raw.now.max_var + 1 }
    requires range { AreInRange raw.now }
    ensures { IsTrue result → AreStepped raw.now levels.now }
{
    levels[0] == 0
        && raw
            .inputs
            .iter()
            .all(|literal| has_level_0(levels, *literal))
        && raw
            .latches
            .iter()
            .all(|latch| has_level_0(levels, latch.lit))
        && are_steps(levels, raw.gates.as_slice())
}

/// The levels of the variables, where they are found. Linear in the parts and M.
pub(crate) fn found_levels(alloc: Global, raw: &Raw) -> Result<Option<Vec<u32>>, Memory>
    requires { IsRanged raw.now }
    ensures { IfOk result (λ found. IfSome found (λ levels. AreStepped raw.now levels.items)) }
{
    let levels = tried_levels(alloc, raw)?;
    if are_levels(&levels, raw) {
        return Ok(Some(levels));
    }
    Ok(None)
}
