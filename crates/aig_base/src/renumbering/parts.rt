//! The parts of a circuit by a table of variables.
ghost use Rattle.std.specs.Prelude.{◌≡◌, ◌≤◌, map, All, IfOk};
ghost use Rattle.aig_parts.specs.Formed.{limit};
ghost use Rattle.aig_base.specs.RenumberingTable.{literal_by, latch_by, gate_by, IsInTable, IsLatchListed};
ghost use Rattle.aig_base.specs.RenumberingTable.{IsGateListed};

use crate::circuit::Circuit;
use aig_bytes::Memory;
use aig_parts::{Bytes, Gate, Latch, List, Lit, Symbols};
use std::alloc::Global;

fn new_literal(table: &[u32], literal: Lit) -> Lit
    requires entries { All (λ v. v ≤ limit) table.now }
    requires listed { IsInTable table.now literal }
    ensures { result ≡ literal_by table.now literal }
{
    let positive = Lit::new(2 * table[literal.var() as usize]);
    if literal.is_neg() {
        positive.not()
    } else {
        positive
    }
}

/// The literals that stand for these.
pub(crate) fn new_literals(
    alloc: Global,
    table: &[u32],
    literals: &[Lit],
) -> Result<List<Lit>, Memory>
    requires entries { All (λ v. v ≤ limit) table.now }
    requires listed { All (IsInTable table.now) literals.now }
    ensures { IfOk result (λ new. new ≡ map (literal_by table.now) literals.now) }
{
    let mut new = List::with_capacity(alloc, literals.len())?;
    for literal in literals {
        new.push(new_literal(table, *literal))?;
    }
    Ok(new)
}

/// The lists of the literals that stand for these.
pub(crate) fn new_justice(
    alloc: Global,
    table: &[u32],
    justice: &[List<Lit>],
) -> Result<List<List<Lit>>, Memory>
    requires entries { All (λ v. v ≤ limit) table.now }
    requires listed { All (All (IsInTable table.now)) justice.now }
    ensures { IfOk result (λ new. new ≡ map (map (literal_by table.now)) justice.now) }
{
    let mut new = List::with_capacity(alloc, justice.len())?;
    for literals in justice {
        new.push(new_literals(alloc, table, literals.as_slice())?)?;
    }
    Ok(new)
}

/// The latches with the literals that stand for theirs.
pub(crate) fn new_latches(
    alloc: Global,
    table: &[u32],
    latches: &[Latch],
) -> Result<List<Latch>, Memory>
    requires entries { All (λ v. v ≤ limit) table.now }
    requires listed { All (IsLatchListed table.now) latches.now }
    ensures { IfOk result (λ new. new ≡ map (latch_by table.now) latches.now) }
{
    let mut new = List::with_capacity(alloc, latches.len())?;
    for latch in latches {
        new.push(Latch {
            lit: new_literal(table, latch.lit),
            next: new_literal(table, latch.next),
            reset: new_literal(table, latch.reset),
        })?;
    }
    Ok(new)
}

fn new_gate(table: &[u32], gate: Gate) -> Gate
    requires entries { All (λ v. v ≤ limit) table.now }
    requires listed { IsGateListed table.now gate }
    ensures { result ≡ gate_by table.now gate }
{
    let lhs = new_literal(table, gate.lhs);
    let left = new_literal(table, gate.rhs0);
    let right = new_literal(table, gate.rhs1);
    if left.value() < right.value() {
        Gate {
            lhs,
            rhs0: right,
            rhs1: left,
        }
    } else {
        Gate {
            lhs,
            rhs0: left,
            rhs1: right,
        }
    }
}

// Writes over the literals of gates those that stand for them, with the greater right side first.
fn renew_gates(table: &[u32], gates: &mut [Gate])
    requires entries { All (λ v. v ≤ limit) table.now }
    requires listed { All (IsGateListed table.now) gates.old }
    ensures { gates.new ≡ map (gate_by table.now) gates.old }
{
    for place in 0..gates.len() {
        let gate = gates[place];
        gates[place] = new_gate(table, gate);
    }
}

/// The gates that stand for these, in their place.
pub(crate) fn renewed_gates(table: &[u32], mut gates: Vec<Gate>) -> List<Gate>
    requires entries { All (λ v. v ≤ limit) table.now }
    requires listed { All (IsGateListed table.now) gates.items }
    ensures { result ≡ map (gate_by table.now) gates.items }
{
    renew_gates(table, &mut gates);
    List::from_vec(gates)
}

/// The symbols once more.
pub(crate) fn copied_symbols(symbols: &Symbols) -> Result<Symbols, Memory>
    ensures { IfOk result (λ new. new ≡ symbols.now) }
{
    Ok(symbols.clone()?)
}

/// The comment of the circuit once more.
pub(crate) fn copied_comment(alloc: Global, circuit: &Circuit) -> Result<Option<Bytes>, Memory>
    ensures { IfOk result (λ new. new ≡ circuit.now.comment) }
{
    match circuit.comment() {
        Some(bytes) => Ok(Some(List::from_vec(Vec::from_slice(alloc, bytes)?))),
        None => Ok(None),
    }
}
