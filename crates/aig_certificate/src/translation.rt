//! What the literals of a certificate are in the strengthened circuit.
ghost use Rattle.std.specs.Prelude.{◌≡◌, ◌+◌, ◌*◌, ◌≤◌, ◌<◌, ◌++◌, ℕ, None, length, map, replicate, slice_index, All};
ghost use Rattle.std.specs.Prelude.{IfOk, OnOk};
ghost use Rattle.aig_parts.specs.Formed.{limit};
ghost use Rattle.aig_parts.specs.Literal.{variable};
ghost use Rattle.aig_base.specs.Renumbered.{relabelled_latch};
ghost use Rattle.aig_base.specs.RenumberingTable.{IsGateListed, IsInTable, IsLatchListed};
ghost use Rattle.aig_base.specs.Sections as sections;
ghost use Rattle.aig_base.specs.Sound.{IsDefinition, StandsTwice};
ghost use Rattle.aig_certificate.specs.Shared.{AreMeanings};
ghost use Rattle.aig_certificate.specs.Strengthened.{IsTranslation, translated_gate};
ghost use Rattle.aig_certificate.specs.state.Marks.{meanings_of};
ghost use Rattle.aig_certificate.specs.state.Table as spec;
ghost use Rattle.aig_certificate.specs.state.Table.{AreEntered, literal_by, values_from};

use crate::shared::SharedEntries;
use aig_base::{Circuit, Gate, Latch, List, Lit, Memory};
use std::alloc::Global;

// Adds the literals of latches.
fn push_latches(literals: &mut List<Lit>, latches: &[Latch]) -> Result<(), Memory>
    ensures { OnOk result (literals.new ≡ literals.old ++ map (λ x. x.lit) latches.now) }
{
    for latch in latches {
        literals.push(latch.lit)?;
    }
    Ok(())
}

// Adds the left sides of gates.
fn push_left_sides(literals: &mut List<Lit>, gates: &[Gate]) -> Result<(), Memory>
    ensures { OnOk result (literals.new ≡ literals.old ++ map (λ g. g.lhs) gates.now) }
{
    for gate in gates {
        literals.push(gate.lhs)?;
    }
    Ok(())
}

// The literals that the inputs, latches and gates define, in order.
fn definitions(alloc: Global, circuit: &Circuit) -> Result<List<Lit>, Memory>
    ensures { IfOk result (λ literals. literals ≡ sections.definitions circuit.now) }
{
    let mut literals = List::from_vec(Vec::from_slice(alloc, circuit.inputs())?);
    push_latches(&mut literals, circuit.latches())?;
    push_left_sides(&mut literals, circuit.gates())?;
    Ok(literals)
}

// What the definitions stand for, in the same order. Gates stand for nothing.
fn all_meanings(
    alloc: Global,
    shared: &SharedEntries,
    gates: usize,
) -> Result<Vec<Option<Lit>>, Memory>
    ensures { IfOk result (λ meanings. meanings.items
        ≡ shared.now.inputs ++ shared.now.latches ++ replicate gates None) }
{
    let mut meanings = Vec::from_slice(alloc, shared.inputs.as_slice())?;
    meanings.extend_from_slice(shared.latches.as_slice())?;
    for _gate in 0..gates {
        meanings.push(None)?;
    }
    Ok(meanings)
}

/// What an entry with this meaning is, where this variable is the next one for own entries.
fn value_of(next: u32, meaning: Option<Lit>) -> Lit
    requires { next ≤ 5 * limit }
    ensures { result ≡ spec.value_of next meaning }
{
    match meaning {
        Some(literal) => literal,
        None => Lit::new(2 * next),
    }
}

/// The next number for own entries after an entry with this meaning.
pub(crate) fn next_after(next: u32, meaning: Option<Lit>) -> u32
    requires { next ≤ 5 * limit }
    ensures { result ≡ spec.next_after next meaning }
{
    match meaning {
        Some(_) => next,
        None => next + 1,
    }
}

// What entries with these meanings are: what they stand for, or the next variable from one on.
fn values(alloc: Global, first: u32, meanings: &[Option<Lit>]) -> Result<List<Lit>, Memory>
    requires { first + length meanings.now ≤ 5 * limit }
    ensures { IfOk result (λ values. values ≡ values_from first meanings.now) }
{
    let mut values = List::new(alloc);
    let mut next = first;
    for meaning in meanings {
        values.push(value_of(next, *meaning))?;
        next = next_after(next, *meaning);
    }
    Ok(values)
}

// Enters the value of each of these literals, no two of which have the same variable.
fn enter(table: &mut List<Lit>, literals: &[Lit], values: &[Lit])
    requires definitions { All IsDefinition literals.now }
    requires once { (v : ℕ) → StandsTwice (map variable literals.now) v → ⊥ }
    requires listed { All (IsInTable table.old) literals.now }
    requires values { length values.now ≡ length literals.now }
    ensures entered { AreEntered table.new literals.now values.now }
    ensures constant { slice_index table.new 0 ≡ slice_index table.old 0 }
    ensures size { length table.new ≡ length table.old }
{
    for place in 0..literals.len() {
        table.set(literals[place].var() as usize, values[place]);
    }
}

/// For each variable of a certificate the literal of the strengthened circuit that it is.
pub(crate) struct Translation {
    pub table: List<Lit>,
}

// By hand: a value then ends in one call, which is one step of a proof (docs/PROOFS.md, Habits).
impl Drop for Translation {
    fn drop(self) {
        let Translation { table: _ } = self;
    }
}

impl Translation {
    /// Constants are as they are, and shared entries what they stand for. Own ones get the variables after the model's.
    pub fn of(
        alloc: Global,
        model: &Circuit,
        certificate: &Circuit,
        shared: &SharedEntries,
    ) -> Result<Translation, Memory>
        requires { AreMeanings model.now certificate.now (meanings_of shared.now) }
        ensures is { IfOk result (λ translation.
            IsTranslation model.now certificate.now (meanings_of shared.now) (literal_by translation.table)) }
        ensures size { IfOk result (λ translation. length translation.table ≡ certificate.now.max_var + 1) }
    {
        model.facts();
        certificate.facts();
        let meanings = all_meanings(alloc, shared, certificate.gates().len())?;
        let values = values(alloc, model.max_var() + 1, &meanings)?;
        let literals = definitions(alloc, certificate)?;
        let variables = certificate.max_var() as usize + 1;
        let mut table = List::from_vec(vec![in alloc; Lit::new(0); variables]?);
        enter(&mut table, literals.as_slice(), values.as_slice());
        Ok(Translation { table })
    }

    /// What a literal is.
    pub fn literal(&self, literal: Lit) -> Lit
        requires { IsInTable self.now.table literal }
        ensures { result ≡ literal_by self.now.table literal }
    {
        let value = self.table[literal.var() as usize];
        if literal.is_neg() { value.not() } else { value }
    }

    /// What a latch is.
    pub fn latch(&self, latch: Latch) -> Latch
        requires { IsLatchListed self.now.table latch }
        ensures { result ≡ relabelled_latch (literal_by self.now.table) latch }
    {
        Latch {
            lit: self.literal(latch.lit),
            next: self.literal(latch.next),
            reset: self.literal(latch.reset),
        }
    }

    /// What a gate is, its sides in their order.
    pub fn gate(&self, gate: Gate) -> Gate
        requires { IsGateListed self.now.table gate }
        ensures { result ≡ translated_gate (literal_by self.now.table) gate }
    {
        Gate {
            lhs: self.literal(gate.lhs),
            rhs0: self.literal(gate.rhs0),
            rhs1: self.literal(gate.rhs1),
        }
    }
}
