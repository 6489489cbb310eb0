//! Clauses that are added on their first literal: resolution asymmetric tautologies. Such a clause need not follow. But
//! where an assignment meets all clauses that stand, and not this one, it still meets them once the first literal is
//! made true: each clause that has the negation of that literal has another one that is true.
ghost use Rattle.std.specs.Prelude.{◌≡◌, ◌≢◌, ◌⊎◌, ℕ, Bool, true, false, IsTrue, IfOk, OnOk};
ghost use Rattle.aig_parts.specs.Literal.{negation};
ghost use Rattle.aig_sat.specs.checker.Clause.{is_true, meets};
ghost use Rattle.aig_sat.specs.checker.First.{AreSettled, IsSettled, MayStand, MeetsOther, Tries};
ghost use Rattle.aig_sat.specs.checker.Holding.{KeepsHolding, KeepsMeeting, KeepsSomeHolding};
ghost use Rattle.aig_sat.specs.checker.Knowledge.{IsKnown};
ghost use Rattle.aig_sat.specs.checker.Listing.{FindsAll};

use crate::checker::checker::Checker;
use crate::checker::clauses::has;
use crate::checker::known::negated;
use aig_bytes::Memory;
use aig_parts::Lit;

// Adds a literal, unless it is this one.
fn push_other(resolvent: &mut Vec<Lit>, literal: u32, lie: u32) -> Result<(), Memory>
    ensures { OnOk result ((values : ℕ → Bool) → meets values resolvent.new.items ≡ true
        → (meets values resolvent.old.items ≡ true) ⊎ ((literal ≢ lie) × (is_true values literal ≡ true))) }
{
    if literal != lie {
        resolvent.push(Lit::new(literal))?;
    }
    Ok(())
}

// Takes all literals but this one.
fn others(literals: &[u32], lie: u32, resolvent: &mut Vec<Lit>) -> Result<(), Memory>
    ensures { OnOk result ((values : ℕ → Bool) → meets values resolvent.new.items ≡ true
        → MeetsOther values literals.now lie) }
{
    resolvent.clear();
    for literal in literals {
        push_other(resolvent, *literal, lie)?;
    }
    Ok(())
}

// Takes all literals but this one, and then those of a clause.
fn resolve(
    literals: &[u32],
    lie: u32,
    clause: &[Lit],
    resolvent: &mut Vec<Lit>,
) -> Result<(), Memory>
    ensures { OnOk result ((values : ℕ → Bool) → meets values resolvent.new.items ≡ true
        → meets values clause.now ≡ false → MeetsOther values literals.now lie) }
{
    others(literals, lie, resolvent)?;
    resolvent.extend_from_slice(clause)?;
    Ok(())
}

impl Checker {
    // Whether the clause at a place, if it has the negation of the first literal, has another literal that is true
    // where the clause that is added is not met.
    fn settles(
        &mut self,
        clause: &[Lit],
        hints: Option<&[Lit]>,
        lie: u32,
        place: usize,
    ) -> Result<bool, Memory>
        ensures candidates { self.new.candidates.items ≡ self.old.candidates.items }
        ensures settled { Tries self.old self.new result (λ old new. IsSettled old new clause.now lie place) }
    {
        let Some(literals) = self.propagator.clauses.literals(place) else {
            return Ok(true);
        };
        let size = literals.len() as u64;
        if !has(literals, lie) {
            self.propagator.looks = self.propagator.looks.saturating_sub(size);
            return Ok(true);
        }
        resolve(literals, lie, clause, &mut self.resolvent)?;
        let id = self.propagator.clauses.number(place);
        let way = self.groups.way(hints, id);
        self.propagator.follows(&self.resolvent, way)
    }

    // Whether each of the candidates has another literal that is true where the clause that is added is not met, if it
    // has the negation of the first literal. The first clause is the last one that was found.
    fn settles_found(
        &mut self,
        clause: &[Lit],
        hints: Option<&[Lit]>,
        lie: u32,
    ) -> Result<bool, Memory>
        requires { FindsAll self.old.propagator.clauses.words.items lie self.old.candidates.items }
        ensures settled { Tries self.old self.new result (λ old new. AreSettled old new clause.now lie) }
    {
        let count = self.candidates.len();
        for tried in 0..count {
            let place = self.candidates[count - 1 - tried];
            if !self.settles(clause, hints, lie, place)? {
                return Ok(false);
            }
        }
        Ok(true)
    }

    // Whether each clause that has the negation of the first literal has another literal that is true where the clause
    // that is added is not met.
    fn settles_all(
        &mut self,
        clause: &[Lit],
        hints: Option<&[Lit]>,
        lie: u32,
    ) -> Result<bool, Memory>
        ensures settled { Tries self.old self.new result (λ old new. AreSettled old new clause.now lie) }
    {
        self.propagator.clauses.find(lie, &mut self.candidates)?;
        let found = self.candidates.len() as u64;
        if found > self.propagator.looks {
            return Ok(false);
        }
        self.propagator.looks = self.propagator.looks.saturating_sub(found);
        self.settles_found(clause, hints, lie)
    }

    // Whether a clause may stand on this literal of it.
    fn may_stand_on(
        &mut self,
        clause: &[Lit],
        hints: Option<&[Lit]>,
        literal: u32,
    ) -> Result<bool, Memory>
        ensures true_unknown { IfOk result
            (λ may. IsTrue may → IsKnown self.old.propagator.known.truths.items literal → ⊥) }
        ensures false_unknown { IfOk result (λ may. IsTrue may
            → IsKnown self.old.propagator.known.truths.items (negation literal) → ⊥) }
        ensures settled { Tries self.old self.new result
            (λ old new. AreSettled old new clause.now (negation literal)) }
    {
        if self.propagator.known.is_true(literal) || self.propagator.known.is_false(literal) {
            return Ok(false);
        }
        self.settles_all(clause, hints, negated(literal))
    }

    // Whether a clause may stand on its first literal.
    fn may_stand_on_first(&mut self, clause: &[Lit], hints: Option<&[Lit]>) -> Result<bool, Memory>
        ensures may { Tries self.old self.new result (λ old new. MayStand old new clause.now) }
    {
        match clause.first() {
            Some(literal) => self.may_stand_on(clause, hints, literal.value()),
            None => Ok(false),
        }
    }

    // Whether a clause may stand on its first literal, as the looks show that the proof has left.
    fn may_stand(&mut self, clause: &[Lit], hints: Option<&[Lit]>) -> Result<bool, Memory>
        ensures may { Tries self.old self.new result (λ old new. MayStand old new clause.now) }
    {
        self.groups.put(hints)?;
        self.propagator.looks = self.credit.looks;
        let may = self.may_stand_on_first(clause, hints);
        self.credit.looks = self.propagator.looks;
        self.propagator.looks = u64::MAX;
        may
    }

    /// Adds a clause that is a resolution asymmetric tautology on its first literal, and answers whether it is.
    pub(crate) fn add_on_first(
        &mut self,
        clause: &[Lit],
        hints: Option<&[Lit]>,
    ) -> Result<bool, Memory>
        ensures keeps { KeepsSomeHolding self.old self.new }
        ensures stands { KeepsMeeting clause.now self.old self.new }
        ensures refused { IfOk result (λ taken. taken ≡ false → KeepsHolding self.old self.new) }
    {
        if self.refuted {
            return Ok(true);
        }
        if self.may_stand(clause, hints)? {
            self.add_clause(clause)?;
            return Ok(true);
        }
        Ok(false)
    }
}
