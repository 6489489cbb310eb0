//! Unit propagation.
ghost use Rattle.std.specs.Prelude.{◌≡◌, ◌+◌, ◌-◌, ◌*◌, ◌<◌, ◌≤◌, ℕ, Bool, true, false, IsTrue, IfOk, OnOk, length, map};
ghost use Rattle.aig_parts.specs.Literal.{negation};
ghost use Rattle.aig_sat.specs.checker.Agreement.{Agrees, Contradicts, Narrows, Propagates, Refutes, Searches, Tests};
ghost use Rattle.aig_sat.specs.checker.Clause.{is_true};
ghost use Rattle.aig_sat.specs.checker.Numbers.{AreKnown, Walks, variables};
ghost use Rattle.aig_sat.specs.checker.Visits.{OnConflict};
ghost use Rattle.aig_sat.specs.checker.Words.{AreNamed, Shrinks};

use crate::checker::clauses::Clauses;
use crate::checker::hints::Way;
use crate::checker::ids::Ids;
use crate::checker::known::{Free, Known, negated};
use crate::checker::watches::{Watch, Watches, close_gap};
use aig_bytes::Memory;
use aig_parts::Lit;
use std::alloc::Global;

/// The clauses that stand, their watches, and the literals that are known.
#[derive(Drop)]
pub(crate) struct Propagator {
    pub(crate) clauses: Clauses,
    pub(crate) known: Known,
    pub(crate) watches: Watches,
    pub(crate) ids: Ids,
    // How many looks are left: at places of clauses, watches, literals and hints. A search of a watched clause takes one
    // for eight literals.
    pub(crate) looks: u64,
}

// What becomes of a watch of a literal that is false.
enum Visit {
    // It stays, perhaps with another blocker.
    Stays(Watch),
    // The clause watches another literal, or it was deleted.
    Leaves,
    // All literals of the clause are false.
    Conflict,
}

// The place of a watched literal among those of its clause: it is one of the first two.
#[inline]
fn place_of(literals: &[u32], literal: u32) -> usize
    requires { 0 < length literals.now }
    ensures { result < 2 }
{
    if literals[0] == literal { 0 } else { 1 }
}

/// A search of a watched clause goes through so many literals in the time of one look at a watch.
const LITERALS_OF_A_LOOK: usize = 8;

// The looks that are left after a search among so many literals that began at one place and ended at another one. All
// literals count where it went on from the first one.
#[inline(always)]
fn looks_after(looks: u64, from: usize, to: usize, literals: usize) -> u64 {
    if from <= to && to - from < LITERALS_OF_A_LOOK {
        return looks;
    }
    let searched = if to < from { literals } else { to - from };
    looks.saturating_sub((searched / LITERALS_OF_A_LOOK) as u64)
}

impl Propagator {
    /// No clauses over so many variables.
    pub(crate) fn new(alloc: Global, variables: u32) -> Result<Propagator, Memory>
        ensures agrees { IfOk result (λ p. (values : ℕ → Bool) → Agrees values p) }
        ensures len { IfOk result (λ p. length p.known.truths.items ≡ 2 * variables) }
    {
        let literals = 2 * variables as usize;
        Ok(Propagator {
            clauses: Clauses::new(alloc, variables as usize)?,
            known: Known::new(alloc, literals)?,
            watches: Watches::new(alloc, literals)?,
            ids: Ids::new(alloc),
            looks: u64::MAX,
        })
    }

    /// Adds a variable that no clause has.
    pub(crate) fn add_variable(&mut self) -> Result<(), Memory>
        ensures narrows { Narrows self.old self.new }
        ensures words { self.new.clauses.words.items ≡ self.old.clauses.words.items }
        ensures ids { self.new.ids ≡ self.old.ids }
        ensures more { length self.old.known.truths.items ≤ length self.new.known.truths.items }
        ensures len { OnOk result (length self.new.known.truths.items ≡ length self.old.known.truths.items + 2) }
    {
        self.watches.add_variable()?;
        self.clauses.add_variable()?;
        self.known.add_variable()
    }

    /// Lets a clause watch two of its literals, which become its first two.
    pub(crate) fn watch(&mut self, clause: u32, first: Free, second: Free) -> Result<(), Memory>
        ensures clauses { Shrinks self.old.clauses.words.items self.new.clauses.words.items }
        ensures known { self.new.known ≡ self.old.known }
    {
        self.clauses.exchange(clause, 0, first.place, 0);
        self.clauses.exchange(clause, 1, second.place, 0);
        self.watches.add(
            first.literal,
            Watch {
                clause,
                blocker: second.literal,
            },
        )?;
        self.watches.add(
            second.literal,
            Watch {
                clause,
                blocker: first.literal,
            },
        )
    }

    // Looks at a clause one of whose watched literals has become false.
    #[inline(always)]
    fn visit(&mut self, watch: Watch, lie: u32) -> Result<Visit, Memory>
        ensures propagates { Propagates self.old self.new }
        ensures conflict { IfOk result (OnConflict (Contradicts self.old)) }
    {
        if self.known.is_true(watch.blocker) {
            return Ok(Visit::Stays(watch));
        }
        let Some(clause) = self.clauses.clause(watch.clause as usize) else {
            return Ok(Visit::Leaves);
        };
        if clause.literals.len() < 2 {
            return Ok(Visit::Leaves);
        }
        let lost = place_of(clause.literals, lie);
        let other = clause.literals[1 - lost];
        let moved = Watch {
            clause: watch.clause,
            blocker: other,
        };
        if self.known.is_true(other) {
            return Ok(Visit::Stays(moved));
        }
        let (_, rest) = clause.literals.split_at(2);
        if let Some(free) = self.known.free_from(rest, clause.searched) {
            self.looks = looks_after(self.looks, clause.searched, free.place, rest.len());
            self.clauses
                .exchange(watch.clause, lost, 2 + free.place, free.place);
            self.watches.add(free.literal, moved)?;
            return Ok(Visit::Leaves);
        }
        self.looks = looks_after(self.looks, 0, rest.len(), rest.len());
        if !self.known.is_false(clause.literals[lost]) {
            return Ok(Visit::Leaves);
        }
        if self.known.is_false(other) {
            return Ok(Visit::Conflict);
        }
        self.known.take(other)?;
        Ok(Visit::Stays(moved))
    }

    // Looks at the clauses of a list, which watch a literal that has become false; answers whether all literals of one
    // are false.
    fn visit_list(&mut self, list: &mut Vec<Watch>, lie: u32) -> Result<bool, Memory>
        ensures conflict { Searches self.old self.new result }
    {
        let mut kept = 0;
        for place in 0..list.len() {
            let watch = list[place];
            match self.visit(watch, lie) {
                Ok(Visit::Stays(stays)) => {
                    list[kept] = stays;
                    kept += 1;
                }
                Ok(Visit::Leaves) => {}
                Ok(Visit::Conflict) => {
                    close_gap(list, kept, place);
                    return Ok(true);
                }
                Err(error) => {
                    close_gap(list, kept, place);
                    return Err(error);
                }
            }
        }
        list.truncate(kept);
        Ok(false)
    }

    // Looks at the clauses that watch a literal that has become false.
    fn visit_all(&mut self, lie: u32) -> Result<bool, Memory>
        ensures conflict { Searches self.old self.new result }
    {
        let mut list = self.watches.lend(lie);
        self.looks = self.looks.saturating_sub(list.len() as u64);
        let conflict = self.visit_list(&mut list, lie);
        self.watches.give_back(lie, list);
        conflict
    }

    // The literal at a place of the trail, while looks are left.
    fn next_found(&self, place: usize) -> Option<u32> {
        if self.looks == 0 {
            return None;
        }
        self.known.found(place)
    }

    // Takes the literals that follow from those of the trail; answers whether there is a conflict. It ends without one
    // where no looks are left.
    fn propagate(&mut self) -> Result<bool, Memory>
        ensures conflict { Searches self.old self.new result }
    {
        // A literal comes into the trail once.
        for place in 0..self.known.len() {
            let Some(literal) = self.next_found(place) else {
                return Ok(false);
            };
            if self.visit_all(negated(literal))? {
                return Ok(true);
            }
        }
        Ok(false)
    }

    // Takes the literals that follow; answers whether there is a conflict.
    fn deduce(&mut self, way: Way<'_>) -> Result<bool, Memory>
        ensures conflict { Searches self.old self.new result }
    {
        match way {
            Way::Search => self.propagate(),
            Way::Named(first, second) => {
                if self.walk(first)? {
                    return Ok(true);
                }
                self.walk(second)
            }
        }
    }

    // Takes the literals of a clause to be false; answers whether one is known to be true.
    pub(crate) fn assume(&mut self, clause: &[Lit]) -> Result<bool, Memory>
        ensures implied { Refutes clause.now self.old self.new result }
        ensures walks { Walks self.old self.new }
        ensures looks { self.new.looks ≡ self.old.looks }
        ensures known { AreNamed clause.now (variables self.old)
            → IfOk result (λ conflict. conflict ≡ false
            → AreKnown self.new.known.truths.items (map negation clause.now)) }
    {
        for literal in clause {
            if self.known.is_true(literal.value()) {
                return Ok(true);
            }
            self.known.take(negated(literal.value()))?;
        }
        Ok(false)
    }

    // Whether there is a conflict where the literals of a clause are false.
    fn try_clause(&mut self, clause: &[Lit], way: Way<'_>) -> Result<bool, Memory>
        ensures implied { Refutes clause.now self.old self.new result }
    {
        if self.assume(clause)? {
            return Ok(true);
        }
        self.deduce(way)
    }

    /// Whether a clause follows by unit propagation, as the looks that are left show.
    pub(crate) fn follows(&mut self, clause: &[Lit], way: Way<'_>) -> Result<bool, Memory>
        ensures implied { Tests clause.now self.old self.new result }
    {
        let looks = clause.len() as u64;
        if looks > self.looks {
            return Ok(false);
        }
        self.looks = self.looks.saturating_sub(looks);
        let follows = self.try_clause(clause, way);
        self.known.undo();
        follows
    }

    /// Takes a literal to be true for good; answers whether there is a conflict.
    pub(crate) fn take_unit(&mut self, literal: u32) -> Result<bool, Memory>
        ensures agrees { (values : ℕ → Bool) → Agrees values self.old → is_true values literal ≡ true
            → Agrees values self.new }
        ensures conflict { IfOk result (λ conflict. IsTrue conflict
            → (values : ℕ → Bool) → Agrees values self.old → is_true values literal ≡ true → ⊥) }
    {
        self.known.take(literal)?;
        let conflict = self.propagate();
        self.known.settle();
        conflict
    }
}
