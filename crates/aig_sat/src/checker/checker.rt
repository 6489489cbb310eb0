//! Checking clause by clause.
ghost use Rattle.std.specs.Prelude.{◌≡◌, ◌+◌, ◌≤◌, ℕ, Bool, true, IsTrue, IfOk, IfSome, OnOk};
ghost use Rattle.aig_parts.specs.Literal.{variable};
ghost use Rattle.aig_sat.specs.checker.Agreement.{Tests};
ghost use Rattle.aig_sat.specs.checker.Basis.{KeepsOthers, NumbersStep, TakesNumber, basis};
ghost use Rattle.aig_sat.specs.checker.Clause.{is_true, meets};
ghost use Rattle.aig_sat.specs.checker.Holding.{AddsVariables, Holds, KeepsHolding, KeepsMeeting};
ghost use Rattle.aig_sat.specs.checker.Numbers.{IsShownBy, KeepsClauses, variables as count_of};

use crate::checker::credit::Credit;
use crate::checker::finder::Finder;
use crate::checker::hints::{Groups, Way, id_of};
use crate::checker::known::Free;
use crate::checker::marks::Marks;
use crate::checker::propagator::Propagator;
use aig_bytes::Memory;
use aig_parts::Lit;
use std::alloc::Global;

/// The clauses that stand and what is known, how a clause is found, and whether there was a conflict.
#[derive(Drop)]
pub(crate) struct Checker {
    pub(crate) propagator: Propagator,
    pub(crate) finder: Finder,
    pub(crate) marks: Marks,
    // The clause that was last tried in place of one that is added on its first literal, for its memory.
    pub(crate) resolvent: Vec<Lit>,
    // The places of the clauses that it was last tried for.
    pub(crate) candidates: Vec<usize>,
    pub(crate) refuted: bool,
    // Whether steps have hints. Then nothing is watched, and nothing is known between steps.
    pub(crate) is_hinted: bool,
    // The id of the next clause.
    pub(crate) next: u32,
    // The groups of hints of the step that was last tried on its first literal.
    pub(crate) groups: Groups,
    pub(crate) credit: Credit,
}

impl Checker {
    /// No clauses over so many variables.
    pub(crate) fn new(alloc: Global, variables: u32, is_hinted: bool) -> Result<Checker, Memory>
        ensures holds { IfOk result (λ checker. (values : ℕ → Bool) → Holds values checker) }
        ensures begins { IfOk result (λ checker. (checker.is_hinted ≡ is_hinted) × (checker.next ≡ 1)) }
        ensures variables { IfOk result (λ checker. count_of checker.propagator ≡ variables) }
    {
        Ok(Checker {
            propagator: Propagator::new(alloc, variables)?,
            finder: Finder::new(alloc)?,
            marks: Marks::new(alloc, 2 * variables as usize)?,
            resolvent: Vec::new(alloc),
            candidates: Vec::new(alloc),
            refuted: false,
            is_hinted,
            next: 1,
            groups: Groups::new(alloc),
            credit: Credit::new(),
        })
    }

    // Adds a variable that no clause has.
    fn add_variable(&mut self) -> Result<(), Memory>
        ensures adds { AddsVariables self.old self.new }
        ensures variables { OnOk result (count_of self.new.propagator ≡ count_of self.old.propagator + 1) }
    {
        self.marks.add_variable()?;
        self.propagator.add_variable()
    }

    /// Adds variables until there are so many.
    pub(crate) fn add_variables(&mut self, variables: usize) -> Result<(), Memory>
        ensures adds { AddsVariables self.old self.new }
        ensures variables { OnOk result (variables ≤ count_of self.new.propagator) }
    {
        for _ in self.propagator.known.len() / 2..variables {
            self.add_variable()?;
        }
        Ok(())
    }

    // Stores the clause of the marks.
    #[tactic(none)]
    fn store(&mut self) -> Result<u32, Memory>
        ensures { KeepsMeeting self.old.marks.literals.items self.old self.new }
    {
        let place = self.propagator.clauses.add(0, &self.marks.literals)?;
        self.finder.add(&mut self.propagator.clauses, place)?;
        Ok(place)
    }

    // Stores the clause of the marks, and takes its only literal that is not known to be false.
    #[tactic(none)]
    fn store_unit(&mut self, literal: u32) -> Result<(), Memory>
        requires { (values : ℕ → Bool) → Holds values self.old → meets values self.old.marks.literals.items ≡ true
            → is_true values literal ≡ true }
        ensures { KeepsMeeting self.old.marks.literals.items self.old self.new }
    {
        self.store()?;
        let conflict = self.propagator.take_unit(literal)?;
        self.refuted = conflict;
        Ok(())
    }

    // Stores the clause of the marks, which watches two of its literals.
    #[tactic(none)]
    fn store_watched(&mut self, first: Free, second: Free) -> Result<(), Memory>
        ensures { KeepsMeeting self.old.marks.literals.items self.old self.new }
    {
        let place = self.store()?;
        self.propagator.watch(place, first, second)
    }

    // Stores the clause of the marks with its id.
    #[tactic(none)]
    fn store_named(&mut self) -> Result<(), Memory>
        ensures meeting { KeepsMeeting self.old.marks.literals.items self.old self.new }
        ensures numbered { OnOk result (TakesNumber self.old.marks.literals.items (basis self.old) (basis self.new)) }
    {
        let Some(_first) = self.propagator.known.free(&self.marks.literals) else {
            self.refuted = true;
            return Ok(());
        };
        let id = self.next;
        let place = self.propagator.clauses.add(id, &self.marks.literals)?;
        self.next = id.saturating_add(1);
        self.propagator.ids.add(id, place)
    }

    // Adds the clause of the marks.
    #[tactic(none)]
    fn stand(&mut self) -> Result<(), Memory>
        ensures meeting { KeepsMeeting self.old.marks.literals.items self.old self.new }
        ensures numbered { IsTrue self.old.is_hinted
            → OnOk result (TakesNumber self.old.marks.literals.items (basis self.old) (basis self.new)) }
    {
        if self.is_hinted {
            return self.store_named();
        }
        if self.marks.is_tautology() {
            self.store()?;
            return Ok(());
        }
        let Some(first) = self.propagator.known.free(&self.marks.literals) else {
            self.refuted = true;
            return Ok(());
        };
        match self
            .propagator
            .known
            .free_beside(&self.marks.literals, first.literal)
        {
            None => self.store_unit(first.literal),
            Some(second) => self.store_watched(first, second),
        }
    }

    /// Adds a clause.
    pub(crate) fn add_clause(&mut self, clause: &[Lit]) -> Result<(), Memory>
        ensures meeting { KeepsMeeting clause.now self.old self.new }
        ensures numbered { IsTrue self.old.is_hinted
            → OnOk result (TakesNumber clause.now (basis self.old) (basis self.new)) }
    {
        if self.refuted {
            return Ok(());
        }
        self.credit.add_clause(clause);
        self.marks.put(clause)?;
        self.stand()
    }

    // Whether a clause follows by unit propagation, with hints as they show.
    fn follows(&mut self, clause: &[Lit], hints: Option<&[Lit]>) -> Result<bool, Memory>
        ensures same { self.new.refuted ≡ self.old.refuted }
        ensures hinted { self.new.is_hinted ≡ self.old.is_hinted }
        ensures next { self.new.next ≡ self.old.next }
        ensures stays { IfSome hints.entry (λ _. KeepsClauses self.old.propagator self.new.propagator) }
        ensures implied { Tests clause.now self.old.propagator self.new.propagator result }
        ensures shown { IfSome hints.entry (λ h. IsShownBy self.old.propagator clause.now h.now → IfOk result IsTrue) }
    {
        match hints {
            None => self.propagator.follows(clause, Way::Search),
            Some(hints) => self.propagator.follows_by(clause, hints),
        }
    }

    /// Adds a clause that follows by unit propagation, and answers whether it does.
    pub(crate) fn add_step(&mut self, clause: &[Lit], hints: Option<&[Lit]>) -> Result<bool, Memory>
        ensures stands { KeepsHolding self.old self.new }
        ensures follows { IfOk result (λ taken. IsTrue taken
            → (values : ℕ → Bool) → Holds values self.old → meets values clause.now ≡ true) }
        ensures shown { IfSome hints.entry (λ h. IsShownBy self.old.propagator clause.now h.now → IfOk result IsTrue) }
        ensures numbered { IsTrue self.old.is_hinted → IfSome hints.entry
            (λ _. IfOk result (NumbersStep clause.now (basis self.old) (basis self.new))) }
    {
        if self.refuted {
            return Ok(true);
        }
        self.credit.add_step(clause, hints);
        if self.follows(clause, hints)? {
            self.add_clause(clause)?;
            return Ok(true);
        }
        Ok(false)
    }

    /// Deletes a clause by its id, if it stands.
    pub(crate) fn delete_named(&mut self, id: Lit)
        ensures holding { KeepsHolding self.old self.new }
        ensures others { KeepsOthers (λ number. number ≡ variable id + 1) (basis self.old) (basis self.new) }
        ensures next { self.new.next ≡ self.old.next }
    {
        let number = id_of(id);
        let place = self.propagator.ids.forget(number);
        self.propagator.clauses.remove_named(place, number);
    }

    /// Deletes a clause, if it stands.
    pub(crate) fn delete(&mut self, clause: &[Lit])
        ensures { KeepsHolding self.old self.new }
    {
        if self.marks.put(clause).is_ok() {
            self.finder
                .delete(&mut self.propagator.clauses, &self.marks);
        }
    }
}
