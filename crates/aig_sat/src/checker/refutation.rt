//! Checking a refutation, clause by clause.
ghost use Rattle.std.specs.Prelude.{◌≡◌, ◌+◌, ◌≤◌, IsTrue, IfOk, IfSome, OnOk, true, false, [], ◌∷◌};
ghost use Rattle.aig_parts.specs.Literal.{variable};
ghost use Rattle.aig_sat.specs.checker.Basis.{IsShownByHints, KeepsNumbers, KeepsOthers, NumbersStep, TakesNumber};
ghost use Rattle.aig_sat.specs.checker.Consequence.{Follows, IsUnsatisfiable, KeepsSatisfiable};

use crate::checker::checker::Checker;
use aig_bytes::Memory;
use aig_parts::Lit;
use std::alloc::Global;
use std::marker::Model;

/// A formula that is being refuted. A contract sees its clauses: those that stand, and each literal that was found to be
/// true as a clause of its own; where there is a contradiction, the empty clause is one of them. With hints it sees the
/// number of each clause, too.
/// Clauses are sets: a literal counts once. A clause of both signs of a variable stands until it is deleted, and
/// nothing follows from it. Literals of variables that it does not have are kept in the clauses, and never found to
/// be true.
pub struct Refutation {
    checker: Checker,
}

// By hand: a value then ends in one call, which is one step of a proof (docs/PROOFS.md, Habits).
impl Drop for Refutation {
    fn drop(self) {
        let Refutation { checker: _ } = self;
    }
}

impl Model for Refutation {
    ghost use Rattle.aig_sat.specs.checker.Basis.{Basis};

    ghost Value = { Basis };

    ghost use Rattle.aig_sat.specs.checker.Basis.{basis};

    ghost view = { λ a. basis a.checker };
}

impl Refutation {
    /// A formula without clauses over so many variables. It takes memory for each of them.
    pub fn new(alloc: Global, variables: u32) -> Result<Refutation, Memory>
        ensures { IfOk result (λ refutation. Follows [] refutation.clauses) }
    {
        Ok(Refutation {
            checker: Checker::new(alloc, variables, false)?,
        })
    }

    /// The same, for steps with hints. Its clauses are numbered from 1 in the order in which they are added, and
    /// nothing is found to be true between steps.
    pub fn with_hints(alloc: Global, variables: u32) -> Result<Refutation, Memory>
        ensures follows { IfOk result (λ refutation. Follows [] refutation.clauses) }
        ensures begins { IfOk result (λ refutation. (refutation.is_hinted ≡ true) × (refutation.next ≡ 1)) }
        ensures variables { IfOk result (λ refutation. refutation.variables ≡ variables) }
    {
        Ok(Refutation {
            checker: Checker::new(alloc, variables, true)?,
        })
    }

    /// Gives the next clause a number, if that is over all numbers before it, and returns whether it is.
    pub fn number_next(&mut self, id: u32) -> bool
        ensures follows { Follows self.old.clauses self.new.clauses }
        ensures numbered { KeepsNumbers self.old self.new }
        ensures taken { self.old.next ≤ id → result ≡ true }
        ensures next { IsTrue result → self.new.next ≡ id }
    {
        if id < self.checker.next {
            return false;
        }
        self.checker.next = id;
        true
    }

    /// Deletes the clause with the number that a hint names, if it stands.
    pub fn delete_named(&mut self, id: Lit)
        ensures follows { Follows self.old.clauses self.new.clauses }
        ensures others { KeepsOthers (λ number. number ≡ variable id + 1) self.old self.new }
        ensures next { self.new.next ≡ self.old.next }
    {
        self.checker.delete_named(id)
    }

    /// Adds variables until there are so many. It takes memory for each of them.
    pub fn add_variables(&mut self, variables: u32) -> Result<(), Memory>
        ensures follows { Follows self.old.clauses self.new.clauses }
        ensures numbered { KeepsNumbers self.old self.new }
        ensures next { self.new.next ≡ self.old.next }
        ensures variables { OnOk result (variables ≤ self.new.variables) }
    {
        self.checker.add_variables(variables as usize)
    }

    /// Adds a clause to the formula. If no memory was found, the clause may be missing. With hints it gets the next
    /// number.
    pub fn add_clause(&mut self, clause: &[Lit]) -> Result<(), Memory>
        ensures follows { Follows (clause.now ∷ self.old.clauses) self.new.clauses }
        ensures numbered { IsTrue self.old.is_hinted → OnOk result (TakesNumber clause.now self.old self.new) }
    {
        self.checker.add_clause(clause)
    }

    /// Adds a clause, if it follows from those that stand by unit propagation, and answers whether it does. Any clause
    /// follows where there is a contradiction. With hints only the clauses that they name are looked at, in their order
    /// up to the first negative one; a hint that gives nothing is passed over. They may take as many looks as the clauses
    /// have words, and 65,536 more.
    pub fn add_step(&mut self, clause: &[Lit], hints: Option<&[Lit]>) -> Result<bool, Memory>
        ensures stands { Follows self.old.clauses self.new.clauses }
        ensures follows { IfOk result (λ taken. IsTrue taken → Follows self.old.clauses (clause.now ∷ [])) }
        ensures accepted { IfSome hints.entry (λ hints. IsShownByHints self.old clause.now hints.now → IfOk result IsTrue) }
        ensures numbered { IsTrue self.old.is_hinted → IfSome hints.entry
            (λ _. IfOk result (NumbersStep clause.now self.old self.new)) }
    {
        self.checker.add_step(clause, hints)
    }

    /// Adds a clause, if it is a resolution asymmetric tautology on its first literal, and answers whether it is. Such
    /// a clause need not follow, but the formula stays satisfiable if it was. Neither that literal nor its negation may
    /// have been found to be true. Each clause that stands and has the negation has to give, without the negation and
    /// with this clause's literals, a clause that follows by unit propagation. With hints that is by the hints before
    /// the first negative one, and then by those after the negative one that names the clause. All such steps together
    /// may take 16,777,216 looks at clauses, watches, literals and hints, one more for each word of the formula, and 256
    /// more for each literal and each hint of all steps so far.
    pub fn add_on_first(&mut self, clause: &[Lit], hints: Option<&[Lit]>) -> Result<bool, Memory>
        ensures keeps { KeepsSatisfiable self.old.clauses self.new.clauses }
        ensures stands { Follows (clause.now ∷ self.old.clauses) self.new.clauses }
        ensures refused { IfOk result (λ taken. taken ≡ false → Follows self.old.clauses self.new.clauses) }
    {
        self.checker.add_on_first(clause, hints)
    }

    /// Deletes a clause of these literals, in any order, if one stands. Of equal ones it deletes one. What was found to
    /// be true stays so. It looks at 1,024 clauses at most: one that is not found among them stays.
    pub fn delete(&mut self, clause: &[Lit])
        ensures { Follows self.old.clauses self.new.clauses }
    {
        self.checker.delete(clause)
    }

    /// Whether unit propagation has found a contradiction.
    pub fn is_refuted(&self) -> bool
        ensures refuted { IsTrue result → IsUnsatisfiable self.now.clauses }
        ensures same { result ≡ self.now.is_refuted }
    {
        self.checker.refuted
    }
}
