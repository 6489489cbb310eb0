//! Unit propagation along hints.
ghost use Rattle.std.specs.Prelude.{◌≡◌, ◌+◌, ◌-◌, ◌<◌, ℕ, true, false, IsTrue, IfOk, List, length};
ghost use Rattle.aig_sat.specs.checker.Agreement.{Refutes, Searches, Tests};
ghost use Rattle.aig_sat.specs.checker.Hints.{IsShown, Shows};
ghost use Rattle.aig_sat.specs.checker.Numbers.{AreKnown, IsKnownBut, IsShownBy, KeepsClauses, Leaves, Walks, numbered};
ghost use Rattle.aig_sat.specs.checker.Numbers.{variables};
ghost use Rattle.aig_sat.specs.checker.Words.{StandsAt, size_at};

use crate::checker::hints::id_of;
use crate::checker::known::Left;
use crate::checker::propagator::Propagator;
use aig_bytes::Memory;
use aig_parts::Lit;

/// A step with hints may take as many looks to follow by them as there are words of clauses, and this many more: a long
/// clause could be hinted again and again.
const MORE_LOOKS: u64 = 65536;

impl Propagator {
    // Takes what a clause leaves, if it is one literal; answers whether it leaves none.
    #[inline]
    fn look_at(&mut self, place: u32) -> Result<bool, Memory>
        ensures conflict { Searches self.old self.new result }
        ensures walks { Walks self.old self.new }
        ensures looks { StandsAt self.old.clauses.words.items place
            → self.new.looks ≡ self.old.looks - (1 + size_at self.old.clauses.words.items place) }
        ensures left { (k : ℕ) → StandsAt self.old.clauses.words.items place
            → IsKnownBut self.old.clauses.words.items self.old.known.truths.items place k
            → IfOk result (Leaves self.old self.new place k) }
    {
        self.looks = self.looks.saturating_sub(1);
        let Some(literals) = self.clauses.literals(place as usize) else {
            return Ok(false);
        };
        let size = literals.len() as u64;
        let left = self.known.left(literals);
        self.looks = self.looks.saturating_sub(size);
        match left {
            Left::Nothing => Ok(true),
            Left::One(literal) => {
                self.known.take(literal)?;
                Ok(false)
            }
            Left::More => Ok(false),
        }
    }

    /// Looks at the clauses that hints name, up to a negative one; answers whether there is a conflict. A hint that
    /// gives nothing is passed over. It ends without a conflict where no looks are left.
    pub(crate) fn walk(&mut self, hints: &[Lit]) -> Result<bool, Memory>
        ensures conflict { Searches self.old self.new result }
        ensures walks { Walks self.old self.new }
        ensures shown { (truths : List ℕ) → AreKnown self.old.known.truths.items truths
            → Shows (numbered self.old) (variables self.old) self.old.looks truths hints.now → IfOk result IsTrue }
    {
        for hint in hints {
            if hint.is_neg() || self.looks == 0 {
                return Ok(false);
            }
            let place = self.ids.place(id_of(*hint));
            if self.look_at(place)? {
                return Ok(true);
            }
        }
        Ok(false)
    }

    // How many looks a step may take to follow by its hints.
    fn limit(&self) -> u64
        ensures { result ≡ 65536 + length self.now.clauses.words.items }
    {
        MORE_LOOKS + self.clauses.len() as u64
    }

    // Whether there is a conflict where the literals of a clause are false, as hints show.
    fn try_hints(&mut self, clause: &[Lit], hints: &[Lit]) -> Result<bool, Memory>
        ensures implied { Refutes clause.now self.old self.new result }
        ensures walks { Walks self.old self.new }
        ensures shown { IsShown (numbered self.old) (variables self.old) self.old.looks clause.now hints.now
            → IfOk result IsTrue }
    {
        if self.assume(clause)? {
            return Ok(true);
        }
        self.walk(hints)
    }

    /// Whether a clause follows by hints. It takes a limited number of looks.
    pub(crate) fn follows_by(&mut self, clause: &[Lit], hints: &[Lit]) -> Result<bool, Memory>
        ensures implied { Tests clause.now self.old self.new result }
        ensures stays { KeepsClauses self.old self.new }
        ensures shown { IsShownBy self.old clause.now hints.now → IfOk result IsTrue }
    {
        self.looks = self.limit();
        let follows = self.try_hints(clause, hints);
        self.looks = u64::MAX;
        self.known.undo();
        follows
    }
}
