//! Writing formulas (DIMACS).
ghost use Rattle.std.specs.Prelude.{◌≡◌, ◌+◌, ◌*◌, ◌^◌, ◌<◌, ◌≤◌, [], ◌∷◌, ◌++◌, All, decimal, length};
ghost use Rattle.aig_parts.specs.Formed.{limit};
ghost use Rattle.aig_parts.specs.Limits.{frame_limit};
ghost use Rattle.std.specs.List.{flat_map};
ghost use Rattle.aig_bytes.specs.Bytes.{Writes};
ghost use Rattle.aig_bytes.specs.Gathered.{Gathers};
ghost use Rattle.aig_bytes.specs.Term.{term_text};
ghost use Rattle.aig_cnf.specs.CnfText.{goal_line, goal_lines};
ghost use Rattle.aig_cnf.specs.Dimacs.{clause_text, formula_text, gate_text, literal_text, problem_line, sign_text};
ghost use Rattle.aig_cnf.specs.Formula.{all_but_last, first_reached, goal_clauses, implies};
ghost use Rattle.aig_cnf.specs.state.Kept.{IsShort};
ghost use Rattle.aig_cnf.specs.state.Terms.{literal_term};

use crate::formula::{Formula, last_of};
use crate::query::Goal;
use aig_base::{Block, Gate, Io, Lit, Term, Write, write_all};
use itoa::Buffer;

// Puts a minus where the literal is negated.
fn put_sign<W: Write>(out: &mut W, block: &mut Block, literal: Lit) -> Result<(), Io>
    ensures { Gathers W.written W.failures out.old out.new block.old block.new (sign_text literal) result }
{
    if literal.is_neg() {
        return block.put(out, b'-');
    }
    Ok(())
}

// Puts a literal: its variable, from 1, after a minus where it is negated.
fn put_literal<W: Write>(out: &mut W, block: &mut Block, literal: Lit) -> Result<(), Io>
    ensures { Gathers W.written W.failures out.old out.new block.old block.new (literal_text literal) result }
{
    put_sign(out, block, literal)?;
    block.put_field(out, literal.var() + 1, b' ')
}

// Puts a clause of these literals.
fn put_clause<W: Write>(out: &mut W, block: &mut Block, literals: &[Lit]) -> Result<(), Io>
    ensures { Gathers W.written W.failures out.old out.new block.old block.new (clause_text literals.now) result }
{
    for literal in literals {
        put_literal(out, block, *literal)?;
    }
    block.put_all(out, b"0\n")
}

// A literal as a term: its variable, from 1, with its sign.
#[inline(always)]
fn term_of(literal: Lit) -> Term
    requires { literal < 10 ^ 8 }
    ensures { result ≡ literal_term literal }
{
    Term::new(literal.var() + 1, literal.is_neg())
}

// Puts the clause of two terms.
#[inline(always)]
fn put_pair<W: Write>(out: &mut W, block: &mut Block, first: &Term, second: &Term) -> Result<(), Io>
    ensures { Gathers W.written W.failures out.old out.new block.old block.new
        (term_text first.now ++ (term_text second.now ++ 48 ∷ 10 ∷ [])) result }
{
    if block.push_pair(first, second) {
        return Ok(());
    }
    block.forward(out)?;
    block.push_pair(first, second);
    Ok(())
}

// Puts the clause of three terms.
#[inline(always)]
fn put_triple<W: Write>(
    out: &mut W,
    block: &mut Block,
    first: &Term,
    second: &Term,
    third: &Term,
) -> Result<(), Io>
    ensures { Gathers W.written W.failures out.old out.new block.old block.new
        (term_text first.now ++ (term_text second.now ++ (term_text third.now ++ 48 ∷ 10 ∷ []))) result }
{
    if block.push_triple(first, second, third) {
        return Ok(());
    }
    block.forward(out)?;
    block.push_triple(first, second, third);
    Ok(())
}

// Puts the three clauses of a gate. The digits of each literal are found once.
fn put_gate<W: Write>(out: &mut W, block: &mut Block, gate: Gate) -> Result<(), Io>
    requires { IsShort gate }
    ensures { Gathers W.written W.failures out.old out.new block.old block.new (gate_text gate) result }
{
    let lhs = term_of(gate.lhs);
    let rhs0 = term_of(gate.rhs0);
    let rhs1 = term_of(gate.rhs1);
    put_pair(out, block, &lhs.negated(), &rhs0)?;
    put_pair(out, block, &lhs.negated(), &rhs1)?;
    put_triple(out, block, &lhs, &rhs0.negated(), &rhs1.negated())
}

// Puts the clauses of all gates.
fn put_gates<W: Write>(out: &mut W, block: &mut Block, gates: &[Gate]) -> Result<(), Io>
    requires { All IsShort gates.now }
    ensures { Gathers W.written W.failures out.old out.new block.old block.new (flat_map gate_text gates.now) result }
{
    for gate in gates {
        put_gate(out, block, *gate)?;
    }
    Ok(())
}

// Puts a number of any size.
fn put_number<W: Write>(out: &mut W, block: &mut Block, number: u64) -> Result<(), Io>
    ensures { Gathers W.written W.failures out.old out.new block.old block.new (decimal number) result }
{
    let mut digits = Buffer::new();
    block.put_all(out, digits.format(number).as_bytes())
}

// Puts the line that says how many variables and clauses there are.
fn put_problem<W: Write>(
    out: &mut W,
    block: &mut Block,
    variables: u32,
    clauses: u64,
) -> Result<(), Io>
    ensures { Gathers W.written W.failures out.old out.new block.old block.new
        (problem_line variables clauses) result }
{
    block.put_all(out, b"p cnf ")?;
    block.put_field(out, variables, b' ')?;
    put_number(out, block, clauses)?;
    block.put(out, b'\n')
}

// Puts the comment line of the bad literal of a frame.
fn put_goal_line<W: Write>(
    out: &mut W,
    block: &mut Block,
    literal: Lit,
    frame: u32,
) -> Result<(), Io>
    ensures { Gathers W.written W.failures out.old out.new block.old block.new (goal_line literal frame) result }
{
    block.put_all(out, b"c b ")?;
    put_literal(out, block, literal)?;
    block.put_field(out, frame, b'\n')
}

// Puts the comment lines of the bad literals of all frames.
fn put_goal_lines<W: Write>(out: &mut W, block: &mut Block, goals: &[Lit]) -> Result<(), Io>
    requires { length goals.now ≤ frame_limit }
    ensures { Gathers W.written W.failures out.old out.new block.old block.new (goal_lines goals.now) result }
{
    for frame in 0..goals.len() as u32 {
        put_goal_line(out, block, goals[frame as usize], frame)?;
    }
    Ok(())
}

// Puts the clauses that the last literal is true, and those before it are false.
fn put_first_reached<W: Write>(out: &mut W, block: &mut Block, goals: &[Lit]) -> Result<(), Io>
    ensures { Gathers W.written W.failures out.old out.new block.old block.new
        (flat_map clause_text (first_reached goals.now)) result }
{
    let Some((last, earlier)) = goals.split_last() else {
        return Ok(());
    };
    for literal in earlier {
        put_clause(out, block, &[literal.not()])?;
    }
    put_clause(out, block, &[*last])
}

// Puts the clauses that each of some literals is true if another one is.
fn put_implied<W: Write>(
    out: &mut W,
    block: &mut Block,
    literal: Lit,
    implied: &[Lit],
) -> Result<(), Io>
    ensures { Gathers W.written W.failures out.old out.new block.old block.new
        (flat_map clause_text (implies implied.now literal)) result }
{
    for other in implied {
        put_clause(out, block, &[literal.not(), *other])?;
    }
    Ok(())
}

// Puts the clauses that the start obeys the resets if a bad literal before the last one is true.
fn put_starts<W: Write>(
    out: &mut W,
    block: &mut Block,
    starts: &[Lit],
    goals: &[Lit],
) -> Result<(), Io>
    ensures { Gathers W.written W.failures out.old out.new block.old block.new
        (flat_map clause_text (flat_map (implies starts.now) (all_but_last goals.now))) result }
{
    let Some((_, earlier)) = goals.split_last() else {
        return Ok(());
    };
    for bad in earlier {
        put_implied(out, block, *bad, starts)?;
    }
    Ok(())
}

// Puts the clauses that a bad literal is true, and that the start obeys the resets if it is one before the last.
fn put_induction<W: Write>(
    out: &mut W,
    block: &mut Block,
    starts: &[Lit],
    goals: &[Lit],
) -> Result<(), Io>
    ensures { Gathers W.written W.failures out.old out.new block.old block.new
        (flat_map clause_text (goals.now ∷ flat_map (implies starts.now) (all_but_last goals.now))) result }
{
    put_clause(out, block, goals)?;
    put_starts(out, block, starts, goals)
}

// Puts the clauses of a goal.
fn put_goal<W: Write>(
    out: &mut W,
    block: &mut Block,
    goal: Goal,
    starts: &[Lit],
    goals: &[Lit],
) -> Result<(), Io>
    ensures { Gathers W.written W.failures out.old out.new block.old block.new
        (flat_map clause_text (goal_clauses goal starts.now goals.now)) result }
{
    match goal {
        Goal::Within => put_clause(out, block, goals),
        Goal::Last => put_clause(out, block, last_of(goals)),
        Goal::Step => put_first_reached(out, block, goals),
        Goal::Induction => put_induction(out, block, starts, goals),
    }
}

// How many clauses a goal has.
fn goal_count(goal: Goal, starts: &[Lit], goals: &[Lit]) -> u64
    requires starts { length starts.now ≤ limit }
    requires goals { length goals.now ≤ frame_limit }
    ensures { result ≡ length (goal_clauses goal starts.now goals.now) }
{
    match goal {
        Goal::Within | Goal::Last => 1,
        Goal::Step => goals.len() as u64,
        Goal::Induction => 1 + starts.len() as u64 * goals.len().saturating_sub(1) as u64,
    }
}

impl Formula {
    // How many clauses there are: three for a gate, one for the constant, and those of the goal.
    fn clause_count(&self) -> u64
        ensures { result ≡ length self.now.clauses }
    {
        1 + goal_count(self.goal, &self.starts, &self.goals) + 3 * self.gates.len() as u64
    }

    // Puts the clauses.
    fn put_clauses<W: Write>(&self, out: &mut W, block: &mut Block) -> Result<(), Io>
        ensures { Gathers W.written W.failures out.old out.new block.old block.new
            (flat_map clause_text self.now.clauses) result }
    {
        let gates = self.gates.as_slice();
        put_clause(out, block, &[Lit::new(1)])?;
        put_goal(out, block, self.goal, &self.starts, &self.goals)?;
        put_gates(out, block, gates)
    }

    /// Writes the comment lines of the bad literals, and the clauses.
    pub(crate) fn write_goals_and_clauses<W: Write>(&self, out: &mut W) -> Result<(), Io>
        ensures { Writes W.written W.failures out.old out.new
            (goal_lines self.now.goals ++ formula_text self.now.variables self.now.clauses) result }
    {
        let mut block = Block::new();
        put_goal_lines(out, &mut block, &self.goals)?;
        put_problem(out, &mut block, self.variables(), self.clause_count())?;
        self.put_clauses(out, &mut block)?;
        write_all(out, block.as_slice())
    }
}
