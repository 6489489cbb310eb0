//! Formulas with a proof each, as a script of tests writes them, and what each step of such a proof is.

use crate::input::{split, three_numbers};
use aig_bytes::{MemReader, Memory};
use aig_parts::Lit;
use aig_sat::{ProofFault, ProofReader, Refutation, StepKind};
use std::alloc::Global;

/// The most variables that a formula has.
const MOST: u32 = 2_147_483_647;

/// A formula and a proof. The formula is spelled as a proof whose steps are its clauses.
#[derive(Clone, Copy)]
pub struct Case<'a> {
    variables: u32,
    formula: &'a [u8],
    proof: &'a [u8],
}

impl<'a> Case<'a> {
    /// The first case of these bytes, and the bytes after it. The numbers of its first line are how many variables the
    /// formula has, and how many bytes the formula and the proof.
    pub fn first(bytes: &'a [u8]) -> Option<(Case<'a>, &'a [u8])> {
        let ([variables, formula_size, proof_size], rest) = three_numbers(bytes)?;
        let (formula, rest) = split(rest, formula_size)?;
        let (proof, rest) = split(rest, proof_size)?;
        let case = Case {
            variables,
            formula,
            proof,
        };
        Some((case, rest))
    }

    // A reader of a proof about the formula.
    fn reader(&self, alloc: Global) -> ProofReader {
        ProofReader::new(alloc, self.variables.min(MOST))
    }

    /// A line: the literals of all steps up to the end, or to bytes that spell no step, and how many variables there
    /// are then, those of the proof's own among them.
    pub fn names(&self, alloc: Global) -> Result<String, Memory> {
        let mut line = String::new(alloc);
        let mut source = MemReader::new(self.proof);
        let mut steps = self.reader(alloc);
        for _ in 0..self.proof.len() {
            let Ok(Some(_)) = steps.next(&mut source) else {
                break;
            };
            for literal in steps.clause() {
                line.push_str(format!(in alloc; "{} ", literal.value())?.as_str())?;
            }
        }
        line.push_str(format!(in alloc; "of {}", steps.variables())?.as_str())?;
        Ok(line)
    }

    /// A line: a mark for each step up to the refutation, or to bytes that spell no step, and how the check ends.
    pub fn outcome(&self, alloc: Global) -> Result<String, Memory> {
        let mut marks = String::new(alloc);
        match self.check(alloc, &mut marks) {
            Ok(()) => Ok(format!(in alloc; "{marks} refuted")?),
            Err(fault) => Ok(format!(in alloc; "{marks} {fault}")?),
        }
    }

    // Goes on after a step that is refused, which adds nothing.
    fn check(&self, alloc: Global, marks: &mut String) -> Result<(), ProofFault> {
        let mut source = MemReader::new(self.proof);
        let mut steps = self.reader(alloc);
        let is_hinted = steps.is_hinted(&mut source)?;
        let mut refutation = self.refutation(alloc, is_hinted)?;
        for _ in 1..u64::MAX {
            if refutation.is_refuted() {
                return Ok(());
            }
            let next = if is_hinted {
                steps.next_hinted(&mut source)?
            } else {
                steps.next(&mut source)?
            };
            let Some(kind) = next else {
                break;
            };
            refutation.add_variables(steps.variables())?;
            let mark = if is_hinted {
                do_hinted(&mut refutation, kind, &steps)?
            } else {
                do_step(&mut refutation, kind, steps.clause(), None)?
            };
            if marks.push(mark).is_err() {
                return Err(ProofFault::Memory);
            }
        }
        Err(ProofFault::NoRefutation)
    }

    fn refutation(&self, alloc: Global, is_hinted: bool) -> Result<Refutation, ProofFault> {
        let mut refutation = if is_hinted {
            Refutation::with_hints(alloc, self.variables)?
        } else {
            Refutation::new(alloc, self.variables)?
        };
        let mut source = MemReader::new(self.formula);
        let mut clauses = self.reader(alloc);
        for _ in 1..u64::MAX {
            if clauses.next(&mut source)?.is_none() {
                break;
            }
            refutation.add_clause(clauses.clause())?;
        }
        Ok(refutation)
    }
}

// Does a step and marks it: a deletion, a clause that follows by unit propagation, one that is right on its first
// literal, or one that is refused.
fn do_step(
    refutation: &mut Refutation,
    kind: StepKind,
    clause: &[Lit],
    hints: Option<&[Lit]>,
) -> Result<char, Memory> {
    if kind == StepKind::Delete {
        refutation.delete(clause);
        Ok('d')
    } else if refutation.add_step(clause, hints)? {
        Ok('+')
    } else if refutation.add_on_first(clause, hints)? {
        Ok('*')
    } else {
        Ok('-')
    }
}

// The same of a step with hints, which is refused also where its number is not over all before it.
fn do_hinted(
    refutation: &mut Refutation,
    kind: StepKind,
    steps: &ProofReader,
) -> Result<char, Memory> {
    if kind == StepKind::Delete {
        for number in steps.hints() {
            refutation.delete_named(*number);
        }
        return Ok('d');
    }
    if !refutation.number_next(steps.number()) {
        return Ok('-');
    }
    do_step(refutation, kind, steps.clause(), Some(steps.hints()))
}
