//! A proof of a formula's refutation, checked step by step.
ghost use Rattle.std.specs.Prelude.{◌≡◌, ◌≢◌, ◌+◌, ◌^◌, ◌<◌, ℕ, List, Option, Err, IfOk, IfSome, None, OnOk};
ghost use Rattle.aig_sat.specs.checker.Consequence.{Follows, IsUnsatisfiable, KeepsSatisfiable};
ghost use Rattle.aig_sat.specs.proof.Proofs.{HasAddition, IsProof};
ghost use Rattle.aig_sat.specs.proof.Reads.{reads_failed};
ghost use Rattle.aig_refute.specs.Checked.{check_reads_failed};
ghost use Rattle.aig_refute.specs.state.Reading.{BeginsAll, ReadsEither};

use aig_base::{Lit, Memory, Read};
use aig_cnf::Formula;
use aig_sat::{ProofFault, ProofReader, ReadFault, Refutation, StepKind};
use std::alloc::Global;

// Adds the clause of the step that was read last, and returns whether it follows by unit propagation, or is a
// resolution asymmetric tautology on its first literal. With hints its number has to be over all before it, too.
fn add_clause(
    refutation: &mut Refutation,
    steps: &ProofReader,
    is_hinted: bool,
) -> Result<bool, Memory>
    ensures { KeepsSatisfiable refutation.old.clauses refutation.new.clauses }
{
    if is_hinted && !refutation.number_next(steps.number()) {
        return Ok(false);
    }
    let hints = if is_hinted { Some(steps.hints()) } else { None };
    if refutation.add_step(steps.clause(), hints)? {
        return Ok(true);
    }
    refutation.add_on_first(steps.clause(), hints)
}

// Deletes the clause of the step that was read last, or with hints the clauses with its numbers.
fn delete_clauses(refutation: &mut Refutation, steps: &ProofReader, is_hinted: bool)
    ensures { Follows refutation.old.clauses refutation.new.clauses }
{
    if !is_hinted {
        refutation.delete(steps.clause());
        return;
    }
    for number in steps.hints() {
        refutation.delete_named(*number);
    }
}

// Does the step that was read last: the clause that it adds has to be right.
fn take_step(
    refutation: &mut Refutation,
    kind: StepKind,
    steps: &ProofReader,
    is_hinted: bool,
    number: u64,
) -> Result<(), ProofFault>
    ensures keeps { KeepsSatisfiable refutation.old.clauses refutation.new.clauses }
    ensures count { check_reads_failed result ≡ 0 }
    ensures whole { result ≢ Err ProofFault.NoRefutation }
    ensures adds { (n : ℕ) → result ≡ Err (ProofFault.Step n) → kind ≡ StepKind.Add }
    ensures number { (n : ℕ) → result ≡ Err (ProofFault.Step n) → n ≡ number }
{
    match kind {
        StepKind::Delete => {
            delete_clauses(refutation, steps, is_hinted);
            Ok(())
        }
        StepKind::Add => match add_clause(refutation, steps, is_hinted) {
            Ok(true) => Ok(()),
            Ok(false) => Err(ProofFault::Step { number }),
            Err(Memory) => Err(ProofFault::Memory),
        },
    }
}

// Reads the next step, with hints or without.
fn next_step<R: Read>(
    steps: &mut ProofReader,
    proof: &mut R,
    is_hinted: bool,
) -> Result<Option<StepKind>, ReadFault>
    ensures count { R.failures proof.new ≡ R.failures proof.old + reads_failed result }
    ensures step { IfOk result (λ kind.
        ReadsEither is_hinted steps.old steps.new (R.left proof.old) (R.left proof.new) kind) }
{
    if is_hinted {
        steps.next_hinted(proof)
    } else {
        steps.next(proof)
    }
}

// Reads steps from the first on and does them until the formula is refuted.
fn check_steps<R: Read>(
    refutation: &mut Refutation,
    steps: &mut ProofReader,
    proof: &mut R,
    is_hinted: bool,
) -> Result<(), ProofFault>
    requires { steps.old.spelling ≡ None }
    ensures refuted { OnOk result (IsUnsatisfiable refutation.old.clauses) }
    ensures count { R.failures proof.new ≡ R.failures proof.old + check_reads_failed result }
    ensures whole { (whole : Option (List ℕ)) → BeginsAll steps.old.block whole (R.left proof.old) →
        result ≡ Err ProofFault.NoRefutation → IfSome whole IsProof }
    ensures step { (whole : Option (List ℕ)) → BeginsAll steps.old.block whole (R.left proof.old) →
        (n : ℕ) → result ≡ Err (ProofFault.Step n) → n + 1 < 2 ^ 64 → IfSome whole (HasAddition n) }
{
    for number in 1..u64::MAX {
        if refutation.is_refuted() {
            return Ok(());
        }
        let Some(kind) = next_step(steps, proof, is_hinted)? else {
            return Err(ProofFault::NoRefutation);
        };
        refutation.add_variables(steps.variables())?;
        take_step(refutation, kind, steps, is_hinted, number)?;
    }
    Err(ProofFault::Step { number: u64::MAX })
}

/// Checks a solver's proof that no assignment satisfies a formula. Each clause that a step adds has to follow by unit
/// propagation from the clauses so far, without those that were deleted, or to be a resolution asymmetric tautology on
/// its first literal (`Refutation::add_on_first`). A proof may have hints (LRAT, as text), told by its first line: then
/// each clause has to follow by them. The check ends as soon as the empty clause
/// follows, and reads no step after it; a formula that propagation alone refutes needs no steps. It rejects bytes that
/// spell no step, the first step whose clause was found to be neither, and a proof that ends before the empty clause
/// follows. A step with `u64`'s greatest number is rejected, whatever it does. What a refuted formula says of runs is
/// `law_of_refutation` and `law_of_induction`.
pub fn check<R: Read>(alloc: Global, formula: &Formula, proof: &mut R) -> Result<(), ProofFault>
    ensures refuted { OnOk result (IsUnsatisfiable formula.now.clauses) }
    ensures count { R.failures proof.new ≡ R.failures proof.old + check_reads_failed result }
    ensures whole { result ≡ Err ProofFault.NoRefutation → IfSome (R.left proof.old) IsProof }
    ensures step { (n : ℕ) → result ≡ Err (ProofFault.Step n) → n + 1 < 2 ^ 64 →
        IfSome (R.left proof.old) (HasAddition n) }
{
    let mut steps = ProofReader::new(alloc, formula.variables());
    let is_hinted = steps.is_hinted(proof)?;
    let mut refutation = match formula.refutation(alloc, is_hinted) {
        Ok(refutation) => refutation,
        Err(Memory) => return Err(ProofFault::Memory),
    };
    check_steps(&mut refutation, &mut steps, proof, is_hinted)
}
