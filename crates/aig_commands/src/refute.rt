//! `refute`: what a solver's proof says of a circuit's file: that no run reaches a bad state within some frames, or
//! none of any length does, or that no run keeps all constraints.
ghost use Rattle.std.specs.Prelude.{◌≡◌, ◌≢◌, ◌+◌, ◌^◌, ◌<◌, ℕ, Err, IfErr, IfSome, OnErr, OnOk};
ghost use Rattle.aig_bytes.specs.Bytes.{Writes};
ghost use Rattle.aig_bytes.specs.Flow.{flow};
ghost use Rattle.aig_sat.specs.checker.Consequence.{IsUnsatisfiable};
ghost use Rattle.aig_sat.specs.proof.Proofs.{HasAddition, IsProof};
ghost use Rattle.aig_command.specs.Command.{CommandEnds};
ghost use Rattle.aig_commands.specs.Questions.{ChecksFor, PrintsAnswer, RefutesQuestion, Says, asked_of, heading_of};
ghost use Rattle.aig_commands.specs.Refute.{ChecksStep, answer_line, proof_reads_failed, step_reads_failed};
ghost use Rattle.aig_commands.specs.state.About.{Answers, ChecksFormula, IsChecked, IsOfStepProof, ReadsProofs};

use crate::question::{Question, circuit_of, formula_of, query_of};
use aig_base::{Circuit, Io, Read, Write, write_all, write_number};
use aig_cnf::{Goal, Query, ReadFormula};
use aig_command::RunFault;
use aig_refute::check;
use aig_sat::ProofFault;
use std::alloc::Global;

/// The proofs of a question.
#[derive(Drop)]
pub struct Proofs<R, S> {
    /// That no assignment satisfies the formula.
    pub proof: R,
    /// For an induction by steps, that none satisfies the formula of the step.
    pub step: S,
}

/// Checks a proof that no assignment satisfies the formula of a question.
fn check_formula<R: Read, S: Read>(
    alloc: Global,
    circuit: &mut Circuit,
    question: Question<&[u8]>,
    proofs: &mut Proofs<R, S>,
) -> Result<(), RunFault>
    ensures checks { ChecksFormula (heading_of (asked_of question.entry)) circuit.old result }
    ensures reads { ReadsProofs R.left R.failures S.left S.failures proofs.old proofs.new result }
{
    let read = formula_of(alloc, question, circuit)?;
    check(alloc, read.formula(), &mut proofs.proof)?;
    Ok(())
}

/// Checks a proof about the formula of an induction step.
fn check_later<R: Read>(alloc: Global, later: &ReadFormula, step: &mut R) -> Result<(), RunFault>
    ensures refuted { OnOk result (IsUnsatisfiable later.now.cnf.clauses) }
    ensures fault { IfErr result IsOfStepProof }
    ensures reads { proof_reads_failed result ≡ 0 }
    ensures reads_step { R.failures step.new ≡ R.failures step.old + step_reads_failed result }
    ensures whole_step { result ≡ Err (RunFault.StepProof ProofFault.NoRefutation) → IfSome (R.left step.old) IsProof }
    ensures named_step { (n : ℕ) → result ≡ Err (RunFault.StepProof (ProofFault.Step n)) → n + 1 < 2 ^ 64 →
        IfSome (R.left step.old) (HasAddition n) }
{
    match check(alloc, later.formula(), step) {
        Ok(()) => Ok(()),
        Err(fault) => Err(RunFault::StepProof(fault)),
    }
}

/// Checks both proofs that no run of any length reaches the property of a query, by an induction over its frames. Neither
/// is read before both formulas are made.
fn check_step<R: Read, S: Read>(
    alloc: Global,
    circuit: &mut Circuit,
    query: Query,
    proofs: &mut Proofs<R, S>,
) -> Result<(), RunFault>
    ensures checks { ChecksStep query.frames query.property circuit.old result }
    ensures reads { ReadsProofs R.left R.failures S.left S.failures proofs.old proofs.new result }
{
    circuit.facts();
    let within = Query {
        goal: Goal::Within,
        ..query
    };
    let stepped = Query {
        goal: Goal::Step,
        ..query
    };
    let base = ReadFormula::of(alloc, circuit, within)?;
    let later = ReadFormula::of(alloc, circuit, stepped)?;
    circuit.facts();
    check(alloc, base.formula(), &mut proofs.proof)?;
    check_later(alloc, &later, &mut proofs.step)
}

/// Checks the proof of a question, and for an induction by steps the proof of the step.
fn check_question<R: Read, S: Read>(
    alloc: Global,
    circuit: &mut Circuit,
    question: Question<&[u8]>,
    proofs: &mut Proofs<R, S>,
) -> Result<(), RunFault>
    ensures checks { ChecksFor (asked_of question.entry) circuit.old result }
    ensures reads { ReadsProofs R.left R.failures S.left S.failures proofs.old proofs.new result }
{
    circuit.facts();
    let query = query_of(question);
    match query.goal {
        Goal::Within => check_formula(alloc, circuit, question, proofs),
        Goal::Last => check_formula(alloc, circuit, question, proofs),
        Goal::Step => check_step(alloc, circuit, query, proofs),
        Goal::Induction => check_formula(alloc, circuit, question, proofs),
    }
}

/// Reads a circuit, and checks a proof about it.
fn read_and_check<R: Read, S: Read>(
    alloc: Global,
    file: &[u8],
    question: Question<&[u8]>,
    proofs: &mut Proofs<R, S>,
) -> Result<(), RunFault>
    ensures checks { IsChecked (asked_of question.entry) file.now result }
    ensures says { OnOk result (Says (asked_of question.entry) file.now) }
    ensures reads { ReadsProofs R.left R.failures S.left S.failures proofs.old proofs.new result }
{
    let mut circuit = circuit_of(alloc, question, file)?;
    circuit.facts();
    check_question(alloc, &mut circuit, question, proofs)
}

/// Writes the line that answers.
fn write_line<W: Write>(goal: Goal, frames: u32, out: &mut W) -> Result<(), Io>
    ensures { Writes W.written W.failures out.old out.new (answer_line goal frames) result }
{
    match goal {
        Goal::Within => {
            write_all(out, b"unreachable within ")?;
            write_number(out, frames)?;
            write_all(out, b"\n")
        }
        Goal::Last => {
            write_all(out, b"no run of ")?;
            write_number(out, frames)?;
            write_all(out, b" frames\n")
        }
        Goal::Step => write_all(out, b"unreachable\n"),
        Goal::Induction => write_all(out, b"unreachable\n"),
    }
}

/// Writes the answer.
fn write_text<W: Write>(goal: Goal, frames: u32, out: &mut W) -> Result<(), RunFault>
    ensures written { Writes W.written W.failures out.old out.new (answer_line goal frames) result }
    ensures output { IfErr result (λ fault. fault ≡ RunFault.Output) }
{
    match write_line(goal, frames, out) {
        Ok(()) => Ok(()),
        Err(Io) => Err(RunFault::Output),
    }
}

/// Writes the answer if a check went well.
fn write_checked<W: Write>(
    checked: Result<(), RunFault>,
    goal: Goal,
    frames: u32,
    out: &mut W,
) -> Result<(), RunFault>
    ensures ends { CommandEnds (flow W.written W.failures out.old out.new) RunFault.Output
        (Answers (answer_line goal frames) checked) result }
    ensures none { OnErr checked (W.written out.new ≡ W.written out.old) }
{
    match checked {
        Ok(()) => write_text(goal, frames, out),
        Err(fault) => Err(fault),
    }
}

/// The command `refute`: reads a circuit and checks a solver's proof that no assignment satisfies the formula that
/// `cnf` writes for a question. If it is one, that says something of the file, whatever values are unknown, and one
/// line says so. Nothing is believed of a certificate or of a proof. The proof is never held whole. It is not read if a
/// file is rejected, or if there is no such formula. Only its first block is read if propagation alone refutes the
/// formula. Only `Question::Step` reads `step`: `proof` is then about the formula of `Question::Within`, and `step`
/// about that of the step. Neither is read before it is known that there are both formulas.
///
/// - `Question::Within`: no run from a start that the resets allow reaches the property within the frames.
/// - `Question::Step`, `Question::Certified`: no run of any length from such a start reaches it.
/// - `Question::Alive`: no run from such a start keeps all constraints at its first so many frames. So a bad state is
///   unreachable from there on whatever it says.
pub fn refute<R: Read, S: Read, W: Write>(
    alloc: Global,
    file: &[u8],
    question: Question<&[u8]>,
    proofs: &mut Proofs<R, S>,
    out: &mut W,
) -> Result<(), RunFault>
    ensures says { OnOk result (Says (asked_of question.entry) file.now) }
    ensures printed { PrintsAnswer (W.written out.old) (W.written out.new) (asked_of question.entry) file.now }
    ensures ends { CommandEnds (flow W.written W.failures out.old out.new) RunFault.Output
        (RefutesQuestion (asked_of question.entry) file.now) result }
    ensures reads { result ≢ Err RunFault.Output →
        R.failures proofs.new.proof ≡ R.failures proofs.old.proof + proof_reads_failed result }
    ensures reads_step { result ≢ Err RunFault.Output →
        S.failures proofs.new.step ≡ S.failures proofs.old.step + step_reads_failed result }
    ensures whole { result ≡ Err (RunFault.Proof ProofFault.NoRefutation) → IfSome (R.left proofs.old.proof) IsProof }
    ensures whole_step { result ≡ Err (RunFault.StepProof ProofFault.NoRefutation) → IfSome (S.left proofs.old.step) IsProof }
    ensures named { (n : ℕ) → result ≡ Err (RunFault.Proof (ProofFault.Step n)) → n + 1 < 2 ^ 64 →
        IfSome (R.left proofs.old.proof) (HasAddition n) }
    ensures named_step { (n : ℕ) → result ≡ Err (RunFault.StepProof (ProofFault.Step n)) → n + 1 < 2 ^ 64 →
        IfSome (S.left proofs.old.step) (HasAddition n) }
{
    let checked = read_and_check(alloc, file, question, proofs);
    let query = query_of(question);
    write_checked(checked, query.goal, query.frames, out)
}
