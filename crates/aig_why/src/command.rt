//! The command `why`.
ghost use Rattle.std.specs.Prelude.{◌≡◌, ℕ, ◌+◌, ◌*◌, ◌≤◌, List, [], length, All, Option, option_copied, Ok, Err};
ghost use Rattle.std.specs.Prelude.{◌<◌, IfErr, IfNone, IfOk, IfSome};
ghost use Rattle.aig_bytes.specs.Bytes.{Writes};
ghost use Rattle.aig_bytes.specs.Flow.{flow};
ghost use Rattle.aig_parts.specs.Limits.{cell_limit};
ghost use Rattle.aig_parts.specs.Literal.{variable};
ghost use Rattle.aig_parts.specs.declared.raw.Raw.{Raw};
ghost use Rattle.aig_base.specs.Sections.{IsDefined};
ghost use Rattle.aig_command.specs.Command.{CommandEnds, OfFile};
ghost use Rattle.aig_command.specs.Given.{given_text};
ghost use Rattle.aig_why.specs.Why.{ExplainsRun, IsFrame, least_frame, RefusesRun, run_of, WritesWhy};
ghost use Rattle.aig_why.specs.state.Asked.{IsAskedAs};
ghost use Rattle.aig_why.specs.Named.{IsNamingOf, NamesNothing};

use crate::lines::text_of;
use crate::question::Question;
use crate::run::{ExplainedFrames, ExplainedRun};
use aig_base::{Circuit, Io, Memory, Write, write_all};
use aig_command::{Given, GivenRun, RunFault, WhyFault, read_circuit, read_given};
use aig_signals::{Form, Naming};
use aig_sim::PlaneGrid;
use std::alloc::Global;

/// Which frames are explained: one of them, the last where none is named, and so many frames before it, all where no
/// number is given.
#[derive(Clone, Copy, PartialEq, Eq, Debug)]
pub struct Span {
    pub frame: Option<u32>,
    pub depth: Option<u32>,
}

impl Span {
    /// The frames of a run of so many frames; none where it has no such frame.
    fn frames(self, count: u32) -> Option<ExplainedFrames>
        ensures some { IfSome result (λ f. IsFrame self.frame count f.first
            × (f.last ≡ least_frame self.depth f.first)) }
        ensures none { IfNone result ((t : ℕ) → IsFrame self.frame count t → ⊥) }
    {
        let first = match self.frame {
            Some(frame) if frame < count => frame,
            Some(_) => return None,
            None if count > 0 => count - 1,
            None => return None,
        };
        let last = match self.depth {
            Some(depth) => first.saturating_sub(depth),
            None => 0,
        };
        Some(ExplainedFrames { first, last })
    }
}

/// What is asked of a run: why the literals that a name means are what they are, or without a name why its property is
/// reached, at which frames, and in which form.
#[derive(Clone, Copy)]
pub struct Asked<'a> {
    pub name: Option<&'a [u8]>,
    pub span: Span,
    pub form: Form,
}

/// The lines that explain what is asked for in a run.
fn explain_run(
    alloc: Global,
    run: &ExplainedRun<PlaneGrid>,
    naming: Naming,
    question: Option<&Question>,
    span: Span,
    form: Form,
) -> Result<Vec<u8>, RunFault>
    requires cells { (run.now.bench.pair.circuit.max_var + 1) * length run.now.bench.pair.rows ≤ cell_limit }
    requires range { IfSome (option_copied question)
        (λ q. All (λ l. variable l ≤ run.now.bench.pair.circuit.max_var) q.literals) }
    requires defined { IfSome (option_copied question)
        (λ q. All (λ l. IsDefined run.now.bench.pair.circuit (variable l)) q.literals) }
    requires size { length run.now.latches.items ≡ length run.now.bench.pair.circuit.latches }
    requires none { NamesNothing run.now.bench.pair.circuit naming }
    requires of { (raw : Raw) × IsNamingOf raw run.now.bench.pair naming }
    ensures text { (raw : Raw) → IsNamingOf raw run.now.bench.pair naming → raw.latches ≡ run.now.latches.items →
        (property : Option ℕ) (name : Option (List ℕ)) → IsAskedAs raw name property (option_copied question.entry) →
        IfOk result (λ text. ExplainsRun form raw (run_of run.now.bench.pair) property name span text.items) }
    ensures fault { (raw : Raw) → IsNamingOf raw run.now.bench.pair naming →
        (property : Option ℕ) (name : Option (List ℕ)) → IsAskedAs raw name property (option_copied question.entry) →
        IfErr result (RefusesRun raw (run_of run.now.bench.pair) property name span) }
{
    let Some(question) = question else {
        return Err(RunFault::Why(WhyFault::Name));
    };
    let Some(frames) = span.frames(run.bench.frames()) else {
        return Err(RunFault::Why(WhyFault::Frame));
    };
    Ok(text_of(alloc, run, naming, question, frames, form)?)
}

/// The lines that explain what is asked for in a run that was read with its circuit.
fn explain(
    alloc: Global,
    circuit: Circuit,
    given: GivenRun,
    question: Option<&Question>,
    span: Span,
    form: Form,
) -> Result<Vec<u8>, RunFault>
    requires start { length given.start.items ≡ length circuit.latches }
    requires width { given.rows.width ≡ length circuit.inputs }
    requires range { IfSome (option_copied question) (λ q. All (λ l. variable l ≤ circuit.max_var) q.literals) }
    requires defined { IfSome (option_copied question) (λ q. All (λ l. IsDefined circuit (variable l)) q.literals) }
    ensures text { (property : Option ℕ) (name : Option (List ℕ))
        → IsAskedAs circuit name property (option_copied question.entry) →
        IfOk result (λ text. ExplainsRun form circuit (record { start = given.start.items; rows = given.rows.rows })
        property name span text.items) }
    ensures fault { (property : Option ℕ) (name : Option (List ℕ))
        → IsAskedAs circuit name property (option_copied question.entry) →
        IfErr result (RefusesRun circuit (record { start = given.start.items; rows = given.rows.rows }) property name
        span) }
{
    let GivenRun {
        property: _,
        start,
        rows,
    } = given;
    let naming = Naming::new(alloc, &circuit)?;
    let run = ExplainedRun::new(alloc, circuit, &start, rows)?;
    explain_run(alloc, &run, naming, question, span, form)
}

/// What a name means, none where it means none; without a name the property, if there is one.
fn question_of(
    alloc: Global,
    circuit: &Circuit,
    name: Option<&[u8]>,
    property: Option<u32>,
) -> Result<Option<Question>, Memory>
    requires { IfSome property (λ p. p < length circuit.now.bad) }
    ensures asked { IfOk result (IsAskedAs circuit.now (option_copied name.entry) property) }
    ensures range { IfOk result (λ found. IfSome found
        (λ q. All (λ l. variable l ≤ circuit.now.max_var) q.literals)) }
    ensures defined { IfOk result (λ found. IfSome found
        (λ q. All (λ l. IsDefined circuit.now (variable l)) q.literals)) }
{
    match name {
        Some(name) => Question::of_name(alloc, circuit, name),
        None => match property {
            Some(property) => Ok(Some(Question::of_property(alloc, circuit, property)?)),
            None => Ok(None),
        },
    }
}

/// The lines for the run that is given with a circuit.
fn explain_given(
    alloc: Global,
    circuit: Circuit,
    given: Given<&[u8]>,
    asked: Asked<'_>,
) -> Result<Vec<u8>, RunFault>
    ensures text { IfOk result (λ text. WritesWhy asked.entry.form (given_text given.entry)
        (option_copied asked.entry.name) asked.entry.span circuit (Ok tt) text.items) }
    ensures fault { IfErr result (λ fault. WritesWhy asked.entry.form (given_text given.entry)
        (option_copied asked.entry.name) asked.entry.span circuit (Err fault) []) }
{
    let given = read_given(alloc, &circuit, given)?;
    let question = question_of(alloc, &circuit, asked.name, given.property)?;
    explain(
        alloc,
        circuit,
        given,
        question.as_ref(),
        asked.span,
        asked.form,
    )
}

/// Writes what was explained.
fn write_text<W: Write>(text: &[u8], out: &mut W) -> Result<(), RunFault>
    ensures written { Writes W.written W.failures out.old out.new text.now result }
    ensures output { IfErr result (λ fault. fault ≡ RunFault.Output) }
{
    match write_all(out, text) {
        Ok(()) => Ok(()),
        Err(Io) => Err(RunFault::Output),
    }
}

/// The command `why`: writes why the literals that a name means are what they are at a frame of the run that is given,
/// in lines of which each is right by itself, as text or as JSON. Without a name it explains the property of the
/// witness that is given, whatever the verdict on that; without a witness nothing is asked for then, and
/// `WhyFault::Name` is the answer.
pub fn why<W: Write>(
    alloc: Global,
    circuit: &[u8],
    given: Given<&[u8]>,
    asked: Asked<'_>,
    out: &mut W,
) -> Result<(), RunFault>
    ensures ends { CommandEnds (flow W.written W.failures out.old out.new) RunFault.Output
        (OfFile circuit.now (WritesWhy asked.entry.form (given_text given.entry) (option_copied asked.entry.name)
        asked.entry.span)) result }
{
    let circuit = read_circuit(alloc, circuit)?;
    let text = explain_given(alloc, circuit, given, asked)?;
    write_text(&text, out)
}
