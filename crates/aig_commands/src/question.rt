//! What is asked of a circuit's file, of a SAT solver.
ghost use Rattle.std.specs.Prelude.{◌≡◌, IfErr, IfOk, OnOk};
ghost use Rattle.aig_commands.specs.Questions.{asked_of, certificate_of, heading_of, query_of, question_map};
ghost use Rattle.aig_commands.specs.state.About.{HasItsFormula, IsAbout, IsItsFormula, RefusesFile, RefusesFiles};
ghost use Rattle.aig_commands.specs.state.About.{RefusesItsFormula, subject_of};
ghost use Rattle.aig_command.specs.Command.{IsFileOf};

use crate::certified::{Certified, Purpose};
use aig_base::Circuit;
use aig_cnf::{CnfFault, Goal, Heading, Query, ReadFormula};
use aig_command::{RunFault, read_circuit};
use std::alloc::Global;

/// What is asked of a circuit's file. A certificate is its bytes, or an open file. A property is a bad state property,
/// counted from 0.
#[derive(Clone, Copy, Drop)]
pub enum Question<C> {
    /// Whether a run from a start that the resets allow reaches the property within the frames.
    Within { frames: u32, property: u32 },
    /// Whether one of any length does, by the step of an induction over the frames: a run from any state reaches the
    /// property at the frame after these, and at none of them.
    Step { frames: u32, property: u32 },
    /// Whether some run from such a start keeps all constraints at each of the first so many frames.
    Alive { frames: u32 },
    /// Whether a run of any length reaches the property, by the induction over one frame for the circuit that is
    /// strengthened by the file of a certificate.
    Certified { certificate: C, property: u32 },
}

/// Reads a circuit's file.
fn read_file(alloc: Global, file: &[u8]) -> Result<Circuit, RunFault>
    ensures circuit { IfOk result (IsFileOf file.now) }
    ensures refused { IfErr result (RefusesFile file.now) }
{
    match read_circuit(alloc, file) {
        Ok(circuit) => Ok(circuit),
        Err(fault) => Err(RunFault::Circuit(fault)),
    }
}

/// The induction over one frame, for a strengthened circuit.
pub(crate) const INDUCTION: Query = Query {
    goal: Goal::Induction,
    frames: 1,
    property: 0,
};

impl<C: Drop> Question<C> {
    /// The same question with this certificate, if it has one.
    pub fn with<D: Drop>(&self, certificate: D) -> Question<D>
        ensures { result ≡ question_map (λ own. certificate) self.now }
    {
        match self {
            Question::Within { frames, property } => Question::Within {
                frames: *frames,
                property: *property,
            },
            Question::Step { frames, property } => Question::Step {
                frames: *frames,
                property: *property,
            },
            Question::Alive { frames } => Question::Alive { frames: *frames },
            Question::Certified { property, .. } => Question::Certified {
                certificate,
                property: *property,
            },
        }
    }

    /// Its certificate and the property that this is for, if it has one.
    pub fn certificate(self) -> Option<(C, u32)>
        ensures { result ≡ certificate_of self }
    {
        match self {
            Question::Certified {
                certificate,
                property,
            } => Some((certificate, property)),
            _ => None,
        }
    }
}

/// What the first line of a question's formula says.
pub(crate) fn heading_of(question: Question<&[u8]>) -> Heading
    ensures { result ≡ heading_of (asked_of question.entry) }
{
    match question {
        Question::Within { frames, property } => Heading::Runs(Query {
            goal: Goal::Within,
            frames,
            property,
        }),
        Question::Step { frames, property } => Heading::Runs(Query {
            goal: Goal::Step,
            frames,
            property,
        }),
        Question::Alive { frames } => Heading::Alive(frames),
        Question::Certified { property, .. } => Heading::Certified(property),
    }
}

/// The query whose formula is that of a question.
pub(crate) fn query_of(question: Question<&[u8]>) -> Query
    ensures { result ≡ query_of (asked_of question.entry) }
{
    match heading_of(question) {
        Heading::Runs(query) => query,
        Heading::Alive(frames) => Query {
            goal: Goal::Last,
            frames,
            property: 0,
        },
        Heading::Certified(_) => INDUCTION,
    }
}

/// Reads the circuit that a question is about: that of the file, or the one that a certificate makes of it.
pub(crate) fn circuit_of(
    alloc: Global,
    question: Question<&[u8]>,
    file: &[u8],
) -> Result<Circuit, RunFault>
    ensures about { IfOk result (IsAbout (certificate_of (asked_of question.entry)) file.now) }
    ensures refused { IfErr result (RefusesFiles (certificate_of (asked_of question.entry)) file.now) }
{
    match question.certificate() {
        None => read_file(alloc, file),
        Some((certificate, property)) => {
            let certified = Certified {
                circuit: file,
                property,
                certificate,
            };
            certified.strengthened(alloc, Purpose::Formula)
        }
    }
}

/// Makes the formula of a question, over the part of the circuit that it reads. The circuit starts where the formula has
/// it start from then on.
pub(crate) fn formula_of(
    alloc: Global,
    question: Question<&[u8]>,
    circuit: &mut Circuit,
) -> Result<ReadFormula, CnfFault>
    ensures formula { IfOk result (IsItsFormula (heading_of (asked_of question.entry)) circuit.old) }
    ensures accepted { OnOk result (HasItsFormula (heading_of (asked_of question.entry)) circuit.old) }
    ensures refused { IfErr result (RefusesItsFormula (heading_of (asked_of question.entry)) circuit.old) }
    ensures circuit { circuit.new ≡ subject_of (heading_of (asked_of question.entry)) circuit.old }
{
    match heading_of(question) {
        Heading::Runs(query) => ReadFormula::of(alloc, circuit, query),
        Heading::Alive(frames) => ReadFormula::alive(alloc, circuit, frames),
        Heading::Certified(_) => ReadFormula::of(alloc, circuit, INDUCTION),
    }
}
