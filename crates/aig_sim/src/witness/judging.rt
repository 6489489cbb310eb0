//! The verdict on a witness whose run is recorded.
ghost use Rattle.std.specs.Prelude.{◌≡◌, ℕ, ◌<◌, ◌++◌, ◌∷◌, List, [], length, IfNone, IfSome};
ghost use Rattle.aig_parts.specs.declared.raw.Raw.{Raw};
ghost use Rattle.aig_parts.specs.declared.ternary.Tern.{Tern};
ghost use Rattle.aig_values.specs.state.Frame.{HoldsAll};
ghost use Rattle.aig_sim.specs.Verdict.{IsVerdict, StartsWrong};
ghost use Rattle.aig_sim.specs.WitnessText.{Witness};
ghost use Rattle.aig_sim.specs.state.Checking.{ReadsNotOne};
ghost use Rattle.aig_sim.specs.state.Judging.{HasJudged, JudgesRun, StartsWrongFirst};

use crate::simulation::machine::Machine;
use crate::simulation::recorder::Recorder;
use crate::witness::verdict::Verdict;
use crate::witness::{first_failure, is_bad};
use aig_base::{Io, Write};

/// A constraint that is not 1: its frame, and its position.
#[derive(Clone, Copy)]
pub struct FailedConstraint {
    pub frame: u32,
    pub position: u32,
}

/// What the verdict goes by: how many frames there were (`u32::MAX` for more), and the first constraint that is not 1.
#[derive(Clone, Copy)]
pub struct Judgement {
    pub frames: u32,
    pub failure: Option<FailedConstraint>,
}

// The first constraint that is not 1 at the machine's last frame, which has this number.
fn failure_at(machine: &Machine<'_>, frame: u32) -> Option<FailedConstraint>
    ensures frame { IfSome result (λ at. at.frame ≡ frame) }
    ensures some { IfSome result (λ at. ReadsNotOne machine.now.cells machine.now.circuit.constraints at.position) }
    ensures least { IfSome result (λ at. (q : ℕ) → q < at.position →
        ReadsNotOne machine.now.cells machine.now.circuit.constraints q → ⊥) }
    ensures none { IfNone result ((q : ℕ) → ReadsNotOne machine.now.cells machine.now.circuit.constraints q → ⊥) }
{
    let position = first_failure(machine)?;
    Some(FailedConstraint { frame, position })
}

impl Judgement {
    /// Before the first frame.
    pub fn new() -> Judgement
        ensures { (raw : Raw) (start : List Tern) → HasJudged raw start [] result }
    {
        Judgement {
            frames: 0,
            failure: None,
        }
    }

    /// After the machine's last frame.
    pub fn with_frame(self, machine: &Machine<'_>) -> Judgement
        ensures { (start : List Tern) (rows : List (List Tern)) (row : List Tern) →
            HasJudged machine.now.circuit start rows self →
            HoldsAll machine.now.circuit start (rows ++ row ∷ []) (length rows) machine.now.cells →
            HasJudged machine.now.circuit start (rows ++ row ∷ []) result }
    {
        // Its contract says that this is a circuit.
        machine.circuit();
        let failure = match self.failure {
            Some(at) => Some(at),
            None => failure_at(machine, self.frames),
        };
        Judgement {
            frames: self.frames.saturating_add(1),
            failure,
        }
    }

    /// The verdict on the run whose last frame the machine has, if this latch is the first that starts at a wrong value.
    pub fn verdict(self, machine: &Machine<'_>, wrong: Option<u32>, property: u32) -> Verdict
        requires { property < length machine.now.circuit.bad }
        ensures { (w : Witness) → JudgesRun machine.now.circuit w machine.now.cells self →
            IfSome wrong (StartsWrongFirst machine.now.circuit w.start) →
            IfNone wrong ((p : ℕ) → StartsWrong machine.now.circuit w.start p → ⊥) → property ≡ w.property →
            IsVerdict machine.now.circuit w result }
    {
        // Its contract says that this is a circuit.
        machine.circuit();
        if let Some(position) = wrong {
            return Verdict::Initial(position);
        }
        if let Some(at) = self.failure {
            return Verdict::Constraint(at.frame, at.position);
        }
        if is_bad(machine, property) {
            return Verdict::Confirmed;
        }
        Verdict::NotBad
    }
}

/// Writes what its recorder writes, and judges each frame.
#[derive(Drop)]
pub struct Judging<T> {
    pub recorder: T,
    pub judgement: Judgement,
}

impl<T> Judging<T> {
    /// Before the first frame.
    pub fn new(recorder: T) -> Judging<T>
        ensures recorder { result.recorder ≡ recorder }
        ensures judged { (raw : Raw) (start : List Tern) → HasJudged raw start [] result.judgement }
    {
        Judging {
            recorder,
            judgement: Judgement::new(),
        }
    }
}

impl<T: Recorder> Recorder for Judging<T> {
    ghost use Rattle.aig_sim.specs.state.Judging.{RecordsAndJudges};

    ghost is_text = { λ raw start rows text. T.is_text raw start rows text };

    ghost fits = { λ j raw. T.fits j.recorder raw };

    ghost has_recorded = { λ j raw start rows.
        RecordsAndJudges T.has_recorded j.recorder j.judgement raw start rows };

    ghost frame_text = { λ j raw t cells. T.frame_text j.recorder raw t cells };

    fn record<W: Write>(
        &mut self,
        out: &mut W,
        machine: &Machine<'_>,
        frame: u64,
    ) -> Result<(), Io> {
        self.recorder.record(out, machine, frame)?;
        self.judgement = self.judgement.with_frame(machine);
        Ok(())
    }
}
