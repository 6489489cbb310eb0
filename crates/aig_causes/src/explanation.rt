//! Explanations, frame by frame from the last one down.
ghost use Rattle.std.specs.Prelude.{◌≡◌, ℕ, ◌+◌, ◌∷◌, ◌++◌, [], ◌-◌, ◌<◌, ◌≤◌, ◌↔◌, List, length, All, IfOk, IfNone};
ghost use Rattle.std.specs.Prelude.{IfSome, OnOk, OnErr, IsTrue, option_to_list};
ghost use Rattle.aig_parts.specs.Literal.{variable};
ghost use Rattle.aig_base.specs.Sections.{IsDefined, IsLatchLiteral};
ghost use Rattle.aig_bench.specs.BenchState.{CircuitAndRows};
ghost use Rattle.aig_causes.specs.Causes.{moment};
ghost use Rattle.aig_causes.specs.Explanation.{AreNamedBetween, ExplainThemselves, HasCome, IsAsked, IsLine, IsNamed};
ghost use Rattle.aig_causes.specs.Explanation.{IsOf, LineState};

use crate::asked::ask;
use crate::causes::Causes;
use crate::explainer::Explainer;
use crate::latch_set::LatchSet;
use crate::line::{Line, line_of};
use aig_base::{Lit, Memory};
use aig_bench::Bench;
use aig_values::Grid;
use std::alloc::Global;
use std::marker::Model;
use std::mem::swap;

/// What explains literals of a run, line by line and frame by frame. It keeps what is named at one frame and at the
/// frame before it, so memory does not grow with the frames.
pub struct Explanation {
    explainer: Explainer,
    asked: Causes,
    latches_alone: bool,
    frame: u32,
    named: LatchSet,
    end: u32,
    below: LatchSet,
}

// By hand: a value then ends in one call, which is one step of a proof (docs/PROOFS.md, Habits).
impl Drop for Explanation {
    fn drop(self) {
        let Explanation {
            explainer: _,
            asked: _,
            latches_alone: _,
            frame: _,
            named: _,
            end: _,
            below: _,
        } = self;
    }
}

impl Model for Explanation {
    ghost use Rattle.aig_causes.specs.Explanation.{ExplanationState};

    ghost Value = { ExplanationState };

    ghost view = { λ e. record {
      variables = e.explainer;
      asked = e.asked;
      latches_alone = e.latches_alone;
      frame = e.frame;
      named = e.named.flags.items;
      end = e.end;
      below = e.below.flags.items;
    } };
}

impl Explanation {
    /// What explains these literals at a frame. A latch that is asked for explains itself, where all literals are ones
    /// of latches; else it is what `Explainer::causes` finds. It takes memory as an explainer does, and two bytes a
    /// latch.
    pub fn new<G: Grid>(
        alloc: Global,
        bench: &Bench<G>,
        frame: u32,
        literals: &[Lit],
    ) -> Result<Explanation, Memory>
        requires frame { frame < length bench.now.pair.rows }
        requires range { All (λ l. variable l ≤ bench.now.pair.circuit.max_var) literals.now }
        requires defined { All (λ l. IsDefined bench.now.pair.circuit (variable l)) literals.now }
        ensures asked { IfOk result (λ e.
            IsAsked bench.now.pair.circuit (moment bench.now.pair frame) literals.now e.asked) }
        ensures alone { IfOk result (λ e.
            IsTrue e.latches_alone ↔ All (IsLatchLiteral bench.now.pair.circuit) literals.now) }
        ensures themselves { IfOk result (λ e. IsTrue e.latches_alone →
            ExplainThemselves bench.now.pair.circuit literals.now e.asked) }
        ensures frame { IfOk result (λ e. e.frame ≡ frame) }
        ensures bench { IfOk result (IsOf bench.now.pair) }
        ensures end { IfOk result (λ e. e.end ≡ 0) }
        ensures come { IfOk result (λ e. HasCome bench.now.pair literals.now e [] []) }
    {
        // Its contract says that it is a circuit.
        bench.width();
        let latches = bench.circuit().latches().len();
        let below = LatchSet::none(alloc, latches)?;
        let mut named = LatchSet::none(alloc, latches)?;
        let mut explainer = Explainer::new(alloc, bench)?;
        let (asked, latches_alone) = ask(&mut explainer, alloc, bench, frame, literals)?;
        named.add_all(asked.latches());
        Ok(Explanation {
            explainer,
            asked,
            latches_alone,
            frame,
            named,
            end: 0,
            below,
        })
    }

    /// What explains the literals that were asked for, at their frame.
    pub fn asked(&self) -> &Causes
        ensures { result.now ≡ self.now.asked }
    {
        &self.asked
    }

    /// Whether each literal that was asked for is one of a latch, which explains itself.
    pub fn asks_latches(&self) -> bool
        ensures { result ≡ self.now.latches_alone }
    {
        self.latches_alone
    }

    /// The frame that it has come down to.
    pub fn frame(&self) -> u32
        ensures { result ≡ self.now.frame }
    {
        self.frame
    }

    /// Whether no latch is named at its frame, so that nothing is left to explain.
    pub fn is_complete(&self) -> bool
        ensures { IsTrue result ↔ ((p : ℕ) → IsNamed self.now.named p → ⊥) }
    {
        self.named.is_empty()
    }

    /// The latches that are named at its frame, in order. It takes memory.
    pub fn latches<G: Grid>(&self, alloc: Global, bench: &Bench<G>) -> Result<Vec<u32>, Memory>
        requires { IsOf bench.now.pair self.now }
        ensures { IfOk result (λ latches.
            AreNamedBetween self.now.named 0 (length self.now.named) latches.items) }
    {
        // Its contract says that it is a circuit.
        bench.width();
        let size = bench.circuit().latches().len() as u32;
        self.named.between(alloc, 0, size)
    }

    /// The next line at its frame: the named latches from where the last line ended up to a position, and what explains
    /// them at the frame before. None where none of them is named.
    pub fn line<G: Grid>(&mut self, bench: &Bench<G>, end: u32) -> Result<Option<Line>, Memory>
        requires bench { IsOf bench.now.pair self.old }
        requires frame { 0 < self.old.frame }
        requires order { self.old.end ≤ end }
        requires end { end ≤ length bench.now.pair.circuit.latches }
        ensures line { IfOk result (λ line.
            IfSome line (IsLine bench.now.pair.circuit (moment bench.now.pair (self.old.frame - 1)))) }
        ensures latches { IfOk result (λ line.
            IfSome line (λ x. AreNamedBetween self.old.named self.old.end end x.latches)) }
        ensures none { IfOk result (λ line. IfNone line
            ((p : ℕ) → self.old.end ≤ p → p < end → IsNamed self.old.named p → ⊥)) }
        ensures come { (literals : List ℕ) (frames : List (List LineState)) (lines : List LineState) →
            HasCome bench.now.pair literals self.old frames lines →
            IfOk result (λ line. HasCome bench.now.pair literals self.new frames (lines ++ option_to_list line)) }
        ensures end { OnOk result (self.new.end ≡ end) }
        ensures frame { self.new.frame ≡ self.old.frame }
        ensures named { self.new.named ≡ self.old.named }
        ensures asked { self.new.asked ≡ self.old.asked }
        ensures alone { self.new.latches_alone ≡ self.old.latches_alone }
        ensures unchanged { OnErr result (self.new ≡ self.old) }
        ensures bench { IsOf bench.now.pair self.new }
    {
        let alloc = *self.named.flags.allocator();
        let latches = self.named.between(alloc, self.end, end)?;
        if latches.is_empty() {
            self.end = end;
            return Ok(None);
        }
        let line = line_of(&mut self.explainer, alloc, bench, self.frame - 1, latches)?;
        self.below.add_all(line.causes().latches());
        self.end = end;
        Ok(Some(line))
    }

    /// Goes down to the frame before, where all latches that are named at this one have their line.
    pub fn descend(&mut self)
        requires frame { 0 < self.old.frame }
        requires end { self.old.end ≡ length self.old.named }
        ensures frame { self.new.frame + 1 ≡ self.old.frame }
        ensures asked { self.new.asked ≡ self.old.asked }
        ensures alone { self.new.latches_alone ≡ self.old.latches_alone }
        ensures end { self.new.end ≡ 0 }
        ensures bench { (p : CircuitAndRows) → IsOf p self.old → IsOf p self.new }
        ensures come { (p : CircuitAndRows) (literals : List ℕ) (frames : List (List LineState))
            (lines : List LineState) → HasCome p literals self.old frames lines →
            IsOf p self.old → HasCome p literals self.new (lines ∷ frames) [] }
    {
        swap(&mut self.named, &mut self.below);
        self.below.clear();
        self.end = 0;
        self.frame -= 1;
    }
}
