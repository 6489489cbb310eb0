//! The state of a session, and what the words of a line mean in it.
ghost use Rattle.std.specs.Prelude.{◌≡◌, ◌≢◌, ℕ, ◌<◌, ◌≤◌, ◌↔◌, List, All, IfErr, IfNone, IfOk, IfSome, IsTrue, length};
ghost use Rattle.std.specs.Prelude.{slice_get};
ghost use Rattle.aig_parts.specs.Literal.{variable};
ghost use Rattle.aig_base.specs.Sections.{IsDefined, IsLatchLiteral};
ghost use Rattle.aig_bench.specs.BenchState.{HasValue};
ghost use Rattle.aig_signals.specs.Lookup.{Means, Unknown, alone};
ghost use Rattle.aig_signals.specs.Signals.{signals_of};
ghost use Rattle.aig_shell.specs.Edits.{ArePositions, MeansInputs, MeansLatches};
ghost use Rattle.aig_shell.specs.Latches.{AreAlike, AreAlike-prop};
ghost use Rattle.aig_base.specs.Runs.{Allows};
ghost use Rattle.aig_base.specs.Value.{reset_value, start_of};
ghost use Rattle.std.proofs.Props.{props};

pub(crate) mod at_once;
pub(crate) mod edits;
pub(crate) mod frames;
mod properties;
pub(crate) mod requests;
pub(crate) mod run_kept;

use crate::refusal::{Refusal, Wanted};
use crate::session::run_kept::{FirstRun, KeptRun};
use aig_base::{Circuit, Definition, Latch, List, Lit, Memory, Tern};
use aig_bench::{Bench, BenchFault};
use aig_command::{GivenRun, RunFault};
use aig_signals::{Signal, SignalNames, decimal_of, signals_of};
use aig_sim::{PlaneGrid, Stimulus};
use aig_why::ExplainedRun;
use std::alloc::Global;

/// How many words of a line are looked up at once; fewer are looked up one by one.
const MANY: usize = 8;

/// A circuit with a start and rows, as they are now, and what is known of them.
pub(crate) struct Session {
    pub(crate) alloc: Global,
    /// The bench, whose circuit starts by its resets as the run does; and the latches with the resets of the file.
    pub(crate) run: ExplainedRun<PlaneGrid>,
    /// The property of the witness that was opened.
    pub(crate) property: Option<u32>,
    /// The signals of the circuit.
    pub(crate) signals: Vec<Signal>,
    /// The run that was read.
    pub(crate) first: FirstRun,
    /// The run that was read or written last.
    pub(crate) kept: KeptRun,
    /// Whether a gate or an output was edited since the circuit was read or written.
    pub(crate) has_edited_circuit: bool,
    // The signals are those of the circuit.
    ghost has_signals: { signals.items ≡ signals_of run.bench.pair.circuit } by { Prim.hlevel props },
    // The latches with the resets of the file are those of the circuit.
    ghost has_latches: { AreAlike run.latches.items run.bench.pair.circuit.latches } by { AreAlike-prop _ _ },
    // The circuit has the property.
    ghost has_property: { IfSome property (λ k. k < length run.bench.pair.circuit.bad) } by { Prim.hlevel props },
}

// By hand: a value then ends in one call, which is one step of a proof (docs/PROOFS.md, Habits).
impl Drop for Session {
    fn drop(self) {
        let Session {
            alloc: _,
            run: _,
            property: _,
            signals: _,
            first: _,
            kept: _,
            has_edited_circuit: _,
        } = self;
    }
}

/// A word without a `!` in front.
fn without_not(word: &[u8]) -> &[u8] {
    match word.first() {
        Some(first) if *first == b'!' => &word[1..],
        _ => word,
    }
}

/// The position of the input that a literal is.
fn input_at(circuit: &Circuit, literal: Lit) -> Option<u32>
    ensures some { IfSome result (λ p. slice_get circuit.now.inputs p ≡ Some literal) }
    ensures none { IfNone result ((p : ℕ) → slice_get circuit.now.inputs p ≡ Some literal → ⊥) }
{
    // Its contract says that it is a circuit.
    circuit.facts();
    match circuit.definition(literal.var()) {
        Some(Definition::Input(position)) => {
            if literal.is_neg() {
                None
            } else {
                Some(position)
            }
        }
        Some(Definition::Latch(_)) => None,
        Some(Definition::Gate(_)) => None,
        None => None,
    }
}

/// The positions of the inputs that literals are; none where one is no input.
fn positions_of(
    alloc: Global,
    circuit: &Circuit,
    literals: &[Lit],
) -> Result<Option<Vec<u32>>, Memory>
    ensures some { IfOk result (λ found. IfSome found (λ positions.
        ArePositions circuit.now literals.now positions.items)) }
    ensures none { IfOk result (λ found. IfNone found ((positions : List ℕ) →
        ArePositions circuit.now literals.now positions → ⊥)) }
{
    let mut positions = Vec::new(alloc);
    for literal in literals {
        match input_at(circuit, *literal) {
            Some(position) => positions.push(position)?,
            None => return Ok(None),
        }
    }
    Ok(Some(positions))
}

/// Whether a literal is one of a latch.
fn is_latch(circuit: &Circuit, literal: Lit) -> bool
    ensures { IsTrue result ↔ IsLatchLiteral circuit.now literal }
{
    // Its contract says that it is a circuit.
    circuit.facts();
    match circuit.definition(literal.var()) {
        Some(Definition::Latch(_)) => !literal.is_neg(),
        Some(Definition::Input(_)) => false,
        Some(Definition::Gate(_)) => false,
        None => false,
    }
}

/// Whether literals are those of latches.
fn are_latches(circuit: &Circuit, literals: &[Lit]) -> bool
    ensures { IsTrue result ↔ All (IsLatchLiteral circuit.now) literals.now }
{
    for literal in literals {
        if !is_latch(circuit, *literal) {
            return false;
        }
    }
    true
}

/// Whether the reset of a latch does not allow the start that another reset says.
fn starts_elsewhere(own: Latch, now: Latch) -> bool
    ensures { IsTrue result ↔ (Allows own (reset_value now.reset) → ⊥) }
{
    if own.reset == own.lit {
        return false;
    }
    let reset = aig_sim::first_value(own);
    let start = aig_sim::first_value(now);
    start != reset
}

impl Session {
    // Not at the top: a type with ghost fields stands on all that its file names there, and these files name the type.
    ghost use Rattle.aig_shell.specs.Conversation.{RefusesRows};
    ghost use Rattle.aig_shell.specs.Reasons.{IsFirstWrong};
    ghost use Rattle.aig_shell.specs.Session.{BeginsAt, IsIn, KeepsRun, first_state, own_circuit};
    ghost use Rattle.aig_shell.specs.Standing.{StartsRight};

    /// Of a circuit and a run of it.
    pub(crate) fn new(alloc: Global, circuit: Circuit, given: GivenRun) -> Result<Session, RunFault>
        requires start { length given.start.items ≡ length circuit.latches }
        requires width { given.rows.width ≡ length circuit.inputs }
        requires property { IfSome given.property (λ k. k < length circuit.bad) }
        ensures begins { IfOk result (λ s. BeginsAt circuit given.start.items given.rows.rows s.run.bench.pair) }
        ensures state { IfOk result (λ s. IsIn s (first_state circuit given.property s.run.bench.pair)) }
        ensures refused { IfErr result (RefusesRows circuit given.rows.rows) }
    {
        // Its contract says that it is a circuit.
        circuit.facts();
        let signals = signals_of(alloc, &circuit)?;
        let GivenRun {
            property,
            start,
            rows,
        } = given;
        let run = ExplainedRun::new(alloc, circuit, start.as_slice(), rows)?;
        let first = FirstRun::of(alloc, &run.bench)?;
        let kept = KeptRun::of(alloc, &run.bench)?;
        Ok(Session {
            alloc,
            run,
            property,
            signals,
            first,
            kept,
            has_edited_circuit: false,
        })
    }

    /// The bench.
    pub(crate) fn bench(&self) -> &Bench<PlaneGrid>
        ensures { result.now ≡ self.now.run.bench }
    {
        &self.run.bench
    }

    /// The circuit as it is now; its resets are the run's start.
    pub(crate) fn circuit(&self) -> &Circuit
        ensures { result.now ≡ self.now.run.bench.pair.circuit }
    {
        self.run.bench.circuit()
    }

    /// The value of a literal at a frame.
    pub(crate) fn value(&self, frame: u32, literal: Lit) -> Tern
        requires frame { frame < length self.now.run.bench.pair.rows }
        requires defined { IsDefined self.now.run.bench.pair.circuit (variable literal) }
        ensures { HasValue self.now.run.bench.pair frame literal result }
    {
        // Its contract says that the pair is a circuit.
        self.run.bench.width();
        let Ok(value) = self.run.bench.value(frame, literal) else {
            unreachable!()
        };
        value
    }

    /// Why a word is no name: it is a number of no literal, or of one that nothing defines.
    fn unknown<'a>(&self, word: &'a [u8]) -> Refusal<'a> {
        let name = without_not(word);
        let Some(number) = decimal_of(name) else {
            return Refusal::NoName(name);
        };
        let literal = Lit::new(number);
        if literal.var() <= self.circuit().max_var() {
            return Refusal::Undefined(name);
        }
        Refusal::NoLiteral {
            word: name,
            greatest: self.circuit().max_var() * 2 + 1,
        }
    }

    /// The names of the circuit, for these words: what many words mean is found in one walk over the names.
    pub(crate) fn names_for(&self, words: &[&[u8]]) -> Result<SignalNames<'_>, Memory>
        ensures { IfOk result (λ names. names ≡ self.now.run.bench.pair.circuit) }
    {
        let signals = self.signals.as_slice();
        if words.len() < MANY {
            return Ok(SignalNames::of(self.alloc, self.circuit(), signals));
        }
        SignalNames::among(self.alloc, self.circuit(), signals, words)
    }

    /// The literals that a word means, from bit 0 up, by the names of the circuit.
    pub(crate) fn literals_among<'a>(
        &self,
        names: &SignalNames<'_>,
        word: &'a [u8],
    ) -> Result<List<Lit>, Refusal<'a>>
        requires circuit { names.now ≡ self.now.run.bench.pair.circuit }
        ensures ok { IfOk result (Means self.now.run.bench.pair.circuit word.now) }
        ensures err { IfErr result (λ refusal. refusal ≢ Refusal.Memory →
            Unknown self.now.run.bench.pair.circuit word.now) }
    {
        let found = names.look_up(self.alloc, word)?;
        match found {
            Some(literals) => Ok(literals),
            None => Err(self.unknown(word)),
        }
    }

    /// The literals that a word means, from bit 0 up.
    pub(crate) fn literals<'a>(&self, word: &'a [u8]) -> Result<List<Lit>, Refusal<'a>>
        ensures ok { IfOk result (Means self.now.run.bench.pair.circuit word.now) }
        ensures err { IfErr result (λ refusal. refusal ≢ Refusal.Memory →
            Unknown self.now.run.bench.pair.circuit word.now) }
    {
        let names = SignalNames::of(self.alloc, self.circuit(), self.signals.as_slice());
        self.literals_among(&names, word)
    }

    /// The literal that a word means.
    pub(crate) fn literal<'a>(&self, word: &'a [u8]) -> Result<Lit, Refusal<'a>>
        ensures ok { IfOk result (λ literal. Means self.now.run.bench.pair.circuit word.now (alone literal)) }
        ensures err { IfErr result (λ refusal. refusal ≢ Refusal.Memory → (literal : ℕ) →
            Means self.now.run.bench.pair.circuit word.now (alone literal) → ⊥) }
    {
        let literals = self.literals(word)?;
        // Its contract says that it is a circuit.
        self.circuit().facts();
        match literals.as_slice() {
            [literal] => Ok(*literal),
            several => Err(Refusal::Vector {
                word,
                bits: several.len(),
            }),
        }
    }

    /// The positions of the inputs that a word means, from bit 0 up.
    pub(crate) fn inputs<'a>(&self, word: &'a [u8]) -> Result<Vec<u32>, Refusal<'a>>
        ensures ok { IfOk result (λ positions. MeansInputs self.now.run.bench.pair.circuit word.now positions.items) }
        ensures err { IfErr result (λ refusal. refusal ≢ Refusal.Memory → (positions : List ℕ) →
            MeansInputs self.now.run.bench.pair.circuit word.now positions → ⊥) }
    {
        let literals = self.literals(word)?;
        // Its contract says that it is a circuit.
        self.circuit().facts();
        let found = positions_of(self.alloc, self.circuit(), literals.as_slice())?;
        let Some(positions) = found else {
            return Err(Refusal::No {
                word,
                wanted: Wanted::Input,
            });
        };
        Ok(positions)
    }

    /// The literals of the latches that a word means, from bit 0 up.
    pub(crate) fn latches<'a>(&self, word: &'a [u8]) -> Result<List<Lit>, Refusal<'a>>
        ensures ok { IfOk result (MeansLatches self.now.run.bench.pair.circuit word.now) }
        ensures err { IfErr result (λ refusal. refusal ≢ Refusal.Memory → (latches : List ℕ) →
            MeansLatches self.now.run.bench.pair.circuit word.now latches → ⊥) }
    {
        let literals = self.literals(word)?;
        // Its contract says that it is a circuit.
        self.circuit().facts();
        if !are_latches(self.circuit(), literals.as_slice()) {
            return Err(Refusal::No {
                word,
                wanted: Wanted::Latch,
            });
        }
        Ok(literals)
    }

    /// The number of the latch that does not start as its reset says, the least, with its value; none where all do.
    pub(crate) fn other_start(&self) -> Option<(u32, Tern)>
        ensures some { IfSome result (λ found. IsFirstWrong (own_circuit self.now)
            (start_of self.now.run.bench.pair.circuit) found.0 found.1) }
        ensures none { IfNone result (StartsRight (own_circuit self.now) (start_of self.now.run.bench.pair.circuit)) }
    {
        let circuit = self.circuit();
        // Its contract says that it is a circuit.
        circuit.facts();
        let own = self.run.latches.as_slice();
        let now = circuit.latches();
        for place in 0..own.len().min(now.len()) {
            if starts_elsewhere(own[place], now[place]) {
                return Some((place as u32, aig_sim::first_value(now[place])));
            }
        }
        None
    }

    /// Whether all latches start as their resets say, those without one at x.
    pub(crate) fn starts_by_reset(&self) -> bool
        ensures { IsTrue result ↔ (start_of self.now.run.bench.pair.circuit ≡ start_of (own_circuit self.now)) }
    {
        let circuit = self.circuit();
        let own = self.run.latches.as_slice();
        let now = circuit.latches();
        for place in 0..own.len().min(now.len()) {
            let start = aig_sim::first_value(now[place]);
            let reset = aig_sim::first_value(own[place]);
            if start != reset {
                return false;
            }
        }
        true
    }

    /// Whether start or rows are others than those that were read or written last.
    pub(crate) fn has_edited_run(&self) -> bool
        ensures { IsTrue result ↔ (KeepsRun self.now.kept self.now.run.bench.pair → ⊥) }
    {
        !self.kept.is_of(&self.run.bench)
    }
}
