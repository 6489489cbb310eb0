//! Which properties a run reaches.
ghost use Rattle.std.specs.Prelude.{◌≡◌, ◌≢◌, ◌⊎◌, ◌+◌, ◌<◌, ◌≤◌, ℕ, ◌^◌, false, [], ◌++◌, IfErr, IfNone, IfOk};
ghost use Rattle.std.specs.Prelude.{IfSome, IsTrue, None, OnOk, Some, decimal, length, slice_get};
ghost use Rattle.aig_parts.specs.Literal.{variable};
ghost use Rattle.aig_base.specs.Sections.{IsDefined};
ghost use Rattle.aig_base.specs.Value.{start_of};
ghost use Rattle.aig_sim.specs.Verdict.{StartsWrong};
ghost use Rattle.aig_shell.specs.Answers.{AreStandings, IsChecked, is_condition, line_if, property_name, standing_line};
ghost use Rattle.aig_shell.specs.Answers.{standings_text};
ghost use Rattle.aig_shell.specs.Reasons.{AreConstraints, broken_text, no_property_text, start_text};
ghost use Rattle.aig_shell.specs.Session.{IsIn, own_circuit};
ghost use Rattle.aig_shell.specs.Standing.{HoldAt, HoldBefore, HoldBelow, IsBroken, IsFirstAt, IsNever};
ghost use Rattle.aig_shell.specs.Standing.{IsStanding, StartsRight, standing_text};
ghost use Rattle.aig_shell.specs.State.{SessionState};

use crate::answers::gate::letter;
use crate::pieces::{Piece, push_pieces};
use crate::session::Session;
use aig_base::{Circuit, Kind, Lit, Memory, Tern};
use aig_names::push_position;
use aig_signals::push_first_name;

/// A frame and a constraint that is not 1 there.
#[derive(Clone, Copy, Drop)]
pub(crate) struct Broken {
    pub(crate) frame: u32,
    pub(crate) constraint: u32,
    pub(crate) value: Tern,
}

/// What a run does to a property.
#[derive(Clone, Copy, Drop)]
pub(crate) enum Standing {
    /// It reaches the property at this frame.
    Reached(u32),
    /// The property is 1 there first, but in no run of the circuit.
    NoRun(u32),
    /// It is x there first, and nowhere 1.
    Unknown(u32),
    /// It is 0 at all frames.
    Never,
}

/// Adds `b0 NAME`, or `b0` alone where the property has no name.
pub(crate) fn push_property(
    text: &mut Vec<u8>,
    circuit: &Circuit,
    position: u32,
) -> Result<(), Memory>
    ensures { OnOk result (text.new.items ≡ text.old.items ++ property_name circuit.now position) }
{
    let before = text.len();
    push_position(text, Kind::Bad, position)?;
    let after = text.len();
    text.push(b' ')?;
    push_first_name(text, circuit, Kind::Bad, position)?;
    let is_same = text[after + 1..] == text[before..after];
    if is_same {
        text.truncate(after);
    }
    Ok(())
}

/// Adds a frame between two texts.
fn push_at<'t>(
    text: &mut Vec<u8>,
    before: &'t [u8],
    frame: u32,
    after: &'t [u8],
) -> Result<(), Memory>
    ensures { OnOk result (text.new.items ≡ text.old.items ++ (before.now ++ (decimal frame ++ after.now))) }
{
    let said = [
        Piece::Text(before),
        Piece::Number(u64::from(frame)),
        Piece::Text(after),
    ];
    push_pieces(text, &said)
}

/// Adds what a run does to a property.
fn push_standing(text: &mut Vec<u8>, standing: Standing) -> Result<(), Memory>
    ensures { OnOk result (text.new.items ≡ text.old.items ++ standing_text standing) }
{
    match standing {
        Standing::Reached(frame) => push_at(text, b"reached at ", frame, b""),
        Standing::NoRun(frame) => push_at(text, b"1 at ", frame, b", not a run"),
        Standing::Unknown(frame) => push_at(text, b"not reached, x at ", frame, b""),
        Standing::Never => {
            text.extend_from_slice(b"not reached")?;
            Ok(())
        }
    }
}

/// Says that there is no property, where there is none.
fn push_none(text: &mut Vec<u8>, properties: &[Lit]) -> Result<(), Memory>
    ensures { OnOk result (text.new.items ≡ text.old.items ++ no_property_text properties.now) }
{
    if properties.is_empty() {
        text.extend_from_slice(b"the circuit has no bad state property\n")?;
    }
    Ok(())
}

impl Session {
    /// The first frame at which a literal has a value.
    fn first_at(&self, literal: Lit, value: Tern) -> Option<u32>
        requires { IsDefined self.now.run.bench.pair.circuit (variable literal) }
        ensures some { IfSome result (IsFirstAt self.now.run.bench.pair literal value) }
        ensures none { IfNone result (IsNever self.now.run.bench.pair literal value) }
    {
        let bench = self.bench();
        // Its contract says that the pair is a circuit.
        bench.width();
        for frame in 0..bench.frames() {
            let found = self.value(frame, literal);
            if found == value {
                return Some(frame);
            }
        }
        None
    }

    /// The least constraint that is not 1 at a frame.
    fn broken_at(&self, frame: u32) -> Option<Broken>
        requires { frame < length self.now.run.bench.pair.rows }
        ensures some { IfSome result (λ b. (b.frame ≡ frame)
            × IsBroken self.now.run.bench.pair frame b.constraint b.value
            × HoldBelow self.now.run.bench.pair frame b.constraint) }
        ensures none { IfNone result (HoldAt self.now.run.bench.pair frame) }
    {
        let circuit = self.circuit();
        // Its contract says that it is a circuit.
        circuit.facts();
        for (position, literal) in circuit.constraints().iter().enumerate() {
            let found = self.value(frame, *literal);
            if found != Tern::One {
                return Some(Broken {
                    frame,
                    constraint: position as u32,
                    value: found,
                });
            }
        }
        None
    }

    /// The first frame at which a constraint is not 1, and the least of these constraints.
    fn broken(&self) -> Option<Broken>
        ensures { AreConstraints self.now.run.bench.pair result }
    {
        let bench = self.bench();
        for frame in 0..bench.frames() {
            if let Some(broken) = self.broken_at(frame) {
                return Some(broken);
            }
        }
        None
    }

    /// Whether all constraints are 1 up to a frame, which is there.
    fn holds_to(&self, frame: u32, broken: Option<Broken>) -> bool
        requires frame { frame < length self.now.run.bench.pair.rows }
        requires broken { AreConstraints self.now.run.bench.pair broken }
        ensures yes { IsTrue result → HoldBefore self.now.run.bench.pair (frame + 1) }
        ensures no { result ≡ false → (t : ℕ) × (k : ℕ) × (w : Tern) × (t ≤ frame)
            × IsBroken self.now.run.bench.pair t k w }
    {
        match broken {
            Some(broken) => frame < broken.frame,
            None => true,
        }
    }

    /// Whether the frames up to this one are those of a run of the circuit, which has the resets of its file.
    fn is_run_to(&self, frame: u32, broken: Option<Broken>) -> bool
        requires frame { frame < length self.now.run.bench.pair.rows }
        requires broken { AreConstraints self.now.run.bench.pair broken }
        ensures yes { IsTrue result → StartsRight (own_circuit self.now) (start_of self.now.run.bench.pair.circuit)
            × HoldBefore self.now.run.bench.pair (frame + 1) }
        ensures no { result ≡ false →
            ((k : ℕ) × StartsWrong (own_circuit self.now) (start_of self.now.run.bench.pair.circuit) k)
            ⊎ ((t : ℕ) × (k : ℕ) × (w : Tern) × (t ≤ frame) × IsBroken self.now.run.bench.pair t k w) }
    {
        if !self.holds_to(frame, broken) {
            return false;
        }
        match self.other_start() {
            Some(_) => false,
            None => true,
        }
    }

    /// What the run does to a property with this literal.
    fn standing(&self, position: u32, literal: Lit, broken: Option<Broken>) -> Standing
        requires literal { slice_get self.now.run.bench.pair.circuit.bad position ≡ Some literal }
        requires broken { AreConstraints self.now.run.bench.pair broken }
        ensures { IsStanding (own_circuit self.now) self.now.run.bench.pair position literal result }
    {
        let bench = self.bench();
        // Its contract says that the pair is a circuit and rows that fit it.
        bench.width();
        match self.first_at(literal, Tern::One) {
            Some(frame) => {
                if self.is_run_to(frame, broken) {
                    Standing::Reached(frame)
                } else {
                    Standing::NoRun(frame)
                }
            }
            None => match self.first_at(literal, Tern::X) {
                Some(frame) => Standing::Unknown(frame),
                None => Standing::Never,
            },
        }
    }

    /// What the run does to each property.
    fn standings(&self, broken: Option<Broken>) -> Result<Vec<Standing>, Memory>
        requires broken { AreConstraints self.now.run.bench.pair broken }
        ensures { IfOk result (λ standings. AreStandings (own_circuit self.now) self.now.run.bench.pair 0
            self.now.run.bench.pair.circuit.bad standings.items) }
    {
        let mut standings = Vec::new(self.alloc);
        let circuit = self.circuit();
        // Its contract says that it is a circuit.
        circuit.facts();
        for (position, literal) in circuit.bad().iter().enumerate() {
            let standing = self.standing(position as u32, *literal, broken);
            standings.push(standing)?;
        }
        Ok(standings)
    }

    /// Whether a property is the condition of an assertion, `if:NAME`.
    fn is_condition(&self, position: u32) -> Result<bool, Memory>
        ensures { IfOk result (λ is. is ≡ is_condition self.now.run.bench.pair.circuit position) }
    {
        let mut name = Vec::new(self.alloc);
        push_first_name(&mut name, self.circuit(), Kind::Bad, position)?;
        Ok(name.as_slice().starts_with(b"if:"))
    }

    /// Adds the line of a condition if those are asked for, and of any other property if the others are.
    fn push_line(
        &self,
        text: &mut Vec<u8>,
        conditions: bool,
        position: u32,
        standing: &Standing,
    ) -> Result<(), Memory>
        ensures { OnOk result (text.new.items ≡ text.old.items ++ line_if conditions
            (is_condition self.now.run.bench.pair.circuit position)
            (standing_line self.now.run.bench.pair.circuit position standing.now)) }
    {
        let is = self.is_condition(position)?;
        if is != conditions {
            return Ok(());
        }
        push_property(text, self.circuit(), position)?;
        text.extend_from_slice(b": ")?;
        push_standing(text, *standing)?;
        text.push(b'\n')?;
        Ok(())
    }

    /// Adds the lines of the conditions, or those of all other properties.
    fn push_lines(
        &self,
        text: &mut Vec<u8>,
        conditions: bool,
        standings: &[Standing],
    ) -> Result<(), Memory>
        requires { length standings.now < 2 ^ 32 }
        ensures { OnOk result (text.new.items ≡ text.old.items ++
            standings_text self.now.run.bench.pair.circuit conditions 0 standings.now) }
    {
        for (position, standing) in standings.iter().enumerate() {
            self.push_line(text, conditions, position as u32, standing)?;
        }
        Ok(())
    }

    /// Adds `c1 is 0 at 8`.
    fn push_broken(&self, text: &mut Vec<u8>, broken: Broken) -> Result<(), Memory>
        ensures { OnOk result (text.new.items ≡ text.old.items ++
            broken_text self.now.run.bench.pair.circuit (Some broken)) }
    {
        push_first_name(text, self.circuit(), Kind::Constraint, broken.constraint)?;
        let rest = [
            Piece::Text(b" is "),
            Piece::Text(letter(broken.value)),
            Piece::Text(b" at "),
            Piece::Number(u64::from(broken.frame)),
            Piece::Text(b"\n"),
        ];
        push_pieces(text, &rest)
    }

    /// Adds `LATCH starts at V, not at its reset`.
    pub(crate) fn push_other_start(
        &self,
        text: &mut Vec<u8>,
        latch: u32,
        value: Tern,
    ) -> Result<(), Memory>
        ensures { OnOk result (text.new.items ≡ text.old.items ++
            start_text self.now.run.bench.pair.circuit (Some (latch, value))) }
    {
        push_first_name(text, self.circuit(), Kind::Latch, latch)?;
        let rest = [
            Piece::Text(b" starts at "),
            Piece::Text(letter(value)),
            Piece::Text(b", not at its reset\n"),
        ];
        push_pieces(text, &rest)
    }

    /// Adds why the run is none of the circuit, where it is none.
    fn push_reasons(
        &self,
        text: &mut Vec<u8>,
        broken: Option<Broken>,
        start: Option<(u32, Tern)>,
    ) -> Result<(), Memory>
        ensures { OnOk result (text.new.items ≡ text.old.items ++
            (broken_text self.now.run.bench.pair.circuit broken
            ++ start_text self.now.run.bench.pair.circuit start)) }
    {
        if let Some(broken) = broken {
            self.push_broken(text, broken)?;
        }
        if let Some((latch, value)) = start {
            self.push_other_start(text, latch, value)?;
        }
        Ok(())
    }

    /// Adds for each property whether the run reaches it, the conditions last, and why it is no run where it is none.
    pub(crate) fn check(&self, text: &mut Vec<u8>) -> Result<(), Memory>
        requires empty { text.old.items ≡ [] }
        ensures { OnOk result ((s : SessionState) → IsIn self.now s → IsChecked s text.new.items) }
    {
        let broken = self.broken();
        let standings = self.standings(broken)?;
        // Its contract says that it is a circuit.
        self.circuit().facts();
        self.push_lines(text, false, standings.as_slice())?;
        self.push_lines(text, true, standings.as_slice())?;
        push_none(text, self.circuit().bad())?;
        self.push_reasons(text, broken, self.other_start())?;
        Ok(())
    }
}
