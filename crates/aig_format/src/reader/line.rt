//! Lines of the sections, and entries of which a part is implied.
ghost use Rattle.std.specs.Prelude.{◌≡◌, ℕ, ◌+◌, ◌*◌, ◌<◌, ◌≤◌, ◌^◌, List, length, drop, Ok};
ghost use Rattle.std.specs.Prelude.{IfOk, IfSome, OnOk};
ghost use Rattle.aig_format.specs.state.Fits.{FitsFrom, IsImplicitGate};
ghost use Rattle.aig_format.specs.state.Reading.{Read, EndsItself};
ghost use Rattle.aig_format.specs.state.ReadingSections.{literal_at, latch_at, gate_at, implicit_latch_at};
ghost use Rattle.aig_format.specs.state.ReadingSections.{implicit_gate_at, lines_at};
ghost use Rattle.aig_format.specs.state.Reads.{AddsItems, ReadsAs, ReadsToken};

use crate::reader::buffered_numbers::{delta_in, field_in, next_in};
use crate::reader::delta::delta;
use crate::reader::source::Source;
use crate::reader::token::{BODY, field, number, optional};
use crate::reader::token_fault::TokenFault;
use aig_base::{Fault, Gate, Latch, List, Lit};
use std::alloc::{AllocFailed, Global};

/// Entries as lines of text.
pub(crate) struct Text;

/// Entries of which the variable is implied (AIGER 1.0, binary format).
pub(crate) struct Implied;

/// What a section holds, in one of these spellings.
pub(crate) trait Line<Spelling>: Sized + Drop {
    /// The variables that it may be asked for.
    ghost fits: { ℕ → Type 0 };

    /// What is known of one of a variable, whatever its source reports.
    ghost holds: { ℕ → Self → Type 0 };

    /// How it is read where it is of a variable.
    ghost line_at: { ℕ → List ℕ → Read Self };

    fn line<S: Source>(s: &mut S, variable: u32) -> Result<Self, TokenFault>
        requires { fits variable }
        ensures reads { ReadsToken S.Source s.old s.new result (line_at variable) }
        ensures holds { IfOk result (holds variable) }
        // What is read does not depend on what comes after it.
        ensures ends { EndsItself (line_at variable) };

    /// One that is buffered whole, and its length.
    fn buffered_line(buffered: &[u8], variable: u32) -> Option<(Self, usize)>
        requires { fits variable }
        ensures line { IfSome result (λ x. line_at variable buffered.now ≡ Ok (x.0, drop x.1 buffered.now)) }
        ensures within { IfSome result (λ x. x.1 ≤ length buffered.now) }
        ensures holds { IfSome result (λ x. holds variable x.0) }
        ensures ends { EndsItself (line_at variable) };
}

impl Line<Text> for Lit {
    ghost fits = { λ _. Unit {0} };

    ghost holds = { λ _ _. Unit {0} };

    ghost line_at = { λ _. literal_at };

    #[inline]
    #[tactic(auto, unfolding(crate::specs::state::ReadingSections::literal_at), using(crate::proofs::Ends::literal_ends))]
    fn line<S: Source>(s: &mut S, _: u32) -> Result<Lit, TokenFault> {
        let code = field(s, BODY, b'\n')?;
        Ok(Lit::new(code))
    }

    #[tactic(auto, unfolding(crate::specs::state::ReadingSections::literal_at), using(crate::proofs::Ends::literal_ends))]
    fn buffered_line(buffered: &[u8], _: u32) -> Option<(Lit, usize)> {
        if buffered.len() < 8 {
            return None;
        }
        let (code, at) = field_in(buffered, 0, b'\n')?;
        Some((Lit::new(code), at))
    }
}

impl Line<Text> for Latch {
    ghost fits = { λ _. Unit {0} };

    ghost holds = { λ _ _. Unit {0} };

    ghost line_at = { λ _. latch_at };

    #[inline]
    #[tactic(auto, unfolding(crate::specs::state::ReadingSections::latch_at), using(crate::proofs::Ends::latch_ends))]
    fn line<S: Source>(s: &mut S, _: u32) -> Result<Latch, TokenFault> {
        let lit = field(s, BODY, b' ')?;
        let next = number(s, BODY)?;
        let reset = optional(s, BODY)?;
        Ok(Latch {
            lit: Lit::new(lit),
            next: Lit::new(next),
            reset: Lit::new(reset),
        })
    }

    #[tactic(auto, unfolding(crate::specs::state::ReadingSections::latch_at), using(crate::proofs::Ends::latch_ends))]
    fn buffered_line(buffered: &[u8], _: u32) -> Option<(Latch, usize)> {
        if buffered.len() < 24 {
            return None;
        }
        let (lit, at) = field_in(buffered, 0, b' ')?;
        let (next, reset, at) = next_in(buffered, at)?;
        let latch = Latch {
            lit: Lit::new(lit),
            next: Lit::new(next),
            reset: Lit::new(reset),
        };
        Some((latch, at))
    }
}

impl Line<Text> for Gate {
    ghost fits = { λ _. Unit {0} };

    ghost holds = { λ _ _. Unit {0} };

    ghost line_at = { λ _. gate_at };

    #[inline]
    #[tactic(auto, unfolding(crate::specs::state::ReadingSections::gate_at), using(crate::proofs::Ends::gate_ends))]
    fn line<S: Source>(s: &mut S, _: u32) -> Result<Gate, TokenFault> {
        let lhs = field(s, BODY, b' ')?;
        let rhs0 = field(s, BODY, b' ')?;
        let rhs1 = field(s, BODY, b'\n')?;
        Ok(Gate {
            lhs: Lit::new(lhs),
            rhs0: Lit::new(rhs0),
            rhs1: Lit::new(rhs1),
        })
    }

    #[tactic(auto, unfolding(crate::specs::state::ReadingSections::gate_at), using(crate::proofs::Ends::gate_ends))]
    fn buffered_line(buffered: &[u8], _: u32) -> Option<(Gate, usize)> {
        if buffered.len() < 24 {
            return None;
        }
        let (lhs, at) = field_in(buffered, 0, b' ')?;
        let (rhs0, at) = field_in(buffered, at, b' ')?;
        let (rhs1, at) = field_in(buffered, at, b'\n')?;
        let gate = Gate {
            lhs: Lit::new(lhs),
            rhs0: Lit::new(rhs0),
            rhs1: Lit::new(rhs1),
        };
        Some((gate, at))
    }
}

impl Line<Implied> for Latch {
    ghost fits = { λ v. v < 2 ^ 30 };

    ghost holds = { λ v x. x.lit ≡ 2 * v };

    ghost line_at = { implicit_latch_at };

    #[inline]
    #[tactic(auto, unfolding(crate::specs::state::ReadingSections::implicit_latch_at), using(crate::proofs::Ends::implicit_latch_ends))]
    fn line<S: Source>(s: &mut S, variable: u32) -> Result<Latch, TokenFault> {
        let next = number(s, BODY)?;
        let reset = optional(s, BODY)?;
        Ok(Latch {
            lit: Lit::new(2 * variable),
            next: Lit::new(next),
            reset: Lit::new(reset),
        })
    }

    #[tactic(auto, unfolding(crate::specs::state::ReadingSections::implicit_latch_at), using(crate::proofs::Ends::implicit_latch_ends))]
    fn buffered_line(buffered: &[u8], variable: u32) -> Option<(Latch, usize)> {
        if buffered.len() < 16 {
            return None;
        }
        let (next, reset, at) = next_in(buffered, 0)?;
        let latch = Latch {
            lit: Lit::new(2 * variable),
            next: Lit::new(next),
            reset: Lit::new(reset),
        };
        Some((latch, at))
    }
}

impl Line<Implied> for Gate {
    ghost fits = { λ v. v < 2 ^ 30 };

    ghost holds = { IsImplicitGate };

    ghost line_at = { implicit_gate_at };

    #[inline]
    #[tactic(auto, unfolding(crate::specs::state::ReadingSections::implicit_gate_at), using(crate::proofs::Ends::implicit_gate_ends))]
    fn line<S: Source>(s: &mut S, variable: u32) -> Result<Gate, TokenFault> {
        let lhs = 2 * variable;
        let rhs0 = lhs - delta(s, 1, lhs)?;
        let rhs1 = rhs0 - delta(s, 0, rhs0)?;
        Ok(Gate {
            lhs: Lit::new(lhs),
            rhs0: Lit::new(rhs0),
            rhs1: Lit::new(rhs1),
        })
    }

    #[tactic(auto, unfolding(crate::specs::state::ReadingSections::implicit_gate_at), using(crate::proofs::Ends::implicit_gate_ends))]
    fn buffered_line(buffered: &[u8], variable: u32) -> Option<(Gate, usize)> {
        if buffered.len() < 8 {
            return None;
        }
        let lhs = 2 * variable;
        let (first, at) = delta_in(buffered, 0, 1, lhs)?;
        let rhs0 = lhs - first;
        let (second, at) = delta_in(buffered, at, 0, rhs0)?;
        let gate = Gate {
            lhs: Lit::new(lhs),
            rhs0: Lit::new(rhs0),
            rhs1: Lit::new(rhs0 - second),
        };
        Some((gate, at))
    }
}

/// Adds those that are buffered whole, one after the other, at most so many: how many, and the length of all of them.
fn push_buffered<F, X: Line<F>>(
    all: &mut List<X>,
    buffered: &[u8],
    first: u32,
    most: u32,
) -> Result<(u32, usize), AllocFailed<X>>
    requires room { first + most < 2 ^ 32 }
    requires fits { (i : ℕ) → i < most → X.fits (first + i) }
    ensures adds { IfOk result (λ taken. AddsItems X.line_at first taken.0 taken.1 buffered.now all.old all.new) }
    ensures most { IfOk result (λ taken. taken.0 ≤ most) }
    ensures fits { (v : ℕ) → v + length all.old ≡ first → FitsFrom X.holds v all.old
        → OnOk result (FitsFrom X.holds v all.new) }
{
    let mut size = 0;
    for count in 0..most {
        let Some((line, more)) = X::buffered_line(&buffered[size..], first + count) else {
            return Ok((count, size));
        };
        all.push(line)?;
        size += more;
    }
    Ok((most, size))
}

/// So many, of the variables from `first` on: those that are buffered, and token by token the one that goes beyond the
/// buffer, or is refused.
pub(crate) fn lines<S: Source, F, X: Line<F>>(
    alloc: Global,
    s: &mut S,
    first: u32,
    count: u32,
) -> Result<List<X>, Fault>
    requires room { first + count < 2 ^ 32 }
    requires fits { (i : ℕ) → i < count → X.fits (first + i) }
    ensures reads { ReadsAs S.Source s.old s.new (λ x. x) result (lines_at X.line_at count first) }
    ensures count { IfOk result (λ all. length all ≡ count) }
    ensures fits { IfOk result (FitsFrom X.holds first) }
{
    let mut all = List::new(alloc);
    let mut read = 0;
    loop {
        let (taken, size) = push_buffered::<F, X>(&mut all, s.front(), first + read, count - read)?;
        s.skip(size);
        read += taken;
        if read == count {
            return Ok(all);
        }
        let line = X::line(s, first + read)?;
        all.push(line)?;
        read += 1;
    }
}
