//! The changes of a circuit.
ghost use Rattle.std.specs.Prelude.{◌≡◌, ◌<◌, None, length};
ghost use Rattle.aig_base.specs.Changes.{with_gate, with_output, with_reset, reset_literal};
ghost use Rattle.aig_base.specs.Grounded.{IsAcyclic};
ghost use Rattle.aig_parts.specs.Literal.{variable};
ghost use Rattle.aig_base.specs.Sections.{IsDefined, IsLatchLiteral, IsLeftSide};

pub(crate) mod append;
pub(crate) mod start;

use crate::circuit::Circuit;
use crate::circuit::definition::Definition;
use aig_parts::{Gate, Latch, Lit, Tern};

// The reset of a latch that starts at a value.
fn reset_for(latch: Lit, value: Tern) -> Lit
    ensures { result ≡ reset_literal latch value }
{
    match value {
        Tern::Zero => Lit::new(0),
        Tern::One => Lit::new(1),
        Tern::X => latch,
    }
}

/// Forgets the levels that a circuit keeps, where it changes.
pub(crate) fn forget(levels: &mut Option<Vec<u32>>)
    ensures { levels.new ≡ None }
{
    *levels = None;
}

impl Circuit {
    /// Gives a gate, named by its left side, two other right sides (our own choice). They are defined, and close no
    /// cycle, as `would_cycle` finds out. Constant time, no memory.
    pub fn replace_gate(&mut self, gate: Lit, r0: Lit, r1: Lit)
        requires gate { IsLeftSide self.old gate }
        requires defined0 { IsDefined self.old (variable r0) }
        requires defined1 { IsDefined self.old (variable r1) }
        requires acyclic { IsAcyclic (with_gate self.old gate r0 r1) }
        ensures { self.new ≡ with_gate self.old gate r0 r1 }
    {
        if let Some(definition) = self.definition(gate.var()) {
            if let Definition::Gate(position) = definition {
                let rewired = Gate {
                    lhs: gate,
                    rhs0: r0,
                    rhs1: r1,
                };
                self.raw.gates.set(position as usize, rewired);
                forget(&mut self.levels);
            }
        }
    }

    /// Lets a latch, named by its literal, start at another value (our own choice); x is uninitialised (AIGER 1.9,
    /// resets). Constant time, no memory.
    pub fn replace_reset(&mut self, latch: Lit, value: Tern)
        requires { IsLatchLiteral self.old latch }
        ensures { self.new ≡ with_reset self.old latch value }
    {
        if let Some(definition) = self.definition(latch.var()) {
            if let Definition::Latch(position) = definition {
                let restarted = Latch {
                    lit: latch,
                    next: self.raw.latches[position as usize].next,
                    reset: reset_for(latch, value),
                };
                self.raw.latches.set(position as usize, restarted);
                forget(&mut self.levels);
            }
        }
    }

    /// Replaces the output at a position, counted from 0, by another literal (our own choice). Constant time, no
    /// memory.
    pub fn replace_output(&mut self, position: u32, lit: Lit)
        requires position { position < length self.old.outputs }
        requires defined { IsDefined self.old (variable lit) }
        ensures { self.new ≡ with_output self.old position lit }
    {
        self.raw.outputs.set(position as usize, lit);
        forget(&mut self.levels);
    }
}
